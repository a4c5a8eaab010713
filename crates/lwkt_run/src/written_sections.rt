//! The written sections that a run's traces name: gathered, put in order, and checked.
ghost use Rattle.std.specs.Prelude.{◌≡◌, ◌≤◌, ◌++◌, All, length, IfOk, OnOk, IsPermutation};
ghost use Rattle.lwkt_core.specs.RunSections.{sections_named};
ghost use Rattle.lwkt_run.specs.NamedSections.{sections_of_all, AreSorted, opening_rows, closing_rows, IsVerdictOn, IsVerdictOnAll};

use crate::stretches::stretches_of;
use lwkt_base::limits::CELL_LIMIT;
use lwkt_base::memory::{push, with_capacity_for};
use lwkt_base::{Fault, OutOfMemory, Row, Rows, Section, TokSpec};
use lwkt_core::{Event, Final, check_sections};
use lwkt_drive::{EventList, are_chains};
use lwkt_report::Verdict;
use std::alloc::Global;
use std::thread::Threads;

// Adds the sections that events name to those named before.
fn add_named(sections: &mut Vec<Section>, events: &[Event]) -> Result<(), OutOfMemory>
    ensures { OnOk result (sections.new.items ≡ sections.old.items ++ sections_named events.now) }
{
    for event in events {
        if let Event::GiveWritten { section, .. } = *event {
            push(sections, section)?;
        }
    }
    Ok(())
}

// Adds the sections that a packed trace names.
fn add_kept(sections: &mut Vec<Section>, trace: &EventList) -> Result<(), OutOfMemory>
    ensures { OnOk result (sections.new.items ≡ sections.old.items ++ sections_named trace.now.items) }
{
    for place in 0..trace.len() {
        if let Some(give) = trace.give(place) {
            push(sections, give.section)?;
        }
    }
    Ok(())
}

// The sections that traces name, one trace's after another's, and then those that a stop names.
fn gathered(
    alloc: Global,
    traces: Vec<EventList>,
    stops: &[Event],
) -> Result<Vec<Section>, OutOfMemory>
    ensures { IfOk result (λ sections. sections.items ≡ sections_of_all traces.items stops.now) }
{
    let mut sections = Vec::new(alloc);
    for trace in traces {
        add_kept(&mut sections, &trace)?;
    }
    add_named(&mut sections, stops)?;
    Ok(sections)
}

/// The written sections in traces and in the events of a stop, by token, and those of one token by generation.
pub fn sections_in_order(
    alloc: Global,
    traces: Vec<EventList>,
    stops: &[Event],
) -> Result<Vec<Section>, OutOfMemory>
    ensures named { IfOk result (λ sections. IsPermutation (sections_of_all traces.items stops.now) sections.items) }
    ensures sorted { IfOk result (λ sections. AreSorted sections.items) }
{
    let mut sections = gathered(alloc, traces, stops)?;
    sections.sort_unstable_by_key(|section| (section.tok.0, section.generation));
    Ok(sections)
}

// The rows and generations that tokens are opened with.
fn rows_opened(alloc: Global, specs: &[TokSpec]) -> Result<Rows, OutOfMemory>
    requires { All (λ spec. length spec.cells ≤ CELL_LIMIT) specs.now }
    ensures { IfOk result (λ rows. rows ≡ opening_rows specs.now) }
{
    let mut rows = with_capacity_for(alloc, specs)?;
    for spec in specs {
        push(&mut rows, (Row::of(spec.cells.as_slice()), spec.generation))?;
    }
    Ok(Rows::from_vec(rows))
}

// Closing rows and generations.
fn rows_closed(alloc: Global, last: &Final) -> Result<Rows, OutOfMemory>
    requires as_many { length last.now.gens.items ≡ length last.now.rows.items }
    requires few { All (λ row. length row ≤ CELL_LIMIT) last.now.rows.items }
    ensures { IfOk result (λ rows. rows ≡ closing_rows last.now) }
{
    let mut rows = with_capacity_for(alloc, &last.rows)?;
    for (i, row) in last.rows.iter().enumerate() {
        push(&mut rows, (Row::of(row.as_slice()), last.gens[i]))?;
    }
    Ok(Rows::from_vec(rows))
}

// The verdict on sections: `Closed` exactly if they are chains in order, else the index at which they fail.
fn verdict_on(first: &Rows, last: &Rows, sections: &[Section]) -> Verdict
    requires { length first.now ≡ length last.now }
    ensures { IsVerdictOn result first.now last.now sections.now }
{
    match check_sections(first, last, sections) {
        Ok(()) => Verdict::Closed,
        Err(Fault::Unlawful { index }) => Verdict::Unlawful { index },
        // it has no other refusal
        Err(_) => Verdict::Unlawful { index: 0 },
    }
}

/// The verdict on the written sections of a run: `Closed` exactly if they are, in this order, chains from the opening rows and
/// generations to the closing ones; else `Unlawful` with the index of the first that doesn't go on with its token's chain, or the
/// number of sections.
pub fn judged(
    alloc: Global,
    specs: &[TokSpec],
    last: &Final,
    sections: &[Section],
) -> Result<Verdict, OutOfMemory>
    requires opened { length last.now.rows.items ≡ length specs.now }
    requires as_many { length last.now.gens.items ≡ length last.now.rows.items }
    requires few { All (λ spec. length spec.cells ≤ CELL_LIMIT) specs.now }
    requires few_closed { All (λ row. length row ≤ CELL_LIMIT) last.now.rows.items }
    ensures { IfOk result (λ verdict. IsVerdictOn verdict (opening_rows specs.now) (closing_rows last.now) sections.now) }
{
    let first = rows_opened(alloc, specs)?;
    let closing = rows_closed(alloc, last)?;
    Ok(verdict_on(&first, &closing, sections))
}

/// The verdict on the written sections in traces and in the events of a stop, as that of `judged` on them in order. Their stretches are
/// checked first, which are found by a thread for each trace, if one can be made. Only if these aren't chains are the sections gathered and put in order, for the index.
pub fn judged_by_stretches<R: Threads + Sync>(
    rt: &R,
    alloc: Global,
    specs: &[TokSpec],
    last: &Final,
    traces: Vec<EventList>,
    stops: &[Event],
) -> Result<Verdict, OutOfMemory>
    requires opened { length last.now.rows.items ≡ length specs.now }
    requires as_many { length last.now.gens.items ≡ length last.now.rows.items }
    requires few { All (λ spec. length spec.cells ≤ CELL_LIMIT) specs.now }
    requires few_closed { All (λ row. length row ≤ CELL_LIMIT) last.now.rows.items }
    ensures { IfOk result (λ verdict. IsVerdictOnAll verdict (opening_rows specs.now) (closing_rows last.now) (sections_of_all traces.items stops.now)) }
{
    let first = rows_opened(alloc, specs)?;
    let closing = rows_closed(alloc, last)?;
    let stretches = stretches_of(rt, alloc, traces.as_slice(), stops)?;
    if are_chains(alloc, &first, &closing, stretches)? {
        return Ok(Verdict::Closed);
    }
    let sections = sections_in_order(alloc, traces, stops)?;
    Ok(verdict_on(&first, &closing, &sections))
}
