//! The stretches of the written sections that the traces of a run name.
ghost use Rattle.std.specs.Prelude.{◌≡◌, ◌<◌, ℕ, length, IfOk, slice_index_or, flat_map};
ghost use Rattle.lwkt_core.specs.RunSections.{sections_named};
ghost use Rattle.lwkt_drive.specs.ShortEvents.{KeptTrace};
ghost use Rattle.lwkt_drive.specs.Stretches.{StandFor};
ghost use Rattle.lwkt_run.specs.NamedSections.{sections_of_all};

use lwkt_base::OutOfMemory;
use lwkt_base::memory::{extend_from_slice, map_places};
use lwkt_core::Event;
use lwkt_drive::{EventList, Stretch, Stretches};
use std::alloc::Global;
use std::thread::Threads;

// The stretches of the sections that a trace names.
fn stretches_in(alloc: Global, trace: &EventList) -> Result<Vec<Stretch>, OutOfMemory>
    ensures { IfOk result (λ stretches. StandFor stretches.items (sections_named trace.now.items)) }
{
    let mut stretches = Stretches::new(alloc);
    trace.add_to_stretches(&mut stretches)?;
    Ok(stretches.into_vec())
}

// The same of each trace, on a thread of its own if one can be made.
fn stretches_by_trace<R: Threads + Sync>(
    rt: &R,
    alloc: Global,
    traces: &[EventList],
) -> Result<Vec<Result<Vec<Stretch>, OutOfMemory>>, OutOfMemory>
    ensures len { IfOk result (λ found. length found.items ≡ length traces.now) }
    ensures each { IfOk result (λ found. (i : ℕ) (d : _) (t : KeptTrace) → i < length traces.now → IfOk (slice_index_or found.items i d) (λ stretches. StandFor stretches.items (sections_named (slice_index_or traces.now i t).items))) }
{
    map_places(rt, alloc, traces, &|at| stretches_in(alloc, &traces[at]))
}

// The stretches of the sections that traces name, one trace's after another's.
fn stretches_of_traces<R: Threads + Sync>(
    rt: &R,
    alloc: Global,
    traces: &[EventList],
) -> Result<Vec<Stretch>, OutOfMemory>
    ensures { IfOk result (λ all. StandFor all.items (flat_map (λ trace. sections_named trace.items) traces.now)) }
{
    let found = stretches_by_trace(rt, alloc, traces)?;
    let mut all = Vec::new(alloc);
    for at in 0..found.len() {
        match &found[at] {
            Ok(stretches) => extend_from_slice(&mut all, stretches.as_slice())?,
            Err(refused) => return Err(*refused),
        }
    }
    Ok(all)
}

/// The stretches of the written sections that traces name, one trace's after another's, and then of those that a stop names.
pub fn stretches_of<R: Threads + Sync>(
    rt: &R,
    alloc: Global,
    traces: &[EventList],
    stops: &[Event],
) -> Result<Vec<Stretch>, OutOfMemory>
    ensures { IfOk result (λ stretches. StandFor stretches.items (sections_of_all traces.now stops.now)) }
{
    let mut all = stretches_of_traces(rt, alloc, traces)?;
    let mut last = Stretches::new(alloc);
    last.add_named(stops)?;
    extend_from_slice(&mut all, last.into_vec().as_slice())?;
    Ok(all)
}
