//! The written sections of a run: of each token one chain, generation by generation.
use crate::reels::{Reel, Scene, part_of, scene_of};
use crate::tokens::Runners;
use crate::words::{show_thread, show_token_at};
use lwkt_base::memory::push;
use lwkt_base::{CpuId, OutOfMemory, Section, TokSpec};
use lwkt_core::Event;
use lwkt_refusals::Page;
use lwkt_report::{Closing, TokenLine};
use lwkt_script::Script;
use lwkt_text::Names;
use lwkt_trace::words::law_name;
use std::alloc::Global;

// The thread that each processor polled last, and of each token, by its number, what is shown of it so far.
#[derive(Drop)]
struct Chains {
    polled: Runners,
    pages: Vec<Page>,
}

// Appends a row.
fn show_row(out: &mut Page, generation: u64, cells: &[u64]) {
    out.number("generation ", generation);
    out.add(", row");
    out.numbers(cells);
    out.add("\n");
}

// Appends a token with its law, and its opening row.
fn show_opening(out: &mut Page, names: Option<&Names>, number: usize, spec: &TokSpec) {
    out.add("token ");
    show_token_at(out, names, number);
    out.add(", law ");
    out.add(law_name(spec.law));
    out.number(" ", spec.param);
    out.add("\nopening: ");
    show_row(out, spec.generation, spec.cells.as_slice());
}

// A page for each token, with its opening row.
fn openings(
    alloc: Global,
    names: Option<&Names>,
    tokens: &[TokSpec],
) -> Result<Vec<Page>, OutOfMemory> {
    let mut pages = Vec::new(alloc);
    for (number, spec) in tokens.iter().enumerate() {
        let mut page = Page::new(alloc);
        show_opening(&mut page, names, number, spec);
        push(&mut pages, page)?;
    }
    Ok(pages)
}

// What is shown of the tokens, one after another, with their closing rows.
fn whole(alloc: Global, pages: &[Page], closing: &[TokenLine]) -> Result<String, OutOfMemory> {
    let mut out = Page::new(alloc);
    for (page, line) in pages.iter().zip(closing.iter()) {
        out.add_page(page);
        out.add("closing: ");
        show_row(&mut out, line.generation, line.cells.as_slice());
    }
    out.whole()
}

// Appends the row before a section and the row after it, and ends the line.
fn show_change(out: &mut Page, section: &Section) {
    out.add(":");
    out.numbers(section.before.as_slice());
    out.add(" ->");
    out.numbers(section.after.as_slice());
    out.add("\n");
}

// Appends who ended a section, and when: in a turn, or as its processor stopped.
fn show_end(
    out: &mut Page,
    names: Option<&Names>,
    cpu: CpuId,
    polled: &Runners,
    turn: Option<usize>,
) {
    match polled.get(usize::from(cpu.0)) {
        Some(Some(id)) => {
            out.add(", thread ");
            show_thread(out, names, *id);
        }
        _ => out.number(", processor ", u64::from(cpu.0)),
    }
    match turn {
        Some(number) => out.size(", turn ", number),
        None => out.add(", at the end"),
    }
}

impl Chains {
    // Appends the section that a processor ends by giving a token back.
    fn note(&mut self, names: Option<&Names>, cpu: CpuId, section: &Section, turn: Option<usize>) {
        if let Some(out) = self.pages.get_mut(usize::from(section.tok.0)) {
            out.number("generation ", section.generation);
            show_end(out, names, cpu, &self.polled, turn);
            show_change(out, section);
        }
    }

    // Goes over events, those of a turn or of the stop.
    fn follow(&mut self, names: Option<&Names>, part: &[Event], turn: Option<usize>) {
        for event in part {
            if let Event::GiveWritten { cpu, section, .. } = *event {
                self.note(names, cpu, &section, turn);
            }
        }
    }

    // Goes over a turn.
    fn follow_turn(&mut self, names: Option<&Names>, scene: &Scene) {
        if let Some(poll) = scene.poll {
            if let Some(slot) = self.polled.get_mut(usize::from(scene.cpu)) {
                *slot = Some(poll.thread);
            }
        }
        self.follow(names, scene.part, Some(scene.number));
    }

    // Goes over all turns, and the stop.
    fn follow_run(&mut self, names: Option<&Names>, run: &Reel) {
        let mut from = 0usize;
        for (number, turn) in run.turns.iter().enumerate() {
            self.follow_turn(names, &scene_of(run, number, turn, from));
            from = from.saturating_add(turn.events);
        }
        self.follow(names, part_of(run.trace, from, run.trace.len()), None);
    }
}

/// The written sections of a run in rounds or along an order, in names if some are given: of each token its opening row, then one line for each section in
/// order, with its generation, its thread, the turn in which it ended, counted from 0, or that it ended with the stop, and the row
/// before and after it, and then the closing row of the report.
///
/// Refused if memory is.
pub(crate) fn chains_of(
    alloc: Global,
    names: Option<&Names>,
    run: &Reel,
) -> Result<String, OutOfMemory> {
    let mut chains = Chains {
        polled: [None; 8],
        pages: openings(alloc, names, run.script.tokens.as_slice())?,
    };
    chains.follow_run(names, run);
    whole(alloc, &chains.pages, &run.closing.tokens)
}

/// The written sections of a run on threads, which are given in the order of their generations, with the processors that ended
/// them in the same order: of each token its opening row, then one line for each section, with its generation, its processor if
/// that is given, and the row before and after it, and then the closing row of the report.
///
/// Refused if memory is.
pub(crate) fn chains_of_sections(
    alloc: Global,
    names: Option<&Names>,
    script: &Script,
    sections: &[Section],
    givers: &[CpuId],
    closing: &Closing,
) -> Result<String, OutOfMemory> {
    let mut pages = openings(alloc, names, script.tokens.as_slice())?;
    for (place, section) in sections.iter().enumerate() {
        if let Some(out) = pages.get_mut(usize::from(section.tok.0)) {
            out.number("generation ", section.generation);
            if let Some(cpu) = givers.get(place) {
                out.number(", processor ", u64::from(cpu.0));
            }
            show_change(out, section);
        }
    }
    whole(alloc, &pages, &closing.tokens)
}
