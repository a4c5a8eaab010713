//! Why the threads of a run haven't ended.
use crate::marks::show_left_mark;
use crate::reels::{Reel, scene_of};
use crate::replays::Replay;
use crate::stories::Doing;
use crate::turns::pass_turn;
use lwkt_base::{Fault, OutOfMemory};
use lwkt_refusals::Page;
use lwkt_run::TurnsRun;
use lwkt_script::Script;
use lwkt_text::Names;
use std::alloc::Global;

// Makes all turns happen.
fn pass_all(alloc: Global, names: Option<&Names>, run: &Reel, replay: &mut Replay) {
    let mut from = 0usize;
    for (number, turn) in run.turns.iter().enumerate() {
        let scene = scene_of(run, number, turn, from);
        pass_turn(alloc, names, replay, &scene);
        from = from.saturating_add(turn.events);
    }
}

// Appends what each thread that hasn't ended waits for, or that it could go on.
fn show_whys(out: &mut Page, names: Option<&Names>, replay: &Replay) {
    let mut some = false;
    for story in &replay.stories {
        if story.doing != Doing::Ended {
            out.add(if some { "; thread " } else { "thread " });
            story.show_why(out, names, &replay.state, &replay.runners);
            show_left_mark(out, names, replay, story);
            some = true;
        }
    }
}

/// Of each thread of a stuck run along an order that hasn't ended what it waits for after the last turn, or that it could go on, in one
/// line without its end, in numbers: `thread 0.0 waits for ..; thread 1.0 ..`. It is empty if every thread has ended. Of a thread that waits for a
/// token that nobody holds it also says who left the mark, if that thread has ended, and whether nobody is left who clears it.
///
/// Refused if memory is.
pub fn whys_of(alloc: Global, script: &Script, run: &TurnsRun) -> Result<String, OutOfMemory> {
    let events = run.trace.whole(alloc)?;
    let reel = Reel {
        script,
        trace: &events,
        polls: &run.polls,
        turns: &run.turns,
        order: Some(&run.order),
        closing: &run.closing,
    };
    let names: Option<&Names> = None;
    let mut out = Page::new(alloc);
    match Replay::open(alloc, script, &run.closing.threads, false) {
        Ok(mut replay) => {
            pass_all(alloc, names, &reel, &mut replay);
            show_whys(&mut out, names, &replay)
        }
        Err(Fault::Memory(refused)) => return Err(refused),
        // (a machine of this script was opened, so there is no other fault)
        Err(_) => {}
    }
    out.whole()
}
