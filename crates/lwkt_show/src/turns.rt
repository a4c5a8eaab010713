ghost use Rattle.std.specs.Prelude.{◌≡◌, ◌/◌, ◌<◌};
ghost use Rattle.std.specs.Option.{option_copied};
ghost use Rattle.lwkt_refusals.specs.Pages.{GrowsBy};
ghost use Rattle.lwkt_show.specs.Lines.{late_text, faulted_text, answered_text, unanswered_text, came_text, time_text, step_text, poll_text, turn_text, IsIdle, IsDoing, IsLine, AddsWords};

use crate::reels::Scene;
use crate::replays::Replay;
use crate::stories::{Came, Doing, Outcome, Step, Story};
use crate::walks::Way;
use crate::ways::show_way;
use crate::words::{show_answer, show_ask, show_fault, show_thread};
use lwkt_base::{Answer, Fault, ThreadId, ThreadState};
use lwkt_refusals::Page;
use lwkt_text::Names;
use lwkt_verdict::Poll;
use std::alloc::Global;

// Appends the answer to an ask whose thread waits before it has it.
fn show_late(out: &mut Page, names: Option<&Names>, answer: Answer)
    ensures { GrowsBy out.old out.new (late_text (option_copied names.entry) answer) }
{
    out.add("waits, then ");
    show_answer(out, names, answer)
}

// Appends that a thread ends by a fault.
fn show_faulted(out: &mut Page, fault: Fault)
    ensures { GrowsBy out.old out.new (faulted_text fault) }
{
    out.add("ends faulted ");
    show_fault(out, fault)
}

// Appends the answer to an ask, and whether its thread waits before it has it.
fn show_answered(out: &mut Page, names: Option<&Names>, came: Came, answer: Answer)
    ensures { GrowsBy out.old out.new (answered_text (option_copied names.entry) came answer) }
{
    match came {
        Came::Waits => show_late(out, names, answer),
        _ => show_answer(out, names, answer),
    }
}

// Appends what came of a step whose thread isn't asked again.
fn show_unanswered(out: &mut Page, came: Came)
    ensures { GrowsBy out.old out.new (unanswered_text came) }
{
    match came {
        Came::Runs => out.add("not asked again"),
        Came::Waits => out.add("waits"),
        Came::Ends => out.add("ends"),
        Came::Faulted(fault) => show_faulted(out, fault),
    }
}

// Appends what came of a step: the answer, if its thread is asked again.
fn show_came(out: &mut Page, names: Option<&Names>, came: Came, answer: Option<Answer>)
    ensures { GrowsBy out.old out.new (came_text (option_copied names.entry) came answer) }
{
    match answer {
        Some(answer) => show_answered(out, names, came, answer),
        None => show_unanswered(out, came),
    }
}

// Appends which time over a thread makes its steps, from 1, where it makes them several times.
fn show_time(out: &mut Page, step: Step, time: u64)
    requires { (0 < step.steps) × (time ≡ step.polls / step.steps) × (time < step.repeat) }
    ensures { GrowsBy out.old out.new (time_text step) }
{
    if step.repeat > 1 {
        out.number(" of time ", time + 1)
    } else {
        out.add("")
    }
}

/// Appends which of its steps a thread makes: `step 2`, counted from 0, and if it makes them several times which time, from 1.
pub(crate) fn show_step(out: &mut Page, step: Step)
    ensures { GrowsBy out.old out.new (step_text step) }
{
    if step.steps == 0 {
        return out.add("after its steps");
    }
    let time = step.polls / step.steps;
    if time >= step.repeat {
        return out.add("after its steps");
    }
    out.number("step ", step.polls % step.steps);
    show_time(out, step, time)
}

// Appends a poll: thread, what it computed on its way, step, ask and what came of it.
fn show_poll(out: &mut Page, names: Option<&Names>, poll: &Poll, way: &Way, step: Step, came: Came)
    ensures { GrowsBy out.old out.new (poll_text (option_copied names.entry) poll.now way.now step came) }
{
    out.add(", thread ");
    show_thread(out, names, poll.thread);
    out.add(", ");
    show_way(out, names, poll.thread, way);
    show_step(out, step);
    out.add(": ");
    show_ask(out, names, &poll.ask);
    out.add(": ");
    show_came(out, names, came, poll.answer)
}

// What a thread computed since its last ask.
fn way_of<'a>(replay: &'a Replay, id: ThreadId) -> Way<'a> {
    match replay.story(id) {
        Some(story) => story.way(),
        None => Way {
            steps: &[],
            made: &[],
        },
    }
}

// Which step a thread makes next.
fn step_of(replay: &Replay, id: ThreadId) -> Step {
    match replay.story(id) {
        Some(story) => story.step_at(story.polls),
        None => Step {
            polls: 0,
            steps: 0,
            repeat: 0,
        },
    }
}

// What came of the step of a thread.
fn came_of(replay: &Replay, id: ThreadId, outcome: Option<Outcome>) -> Came {
    let Some(outcome) = outcome else {
        return Came::Runs;
    };
    match replay.story(id) {
        Some(story) => story.came(outcome.doing),
        None => Came::Runs,
    }
}

// Appends that a thread ends in a turn.
fn show_ended(out: &mut Page, story: &Story) {
    match story.end {
        ThreadState::Faulted(fault) => show_unanswered(out, Came::Faulted(fault)),
        _ => show_unanswered(out, Came::Ends),
    }
}

// Appends why a thread doesn't run in a turn, or that it ends in it.
fn show_rest(out: &mut Page, names: Option<&Names>, replay: &Replay, story: &Story, turn: usize) {
    if story.ended_in == Some(turn) {
        show_thread(out, names, story.id);
        out.add(" ");
        show_ended(out, story);
    } else {
        story.show_why(out, names, &replay.state, &replay.runners);
    }
}

// Appends what each thread of a turn's processor waits for, and answers whether there is such a thread.
fn show_waits(out: &mut Page, names: Option<&Names>, replay: &Replay, scene: &Scene) -> bool {
    let mut some = false;
    for story in &replay.stories {
        let is_here = story.id.cpu.0 == scene.cpu;
        if is_here && (story.doing != Doing::Ended || story.ended_in == Some(scene.number)) {
            out.add(if some { "; " } else { "" });
            show_rest(out, names, replay, story, scene.number);
            some = true;
        }
    }
    some
}

// Appends that a turn's processor runs no thread, and why.
fn show_idle(alloc: Global, out: &mut Page, names: Option<&Names>, replay: &Replay, scene: &Scene)
    ensures { AddsWords IsIdle out.old out.new }
{
    let mut why = Page::new(alloc);
    if show_waits(&mut why, names, replay, scene) {
        out.add(": no thread runs: ");
        out.add_page(&why)
    } else {
        out.add(": no thread is left")
    }
}

// Appends what the polled thread of a turn asked, or why no thread runs.
fn show_doing(
    alloc: Global,
    out: &mut Page,
    names: Option<&Names>,
    replay: &Replay,
    scene: &Scene,
    outcome: Option<Outcome>,
)
    ensures { AddsWords (IsDoing (option_copied names.entry) scene.now.poll) out.old out.new }
{
    match scene.poll {
        Some(poll) => {
            let way = way_of(replay, poll.thread);
            let step = step_of(replay, poll.thread);
            let came = came_of(replay, poll.thread, outcome);
            show_poll(out, names, &poll, &way, step, came)
        }
        None => show_idle(alloc, out, names, replay, scene),
    }
}

// Appends a turn by its number, its round and its processor.
fn show_head(out: &mut Page, scene: &Scene)
    ensures { GrowsBy out.old out.new (turn_text scene.now.number scene.now.round scene.now.cpu) }
{
    out.size("turn ", scene.number);
    out.size(", round ", scene.round);
    out.number(", processor ", u64::from(scene.cpu))
}

/// Makes a turn happen, and appends its line, in names if some are given.
pub(crate) fn show_turn(
    alloc: Global,
    names: Option<&Names>,
    replay: &mut Replay,
    out: &mut Page,
    scene: &Scene,
)
    ensures { AddsWords (IsLine (option_copied names.entry) scene.now.number scene.now.round scene.now.cpu scene.now.poll) out.old out.new }
{
    let mail = replay.take_mail(scene.part);
    let mut events = Page::new(alloc);
    let mut why = Page::new(alloc);
    let broken = replay.play(names, &mut events, &mut why, scene.part, Some(scene));
    let outcome = replay.outcome(scene, mail, broken);
    show_head(out, scene);
    show_doing(alloc, out, names, replay, scene, outcome);
    out.add_page(&events);
    out.add("\n");
    replay.note(scene, outcome, why);
}

/// Makes a turn happen that isn't shown.
pub(crate) fn pass_turn(alloc: Global, names: Option<&Names>, replay: &mut Replay, scene: &Scene) {
    let mail = replay.take_mail(scene.part);
    let mut why = Page::new(alloc);
    let broken = replay.pass(names, &mut why, scene);
    let outcome = replay.outcome(scene, mail, broken);
    replay.note(scene, outcome, why);
}
