ghost use Rattle.std.specs.Prelude.{◌≡◌, IfErr, IfOk, string_bytes};
ghost use Rattle.std.specs.Option.{option_copied};
ghost use Rattle.lwkt_refusals.specs.Pages.{GrowsBy};
ghost use Rattle.lwkt_show.specs.Lines.{last_shown, before_text, after_text, choice_text, is_shown, IsLineIfShown, AreLines, AddsWords, BeginsWithLines, AreLinesOf};
ghost use Rattle.lwkt_show.specs.Shown.{MayBeRefused};

use crate::ends::show_ends;
use crate::options::Options;
use crate::reels::{Reel, Scene, part_of, scene_of};
use crate::replays::Replay;
use crate::turns::{pass_turn, show_turn};
use lwkt_base::Fault;
use lwkt_base::memory::push_str;
use lwkt_refusals::Page;
use lwkt_text::Names;
use lwkt_told::report_in;
use std::alloc::Global;

// The most turns that are shown as lines.
const TURN_LIMIT: usize = 10_000;

// The last turn that is shown.
fn last_shown(chosen: Options) -> usize
    ensures { result ≡ last_shown chosen.first chosen.last }
{
    chosen.last.min(chosen.first.saturating_add(TURN_LIMIT - 1))
}

// Appends that turns before the first that is shown are left out, if there are any.
fn show_before(out: &mut Page, first: usize)
    ensures { GrowsBy out.old out.new (before_text first) }
{
    if first == 0 {
        out.add("")
    } else {
        out.size("turns before turn ", first);
        out.add(" are not shown\n")
    }
}

// Appends that turns behind the last that is shown are left out, if there are any.
fn show_after(out: &mut Page, last: usize, turns: usize)
    ensures { GrowsBy out.old out.new (after_text last turns) }
{
    if last < turns.saturating_sub(1) {
        out.size("turns behind turn ", last);
        out.size(" are not shown, of ", turns);
        out.size(" in all; at most ", TURN_LIMIT);
        out.add(" are, chosen by --turns A..B or --rounds A..B\n")
    } else {
        out.add("")
    }
}

// Appends which turns are left out, if not all are shown.
fn show_choice(out: &mut Page, chosen: Options, turns: usize)
    ensures { GrowsBy out.old out.new (choice_text chosen.first chosen.last turns) }
{
    show_before(out, chosen.first);
    show_after(out, last_shown(chosen), turns)
}

// Whether the turn of a number is shown.
fn is_shown(chosen: Options, number: usize) -> bool
    ensures { result ≡ is_shown chosen.first chosen.last number }
{
    chosen.first <= number && number <= last_shown(chosen)
}

// Makes a turn happen, and appends its line if it is shown.
fn show_one(
    alloc: Global,
    names: Option<&Names>,
    out: &mut Page,
    replay: &mut Replay,
    scene: &Scene,
    shown: bool,
)
    ensures { AddsWords (IsLineIfShown (option_copied names.entry) shown scene.now.number scene.now.round scene.now.cpu scene.now.poll) out.old out.new }
{
    if shown {
        show_turn(alloc, names, replay, out, scene)
    } else {
        pass_turn(alloc, names, replay, scene)
    }
}

// Makes all turns happen, appends the lines of those that are shown, and says where the events of the stop begin.
fn show_turns(
    alloc: Global,
    names: Option<&Names>,
    out: &mut Page,
    run: &Reel,
    replay: &mut Replay,
    chosen: Options,
) -> usize
    ensures { AddsWords (AreLines (option_copied names.entry) chosen.first chosen.last (option_copied run.now.order) run.now.script.now.cpus run.now.polls.now 0 run.now.turns.now) out.old out.new }
{
    let mut from = 0usize;
    for (number, turn) in run.turns.iter().enumerate() {
        let scene = scene_of(run, number, turn, from);
        show_one(alloc, names, out, replay, &scene, is_shown(chosen, number));
        from = from.saturating_add(turn.events);
    }
    from
}

// Appends what is given up at the end.
fn show_stop(
    alloc: Global,
    names: Option<&Names>,
    out: &mut Page,
    run: &Reel,
    replay: &mut Replay,
    from: usize,
) {
    let rest = part_of(run.trace, from, run.trace.len());
    if rest.is_empty() {
        return;
    }
    let mut why = Page::new(alloc);
    out.add("at the end the running threads give up their tokens");
    replay.play(names, out, &mut why, rest, None);
    out.add("\n");
}

// Appends all that is said of a run behind its turns and before its report, but for which turns are left out.
fn show_behind(
    alloc: Global,
    names: Option<&Names>,
    out: &mut Page,
    run: &Reel,
    replay: &mut Replay,
    from: usize,
) {
    show_ends(out, names, replay, &run.closing.threads);
    show_stop(alloc, names, out, run, replay, from);
}

// All that is said of a run before its report.
fn front_of(
    alloc: Global,
    names: Option<&Names>,
    run: &Reel,
    chosen: Options,
) -> Result<String, Fault>
    ensures begins { IfOk result (λ text. BeginsWithLines (option_copied names.entry) run.now chosen (string_bytes text)) }
    ensures refused { IfErr result (MayBeRefused run.now.script.now) }
{
    let mut replay = Replay::open(alloc, run.script, &run.closing.threads, true)?;
    let mut out = Page::new(alloc);
    let mut behind = Page::new(alloc);
    let turns = chosen.in_turns(run.script.cpus);
    let from = show_turns(alloc, names, &mut out, run, &mut replay, turns);
    show_choice(&mut out, turns, run.turns.len());
    show_behind(alloc, names, &mut behind, run, &mut replay, from);
    out.add_page(&behind);
    let text = out.whole()?;
    Ok(text)
}

/// The lines of a run, in names if some are given: its turns, why threads haven't ended, the logs, and after them the report. Of each turn that is chosen
/// there is a line, but for those after the first 10000 of them; which turns are left out is said.
///
/// Refused with `Memory` if memory is refused, and with `Limits` or `LawBroken` as `State::open` is for the script's opening.
pub(crate) fn lines_of(
    alloc: Global,
    names: Option<&Names>,
    run: &Reel,
    chosen: Options,
) -> Result<String, Fault>
    ensures lines { IfOk result (λ text. AreLinesOf (option_copied names.entry) chosen (option_copied run.now.order) run.now.script.now run.now.polls.now run.now.turns.now run.now.closing.now (string_bytes text)) }
    ensures refused { IfErr result (MayBeRefused run.now.script.now) }
{
    let mut out = front_of(alloc, names, run, chosen)?;
    let text = report_in(alloc, names, run.script, run.closing)?;
    push_str(&mut out, text.as_str())?;
    Ok(out)
}
