//! A run, shown: in rounds, along an order, or on threads.
ghost use Rattle.std.specs.Prelude.{◌≡◌, ◌↔◌, IfErr, IfOk, IfSome, IsNone, IsTrue, string_bytes};
ghost use Rattle.std.specs.Option.{option_copied};
ghost use Rattle.lwkt_run.specs.Run.{DeclinesRun};
ghost use Rattle.lwkt_show.specs.Shown.{MayBeRefused};
ghost use Rattle.lwkt_show.specs.Showing.{DeclinesShow, EndsBefore, EndsBeforeChosen, IsRunOf, IsShown, IsShownOnThreads, ShowsAs};

use crate::chains::{chains_of, chains_of_sections};
use crate::lines::lines_of;
use crate::options::{Options, Rendering};
use crate::pictures::picture_of;
use crate::players::player_of;
use crate::reels::Reel;
use crate::timelines::timeline_of;
use lwkt_base::Fault;
use lwkt_run::{
    End, ThreadRecord, TurnsRun, end_of_closing, order_run_of, record_threads, turns_run_of,
};
use lwkt_script::Script;
use lwkt_text::Names;
use lwkt_trace::trace_text;
use std::alloc::Global;
use std::thread::Threads;

/// A run that is shown.
#[derive(Drop)]
pub struct Shown {
    /// The text that shows it, whole.
    pub text: String,
    /// How it ended.
    pub end: End,
}

// Runs a script in rounds, or along an order.
fn run_of(alloc: Global, script: &Script, order: Option<&[u8]>) -> Result<TurnsRun, Fault>
    ensures ok { IfOk result (λ run. IsRunOf script.now (option_copied order.entry) run) }
    ensures refused { IfErr result (λ fault. DeclinesShow script.now (option_copied order.entry) fault) }
{
    match order {
        None => turns_run_of(alloc, script),
        Some(order) => order_run_of(alloc, script, order),
    }
}

// Whether a run ended before the first turn that was chosen. No run along an order ends before the first of all.
fn ends_before(script: &Script, options: Options, order: Option<&[u8]>, run: &TurnsRun) -> bool
    ensures { IsTrue result ↔ EndsBefore options (option_copied order.entry) script.now run.now }
{
    let is_past = options.is_past(script.cpus, run.turns.len());
    match order {
        None => is_past,
        Some(_) => options.first > 0 && is_past,
    }
}

// The text that shows a run, in rounds or along an order.
fn text_of(
    alloc: Global,
    names: Option<&Names>,
    script: &Script,
    options: Options,
    order: Option<&[u8]>,
    run: &TurnsRun,
) -> Result<String, Fault>
    ensures shows { IfOk result (λ text. ShowsAs (option_copied names.entry) options (option_copied order.entry) script.now run.now (string_bytes text)) }
    ensures refused { IfErr result (MayBeRefused script.now) }
{
    let events = run.trace.whole(alloc)?;
    let reel = Reel {
        script,
        trace: &events,
        polls: &run.polls,
        turns: &run.turns,
        order,
        closing: &run.closing,
    };
    match options.rendering {
        Rendering::Lines => lines_of(alloc, names, &reel, options),
        Rendering::Trace => Ok(trace_text(alloc, script, &events, &run.closing)?),
        Rendering::Picture => picture_of(alloc, names, &reel, options),
        Rendering::Chains => Ok(chains_of(alloc, names, &reel)?),
        Rendering::Player => player_of(alloc, names, &reel, options),
        Rendering::Timeline => timeline_of(alloc, names, &reel, options),
    }
}

/// Runs a script on one thread, in rounds or along an order of its processors, and shows the run as the options say, in the names of a
/// text, if these are given, or else in numbers. `None` if the
/// run ended before the first turn that was chosen; along an order that isn't said of the first turn of all.
///
/// Refused with `NoPort` if the order names a processor that isn't there, with `Limits` or `LawBroken` for the script's opening, and
/// with `Memory` if memory is refused.
pub fn show_script(
    alloc: Global,
    names: Option<&Names>,
    script: &Script,
    options: Options,
    order: Option<&[u8]>,
) -> Result<Option<Shown>, Fault>
    ensures shown { IfOk result (λ found. IfSome found (λ shown. IsShown (option_copied names.entry) options (option_copied order.entry) script.now shown.end (string_bytes shown.text))) }
    ensures none { IfOk result (λ found. IsNone found → EndsBeforeChosen options (option_copied order.entry) script.now) }
    ensures refused { IfErr result (λ fault. DeclinesShow script.now (option_copied order.entry) fault) }
{
    let run = run_of(alloc, script, order)?;
    if ends_before(script, options, order, &run) {
        return Ok(None);
    }
    let end = end_of_closing(&run.closing);
    match text_of(alloc, names, script, options, order, &run) {
        Ok(text) => Ok(Some(Shown { text, end })),
        Err(fault) => Err(fault),
    }
}

/// Runs a script on threads, as `close_threads` of lwkt_run does, and shows the written sections of each token, in names if some are
/// given.
///
/// Refused with `Limits` or `LawBroken` for the script's opening, and with `Memory` if memory is refused.
pub fn show_threads<R: Threads + Sync>(
    rt: &R,
    alloc: Global,
    names: Option<&Names>,
    script: &Script,
) -> Result<Shown, Fault>
    ensures shown { IfOk result (λ shown. IsShownOnThreads script.now shown.end (string_bytes shown.text)) }
    ensures refused { IfErr result (λ fault. DeclinesRun script.now fault) }
{
    let ThreadRecord {
        closing,
        sections,
        givers,
    } = record_threads(rt, alloc, script)?;
    let end = end_of_closing(&closing);
    let text = chains_of_sections(alloc, names, script, &sections, &givers, &closing)?;
    Ok(Shown { text, end })
}
