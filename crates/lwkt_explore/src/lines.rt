//! What is written of a search.
ghost use Rattle.std.specs.Prelude.{◌≡◌, ◌+◌, ◌<◌, ◌≤◌, ◌++◌, OnOk, IfOk, length, string_bytes};
ghost use Rattle.std.specs.Option.{option_copied};
ghost use Rattle.lwkt_report.specs.Report.{numbered_lines};
ghost use Rattle.lwkt_explore.specs.Texts.{order_bytes, kind_text, count_text, why_line, group_at, outcome_lines, of_kind, by_kind, lost_line, tried_text, bound_text, advice_text, stop_line, end_lines, extent_text, sum_line, report_lines, why_lines, text_in, text_of_found};

use crate::extents::{Bound, Extent};
use crate::forms::{Telling, add_forms, group_count, is_first};
use crate::losses::Lost;
use crate::outcomes::{Kind, Outcome};
use crate::searches::{Found, Tried};
use lwkt_base::OutOfMemory;
use lwkt_base::memory::{push_str, put};
use lwkt_told::{show_front, show_stuck};
use std::alloc::Global;

/// A kind, in a word.
pub(crate) fn kind_word(kind: Kind) -> &'static str
    ensures { result.now ≡ kind_text kind }
{
    match kind {
        Kind::Ended => "ended",
        Kind::Stuck => "stuck",
        Kind::Cut => "cut",
    }
}

/// The processors of an order, or a line for none.
pub(crate) fn add_order(out: &mut String, order: &[u8]) -> Result<(), OutOfMemory>
    ensures { OnOk result (string_bytes out.new ≡ string_bytes out.old ++ order_bytes order.now) }
{
    if order.is_empty() {
        return push_str(out, " -");
    }
    for cpu in order {
        put(out, (" ", *cpu))?;
    }
    Ok(())
}

/// The processors of an order, each after a blank: ` 0 1 0`; ` -` for an order without turns.
///
/// Refused if memory is.
pub fn order_text(alloc: Global, order: &[u8]) -> Result<String, OutOfMemory>
    ensures { IfOk result (λ text. string_bytes text ≡ order_bytes order.now) }
{
    let mut out = String::new(alloc);
    add_order(&mut out, order)?;
    Ok(out)
}

// How many random orders led to an outcome.
fn add_count(out: &mut String, tried: Tried, count: u64) -> Result<(), OutOfMemory>
    ensures { OnOk result (string_bytes out.new ≡ string_bytes out.old ++ count_text tried count) }
{
    match tried {
        Tried::States(_) => Ok(()),
        Tried::Orders(_) if count == 1 => push_str(out, ", once"),
        Tried::Orders(_) => put(out, (", ", count, " times")),
    }
}

// The outcome of a place, with its other forms.
fn add_outcome(
    out: &mut String,
    telling: Option<&Telling<'_>>,
    number: usize,
    found: &Found,
    place: usize,
    outcome: &Outcome,
) -> Result<(), OutOfMemory>
    requires { place < length found.now.outcomes.all.items }
    ensures { OnOk result (string_bytes out.new ≡ string_bytes out.old ++ outcome_lines (option_copied telling.entry) found.now.tried number (group_at outcome.now place found.now.outcomes)) }
{
    let word = kind_word(outcome.kind);
    let count = group_count(&found.outcomes, place, outcome);
    put(out, ("outcome ", number, " ", word))?;
    add_count(out, found.tried, count)?;
    push_str(out, ", order")?;
    add_order(out, outcome.order.as_slice())?;
    push_str(out, "\n")?;
    add_report(out, telling, outcome)?;
    add_forms(out, telling, &found.outcomes, place, outcome)?;
    add_whys(out, telling, outcome)
}

// The lines of an outcome's report.
fn add_report(
    out: &mut String,
    telling: Option<&Telling<'_>>,
    outcome: &Outcome,
) -> Result<(), OutOfMemory>
    ensures { OnOk result (string_bytes out.new ≡ string_bytes out.old ++ report_lines (option_copied telling.entry) outcome.now) }
{
    match telling {
        None => push_str(out, outcome.text.as_str()),
        Some(telling) => show_front(telling.names, telling.script, &outcome.closing, out),
    }
}

// Why an outcome is stuck, in the words that are asked for.
fn add_whys(
    out: &mut String,
    telling: Option<&Telling<'_>>,
    outcome: &Outcome,
) -> Result<(), OutOfMemory>
    ensures { OnOk result (string_bytes out.new ≡ string_bytes out.old ++ why_lines (option_copied telling.entry) outcome.now) }
{
    match telling {
        None => add_why(out, &outcome.why),
        Some(telling) => {
            if outcome.kind != Kind::Stuck {
                return Ok(());
            }
            let lines = outcome.closing.threads.as_slice();
            show_stuck(telling.names, telling.script, lines, out)
        }
    }
}

// Why an outcome is stuck.
fn add_why(out: &mut String, why: &Option<String>) -> Result<(), OutOfMemory>
    ensures { OnOk result (string_bytes out.new ≡ string_bytes out.old ++ why_line why.now) }
{
    match why {
        Some(why) => put(out, ("why: ", why.as_str(), "\n")),
        None => Ok(()),
    }
}

// The outcomes of a kind, those that are grouped under the first of them, behind so many others; says how many there are then.
fn add_kind(
    out: &mut String,
    telling: Option<&Telling<'_>>,
    found: &Found,
    kind: Kind,
    before: usize,
) -> Result<usize, OutOfMemory>
    requires { before + length (of_kind kind found.now.outcomes) ≤ 18446744073709551615 }
    ensures text { OnOk result (string_bytes out.new ≡ string_bytes out.old ++ numbered_lines (outcome_lines (option_copied telling.entry) found.now.tried) (before + 1) (of_kind kind found.now.outcomes)) }
    ensures number { IfOk result (λ number. number ≡ before + length (of_kind kind found.now.outcomes)) }
{
    let all = found.outcomes.all.as_slice();
    let mut number = before;
    for place in 0..all.len() {
        let outcome = &all[place];
        if is_first(&all[..place], outcome, kind) {
            number = number.saturating_add(1);
            add_outcome(out, telling, number, found, place, outcome)?;
        }
    }
    Ok(number)
}

fn add_lost(out: &mut String, lost: &Lost) -> Result<(), OutOfMemory>
    ensures { OnOk result (string_bytes out.new ≡ string_bytes out.old ++ lost_line lost.now) }
{
    let count = lost.count;
    if count == 1 {
        push_str(
            out,
            "lost: 1 state, from which no end can be reached; after order",
        )?;
    } else {
        let behind = " states, from which no end can be reached; the first after order";
        put(out, ("lost: ", count, behind))?;
    }
    add_order(out, lost.order.as_slice())?;
    push_str(out, "\n")
}

// What was tried.
fn add_tried(out: &mut String, tried: Tried) -> Result<(), OutOfMemory>
    ensures { OnOk result (string_bytes out.new ≡ string_bytes out.old ++ tried_text tried) }
{
    match tried {
        Tried::States(1) => push_str(out, "1 state"),
        Tried::States(states) => put(out, (states, " states")),
        Tried::Orders(1) => push_str(out, "1 random order"),
        Tried::Orders(orders) => put(out, (orders, " random orders")),
    }
}

// What ended a search, in a word.
fn bound_word(bound: Bound) -> &'static str
    ensures { result.now ≡ bound_text bound }
{
    match bound {
        Bound::States => "states",
        Bound::Turns => "turns",
        Bound::Memory | Bound::Refused => "memory",
        Bound::Stopped => "time",
        Bound::Differs => "a difference",
    }
}

// What to do then.
fn advice_of(bound: Bound) -> &'static str
    ensures { result.now ≡ advice_text bound }
{
    match bound {
        Bound::States => "--states gives more",
        Bound::Turns => "--turns gives longer orders",
        Bound::Memory => "--memory gives more",
        Bound::Refused => "there is no more, and --random keeps none",
        Bound::Stopped => "--seconds gives more",
        Bound::Differs => "please report it",
    }
}

// What ended the search, if anything did.
fn add_stop(out: &mut String, tried: Tried, extent: Extent) -> Result<(), OutOfMemory>
    ensures { OnOk result (string_bytes out.new ≡ string_bytes out.old ++ stop_line tried extent) }
{
    let Extent::Part(bound) = extent else {
        return Ok(());
    };
    put(out, ("stopped by ", bound_word(bound), ": "))?;
    add_tried(out, tried)?;
    put(out, (" kept; ", advice_of(bound), "\n"))
}

// The lost states, if there are any, and what ended the search, if anything did.
fn add_end(out: &mut String, found: &Found) -> Result<(), OutOfMemory>
    ensures { OnOk result (string_bytes out.new ≡ string_bytes out.old ++ end_lines found.now) }
{
    if let Some(lost) = &found.lost {
        add_lost(out, lost)?;
    }
    add_stop(out, found.tried, found.extent)
}

// Whether every order was tried, and if not, why.
fn extent_word(extent: Extent) -> &'static str
    ensures { result.now ≡ extent_text extent }
{
    match extent {
        Extent::Complete => "complete",
        Extent::Part(Bound::States) => "a part (states)",
        Extent::Part(Bound::Turns) => "a part (turns)",
        Extent::Part(Bound::Memory | Bound::Refused) => "a part (memory)",
        Extent::Part(Bound::Stopped) => "a part (stopped)",
        Extent::Part(Bound::Differs) => "a part (differs)",
        Extent::Sampled => "a part",
    }
}

fn add_sum(out: &mut String, found: &Found, count: usize) -> Result<(), OutOfMemory>
    requires { count ≡ length (by_kind found.now.outcomes) }
    ensures { OnOk result (string_bytes out.new ≡ string_bytes out.old ++ sum_line found.now) }
{
    let noun = if count == 1 { "outcome" } else { "outcomes" };
    put(out, (count, " ", noun, "; "))?;
    add_tried(out, found.tried)?;
    let turns = found.turns;
    let made = if turns == 1 { "turn" } else { "turns" };
    let whole = extent_word(found.extent);
    put(out, (", ", turns, " ", made, ("; ", whole, "\n")))
}

/// The text of what was found, in the names of a text, or else in numbers: the outcomes, numbered from 1, the ended ones first, then the
/// stuck ones, then those that were cut; then the lost states, if there are any, what ended the search, if anything did, and what was
/// searched (docs/EXPLORE.md). Outcomes of one kind that differ in message lines alone are grouped under one number: the first of them,
/// and of each other one the message lines that differ. In names reports are as `show_front` of lwkt_told makes them, and of a stuck
/// outcome why it is, as `show_stuck` does.
///
/// Refused if memory is.
pub fn text_in(
    alloc: Global,
    telling: Option<&Telling<'_>>,
    found: &Found,
) -> Result<String, OutOfMemory>
    ensures { IfOk result (λ text. string_bytes text ≡ text_in (option_copied telling.entry) found.now) }
{
    let mut out = String::new(alloc);
    let ended = add_kind(&mut out, telling, found, Kind::Ended, 0)?;
    let stuck = add_kind(&mut out, telling, found, Kind::Stuck, ended)?;
    let count = add_kind(&mut out, telling, found, Kind::Cut, stuck)?;
    add_end(&mut out, found)?;
    add_sum(&mut out, found, count)?;
    Ok(out)
}

/// The same in numbers.
///
/// Refused if memory is.
pub fn text_of(alloc: Global, found: &Found) -> Result<String, OutOfMemory>
    ensures { IfOk result (λ text. string_bytes text ≡ text_of_found found.now) }
{
    text_in(alloc, None, found)
}
