//! Outcomes that are grouped: they differ in where their messages are, and in nothing else that a report shows.
ghost use Rattle.std.specs.Prelude.{◌≡◌, ◌&&◌, ◌+◌, ◌<◌, ◌++◌, true, not, OnOk, string_bytes, get_or, length};
ghost use Rattle.std.specs.List.{list_any, flat_map};
ghost use Rattle.std.specs.Option.{option_copied};
ghost use Rattle.lwkt_report.specs.Report.{owner_text};
ghost use Rattle.lwkt_explore.specs.Texts.{is_kind, grouped_with, later_forms, group_count, message_called, place_text, looks_same, between_text, places_text, or_line};

use crate::lines::add_order;
use crate::outcomes::{Kind, Outcome, Outcomes};
use lwkt_base::memory::{push_str, put};
use lwkt_base::{MsgEnd, OutOfMemory, Owner};
use lwkt_script::Script;
use lwkt_text::Names;
use lwkt_told::show_called;

/// A text and its script, in whose names outcomes are written.
#[derive(Clone, Copy)]
pub struct Telling<'a> {
    /// The names of the text.
    pub names: &'a Names,
    /// The script that the text means.
    pub script: &'a Script,
}

// Whether two outcomes are grouped.
fn grouped_with(one: &Outcome, other: &Outcome) -> bool
    ensures { result ≡ grouped_with one.now other.now }
{
    one.kind == other.kind && one.settled.as_str() == other.settled.as_str()
}

// Whether an outcome of these is grouped with another one.
fn is_grouped(before: &[Outcome], outcome: &Outcome) -> bool
    ensures { result ≡ list_any (grouped_with outcome.now) before.now }
{
    before.iter().any(|one| grouped_with(outcome, one))
}

/// Whether an outcome is of a kind, and none of those before it is grouped with it.
pub(crate) fn is_first(before: &[Outcome], outcome: &Outcome, kind: Kind) -> bool
    ensures { result ≡ (not (list_any (grouped_with outcome.now) before.now) && is_kind kind outcome.now.kind) }
{
    !is_grouped(before, outcome) && outcome.kind == kind
}

/// How many of the orders led to the outcome of a place.
pub(crate) fn count_at(outcomes: &Outcomes, place: usize) -> u64
    ensures { result ≡ get_or outcomes.now.counts.items place 0 }
{
    outcomes.counts.get(place).copied().unwrap_or(0)
}

/// How many of the orders led to the outcome of a place, in any of its forms.
pub(crate) fn group_count(outcomes: &Outcomes, place: usize, outcome: &Outcome) -> u64
    requires { place < length outcomes.now.all.items }
    ensures { result ≡ group_count ((outcome.now, get_or outcomes.now.counts.items place 0), later_forms outcome.now (place + 1) outcomes.now) }
{
    let all = outcomes.all.as_slice();
    let mut total = count_at(outcomes, place);
    for at in place + 1..all.len() {
        let other = &all[at];
        if grouped_with(outcome, other) {
            total = total.saturating_add(count_at(outcomes, at));
        }
    }
    total
}

/// Where a message is, in a word.
pub(crate) fn owner_word(owner: Owner) -> &'static str
    ensures { result.now ≡ owner_text owner }
{
    match owner {
        Owner::Rest { .. } => "rest",
        Owner::Out { .. } => "out",
        Owner::With { .. } => "with",
        Owner::Back { .. } => "back",
    }
}

// Whether two messages have the same line.
fn looks_same(one: &MsgEnd, other: &MsgEnd) -> bool
    ensures { result ≡ looks_same one.now other.now }
{
    one.round == other.round && owner_word(one.state) == owner_word(other.state)
}

// What a message is called.
fn add_message_called(
    out: &mut String,
    telling: Option<&Telling<'_>>,
    message: usize,
) -> Result<(), OutOfMemory>
    ensures { OnOk result (string_bytes out.new ≡ string_bytes out.old ++ message_called (option_copied telling.entry) message) }
{
    match telling {
        None => put(out, ("message ", message)),
        Some(telling) => show_called(telling.names.messages.as_slice(), message, out),
    }
}

// The line of a message, without its end.
fn add_place(
    out: &mut String,
    telling: Option<&Telling<'_>>,
    message: usize,
    end: &MsgEnd,
) -> Result<(), OutOfMemory>
    ensures { OnOk result (string_bytes out.new ≡ string_bytes out.old ++ place_text (option_copied telling.entry) message end.now) }
{
    add_message_called(out, telling, message)?;
    let (round, word) = (end.round, owner_word(end.state));
    put(out, (" round ", round, " ", word))
}

// What stands before a message: a blank before the first, and else a semicolon and a blank.
fn add_between(out: &mut String, is_first: bool) -> Result<(), OutOfMemory>
    ensures { OnOk result (string_bytes out.new ≡ string_bytes out.old ++ between_text is_first) }
{
    if is_first {
        push_str(out, " ")
    } else {
        push_str(out, "; ")
    }
}

// The messages of a form whose lines aren't those of the outcome that it is grouped with.
fn add_places(
    out: &mut String,
    telling: Option<&Telling<'_>>,
    first: &[MsgEnd],
    form: &[MsgEnd],
) -> Result<(), OutOfMemory>
    ensures { OnOk result (string_bytes out.new ≡ string_bytes out.old ++ places_text (option_copied telling.entry) true 0 first.now form.now) }
{
    let mut is_first = true;
    for (message, end) in form.iter().enumerate() {
        if let Some(own) = first.get(message) {
            if !looks_same(own, end) {
                add_between(out, is_first)?;
                add_place(out, telling, message, end)?;
                is_first = false;
            }
        }
    }
    Ok(())
}

// How else the messages of an outcome may stand.
fn add_form(
    out: &mut String,
    telling: Option<&Telling<'_>>,
    outcome: &Outcome,
    form: &Outcome,
) -> Result<(), OutOfMemory>
    ensures { OnOk result (string_bytes out.new ≡ string_bytes out.old ++ or_line (option_copied telling.entry) outcome.now form.now) }
{
    push_str(out, "or")?;
    add_places(
        out,
        telling,
        outcome.closing.messages.as_slice(),
        form.closing.messages.as_slice(),
    )?;
    push_str(out, ", order")?;
    add_order(out, form.order.as_slice())?;
    push_str(out, "\n")
}

/// A line for each other form of the outcome of a place.
pub(crate) fn add_forms(
    out: &mut String,
    telling: Option<&Telling<'_>>,
    outcomes: &Outcomes,
    place: usize,
    outcome: &Outcome,
) -> Result<(), OutOfMemory>
    requires { place < length outcomes.now.all.items }
    ensures { OnOk result (string_bytes out.new ≡ string_bytes out.old ++ flat_map (λ form. or_line (option_copied telling.entry) outcome.now form.0) (later_forms outcome.now (place + 1) outcomes.now)) }
{
    let all = outcomes.all.as_slice();
    for at in place + 1..all.len() {
        let form = &all[at];
        if grouped_with(outcome, form) {
            add_form(out, telling, outcome, form)?;
        }
    }
    Ok(())
}
