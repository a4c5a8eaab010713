ghost use Rattle.std.specs.Prelude.{◌≡◌, ◌↔◌, ◌++◌, ◌≤◌, IsTrue, OnOk, IfOk, slice_get, string_bytes};
ghost use Rattle.lwkt_core.specs.Trace.{shown_tallies, end_of};
ghost use Rattle.lwkt_checker.specs.Said.{given_numbers_said, given_generation_said, given_record_said, rows_differ_said, generations_differ_said, shown_said, tallies_differ_said, records_differ_said, other_said, token_other_said, IsOther, IsOtherAt, SaysToken, message_other_said, SaysMessage, records_given_said, rows_given_said, lists_given_said, given_in_all_said, SaysClose, IsDifference};
ghost use Rattle.lwkt_checker.specs.Shown.{Appends, Shows, ShowsFirst};

use crate::holdings::show_holders;
use crate::words::{show_owner, show_record};
use lwkt_base::blobs::are_same;
use lwkt_base::limits::CPU_LIMIT;
use lwkt_base::memory::{push_str, put};
use lwkt_base::{Blob, Cells, Law, MsgEnd, MsgId, OutOfMemory, TokId};
use lwkt_core::{Final, Message, State, Token};
use lwkt_trace::words::show_numbers;
use std::alloc::Global;

/// What a token has otherwise than its closing values.
#[derive(Clone, Copy)]
pub enum Other {
    /// Somebody holds it.
    Holders,
    /// Its cells.
    Row,
    /// Its generation.
    Generation,
    /// Its tallies.
    Tallies,
    /// Its record.
    Record,
}

// The tallies that a token shows.
fn shown(token: &Token, cpus: usize) -> &[u64]
    requires { cpus ≤ CPU_LIMIT }
    ensures { result.now ≡ shown_tallies token.now.law cpus token.now.tallies }
{
    match token.law {
        Law::Tally => &token.tallies[..cpus],
        _ => &token.tallies[..0],
    }
}

// The first thing that a token has otherwise than these closing values.
fn other_of(
    token: &Token,
    cpus: usize,
    row: &Cells,
    generation: u64,
    tallies: &Cells,
    blob: &Option<Blob>,
) -> Option<Other>
    requires { cpus ≤ CPU_LIMIT }
    ensures { IsOther token.now cpus row.now generation tallies.now blob.now result }
{
    if !token.is_free() {
        return Some(Other::Holders);
    }
    if row.as_slice() != token.row.as_slice() {
        return Some(Other::Row);
    }
    if generation != token.generation {
        return Some(Other::Generation);
    }
    if tallies.as_slice() != shown(token, cpus) {
        return Some(Other::Tallies);
    }
    if !are_same(&token.blob, blob) {
        return Some(Other::Record);
    }
    None
}

// The same of the closing values of a place, or none where they aren't all given.
fn other_at(token: &Token, cpus: usize, last: &Final, place: usize) -> Option<Other>
    requires { cpus ≤ CPU_LIMIT }
    ensures { IsOtherAt token.now cpus last.now place result }
{
    let row = last.rows.get(place)?;
    let generation = last.gens.get(place)?;
    let tallies = last.tallies.get(place)?;
    let blob = last.blobs.get(place)?;
    other_of(token, cpus, row, *generation, tallies, blob)
}

// Appends the row that is given for a token.
fn show_given_row(out: &mut String, last: &Final, place: usize) -> Result<(), OutOfMemory>
    ensures { OnOk result (string_bytes out.new ≡ string_bytes out.old ++ given_numbers_said (slice_get last.now.rows.items place)) }
{
    match last.rows.get(place) {
        None => Ok(()),
        Some(row) => show_numbers(out, row.as_slice()),
    }
}

// Appends the generation that is given for a token.
fn show_given_generation(out: &mut String, last: &Final, place: usize) -> Result<(), OutOfMemory>
    ensures { OnOk result (string_bytes out.new ≡ string_bytes out.old ++ given_generation_said (slice_get last.now.gens.items place)) }
{
    match last.gens.get(place) {
        None => Ok(()),
        Some(generation) => put(out, *generation),
    }
}

// Appends the tallies that are given for a token.
fn show_given_tallies(out: &mut String, last: &Final, place: usize) -> Result<(), OutOfMemory>
    ensures { OnOk result (string_bytes out.new ≡ string_bytes out.old ++ given_numbers_said (slice_get last.now.tallies.items place)) }
{
    match last.tallies.get(place) {
        None => Ok(()),
        Some(tallies) => show_numbers(out, tallies.as_slice()),
    }
}

// Appends the record that is given for a token.
fn show_given_record(out: &mut String, last: &Final, place: usize) -> Result<(), OutOfMemory>
    ensures { OnOk result (string_bytes out.new ≡ string_bytes out.old ++ given_record_said (slice_get last.now.blobs.items place)) }
{
    match last.blobs.get(place) {
        None => Ok(()),
        Some(blob) => show_record(out, blob),
    }
}

// Appends the row of a token, and the one that is given for it.
#[tactic(auto, unfolding(crate::specs::Said::rows_differ_said))]
fn show_rows(out: &mut String, token: &Token, last: &Final, place: usize) -> Result<(), OutOfMemory>
    ensures { OnOk result (string_bytes out.new ≡ string_bytes out.old ++ rows_differ_said token.now last.now place) }
{
    push_str(out, "the row is")?;
    show_numbers(out, token.row.as_slice())?;
    push_str(out, " and not")?;
    show_given_row(out, last, place)
}

// Appends the generation of a token, and the one that is given for it.
#[tactic(auto, unfolding(crate::specs::Said::generations_differ_said))]
fn show_generations(
    out: &mut String,
    token: &Token,
    last: &Final,
    place: usize,
) -> Result<(), OutOfMemory>
    ensures { OnOk result (string_bytes out.new ≡ string_bytes out.old ++ generations_differ_said token.now last.now place) }
{
    put(out, ("the generation is ", token.generation, " and not "))?;
    show_given_generation(out, last, place)
}

// Appends the tallies that a token shows.
#[tactic(auto, unfolding(crate::specs::Said::shown_said))]
fn show_shown(out: &mut String, token: &Token, cpus: usize) -> Result<(), OutOfMemory>
    requires { cpus ≤ CPU_LIMIT }
    ensures { OnOk result (string_bytes out.new ≡ string_bytes out.old ++ shown_said token.now cpus) }
{
    show_numbers(out, shown(token, cpus))
}

// Appends the tallies of a token, and those that are given for it.
#[tactic(auto, unfolding(crate::specs::Said::tallies_differ_said))]
fn show_tallies(
    out: &mut String,
    token: &Token,
    cpus: usize,
    last: &Final,
    place: usize,
) -> Result<(), OutOfMemory>
    requires { cpus ≤ CPU_LIMIT }
    ensures { OnOk result (string_bytes out.new ≡ string_bytes out.old ++ tallies_differ_said token.now cpus last.now place) }
{
    push_str(out, "the tallies are")?;
    show_shown(out, token, cpus)?;
    push_str(out, " and not")?;
    show_given_tallies(out, last, place)
}

// Appends the record of a token, and the one that is given for it.
#[tactic(auto, unfolding(crate::specs::Said::records_differ_said))]
fn show_records(
    out: &mut String,
    token: &Token,
    last: &Final,
    place: usize,
) -> Result<(), OutOfMemory>
    ensures { OnOk result (string_bytes out.new ≡ string_bytes out.old ++ records_differ_said token.now last.now place) }
{
    push_str(out, "it has ")?;
    show_record(out, &token.blob)?;
    push_str(out, " and not ")?;
    show_given_record(out, last, place)
}

// Appends what a token has otherwise than the closing values of its place, and both values.
fn show_other(
    out: &mut String,
    token: &Token,
    cpus: usize,
    last: &Final,
    place: usize,
    other: Other,
) -> Result<(), OutOfMemory>
    requires { cpus ≤ CPU_LIMIT }
    ensures { OnOk result (string_bytes out.new ≡ string_bytes out.old ++ other_said cpus last.now place token.now other) }
{
    match other {
        Other::Holders => show_holders(out, token),
        Other::Row => show_rows(out, token, last, place),
        Other::Generation => show_generations(out, token, last, place),
        Other::Tallies => show_tallies(out, token, cpus, last, place),
        Other::Record => show_records(out, token, last, place),
    }
}

// Appends the same behind the token's number.
#[tactic(auto, unfolding(crate::specs::Said::token_other_said))]
fn show_token_other(
    out: &mut String,
    token: &Token,
    cpus: usize,
    last: &Final,
    place: usize,
    other: Other,
) -> Result<(), OutOfMemory>
    requires { cpus ≤ CPU_LIMIT }
    ensures { OnOk result (string_bytes out.new ≡ string_bytes out.old ++ token_other_said cpus last.now place token.now other) }
{
    put(out, ("token ", place, ": "))?;
    show_other(out, token, cpus, last, place, other)
}

// Appends how the token of a place differs from its closing values, if there is one that does, and says whether there is.
fn show_token(out: &mut String, state: &State, last: &Final, place: u8) -> Result<bool, OutOfMemory>
    ensures { IfOk result (λ found. Shows (SaysToken state.now last.now place) (string_bytes out.old) (string_bytes out.new) found) }
{
    let cpus = state.cpus();
    let Some(token) = state.token(TokId(place)) else {
        return Ok(false);
    };
    match other_at(token, cpus, last, usize::from(place)) {
        None => Ok(false),
        Some(other) => {
            show_token_other(out, token, cpus, last, usize::from(place), other)?;
            Ok(true)
        }
    }
}

// Appends the first token that differs, and says whether there is one.
fn show_tokens(out: &mut String, state: &State, last: &Final) -> Result<bool, OutOfMemory>
    ensures { IfOk result (λ found. ShowsFirst (SaysToken state.now last.now) (string_bytes out.old) (string_bytes out.new) found) }
{
    for place in 0..64u8 {
        if show_token(out, state, last, place)? {
            return Ok(true);
        }
    }
    Ok(false)
}

// Whether this is the end of a message.
fn is_end(end: &MsgEnd, message: &Message) -> bool
    ensures { IsTrue result ↔ (end.now ≡ end_of message.now) }
{
    end.round == message.round && end.state == message.owner
}

// Appends where a message is and its round, and where it is stated to be.
#[tactic(auto, unfolding(crate::specs::Said::message_other_said))]
fn show_message_other(
    out: &mut String,
    place: u8,
    message: &Message,
    end: &MsgEnd,
) -> Result<(), OutOfMemory>
    ensures { OnOk result (string_bytes out.new ≡ string_bytes out.old ++ message_other_said place message.now end.now) }
{
    put(out, ("message ", place, ": "))?;
    show_owner(out, message.owner)?;
    put(out, (", round ", message.round, ", and not "))?;
    show_owner(out, end.state)?;
    put(out, (", round ", end.round))
}

// Appends how the message of a place differs from its closing values, if there is one that does, and says whether there is.
fn show_message(
    out: &mut String,
    state: &State,
    last: &Final,
    place: u8,
) -> Result<bool, OutOfMemory>
    ensures { IfOk result (λ found. Shows (SaysMessage state.now last.now place) (string_bytes out.old) (string_bytes out.new) found) }
{
    let Some(message) = state.message(MsgId(place)) else {
        return Ok(false);
    };
    let Some(end) = last.messages.get(usize::from(place)) else {
        return Ok(false);
    };
    if is_end(end, message) {
        return Ok(false);
    }
    show_message_other(out, place, message, end)?;
    Ok(true)
}

// Appends the first message that differs, and says whether there is one.
fn show_messages(out: &mut String, state: &State, last: &Final) -> Result<bool, OutOfMemory>
    ensures { IfOk result (λ found. ShowsFirst (SaysMessage state.now last.now) (string_bytes out.old) (string_bytes out.new) found) }
{
    for place in 0..64u8 {
        if show_message(out, state, last, place)? {
            return Ok(true);
        }
    }
    Ok(false)
}

// Appends how many records were given, where that isn't as many as rows.
fn show_records_given(out: &mut String, last: &Final) -> Result<(), OutOfMemory>
    ensures { OnOk result (string_bytes out.new ≡ string_bytes out.old ++ records_given_said last.now) }
{
    if last.blobs.len() == last.rows.len() {
        return Ok(());
    }
    put(out, (", and ", last.blobs.len(), " records"))
}

// Appends how many rows and generations were given.
#[tactic(auto, unfolding(crate::specs::Said::rows_given_said))]
fn show_rows_given(out: &mut String, last: &Final) -> Result<(), OutOfMemory>
    ensures { OnOk result (string_bytes out.new ≡ string_bytes out.old ++ rows_given_said last.now) }
{
    put(
        out,
        (
            last.rows.len(),
            " rows, ",
            last.gens.len(),
            " generations, ",
        ),
    )
}

// Appends how many lists of tallies and ends of messages were given.
#[tactic(auto, unfolding(crate::specs::Said::lists_given_said))]
fn show_lists_given(out: &mut String, last: &Final) -> Result<(), OutOfMemory>
    ensures { OnOk result (string_bytes out.new ≡ string_bytes out.old ++ lists_given_said last.now) }
{
    put(
        out,
        (
            last.tallies.len(),
            " lists of tallies and ",
            last.messages.len(),
            " ends of messages were given",
        ),
    )
}

// Appends how many closing values were given.
#[tactic(auto, unfolding(crate::specs::Said::given_in_all_said))]
fn show_given_in_all(out: &mut String, last: &Final) -> Result<(), OutOfMemory>
    ensures { OnOk result (string_bytes out.new ≡ string_bytes out.old ++ given_in_all_said last.now) }
{
    show_rows_given(out, last)?;
    show_lists_given(out, last)?;
    show_records_given(out, last)
}

// Appends how a state differs from closing values: the first value that does, or how many were given.
fn show_difference(out: &mut String, state: &State, last: &Final) -> Result<(), OutOfMemory>
    ensures { OnOk result (Appends (SaysClose state.now last.now) (string_bytes out.old) (string_bytes out.new)) }
{
    if show_tokens(out, state, last)? {
        return Ok(());
    }
    if show_messages(out, state, last)? {
        return Ok(());
    }
    show_given_in_all(out, last)
}

/// The line that says which value of the close differs: the first one that does, or how many values were given.
pub fn difference(alloc: Global, state: &State, last: &Final) -> Result<String, OutOfMemory>
    ensures { IfOk result (λ text. IsDifference state.now last.now (string_bytes text)) }
{
    let mut out = String::new(alloc);
    push_str(&mut out, "close: ")?;
    show_difference(&mut out, state, last)?;
    push_str(&mut out, "\n")?;
    Ok(out)
}
