use crate::records::show_record;
use crate::tokens::{Runners, show_holders, word_of};
use crate::words::{fill, show_cell, show_message, show_token};
use lwkt_base::{MsgId, Owner, TokId};
use lwkt_core::{Event, Message, State, Token};
use lwkt_refusals::Page;
use lwkt_text::Names;
use lwkt_trace::words::{Subject, subject_of};

/// What stood before an event at what it is at: a token's word, and the cell that is written.
#[derive(Clone, Copy)]
pub(crate) struct Before {
    word: u64,
    cell: u64,
}

// The word of a token, 0 where there is none.
fn word_at(state: &State, tok: TokId) -> u64 {
    match state.token(tok) {
        Some(token) => word_of(token),
        None => 0,
    }
}

/// What stands before an event at what it is at.
pub(crate) fn stood_before(state: &State, event: &Event) -> Before {
    let word = match subject_of(event) {
        Subject::Token(tok) => word_at(state, tok),
        Subject::Message(_) => 0,
    };
    let cell = match *event {
        Event::Write { tok, cell, .. } => state.cell(tok, cell).unwrap_or(0),
        _ => 0,
    };
    Before { word, cell }
}

// Appends how many references are held, and by whom.
fn show_held(
    out: &mut Page,
    names: Option<&Names>,
    token: &Token,
    event: &Event,
    runners: &Runners,
) {
    let references = token.held_by(event.cpu()).references();
    if references > 1 {
        out.size(", ", references);
        out.add(" references");
    }
    out.add(", ");
    show_holders(out, names, token, runners);
}

// Appends what an event did to a token's word.
fn show_word_change(
    out: &mut Page,
    names: Option<&Names>,
    token: &Token,
    event: &Event,
    before: u64,
    runners: &Runners,
) {
    fill(out, "word @ -> @", &[before, word_of(token)]);
    match *event {
        Event::Mark { .. } => out.add(", marked for an exclusive request"),
        Event::GiveClean { .. } => out.add(", free, not written"),
        Event::GiveWritten { .. } => out.number(", free, generation ", token.generation),
        _ => show_held(out, names, token, event, runners),
    }
}

// Appends of which token something is said.
fn show_token_head(out: &mut Page, names: Option<&Names>, tok: TokId) {
    out.add("token ");
    show_token(out, names, tok);
    out.add(": ")
}

// Appends of which message something is said.
fn show_message_head(out: &mut Page, names: Option<&Names>, msg: MsgId) {
    out.add("message ");
    show_message(out, names, msg);
    out.add(": ")
}

// Appends what an event did to a token but for its cells: how its word changed, or which record was read or stored.
fn show_token_change(
    out: &mut Page,
    names: Option<&Names>,
    token: &Token,
    event: &Event,
    before: Before,
    runners: &Runners,
) {
    match *event {
        Event::Load { .. } => out.add("looked at"),
        Event::ReadBlob { blob, .. } => {
            show_record(out, &blob);
            out.add(" read")
        }
        Event::WriteBlob { blob, .. } => {
            show_record(out, &blob);
            out.add(" stored")
        }
        _ => show_word_change(out, names, token, event, before.word, runners),
    }
}

// Appends what an event did to a token, which is there or not.
fn show_token_event(
    out: &mut Page,
    names: Option<&Names>,
    state: &State,
    tok: TokId,
    event: &Event,
    before: Before,
    runners: &Runners,
) {
    let Some(token) = state.token(tok) else {
        show_token_head(out, names, tok);
        return out.add("there is none");
    };
    match *event {
        Event::Read { cell, value, .. } => {
            show_cell(out, names, tok, cell);
            fill(out, " is @", &[value])
        }
        Event::Write { cell, value, .. } => {
            show_cell(out, names, tok, cell);
            fill(out, " @ -> @", &[before.cell, value])
        }
        _ => {
            show_token_head(out, names, tok);
            show_token_change(out, names, token, event, before, runners)
        }
    }
}

/// Appends where a message is: `out to 1`.
pub(crate) fn show_owner(out: &mut Page, owner: Owner) {
    match owner {
        Owner::Rest { origin } => out.number("at rest with ", u64::from(origin.0)),
        Owner::Out { target, .. } => out.number("out to ", u64::from(target.0)),
        Owner::With { target, .. } => out.number("with ", u64::from(target.0)),
        Owner::Back { origin, .. } => out.number("back to ", u64::from(origin.0)),
    }
}

// Appends what an event did to a message.
fn show_message_change(out: &mut Page, message: &Message, event: &Event) {
    fill(out, "round @, ", &[message.round]);
    show_owner(out, message.owner);
    match *event {
        Event::Abort { .. } => out.add(", to be aborted"),
        Event::DropMsg { .. } => out.add(", taken back before it was taken"),
        _ => {}
    }
}

/// Appends an event by what it changed, as the state stands after it: `token 0: word 0 -> 1, held exclusively by 0.0`; in names if some
/// are given.
pub(crate) fn show_event(
    out: &mut Page,
    names: Option<&Names>,
    state: &State,
    event: &Event,
    before: Before,
    runners: &Runners,
) {
    match subject_of(event) {
        Subject::Token(tok) => show_token_event(out, names, state, tok, event, before, runners),
        Subject::Message(msg) => {
            show_message_head(out, names, msg);
            match state.message(msg) {
                Some(message) => show_message_change(out, message, event),
                None => out.add("there is none"),
            }
        }
    }
}
