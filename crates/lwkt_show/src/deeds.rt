//! What a thread does in a turn, in so few letters that a box has room for them.
ghost use Rattle.std.specs.Prelude.{◌++◌, codes};
ghost use Rattle.std.specs.Option.{option_copied};
ghost use Rattle.lwkt_refusals.specs.Pages.{GrowsBy};
ghost use Rattle.lwkt_show.specs.Words.{token_said, message_said};
ghost use Rattle.lwkt_show.specs.Deeds.{object_text, read_text, verb_text, deed_text};

use crate::words::{show_message, show_token};
use lwkt_base::steps::step_of;
use lwkt_base::{Answer, Ask, MsgId, Part, TokId};
use lwkt_refusals::Page;
use lwkt_text::Names;

// Appends a token behind a blank.
fn show_token_object(out: &mut Page, names: Option<&Names>, tok: TokId)
    ensures { GrowsBy out.old out.new (codes " " ++ token_said (option_copied names.entry) tok.0) }
{
    out.add(" ");
    show_token(out, names, tok)
}

// Appends a message behind a blank.
fn show_message_object(out: &mut Page, names: Option<&Names>, msg: MsgId)
    ensures { GrowsBy out.old out.new (codes " " ++ message_said (option_copied names.entry) msg.0) }
{
    out.add(" ");
    show_message(out, names, msg)
}

// Appends what a step is about, by its first part: a token or a message.
fn show_object(out: &mut Page, names: Option<&Names>, part: Option<&Part>)
    ensures { GrowsBy out.old out.new (object_text (option_copied names.entry) (option_copied part.entry)) }
{
    match part {
        Some(Part::Token(tok)) => show_token_object(out, names, *tok),
        Some(Part::Message(msg)) => show_message_object(out, names, *msg),
        _ => out.add(""),
    }
}

// Appends that a cell is read, and the value that it had.
fn show_read(out: &mut Page, answer: Option<Answer>)
    ensures { GrowsBy out.old out.new (read_text answer) }
{
    match answer {
        Some(Answer::Value(value)) => out.number("read ", value),
        _ => out.add("read"),
    }
}

// Appends a step by its word and by what it is about.
fn show_verb(out: &mut Page, names: Option<&Names>, ask: &Ask)
    ensures { GrowsBy out.old out.new (verb_text (option_copied names.entry) ask.now) }
{
    let (verb, parts) = step_of(ask);
    out.add(verb.word());
    show_object(out, names, parts.as_slice().first())
}

/// Appends what a thread does by an ask, whose answer is this: `get left`, `read 7`, `=7` for a write, `+5` for an addition, `rel`.
pub(crate) fn show_deed(out: &mut Page, names: Option<&Names>, ask: &Ask, answer: Option<Answer>)
    ensures { GrowsBy out.old out.new (deed_text (option_copied names.entry) ask.now answer) }
{
    match *ask {
        Ask::Read(..) => show_read(out, answer),
        Ask::Write(_, _, value) => out.number("=", value),
        Ask::Add(_, value) => out.number("+", value),
        Ask::Rel(_) => out.add("rel"),
        _ => show_verb(out, names, ask),
    }
}
