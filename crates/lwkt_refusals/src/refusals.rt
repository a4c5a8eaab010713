//! Why a script in JSON or a trace is refused, in words.
use crate::breaches::breach_in;
use crate::documents::{Document, show_place};
use crate::json_parts::Part;
use crate::places::offset_of;
use crate::spans::{byte_at, past_space};
use crate::words::Words;
use lwkt_base::TokSpec;
use lwkt_base::memory::{push, read_json, words_of};
use lwkt_script::Version;
use lwkt_script::fields::has;
use lwkt_script::tokens::token;
use serde_json::Value;
use std::alloc::Global;

// Whether a text begins with a byte order mark.
fn has_mark(bytes: &[u8]) -> bool {
    matches!(bytes, [0xef, 0xbb, 0xbf, ..])
}

// Whether a comment begins at a place.
fn is_comment(bytes: &[u8], place: usize) -> bool {
    byte_at(bytes, place) == b'/' && matches!(byte_at(bytes, place.saturating_add(1)), b'/' | b'*')
}

// What the reader says of bytes that are no JSON text, without the place that it names.
fn front_of(text: &str) -> &str {
    match text.split_once(" at line ") {
        Some((why, _)) => why,
        None => text,
    }
}

// Appends what the reader says of bytes that are no JSON text.
fn show_error(out: &mut Words, error: &serde_json::Error) {
    out.page.say("it is no JSON text: ");
    match words_of(out.alloc, error) {
        Ok(text) => out.page.show(front_of(text.as_str())),
        Err(refused) => out.page.lose(refused),
    }
}

// Appends why bytes are no JSON text, by what the reader says of them.
fn show_no_json(out: &mut Words, bytes: &[u8], error: &serde_json::Error) {
    out.place = offset_of(bytes, error.line(), error.column());
    if is_comment(bytes, out.place) {
        out.page.say("JSON has no comments");
    } else {
        show_error(out, error);
    }
}

// Appends why bytes are no JSON text, or none of a length that is read.
fn show_text(out: &mut Words, document: Document, bytes: &[u8]) {
    if bytes.len() > document.limit() {
        out.place = document.limit();
        return out.page.say((document.name(), " has more bytes than ", document.limit()));
    }
    if past_space(bytes, 0) == bytes.len() {
        return out.page.say((document.name(), " is empty"));
    }
    if has_mark(bytes) {
        return out.page.say(
            "the text begins with a byte order mark, which no script and no trace has",
        );
    }
    match read_json(out.alloc, bytes) {
        Ok(Ok(_)) => out.page.say("it is no JSON text"),
        Ok(Err(error)) => show_no_json(out, bytes, &error),
        Err(refused) => out.page.lose(refused),
    }
}

// Appends which event a line is, behind the first.
fn show_index(out: &mut Words, number: usize) {
    if number > 1 {
        out.page.say(("event ", number.saturating_sub(2), ": "));
    }
}

// Appends why a line of this length can't be a JSON text; says whether it can't.
fn show_length(out: &mut Words, number: usize, length: usize) -> bool {
    let most = Document::Line(number).limit();
    if length > 0 && length <= most {
        return false;
    }
    show_index(out, number);
    if length == 0 {
        out.page.say("it is empty");
    } else {
        out.page.say(("it has more bytes than ", most));
    }
    true
}

// Appends why a line has no value; says whether it has none.
fn show_no_value(out: &mut Words, number: usize, line: &[u8]) -> bool {
    if show_length(out, number, line.len()) {
        return true;
    }
    match read_json(out.alloc, line) {
        Ok(Ok(_)) => return false,
        Ok(Err(error)) => {
            out.place = error.column().saturating_sub(1);
            show_index(out, number);
            show_error(out, &error);
        }
        Err(refused) => out.page.lose(refused),
    }
    true
}

// Appends why bytes have no value that has parts, where that is what is bad; says whether it is.
fn show_unparted(out: &mut Words, document: Document, bytes: &[u8], place: u32) -> bool {
    match document {
        Document::Line(number) => place != 6 && show_no_value(out, number, bytes),
        _ if place == 0 => {
            show_text(out, document, bytes);
            true
        }
        _ => false,
    }
}

/// What is bad at a place.
pub(crate) fn part_words(alloc: Global, document: Document, bytes: &[u8], place: u32) -> Words {
    let mut words = Words::new(alloc);
    if !show_unparted(&mut words, document, bytes, place) {
        show_place(&mut words, document, Part::whole(bytes), place);
    }
    words
}

// The version of scripts that a token of a trace is written in: one that names its record is of version 2.
fn version_of(value: &Value) -> Version {
    if has(value, "record") {
        Version::Second
    } else {
        Version::First
    }
}

// The tokens of a trace.
fn tokens_of(alloc: Global, items: &[Value]) -> Option<Vec<TokSpec>> {
    let mut tokens = Vec::new(alloc);
    for item in items {
        let spec = token(alloc, version_of(item), tokens.as_slice(), item).ok()?;
        push(&mut tokens, spec).ok()?;
    }
    Some(tokens)
}

// What is bad of the first token of a list whose opening breaks its law, if there is one.
fn breach_of(alloc: Global, bytes: &[u8], list: &Value) -> Option<Words> {
    let tokens = tokens_of(alloc, list.as_array()?.as_slice())?;
    breach_in(alloc, bytes, tokens.as_slice(), None)
}

/// What is bad of the first token of a trace whose opening breaks its law, if there is one.
pub(crate) fn opening_words(alloc: Global, bytes: &[u8]) -> Option<Words> {
    let list = Part::whole(bytes).member("tokens")?;
    match read_json(alloc, list.written().as_bytes()) {
        Ok(Ok(value)) => breach_of(alloc, bytes, &value),
        _ => None,
    }
}
