//! Why a trace is refused, and what input looks like that isn't the trace that it had to be.
use crate::documents::Document;
use crate::json_parts::Part;
use crate::messages::{Source, add_try, add_words, add_words_at};
use crate::pages::Page;
use crate::places::{Place, line_length, part_of};
use crate::refusals::part_words;
use crate::words::Words;
use lwkt_base::Fault;
use lwkt_base::memory::read_json;
use lwkt_text::{is_named_text, is_text};
use std::alloc::Global;

// What is said of input that isn't the trace that it had to be, and the command that reads it.
type Other = (&'static str, &'static str);

// A script, in JSON or as a text.
const SCRIPT: Other = ("this is a script, and no trace", "lwkt run");

// A trace in lines.
const LINES: Other = ("this is a trace in lines", "lwkt check --lines");

// A trace of one text.
const WHOLE: Other = (
    "this is a trace of one text, and not one in lines",
    "lwkt check",
);

/// Whether bytes look like a trace of one text: they have events, and no threads.
pub(crate) fn is_whole_trace(bytes: &[u8]) -> bool {
    let whole = Part::whole(bytes);
    whole.member("events").is_some() && whole.member("threads").is_none()
}

/// Whether bytes that are no JSON text look like a trace in lines: the first line is by itself an opening, without events.
pub(crate) fn is_in_lines(alloc: Global, bytes: &[u8]) -> bool {
    let line = part_of(bytes, 0, line_length(bytes));
    let opening = Part::whole(line);
    opening.member("tokens").is_some()
        && opening.member("events").is_none()
        && matches!(read_json(alloc, line), Ok(Ok(_)))
}

// Whether the first line of a trace in lines looks like the beginning of a trace of one text: it begins an object, and doesn't end
// it.
fn begins_text(alloc: Global, line: &[u8]) -> bool {
    Part::whole(line).first() == b'{'
        && matches!(read_json(alloc, line), Ok(Err(error)) if error.is_eof())
}

// Whether bytes that are no trace are a script.
fn is_script(source: Source<'_>) -> bool {
    Part::whole(source.bytes).member("threads").is_some()
        || is_named_text(source.name)
        || matches!(is_text(source.alloc, source.bytes), Ok(true))
}

// What input is that had to be a trace of one text.
fn other_than_whole(source: Source<'_>, place: u32) -> Option<Other> {
    if place > 1 {
        None
    } else if is_script(source) {
        Some(SCRIPT)
    } else if place == 0 && is_in_lines(source.alloc, source.bytes) {
        Some(LINES)
    } else {
        None
    }
}

// What input is that had to be a trace in lines, by its first line.
fn other_than_lines(source: Source<'_>, number: usize) -> Option<Other> {
    if number > 1 {
        None
    } else if is_script(source) {
        Some(SCRIPT)
    } else if is_whole_trace(source.bytes) || begins_text(source.alloc, source.bytes) {
        Some(WHOLE)
    } else {
        None
    }
}

// What is said of input that is something else, or is bad at a place.
fn words_of(document: Document, source: Source<'_>, place: u32, other: Option<Other>) -> Words {
    let Some((said, _)) = other else {
        return part_words(source.alloc, document, source.bytes, place);
    };
    let mut words = Words::new(source.alloc);
    words.point(Part::whole(source.bytes));
    words.page.say(said);
    words
}

/// Appends why a trace of one text is refused at a place, or a line of a trace in lines.
pub(crate) fn add_untraced(page: &mut Page, document: Document, source: Source<'_>, place: u32) {
    let other = match document {
        Document::Line(number) => other_than_lines(source, number),
        _ => other_than_whole(source, place),
    };
    let words = words_of(document, source, place, other);
    let fault = Some(Fault::Script { place });
    match document {
        Document::Line(line) => {
            let place = Place {
                line,
                before: words.place,
                start: 0,
            };
            add_words_at(page, source, place, &words, fault);
        }
        _ => add_words(page, source, &words, fault),
    }
    if let Some((_, command)) = other {
        add_try(page, command, source.name);
    }
}
