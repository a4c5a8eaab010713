//! Messages of the program: a cause with its place, the line with a mark, the known word that is near, and what to try.
use crate::marks::add_mark;
use crate::pages::Page;
use crate::places::{Place, place_from};
use crate::words::Words;
use lwkt_base::Fault;
use std::alloc::Global;

// What input is called that comes from no named file.
const NO_NAME: &str = "standard input";

/// Input that is refused.
#[derive(Clone, Copy)]
pub(crate) struct Source<'a> {
    pub(crate) alloc: Global,
    /// The file that it comes from, where one is named.
    pub(crate) name: Option<&'a str>,
    pub(crate) bytes: &'a [u8],
}

/// Appends what a message without a place begins with: `lwkt: FILE`.
pub(crate) fn add_name(page: &mut Page, name: Option<&str>) {
    page.say("lwkt: ");
    page.show(name.unwrap_or(NO_NAME));
}

/// Appends what a message begins with: `lwkt: FILE:LINE:COLUMN: `.
pub(crate) fn add_start(page: &mut Page, name: Option<&str>, place: Place) {
    add_name(page, name);
    page.say((":", place.line, ":", place.column(), ": "));
}

/// Appends what follows a cause: its fault by its number, and its place where it has one, in brackets: ` (fault 33 at 2003)`.
pub(crate) fn add_fault(page: &mut Page, fault: Fault) {
    page.say((" (fault ", fault.number()));
    if let Fault::Script { place } = fault {
        page.say((" at ", place));
    }
    page.say(")");
}

/// Ends the line of a cause, and appends the line of the input with a mark under the place, and the near word if there is one.
pub(crate) fn add_end(page: &mut Page, bytes: &[u8], place: Place, near: &str) {
    page.say("\n");
    if !bytes.is_empty() {
        add_mark(page, bytes, place);
    }
    if !near.is_empty() {
        page.say(("    did you mean `", near, "`?\n"));
    }
}

/// Appends what is bad of a part at a place, as a message, with its fault where that is said.
pub(crate) fn add_words_at(
    page: &mut Page,
    source: Source<'_>,
    place: Place,
    words: &Words,
    fault: Option<Fault>,
) {
    add_start(page, source.name, place);
    page.add_page(&words.page);
    if let Some(fault) = fault {
        add_fault(page, fault);
    }
    add_end(page, source.bytes, place, words.near());
}

/// Appends what is bad of a part, as a message, with its fault where that is said.
pub(crate) fn add_words(page: &mut Page, source: Source<'_>, words: &Words, fault: Option<Fault>) {
    let place = place_from(source.bytes, Place::FIRST, words.place);
    add_words_at(page, source, place, words, fault);
}

/// Appends why an opening is refused: what is bad of its token, or the text of the fault.
pub(crate) fn add_opening(page: &mut Page, source: Source<'_>, words: Option<Words>, fault: Fault) {
    match words {
        Some(words) => add_words(page, source, &words, Some(fault)),
        None => {
            add_name(page, source.name);
            page.fault(": ", fault);
            add_fault(page, fault);
            page.say("\n");
        }
    }
}

// Whether a shell takes a byte of a word as it is.
fn is_plain(byte: u8) -> bool {
    matches!(byte, b'0'..=b'9' | b'A'..=b'Z' | b'a'..=b'z' | b'_' | b'-' | b'.' | b'/' | b'+' | b',' | b'@' | b'%')
}

// Appends a file as a shell takes it: in quotes if it has other characters than those of most names.
fn add_file(page: &mut Page, name: &str) {
    if name.as_bytes().iter().all(|byte| is_plain(*byte)) {
        return page.say(name);
    }
    page.say("'");
    for letter in name.chars() {
        if letter == '\'' {
            page.say("'\\''");
        } else {
            page.show_letter(letter);
        }
    }
    page.say("'");
}

/// Appends what to try: `try: COMMAND FILE`, without the file where none is named.
pub(crate) fn add_try(page: &mut Page, command: &str, name: Option<&str>) {
    page.say(("try: ", command));
    if let Some(name) = name {
        page.say(" ");
        add_file(page, name);
    }
    page.say("\n");
}
