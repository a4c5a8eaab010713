//! Why input isn't read that is a script in JSON or a text.
use crate::documents::Document;
use crate::json_parts::Part;
use crate::messages::{Source, add_try, add_words};
use crate::pages::Page;
use crate::proposals::{KEYWORD_COUNT, is_keyword, keyword};
use crate::refusals::part_words;
use crate::untraced::{is_in_lines, is_whole_trace};
use crate::words::Words;
use crate::wrongs::add_wrongs;
use lwkt_base::Fault;
use lwkt_base::memory::read_json;
use lwkt_text::{Wrong, is_named_text};

// Whether bytes that are no JSON begin as a text does.
fn begins_as_text(bytes: &[u8]) -> bool {
    bytes.len() <= Document::Script.limit()
        && matches!(Part::whole(bytes).first(), b'A'..=b'Z' | b'a'..=b'z' | b'_' | b'#')
}

// What is said of bytes that begin as a text does, and neither are JSON nor declare anything.
fn formless(source: Source<'_>) -> Words {
    let whole = Part::whole(source.bytes);
    let mut words = Words::new(source.alloc);
    words.point(whole);
    words.page.say(
        "this is neither JSON nor a text: no sentence declares a token, a message or a thread",
    );
    if !is_keyword(whole.written()) {
        for i in 0..KEYWORD_COUNT {
            words.propose(whole, keyword(i));
        }
    }
    words
}

// What is bad at a place of input that is taken for JSON.
fn json_words(source: Source<'_>, place: u32) -> Words {
    if place == 0 && begins_as_text(source.bytes) {
        formless(source)
    } else {
        part_words(source.alloc, Document::Script, source.bytes, place)
    }
}

/// Appends why input isn't read that is taken for JSON, and the command that reads it, if it is a trace.
pub(crate) fn add_json(page: &mut Page, source: Source<'_>, place: u32) {
    let words = json_words(source, place);
    add_words(page, source, &words, Some(Fault::Script { place }));
    if is_whole_trace(source.bytes) {
        add_try(page, "lwkt check", source.name);
    } else if place == 0 && is_in_lines(source.alloc, source.bytes) {
        add_try(page, "lwkt check --lines", source.name);
    }
}

// Whether input that is read as a text, for the name of its file, is an object in JSON.
fn is_misnamed(source: Source<'_>) -> bool {
    is_named_text(source.name)
        && Part::whole(source.bytes).first() == b'{'
        && matches!(read_json(source.alloc, source.bytes), Ok(Ok(_)))
}

// Appends that a file with the name of a text holds JSON.
fn add_misnamed(page: &mut Page, piped: &str, source: Source<'_>) {
    let mut words = Words::new(source.alloc);
    words.point(Part::whole(source.bytes));
    words.page.say("this is JSON, and a file whose name ends in .lwkt holds a text");
    add_words(page, source, &words, None);
    let is_trace = is_whole_trace(source.bytes);
    add_try(
        page,
        if is_trace { "lwkt check" } else { piped },
        source.name,
    );
}

/// Appends why a text isn't read.
pub(crate) fn add_text(page: &mut Page, piped: &str, source: Source<'_>, wrongs: &[Wrong]) {
    if is_misnamed(source) {
        add_misnamed(page, piped, source);
    } else {
        add_wrongs(page, source, wrongs);
    }
}
