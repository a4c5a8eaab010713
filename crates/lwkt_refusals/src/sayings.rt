//! What is said where errors go, whatever it is about.
ghost use Rattle.std.specs.Prelude.{◌↔◌, IsTrue};
ghost use Rattle.lwkt_refusals.specs.Sayings.{SaysMore, HasNoReader};

use crate::breaches::breach_in;
use crate::documents::Document;
use crate::messages::{Source, add_name, add_opening};
use crate::pages::Page;
use crate::refusals::opening_words;
use crate::releases::releases_said;
use crate::unread::{add_json, add_text};
use crate::untraced::add_untraced;
use lwkt_base::Fault;
use lwkt_report::{Sink, write_whole};
use lwkt_text::{Input, Unread};
use std::alloc::Global;
use std::io;

// What is said where memory is refused.
const NO_MEMORY: &str = "lwkt: out of memory\n";

// What is said where there is no memory for the message.
const NO_WORDS: &str = "lwkt: there is no memory to say why it is refused\n";

/// Whether a write failed since nobody reads any more what is written.
pub fn has_no_reader(error: &Option<io::Error>) -> bool
    ensures { IsTrue result ↔ HasNoReader error.now }
{
    match error {
        Some(error) => error.kind() == io::ErrorKind::BrokenPipe,
        None => false,
    }
}

// Writes a text. What can't be written is let go.
fn put<E: Sink>(errors: &mut E, text: &str)
    ensures { SaysMore (E.has_failed errors.old) (E.has_failed errors.new) (E.contents errors.old) (E.contents errors.new) }
{
    let _ = write_whole(errors, text.as_bytes());
}

// Writes a message, or this where memory was refused for it.
fn put_page<E: Sink>(errors: &mut E, page: Page, no_words: &str)
    ensures { SaysMore (E.has_failed errors.old) (E.has_failed errors.new) (E.contents errors.old) (E.contents errors.new) }
{
    match page.whole() {
        Ok(text) => put(errors, text.as_str()),
        Err(_) => put(errors, no_words),
    }
}

/// Says something of input as a whole: `lwkt: FILE: WORDS`. Input that comes from no named file is called `standard input`.
///
/// If memory is refused, it says only that there is none for the message.
pub fn say_of_file<E: Sink>(alloc: Global, errors: &mut E, name: Option<&str>, words: &str)
    ensures { SaysMore (E.has_failed errors.old) (E.has_failed errors.new) (E.contents errors.old) (E.contents errors.new) }
{
    let mut page = Page::new(alloc);
    add_name(&mut page, name);
    page.say((": ", words, "\n"));
    put_page(errors, page, NO_WORDS);
}

// Why input isn't read.
fn unread_page(source: Source<'_>, piped: &str, unread: &Unread) -> Page {
    let mut page = Page::new(source.alloc);
    match unread {
        Unread::Memory(_) => page.say(NO_MEMORY),
        Unread::Json { place } => add_json(&mut page, source, *place),
        Unread::Wrongs(wrongs) => add_text(&mut page, piped, source, wrongs.as_slice()),
    }
    page
}

/// Says why input isn't read that is a script in JSON or a text: of each cause `lwkt: FILE:LINE:COLUMN: WORDS`, the line with a mark
/// under the place, and where a known word is near `` did you mean `WORD`? ``; at the end `try: COMMAND`, if a command helps. Of
/// JSON the first bad part is the only cause, and its fault's number stands behind the words; of a text there are up to 100.
/// Input that comes from no named file is called `standard input`. `piped` is the command that reads a script from there.
///
/// If memory is refused, it says only that.
pub fn say_unread<E: Sink>(
    alloc: Global,
    errors: &mut E,
    piped: &str,
    name: Option<&str>,
    bytes: &[u8],
    unread: &Unread,
)
    ensures { SaysMore (E.has_failed errors.old) (E.has_failed errors.new) (E.contents errors.old) (E.contents errors.new) }
{
    let source = Source { alloc, name, bytes };
    put_page(errors, unread_page(source, piped, unread), NO_WORDS);
}

// Why the opening of a script is refused.
fn opening_page(source: Source<'_>, input: &Input, fault: Fault) -> Page {
    let mut page = Page::new(source.alloc);
    let words = match fault {
        Fault::LawBroken => {
            let tokens = input.script.tokens.as_slice();
            breach_in(source.alloc, source.bytes, tokens, input.names.as_ref())
        }
        _ => None,
    };
    match fault {
        Fault::Memory(_) => page.say(NO_MEMORY),
        fault => add_opening(&mut page, source, words, fault),
    }
    page
}

/// Says why the opening of a script, read from these bytes, is refused with this fault, in the form of `say_unread`: the first token
/// whose cells break its law; or the fault's own text, without a line.
///
/// If memory is refused, it says only that.
pub fn say_opening<E: Sink>(
    alloc: Global,
    errors: &mut E,
    name: Option<&str>,
    bytes: &[u8],
    input: &Input,
    fault: Fault,
)
    ensures { SaysMore (E.has_failed errors.old) (E.has_failed errors.new) (E.contents errors.old) (E.contents errors.new) }
{
    let source = Source { alloc, name, bytes };
    put_page(errors, opening_page(source, input, fault), NO_WORDS);
}

// Why a trace of one text is refused.
fn untraced_page(source: Source<'_>, fault: Fault) -> Page {
    let mut page = Page::new(source.alloc);
    match fault {
        Fault::Memory(_) => page.say(NO_MEMORY),
        Fault::Script { place } => add_untraced(&mut page, Document::Trace, source, place),
        Fault::LawBroken => {
            let words = opening_words(source.alloc, source.bytes);
            add_opening(&mut page, source, words, fault)
        }
        fault => add_opening(&mut page, source, None, fault),
    }
    page
}

/// Says why a trace of one text is refused with this fault: `lwkt: FILE:LINE:COLUMN: WORDS (FAULT)`, and the line with a mark under the
/// place; where a known word is near `` did you mean `WORD`? ``; and `try: COMMAND` if it is something else that a command reads. Of any
/// other fault than `Script` and `LawBroken` its text, without a line. Input that comes from no named file is called `standard input`.
///
/// If memory is refused, it says only that.
pub fn say_untraced<E: Sink>(
    alloc: Global,
    errors: &mut E,
    name: Option<&str>,
    bytes: &[u8],
    fault: Fault,
)
    ensures { SaysMore (E.has_failed errors.old) (E.has_failed errors.new) (E.contents errors.old) (E.contents errors.new) }
{
    let source = Source { alloc, name, bytes };
    put_page(errors, untraced_page(source, fault), NO_WORDS);
}

/// Says why a line of a trace in lines, which has this number, counted from 1, is refused at this place, in the form of `say_untraced`.
pub fn say_untraced_line<E: Sink>(
    alloc: Global,
    errors: &mut E,
    name: Option<&str>,
    number: usize,
    line: &[u8],
    place: u32,
)
    ensures { SaysMore (E.has_failed errors.old) (E.has_failed errors.new) (E.contents errors.old) (E.contents errors.new) }
{
    let mut page = Page::new(alloc);
    let source = Source {
        alloc,
        name,
        bytes: line,
    };
    add_untraced(&mut page, Document::Line(number), source, place);
    put_page(errors, page, NO_WORDS);
}

/// Says of each release of a text that is refused if the thread has another token, which it takes later, in the form of `say_unread`, at
/// its line: the token that has to be released first. It says nothing if the text expects fault 12. Only the first pass of a thread's
/// steps is looked at, up to a step after which the text doesn't tell what the thread has.
///
/// If memory is refused, it says nothing.
pub fn say_releases<E: Sink>(alloc: Global, errors: &mut E, name: Option<&str>, bytes: &[u8])
    ensures { SaysMore (E.has_failed errors.old) (E.has_failed errors.new) (E.contents errors.old) (E.contents errors.new) }
{
    put_page(errors, releases_said(Source { alloc, name, bytes }), "");
}
