//! The line that is shown of a text, and the mark under a place in it.
use crate::pages::Page;
use crate::places::{Place, line_length, part_from, part_of};
use lwkt_report::is_shown_as_is;

// The most bytes of a line that are shown.
const LINE_LIMIT: usize = 120;

// The most bytes that are shown before a place in a line that is longer.
const BEFORE_LIMIT: usize = 60;

// Where the part of a line begins that is shown: where the line does, or nearer to the place if the line is long.
fn view_start(bytes: &[u8], place: Place) -> usize {
    let length = line_length(part_from(bytes, place.start, LINE_LIMIT.saturating_add(1)));
    if length <= LINE_LIMIT {
        place.start
    } else {
        place.at().saturating_sub(BEFORE_LIMIT).max(place.start)
    }
}

// What is shown in place of a byte, so that no text tells a terminal anything and the mark stands under its place: tabs and what of
// ASCII is shown as it is, a blank for a carriage return, and a question mark for any other.
fn shown(byte: u8) -> u8 {
    match byte {
        b'\t' => byte,
        b'\r' => b' ',
        _ if byte < 128 && is_shown_as_is(byte as char) => byte,
        _ => b'?',
    }
}

/// Appends bytes as they are shown; those that are no printed ASCII as question marks.
pub fn add_shown(page: &mut Page, bytes: &[u8]) {
    for byte in bytes {
        page.letter(shown(*byte) as char);
    }
}

// Appends a mark behind these characters of a line, with tabs as they are and a blank for every other one.
fn add_mark_behind(page: &mut Page, bytes: &[u8]) {
    for byte in bytes {
        page.say(if *byte == b'\t' { "\t" } else { " " });
    }
    page.say("^\n");
}

/// Appends the line, and a mark under the place. Of a long line what surrounds the place, with `..` where it is cut.
pub fn add_mark(page: &mut Page, bytes: &[u8], place: Place) {
    let from = view_start(bytes, place);
    let line = part_from(bytes, from, LINE_LIMIT);
    let to = from.saturating_add(line_length(line));
    let begins_late = from > place.start;
    let ends_early = !matches!(bytes.get(to), None | Some(b'\n'));
    page.say(if begins_late { "    .." } else { "    " });
    add_shown(page, part_of(bytes, from, to));
    page.say(if ends_early { "..\n" } else { "\n" });
    page.say(if begins_late { "      " } else { "    " });
    add_mark_behind(page, part_of(bytes, from, place.at()));
}
