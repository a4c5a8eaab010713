//! Expectations as they stand in a text, each with its line and what came of it.
use lwkt_refusals::{Page, Place, place_from};
use lwkt_text::claims::Expectation;

// Whether a sentence ends before this byte, or a comment begins.
fn is_end(byte: u8) -> bool {
    matches!(byte, b'\n' | b';' | b'#')
}

// The sentence that begins so many bytes behind the beginning of a text.
fn sentence_at(bytes: &[u8], at: usize) -> &str {
    let Some(rest) = bytes.get(at..) else {
        return "";
    };
    let end = match rest.iter().position(|byte| is_end(*byte)) {
        Some(count) => count,
        None => rest.len(),
    };
    match str::from_utf8(&rest[..end]) {
        Ok(sentence) => sentence.trim_end(),
        Err(_) => "",
    }
}

fn digits_of(number: usize) -> usize {
    let mut count = 1usize;
    let mut rest = number / 10;
    for _digit in 0..20 {
        if rest == 0 {
            return count;
        }
        count = count.saturating_add(1);
        rest /= 10;
    }
    count
}

fn add_blanks(page: &mut Page, count: usize) {
    for _blank in 0..count {
        page.add(" ");
    }
}

/// How wide the columns of quotes are.
#[derive(Clone, Copy)]
pub(crate) struct Widths {
    line: usize,
    sentence: usize,
}

/// The widths of the columns for these expectations.
pub(crate) fn widths_of(bytes: &[u8], expectations: &[Expectation]) -> Widths {
    let mut widths = Widths {
        line: 1,
        sentence: 0,
    };
    let mut place = Place::FIRST;
    for expectation in expectations {
        place = place_from(bytes, place, expectation.at);
        widths.line = widths.line.max(digits_of(place.line));
        widths.sentence = widths
            .sentence
            .max(sentence_at(bytes, expectation.at).len());
    }
    widths
}

/// Appends an expectation as it stands in the text, with its line before it, and a gap behind it.
pub(crate) fn add_quote(
    page: &mut Page,
    bytes: &[u8],
    widths: Widths,
    place: Place,
    expectation: &Expectation,
) {
    let sentence = sentence_at(bytes, expectation.at);
    page.add("  ");
    add_blanks(page, widths.line.saturating_sub(digits_of(place.line)));
    page.say((place.line, "  "));
    page.show(sentence);
    add_blanks(page, widths.sentence.saturating_sub(sentence.len()));
    page.add("   ");
}
