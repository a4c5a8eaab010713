//! Where something stands in a text or in JSON: lines and columns.
use crate::pages::Page;

/// A line of a text, and where something stands in it.
#[derive(Clone, Copy, PartialEq, Eq)]
pub struct Place {
    /// The line's number, from 1 on.
    pub line: usize,
    /// How many bytes of it stand before.
    pub before: usize,
    /// How many bytes of the text stand before the line.
    pub start: usize,
}

impl Place {
    /// The start of a text.
    pub const FIRST: Place = Place {
        line: 1,
        before: 0,
        start: 0,
    };

    /// How many bytes of the text stand before.
    pub fn at(self) -> usize {
        self.start.saturating_add(self.before)
    }

    /// The column, from 1 on. A column is a byte.
    pub fn column(self) -> usize {
        self.before.saturating_add(1)
    }
}

/// The bytes of a text from one place to another.
pub fn part_of(bytes: &[u8], from: usize, to: usize) -> &[u8] {
    if from <= to && to <= bytes.len() {
        &bytes[from..to]
    } else {
        &[]
    }
}

/// The bytes of a text from a place on, at most so many.
pub fn part_from(bytes: &[u8], from: usize, most: usize) -> &[u8] {
    part_of(bytes, from, from.saturating_add(most).min(bytes.len()))
}

/// How many of these bytes stand before the end of a line.
pub fn line_length(bytes: &[u8]) -> usize {
    match bytes.iter().position(|byte| *byte == b'\n') {
        Some(count) => count,
        None => bytes.len(),
    }
}

/// The place of the byte that so many others stand before, or of the end if there are fewer. Only the bytes behind `last`, a place
/// of the same text, are read, if it isn't before that.
pub fn place_from(bytes: &[u8], last: Place, at: usize) -> Place {
    let at = at.min(bytes.len());
    let last = if last.at() <= at { last } else { Place::FIRST };
    let from = last.at();
    let mut line = last.line;
    let mut start = last.start;
    for (i, byte) in part_of(bytes, from, at).iter().enumerate() {
        if *byte == b'\n' {
            line = line.saturating_add(1);
            start = from.saturating_add(i).saturating_add(1);
        }
    }
    Place {
        line,
        before: at.saturating_sub(start),
        start,
    }
}

/// How many bytes stand before a line and a column, both counted from 1.
pub fn offset_of(bytes: &[u8], line: usize, column: usize) -> usize {
    let mut left = line;
    for (at, byte) in bytes.iter().enumerate() {
        if left <= 1 {
            return at.saturating_add(column.saturating_sub(1));
        }
        if *byte == b'\n' {
            left = left.saturating_sub(1);
        }
    }
    bytes.len()
}

/// Appends the file, where one is named, and the line.
pub fn add_head(page: &mut Page, path: Option<&str>, place: Place) {
    if let Some(path) = path {
        page.show(path);
        page.say(":");
    }
    page.say(place.line);
}
