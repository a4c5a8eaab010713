//! A part of a JSON text, by where it stands there.
use crate::spans::{byte_at, is_string_of, past_mark, past_space, past_value};
use std::str;

/// A part of a JSON text, by where it stands there.
#[derive(Clone, Copy)]
pub(crate) struct Part<'a> {
    text: &'a [u8],
    /// The place of its first byte.
    pub(crate) from: usize,
    // The place behind its last byte.
    to: usize,
}

impl<'a> Part<'a> {
    // The part that begins at the first byte from here on that is no white space.
    fn at(text: &'a [u8], from: usize) -> Part<'a> {
        let from = past_space(text, from);
        let to = past_value(text, from);
        Part { text, from, to }
    }

    /// The whole of a text.
    pub(crate) fn whole(text: &'a [u8]) -> Part<'a> {
        Part::at(text, 0)
    }

    /// How many bytes it has.
    pub(crate) fn len(&self) -> usize {
        self.to.saturating_sub(self.from)
    }

    /// It as it was written.
    pub(crate) fn written(&self) -> &'a str {
        match self.text.get(self.from..self.to) {
            Some(bytes) => str::from_utf8(bytes).unwrap_or(""),
            None => "",
        }
    }

    /// It as it was written, without the quotes of a string.
    pub(crate) fn unquoted(&self) -> &'a str {
        self.written().trim_matches('"')
    }

    /// Its first byte, or 0 where there is none.
    pub(crate) fn first(&self) -> u8 {
        byte_at(self.text, self.from)
    }

    /// Whether it is the string of these characters, which are ASCII's.
    pub(crate) fn is_text(&self, letters: &str) -> bool {
        is_string_of(self.text, self.from, letters)
    }

    /// The whole number that it is.
    pub(crate) fn number(&self) -> Option<u64> {
        self.written().parse::<u64>().ok()
    }

    /// The item or the name behind an item or a member's value, if there is one.
    pub(crate) fn behind(&self, part: Part<'a>) -> Option<Part<'a>> {
        let end = past_space(self.text, part.to);
        if byte_at(self.text, end) != b',' {
            return None;
        }
        Some(Part::at(self.text, end.saturating_add(1)))
    }

    /// Whether another part begins within it.
    pub(crate) fn holds(&self, other: Part<'_>) -> bool {
        self.from <= other.from && other.from < self.to
    }

    /// What stands behind it: a part, or one that begins with the comma or the bracket there.
    pub(crate) fn past(&self) -> Part<'a> {
        Part::at(self.text, self.to)
    }

    /// What stands behind its first byte, a comma or a bracket.
    pub(crate) fn past_first(&self) -> Part<'a> {
        Part::at(self.text, self.from.saturating_add(1))
    }

    // The first part of what begins with this bracket, if it does and isn't empty.
    fn inside(&self, bracket: u8) -> Option<Part<'a>> {
        let inner = self.past_first();
        if self.first() != bracket || matches!(inner.first(), b']' | b'}') {
            return None;
        }
        Some(inner)
    }

    // The value behind a member's name.
    fn value(&self) -> Part<'a> {
        Part::at(self.text, past_mark(self.text, self.to))
    }

    /// The item of a list at a place.
    pub(crate) fn item(&self, place: usize) -> Option<Part<'a>> {
        let mut item = self.inside(b'[')?;
        for _before in 0..place {
            item = self.behind(item)?;
        }
        Some(item)
    }

    /// The last item of a list.
    pub(crate) fn last(&self) -> Option<Part<'a>> {
        self.item(self.count()?.saturating_sub(1))
    }

    /// The first item of a list that is no whole number.
    pub(crate) fn odd_item(&self) -> Option<Part<'a>> {
        let mut next = self.inside(b'[');
        for _turn in self.from..self.to {
            let item = next?;
            if item.number().is_none() {
                return Some(item);
            }
            next = self.behind(item);
        }
        None
    }

    /// How many items it has, if it is a list.
    pub(crate) fn count(&self) -> Option<usize> {
        if self.first() != b'[' {
            return None;
        }
        let mut count = 0usize;
        let mut next = self.inside(b'[');
        for _turn in self.from..self.to {
            let Some(item) = next else {
                break;
            };
            count = count.saturating_add(1);
            next = self.behind(item);
        }
        Some(count)
    }

    /// The member of an object that has this name: the last one that has it.
    pub(crate) fn member(&self, name: &str) -> Option<Part<'a>> {
        let mut found = None;
        let mut next = self.inside(b'{');
        for _turn in self.from..self.to {
            let Some(key) = next else {
                break;
            };
            let value = key.value();
            if key.is_text(name) {
                found = Some(value);
            }
            next = self.behind(value);
        }
        found
    }

    /// The whole number that a member is.
    pub(crate) fn number_of(&self, name: &str) -> Option<u64> {
        self.member(name)?.number()
    }

    /// The name of the first member of an object that has none of these names.
    pub(crate) fn stranger(&self, names: &[&'static str]) -> Option<Part<'a>> {
        let mut next = self.inside(b'{');
        for _turn in self.from..self.to {
            let key = next?;
            if !names.iter().any(|name| key.is_text(name)) {
                return Some(key);
            }
            next = self.behind(key.value());
        }
        None
    }
}
