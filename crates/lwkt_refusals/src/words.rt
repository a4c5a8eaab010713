//! What is said of a bad part of JSON.
use crate::json_parts::Part;
use crate::pages::Page;
use crate::proposals::{NO_NAME, Near, nearer};
use std::alloc::Global;

// The longest part that is shown whole, in bytes.
const PART_LIMIT: usize = 200;

/// What is said of a bad part, the place of the text at which the part begins, and the known word that it is most like.
#[derive(Drop)]
pub(crate) struct Words {
    pub(crate) page: Page,
    pub(crate) place: usize,
    near: Near<'static>,
    pub(crate) alloc: Global,
}

impl Words {
    /// No words, of the beginning of the text.
    pub(crate) fn new(alloc: Global) -> Words {
        let page = Page::new(alloc);
        Words {
            page,
            place: 0,
            near: NO_NAME,
            alloc,
        }
    }

    /// Notes that this is the bad part.
    pub(crate) fn point(&mut self, part: Part<'_>) {
        self.place = part.from;
    }

    /// Notes a known word, if the part is more like it than like those that were noted before.
    pub(crate) fn propose(&mut self, part: Part<'_>, word: &'static str) {
        let near = nearer(&mut self.page, self.alloc, part.unquoted(), self.near, word);
        self.near = near;
    }

    /// The known word that the part is most like, or the empty one if it is like none.
    pub(crate) fn near(&self) -> &'static str {
        self.near.name
    }

    // Appends a text of input without white space, but for that in its strings.
    fn close(&mut self, text: &str) {
        let mut is_inside = false;
        let mut is_escaped = false;
        for letter in text.chars() {
            if is_inside || !letter.is_ascii_whitespace() {
                self.page.show_letter(letter);
            }
            if letter == '"' && !is_escaped {
                is_inside = !is_inside;
            }
            is_escaped = letter == '\\' && !is_escaped;
        }
    }

    /// Points at a part, and appends it as it was written, on one line where it is short, between two texts.
    pub(crate) fn quote(&mut self, before: &str, part: Part<'_>, behind: &str) {
        self.point(part);
        self.page.say(before);
        if part.len() > PART_LIMIT {
            self.page.say(("a part of ", part.len(), " bytes"));
        } else {
            self.close(part.written());
        }
        self.page.say(behind);
    }
}
