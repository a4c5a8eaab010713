//! A text that is made piece by piece.
ghost use Rattle.std.specs.Prelude.{◌≡◌, ◌<◌, ◌++◌, [], ◌∷◌, None, IfOk, string_bytes};
ghost use Rattle.std.specs.Fmt.{decimal};
ghost use Rattle.lwkt_base.specs.Fault.{fault_message};
ghost use Rattle.lwkt_refusals.specs.Pages.{GrowsBy};
ghost use Rattle.lwkt_report.specs.Escape.{escaped, letter_shown};

use lwkt_base::memory::{Piece, push_char, put};
use lwkt_base::{Fault, OutOfMemory};
use lwkt_report::{push_escaped, push_shown};
use std::alloc::Global;

/// A text that is made piece by piece. Once memory is refused for a piece, the text is lost: it takes no more, and only
/// `whole` says so.
#[derive(Drop)]
pub struct Page {
    text: String,
    // That memory for a piece was refused, if it was.
    lost: Option<OutOfMemory>,
}

impl Page {
    /// An empty text.
    pub fn new(alloc: Global) -> Page
        ensures empty { string_bytes result.text ≡ [] }
        ensures kept { result.lost ≡ None }
    {
        Page {
            text: String::new(alloc),
            lost: None,
        }
    }

    /// Appends a piece, or several in turn, as in `page.say(("event ", index, ": "))`.
    pub fn say<P: Piece>(&mut self, piece: P)
        ensures { GrowsBy self.old self.new (P.text piece) }
    {
        if self.lost.is_none() {
            self.lost = put(&mut self.text, piece).err();
        }
    }

    /// Appends a text.
    pub fn add(&mut self, text: &str)
        ensures { GrowsBy self.old self.new text.now }
    {
        self.say(text)
    }

    /// Appends a character.
    pub fn letter(&mut self, letter: char)
        ensures { letter < 128 → GrowsBy self.old self.new (letter ∷ []) }
    {
        if self.lost.is_none() {
            self.lost = push_char(&mut self.text, letter).err();
        }
    }

    /// Appends a character of input as it is shown: it, or its escape.
    pub fn show_letter(&mut self, letter: char)
        ensures { GrowsBy self.old self.new (letter_shown letter) }
    {
        if self.lost.is_none() {
            self.lost = push_shown(&mut self.text, letter).err();
        }
    }

    /// Appends a text of input as it is shown: escapes stand for the characters that tell a terminal anything.
    pub fn show(&mut self, text: &str)
        ensures { GrowsBy self.old self.new (escaped text.now) }
    {
        if self.lost.is_none() {
            self.lost = push_escaped(&mut self.text, text).err();
        }
    }

    /// Appends a text, and a number behind it.
    pub fn number(&mut self, before: &str, number: u64)
        ensures { GrowsBy self.old self.new (before.now ++ decimal number) }
    {
        self.say((before, number))
    }

    /// Appends a text, and a number of parts behind it.
    pub fn size(&mut self, before: &str, number: usize)
        ensures { GrowsBy self.old self.new (before.now ++ decimal number) }
    {
        self.number(before, number as u64);
    }

    /// Appends numbers, each after a space, or ` -` where there are none.
    pub fn numbers(&mut self, numbers: &[u64]) {
        for number in numbers {
            self.number(" ", *number);
        }
        if numbers.is_empty() {
            self.add(" -");
        }
    }

    /// Appends a text, and the message of a fault behind it.
    pub fn fault(&mut self, before: &str, fault: Fault)
        ensures { GrowsBy self.old self.new (before.now ++ fault_message fault) }
    {
        self.say((before, fault))
    }

    /// Appends what was made on another page.
    pub fn add_page(&mut self, page: &Page)
        ensures text { GrowsBy self.old self.new (string_bytes page.now.text) }
        ensures kept { self.new.lost ≡ None → page.now.lost ≡ None }
    {
        self.add(page.text.as_str());
        if page.lost.is_some() {
            self.lost = page.lost;
        }
    }

    /// Appends what was made on another page, without white space at its end.
    pub fn add_line(&mut self, page: &Page) {
        self.add(page.text.as_str().trim_end());
        if page.lost.is_some() {
            self.lost = page.lost;
        }
    }

    /// Takes all of it back.
    pub fn clear(&mut self) {
        self.text.clear();
    }

    /// Notes that memory was refused for a piece.
    pub fn lose(&mut self, refused: OutOfMemory) {
        self.lost = Some(refused);
    }

    /// The text.
    ///
    /// Refused where memory was refused for a piece of it.
    pub fn whole(self) -> Result<String, OutOfMemory>
        ensures { IfOk result (λ text. (self.lost ≡ None) × (string_bytes text ≡ string_bytes self.text)) }
    {
        match self.lost {
            Some(refused) => Err(refused),
            None => Ok(self.text),
        }
    }
}
