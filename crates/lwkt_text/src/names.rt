ghost use Rattle.std.specs.Prelude.{◌≡◌, ℕ, ◌<◌, ◌∷◌, [], ◌++◌, List, decimal, string_bytes, OnOk, IfOk};

use lwkt_base::OutOfMemory;
use lwkt_base::memory::{from_str, push_char, push_number};
use std::alloc::Global;
use std::marker::Model;

/// A word of a text, of ASCII characters.
#[derive(Drop)]
pub struct Name {
    text: String,
}

impl Model for Name {
    ghost Value = { List ℕ };

    ghost view = { λ n. string_bytes n.text };
}

impl Name {
    /// No characters. Takes no memory.
    pub fn new(alloc: Global) -> Self
        ensures { result ≡ [] }
    {
        Name {
            text: String::new(alloc),
        }
    }

    /// The characters of a text.
    pub fn of(alloc: Global, text: &str) -> Result<Self, OutOfMemory>
        ensures { IfOk result (λ name. name ≡ text.now) }
    {
        Ok(Name {
            text: from_str(alloc, text)?,
        })
    }

    /// Puts a character at the end.
    pub(crate) fn push(&mut self, byte: u8) -> Result<(), OutOfMemory>
        requires { byte < 128 }
        ensures { OnOk result (self.new ≡ self.old ++ byte ∷ []) }
    {
        push_char(&mut self.text, byte as char)
    }

    /// Puts the digits of a number at the end.
    pub(crate) fn push_number(&mut self, n: u64) -> Result<(), OutOfMemory>
        ensures { OnOk result (self.new ≡ self.old ++ decimal n) }
    {
        push_number(&mut self.text, n)
    }

    /// Gives the characters away and has none then. Takes no memory.
    pub fn take(&mut self, alloc: Global) -> Self
        ensures given { result ≡ self.old }
        ensures left { self.new ≡ [] }
    {
        Name {
            text: std::mem::replace(&mut self.text, String::new(alloc)),
        }
    }

    /// The characters.
    pub fn as_str(&self) -> &str
        ensures { result.now ≡ self.now }
    {
        self.text.as_str()
    }
}
