use lwkt_base::OutOfMemory;
use lwkt_base::memory::{push_number, push_str};
use std::alloc::Global;

/// A text that is written from its beginning to its end.
#[derive(Drop)]
pub struct Sheet {
    text: String,
}

impl Sheet {
    /// Nothing is written yet. Takes no memory.
    pub fn new(alloc: Global) -> Self {
        Sheet {
            text: String::new(alloc),
        }
    }

    /// Writes a text.
    pub fn text(&mut self, text: &str) -> Result<(), OutOfMemory> {
        push_str(&mut self.text, text)
    }

    /// Writes a number in decimal digits.
    pub fn number(&mut self, n: u64) -> Result<(), OutOfMemory> {
        push_number(&mut self.text, n)
    }

    /// Writes a text and a number behind it.
    pub fn tagged(&mut self, text: &str, n: u64) -> Result<(), OutOfMemory> {
        self.text(text)?;
        self.number(n)
    }

    /// Writes numbers, with a text before each but the first.
    pub fn numbers(&mut self, between: &str, numbers: &[u64]) -> Result<(), OutOfMemory> {
        for (i, n) in numbers.iter().enumerate() {
            if i > 0 {
                self.text(between)?;
            }
            self.number(*n)?;
        }
        Ok(())
    }

    /// What was written.
    pub fn into_string(self) -> String {
        self.text
    }
}
