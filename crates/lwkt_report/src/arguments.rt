//! The arguments of a program.
ghost use Rattle.std.specs.Prelude.{◌≡◌};
ghost use Rattle.lwkt_report.specs.declared.arguments.WordsFault.TheVariants.{Memory};

use lwkt_base::OutOfMemory;
use lwkt_base::memory::arguments_of;
use std::rt::Env;

/// Why the arguments of a program can't be told.
#[derive(Clone, Copy)]
pub enum WordsFault {
    /// Memory for them was refused.
    Memory(OutOfMemory),
    /// One isn't UTF-8.
    NotUtf8,
}

impl From<OutOfMemory> for WordsFault {
    ghost from_gives = { λ refused fault. fault ≡ Memory refused };

    fn from(refused: OutOfMemory) -> WordsFault {
        WordsFault::Memory(refused)
    }
}

/// The arguments of the program without its own name.
pub fn words_of<R: Env + AllocGlobal>(rt: &R) -> Result<Vec<String>, WordsFault> {
    match arguments_of(rt)? {
        Ok(words) => Ok(words),
        Err(_) => Err(WordsFault::NotUtf8),
    }
}
