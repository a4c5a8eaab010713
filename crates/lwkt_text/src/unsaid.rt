ghost use Rattle.std.specs.Prelude.{◌≡◌};
ghost use Rattle.lwkt_text.specs.declared.unsaid.Unsaid.TheVariants.{Memory};

use lwkt_base::OutOfMemory;

/// Why a script isn't written as a text.
#[derive(Clone, Copy, PartialEq, Eq)]
pub enum Unsaid {
    /// Memory was refused.
    Memory(OutOfMemory),
    /// The script doesn't keep the limits of the format.
    Limits,
}

impl From<OutOfMemory> for Unsaid {
    ghost from_gives = { λ refused unsaid. unsaid ≡ Memory refused };

    fn from(refused: OutOfMemory) -> Unsaid {
        Unsaid::Memory(refused)
    }
}
