ghost use Rattle.std.specs.Prelude.{◌≡◌, ◌<◌, ◌^◌};

use crate::names::Mode;

/// What a processor holds of one token: nothing, or the mode of its first reference and the number of references
/// beyond that one.
#[derive(Clone, Copy, PartialEq, Eq)]
pub enum Held {
    Nothing,
    Holds(Mode, u8),
}

impl Held {
    ghost use Rattle.lwkt_base.specs.Holding.{one_more, one_less, references_in, is_exclusive, is_held};

    /// How many references these are, 0 to 256.
    pub fn references(self) -> usize
        ensures { result ≡ references_in self }
    {
        match self {
            Held::Nothing => 0,
            Held::Holds(_, further) => further as usize + 1,
        }
    }

    /// Whether it is held by one processor alone.
    pub fn is_exclusive(self) -> bool
        ensures { result ≡ is_exclusive self }
    {
        matches!(self, Held::Holds(Mode::Exclusive, _))
    }

    /// Whether it is held at all, in either mode.
    pub fn is_held(self) -> bool
        ensures { result ≡ is_held self }
    {
        matches!(self, Held::Holds(_, _))
    }

    /// One reference more. A further reference keeps the mode of the first.
    pub fn one_more(self, mode: Mode) -> Held
        requires { references_in self < 2 ^ 8 }
        ensures { result ≡ one_more self mode }
    {
        match self {
            Held::Nothing => Held::Holds(mode, 0),
            Held::Holds(first, further) => Held::Holds(first, further + 1),
        }
    }

    /// One reference less. The last one leaves nothing.
    pub fn one_less(self) -> Held
        ensures { result ≡ one_less self }
    {
        match self {
            Held::Nothing | Held::Holds(_, 0) => Held::Nothing,
            Held::Holds(mode, further) => Held::Holds(mode, further - 1),
        }
    }
}
