//! What the calls on lists of references answer.
ghost use Rattle.std.specs.Prelude.{◌≡◌};
ghost use Rattle.lwkt_seats.specs.ListNumbers.{unlisted_number, missed_number, resumed_number};

/// Why references are no list.
#[derive(Clone, Copy)]
pub enum Unlisted {
    NoToken,
    NoMode,
    ListFull,
    Upgrade,
}

impl Unlisted {
    /// Its number, as C is given it.
    pub fn number(self) -> u32
        ensures { result ≡ unlisted_number self }
    {
        match self {
            Unlisted::NoToken => 16,
            Unlisted::NoMode => 39,
            Unlisted::ListFull => 10,
            Unlisted::Upgrade => 11,
        }
    }
}

/// Why a reference of a list was missed.
#[derive(Clone, Copy)]
pub enum Missed {
    Busy,
    Again,
    Worn,
}

impl Missed {
    /// Its number, as C is given it.
    pub fn number(self) -> u32
        ensures { result ≡ missed_number self }
    {
        match self {
            Missed::Busy => 23,
            Missed::Again => 34,
            Missed::Worn => 20,
        }
    }
}

/// What taking a list answers.
#[derive(Clone, Copy)]
pub enum Resumed {
    /// Every reference is held.
    All,
    /// The seat held a token already.
    Holds,
    /// The reference of this place can't follow those in front of it.
    Unlisted(usize, Unlisted),
    /// The reference of this place was missed, and nothing is held.
    Missed(usize, Missed),
}

impl Resumed {
    /// Its number, as C is given it.
    pub fn number(self) -> u32
        ensures { result ≡ resumed_number self }
    {
        match self {
            Resumed::All => 0,
            Resumed::Holds => 51,
            Resumed::Unlisted(_, why) => why.number(),
            Resumed::Missed(_, why) => why.number(),
        }
    }
}
