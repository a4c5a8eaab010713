//! Whether every order was tried.

/// What ends a search before every order is tried.
#[derive(Clone, Copy, PartialEq, Eq)]
pub enum Bound {
    /// As many states were kept as may be, and a turn led to a further one.
    States,
    /// An order had as many turns as it may have, and a further turn led on.
    Turns,
    /// What was kept took more bytes than it may.
    Memory,
    /// Memory was refused.
    Refused,
    /// Who looks on ended it.
    Stopped,
    /// The machine didn't end as its plain machine did.
    Differs,
}

/// What room a search had for what it keeps.
#[derive(Clone, Copy, PartialEq, Eq)]
pub(crate) enum Room {
    /// As much as it took.
    Enough,
    /// Less than it would have taken: it was stopped for that.
    Full,
    /// Memory was refused, so it began anew with less.
    Refused,
}

/// Whether every order was tried, and if not, what ended the search.
#[derive(Clone, Copy, PartialEq, Eq)]
pub enum Extent {
    /// Every order was tried.
    Complete,
    /// Not every order was tried. Of more bounds than one this is that which ended the search, or else the first that was met.
    Part(Bound),
    /// Random orders were tried, which are never all.
    Sampled,
}
