//! What is known to be so: yes, no, or neither.
ghost use Rattle.std.specs.Prelude.{◌≡◌};
ghost use Rattle.lwkt_explore.specs.Truths.{known, opposite, lesser, greater};

/// Whether something is so, as far as a report tells.
#[derive(Clone, Copy, PartialEq, Eq)]
pub enum Truth {
    /// It is so.
    Yes,
    /// It isn't.
    No,
    /// The report doesn't tell: a log that is full doesn't show an entry, and may lack later ones.
    Open,
}

/// What is known to be so, or not.
pub(crate) fn known(so: bool) -> Truth
    ensures { result ≡ known so }
{
    if so { Truth::Yes } else { Truth::No }
}

/// The opposite of what is so, or isn't.
pub(crate) fn opposite(truth: Truth) -> Truth
    ensures { result ≡ opposite truth }
{
    match truth {
        Truth::Yes => Truth::No,
        Truth::No => Truth::Yes,
        Truth::Open => Truth::Open,
    }
}

/// Whether both are so.
pub(crate) fn lesser(a: Truth, b: Truth) -> Truth
    ensures { result ≡ lesser a b }
{
    match (a, b) {
        (Truth::No, _) | (_, Truth::No) => Truth::No,
        (Truth::Open, _) | (_, Truth::Open) => Truth::Open,
        (Truth::Yes, Truth::Yes) => Truth::Yes,
    }
}

/// Whether one of them is so, or both.
pub(crate) fn greater(a: Truth, b: Truth) -> Truth
    ensures { result ≡ greater a b }
{
    match (a, b) {
        (Truth::Yes, _) | (_, Truth::Yes) => Truth::Yes,
        (_, Truth::Open) | (Truth::Open, _) => Truth::Open,
        (Truth::No, Truth::No) => Truth::No,
    }
}
