//! How a script is driven.

/// How the processors of a script are driven.
#[derive(Clone, Copy, PartialEq, Eq)]
pub enum Mode {
    /// In rounds, on one thread.
    Turns,
    /// Each on a thread of its own, if one can be made.
    Threads,
}
