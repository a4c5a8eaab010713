use crate::states::Phase;
use lwkt_base::Answer;

/// Why a reference isn't had.
#[derive(Clone, Copy, PartialEq, Eq)]
pub enum Miss {
    /// This word refuses it.
    Busy(u64),
    /// Its token is at its last generation.
    Worn,
}

/// The reference of a list that isn't had, by its place, and why.
#[derive(Clone, Copy, PartialEq, Eq)]
pub struct Missed {
    pub at: usize,
    pub why: Miss,
}

/// What comes next for a thread whose ask was performed.
#[derive(Clone, Copy, PartialEq, Eq)]
pub enum Next {
    /// It goes on running, with this answer.
    Runs(Answer),
    /// It gives up so many first references of its list, and is in this phase then.
    Leaves(usize, Phase),
}
