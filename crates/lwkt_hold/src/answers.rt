use lwkt_base::TokId;

/// Why a reference was missed.
#[derive(Clone, Copy, PartialEq, Eq)]
pub enum Missed {
    /// The token is held in a way that excludes the request, or marked; the word that was found.
    Busy { word: u64 },
    /// Another processor's step came between.
    Again,
    /// An exclusive request at the last generation.
    Worn,
}

/// What taking a whole list again answers.
#[derive(Clone, Copy, PartialEq, Eq)]
pub enum Resumed {
    /// Every reference of the list is held.
    All,
    /// The reference of this place was missed, and nothing is held.
    Passed { at: usize, why: Missed },
}

/// What asking for a reference answers.
#[derive(Clone, Copy, PartialEq, Eq)]
pub enum Acquired {
    /// The reference is held.
    Got,
    /// The reference is on the list and isn't held: the thread has to give up what it holds and take the whole list again.
    MustSwitch { why: Missed },
}

/// What giving up every reference answers.
#[derive(Clone, Copy, PartialEq, Eq)]
pub enum Blocked {
    /// Nothing was restored.
    Clean,
    /// A section had broken its law, and its row and record were restored; the first such token.
    Restored(TokId),
}
