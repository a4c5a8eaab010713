use lwkt_base::Rec;

/// What a take answers.
#[derive(Clone, Copy, PartialEq, Eq)]
pub enum Taken {
    /// The message was taken: its record, as it was sent, whether its origin has asked for it to be aborted, and whether it
    /// was sent with priority.
    Took {
        rec: Rec,
        aborted: bool,
        priority: bool,
    },
    /// The message is in another round, not on its way, or on its way to another processor.
    Stale,
    /// Another step on the message came between.
    Again,
}

/// What a reap answers.
#[derive(Clone, Copy, PartialEq, Eq)]
pub enum Reaped {
    /// The message is at rest again: its record, with the call that was sent and the error and result of its reply.
    Done { rec: Rec },
    /// The message is in another round, has not come back, or belongs to another processor.
    Stale,
}
