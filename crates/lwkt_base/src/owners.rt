use crate::names::CpuId;

/// Who has a message. The origin is always the processor of the message's own thread (msgport(9); the four states are
/// own).
#[derive(Clone, Copy, PartialEq, Eq)]
pub enum Owner {
    /// At rest, with its origin.
    Rest { origin: CpuId },
    /// Sent, and not taken yet.
    Out { origin: CpuId, target: CpuId },
    /// Taken by its target.
    With { origin: CpuId, target: CpuId },
    /// Replied to, and not taken back yet.
    Back { origin: CpuId, target: CpuId },
}

/// What a message is at the end of a run.
#[derive(Clone, Copy, PartialEq, Eq)]
pub struct MsgEnd {
    /// The opening round plus the sends, 0 to 2251799813685247.
    pub round: u64,
    /// Who has the message then.
    pub state: Owner,
}
