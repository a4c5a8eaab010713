use crate::phases::Phase;
use lwkt_base::{Answer, TokList};

/// The word that refused a thread's list, and the place of the reference that it refused.
#[derive(Clone, Copy, PartialEq, Eq)]
pub struct BusyAt {
    pub(crate) word: u64,
    pub(crate) at: usize,
}

/// A thread of a processor, apart from its body: its references, the answer that is kept for its next poll, what it is doing,
/// and the word that refused its list when that was last tried, until it runs or ends.
#[derive(Drop)]
pub struct Thread {
    pub(crate) list: TokList,
    pub(crate) last: Answer,
    pub(crate) phase: Phase,
    pub(crate) busy: Option<BusyAt>,
}
