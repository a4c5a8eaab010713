use lwkt_base::{Blob, Cells, MsgEnd, ThreadLine};

/// What a token is at the end of a run.
#[derive(Drop)]
pub struct TokenLine {
    /// The generation, 0 to 70368744177663.
    pub generation: u64,
    /// The cells, 0 to 4 of them.
    pub cells: Cells,
    /// Of a Tally token what each processor has added, by the processor's number; of every other token nothing.
    pub tallies: Option<Cells>,
    /// The record, of at most 64 bytes, if the token guards one.
    pub blob: Option<Blob>,
}

/// What a run says of its own trace.
#[derive(Clone, Copy, PartialEq, Eq)]
pub enum Verdict {
    /// Nothing: the run was made by several threads, and its steps lie in no known order.
    Closed,
    /// The trace is a lawful one from the opening to the closing values.
    Lawful,
    /// It isn't; the index of the first event that isn't lawful, or the number of events.
    Unlawful { index: usize },
}

/// All that a report shows of a run that has ended.
#[derive(Drop)]
pub struct Closing {
    /// The tokens, by number.
    pub tokens: Vec<TokenLine>,
    /// The messages, by number.
    pub messages: Vec<MsgEnd>,
    /// The threads, by processor, then number.
    pub threads: Vec<ThreadLine>,
    /// What the run says of its trace.
    pub verdict: Verdict,
}
