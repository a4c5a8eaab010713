use lwkt_base::{CpuId, MsgSpec, TokSpec};
use lwkt_code::{Code, Series};

/// A script, read.
#[derive(Drop)]
pub struct Script {
    /// How many rounds a run makes at most, 1 to 1000000.
    pub turns: u32,
    /// How many turns of a processor may pass without a thread that runs, 1 to 100000000.
    pub idle: u32,
    /// How many processors there are, 1 to 8.
    pub cpus: u8,
    /// At most 64 tokens, by their numbers.
    pub tokens: Series<TokSpec>,
    /// At most 64 messages, by their numbers.
    pub messages: Series<MsgSpec>,
    /// At most 16 threads of each processor. A thread's number is its place among those of its processor.
    pub threads: Series<ThreadSpec>,
}

/// One thread of a script.
#[derive(Drop)]
pub struct ThreadSpec {
    /// The thread's processor, below the script's `cpus`.
    pub cpu: CpuId,
    /// Whether it serves others, and need not end.
    pub service: bool,
    /// What the thread asks for: at most 256 sentences, of at most 768 steps, made 1 to 1000000 times over. Of versions 1 and 2 each is an ask.
    pub code: Code,
}
