/// Where a thread stands in its program.
#[derive(Clone, Copy)]
pub struct Local {
    /// The place of its next step.
    pub at: usize,
    /// How many repetitions come after this one.
    pub left: u32,
    /// Its variables.
    pub vars: [u64; 8],
    /// What is left of its counts.
    pub counts: [u32; 8],
    /// The number of the refusal that its last ask was answered by, 0 if it wasn't refused.
    pub refused: u32,
    /// Whether it asked something in this repetition.
    pub asked: bool,
}
