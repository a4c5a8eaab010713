/// Where sentences stand.
#[derive(Clone, Copy)]
pub struct Scope {
    /// The place that a `break` leads to: behind the innermost loop.
    pub leave: Option<usize>,
    /// The sentence that the innermost loop is.
    pub round: Option<u8>,
    /// How many `times` they stand in.
    pub times: u8,
}
