/// What a message asks for.
#[derive(Clone, Copy, Debug, Default, PartialEq, Eq)]
pub struct Call {
    /// An argument, which the layer passes on and doesn't read.
    pub arg: u64,
    /// What is to be done, by a number that sender and target agree on.
    pub op: u32,
}

/// A message's record: the call that was sent, and the error and result of its reply.
#[derive(Clone, Copy, Debug, Default, PartialEq, Eq)]
pub struct Rec {
    /// The argument of the call.
    pub arg: u64,
    /// The result of the reply, 0 before it.
    pub result: u64,
    /// What the call asks for.
    pub op: u32,
    /// The error of the reply, 0 without one. The layer itself answers 4 (aborted), 30 (closed port) and 41 (its thread has
    /// ended).
    pub error: u32,
}

/// What the origin of a message allows itself to do with it once it is sent (msgport(9)).
#[derive(Clone, Copy, Debug, Default, PartialEq, Eq)]
pub struct Flags {
    /// The origin may drop the message before it is taken.
    pub dropable: bool,
    /// The origin may ask for the message to be aborted.
    pub abortable: bool,
    /// The ports that the message comes to serve it before messages without this flag (MSGF_PRIORITY).
    pub priority: bool,
}
