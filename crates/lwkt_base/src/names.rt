/// A token, by its number: 0 to 63 where the token exists.
#[derive(Clone, Copy, Debug, Default, PartialEq, Eq)]
pub struct TokId(pub u8);

/// A processor, by its number: 0 to 7 where the processor exists.
#[derive(Clone, Copy, Debug, Default, PartialEq, Eq)]
pub struct CpuId(pub u8);

/// A message, by its number: 0 to 63 where the message exists.
#[derive(Clone, Copy, Debug, Default, PartialEq, Eq)]
pub struct MsgId(pub u8);

/// A thread: its processor and its number there, 0 to 15 where the thread exists.
#[derive(Clone, Copy, Debug, Default, PartialEq, Eq)]
pub struct ThreadId {
    /// The processor that the thread runs on.
    pub cpu: CpuId,
    /// Its number there.
    pub thread: u8,
}

/// How a token is held: by one processor alone, or by any number of processors together (token(9)).
#[derive(Clone, Copy, Debug, PartialEq, Eq)]
pub enum Mode {
    Exclusive,
    Shared,
}

/// One reference of a thread to a token.
#[derive(Clone, Copy, Debug, PartialEq, Eq)]
pub struct Ref {
    /// The token that is referred to.
    pub tok: TokId,
    pub mode: Mode,
}
