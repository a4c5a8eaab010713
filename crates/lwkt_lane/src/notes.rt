use lwkt_base::MsgId;

/// What a note says to the port that it goes to.
#[derive(Clone, Copy, Default, PartialEq, Eq)]
pub enum NoteKind {
    /// The message was sent to the port, and waits to be taken.
    #[default]
    Request,
    /// The message was replied to, and waits for its origin.
    Answer,
}

/// What a lane carries: that something is to be done with a message. The message's record doesn't travel with it.
#[derive(Clone, Copy, Default, PartialEq, Eq)]
pub struct Note {
    /// The round of the message when the note was made, 0 to 2251799813685247.
    pub round: u64,
    /// The message.
    pub msg: MsgId,
    /// The thread of the receiving processor whose port the note is for, 0 to 15.
    pub port: u8,
    /// What has been done with it, or is to be done.
    pub kind: NoteKind,
    /// Whether the message was sent with priority: its port serves the note before those that aren't urgent.
    pub urgent: bool,
}
