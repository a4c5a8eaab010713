ghost use Rattle.std.specs.Prelude.{◌≡◌, ◌+◌, ◌*◌, ◌%◌, ◌<◌, ◌^◌};

use crate::names::CpuId;

/// Where a message is, as its word shows it (msgport(9); the four states are own).
#[derive(Clone, Copy, PartialEq, Eq)]
pub enum MsgState {
    /// At rest, with its origin.
    Rest,
    /// Sent, and not taken yet.
    Out,
    /// Taken by its target.
    With,
    /// Replied to, and not taken back yet.
    Back,
}

/// The parts of a message's word (flags of msgport(9); the layout is own). From the lowest bit: 2 bits of state, the abort
/// request, MSGF_SYNC, MSGF_DROPABLE, MSGF_ABORTABLE, MSGF_PRIORITY, 3 bits of origin, 3 bits of target, 51 bits of round.
#[derive(Clone, Copy, PartialEq, Eq)]
pub struct MsgWord {
    /// The opening round plus the sends: 0 to 2251799813685247.
    pub round: u64,
    /// Where the message is.
    pub state: MsgState,
    /// The processor that the message belongs to: 0 to 7.
    pub origin: CpuId,
    /// The processor that the message was sent to: 0 to 7, and 0 at rest.
    pub target: CpuId,
    /// Whether the origin has asked for the message to be aborted.
    pub aborted: bool,
    /// Whether the sender waits for the reply.
    pub sync: bool,
    /// Whether the origin may drop the message before it is taken.
    pub dropable: bool,
    /// Whether the origin may ask for the message to be aborted.
    pub abortable: bool,
    /// Whether ports serve the message before those without this flag.
    pub priority: bool,
}

impl MsgState {
    ghost use Rattle.lwkt_base.specs.MessageWord.{state_number};

    /// The state's number in a word, 0 to 3.
    pub fn number(self) -> u64
        ensures { result ≡ state_number self }
    {
        match self {
            MsgState::Rest => 0,
            MsgState::Out => 1,
            MsgState::With => 2,
            MsgState::Back => 3,
        }
    }

    // The state that the lowest two bits of a word show.
    fn of_word(word: u64) -> MsgState
        ensures { state_number result ≡ word % 4 }
    {
        match word % 4 {
            0 => MsgState::Rest,
            1 => MsgState::Out,
            2 => MsgState::With,
            _ => MsgState::Back,
        }
    }
}

impl MsgWord {
    ghost use Rattle.lwkt_base.specs.MessageWord.{message_word, MessageFits};

    /// The parts of a word. Each word has parts, and they are the only ones that fit.
    pub fn parts(word: u64) -> MsgWord
        ensures undone { message_word result ≡ word }
        ensures fits { MessageFits result }
        ensures only { (w : MsgWord) → MessageFits w → message_word w ≡ word → result ≡ w }
    {
        MsgWord {
            round: word / 8192,
            state: MsgState::of_word(word),
            origin: CpuId((word / 128 % 8) as u8),
            target: CpuId((word / 1024 % 8) as u8),
            aborted: word / 4 % 2 == 1,
            sync: word / 8 % 2 == 1,
            dropable: word / 16 % 2 == 1,
            abortable: word / 32 % 2 == 1,
            priority: word / 64 % 2 == 1,
        }
    }

    /// The word of parts that fit: processors below 8, a round of at most 2251799813685247.
    pub fn make(&self) -> u64
        requires { MessageFits self.now }
        ensures { result ≡ message_word self.now }
    {
        self.state.number()
            + 4 * u64::from(self.aborted)
            + 8 * u64::from(self.sync)
            + 16 * u64::from(self.dropable)
            + 32 * u64::from(self.abortable)
            + 64 * u64::from(self.priority)
            + 128 * u64::from(self.origin.0)
            + 1024 * u64::from(self.target.0)
            + 8192 * self.round
    }
}
