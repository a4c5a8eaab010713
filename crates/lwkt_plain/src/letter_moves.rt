//! The steps on a message, and what a note of it is good for.
ghost use Rattle.std.specs.Prelude.{◌≡◌, ◌<◌};
ghost use Rattle.lwkt_base.specs.declared.limits.TheConstants.{LAST_ROUND};
ghost use Rattle.lwkt_plain.specs.Letters.{at_rest, come_home, sent, taken, replied, aborted, is_rest, is_out, is_with, is_back, can_be_taken, can_be_reaped, is_shown_to, owed_by, is_of, left_by, hands_for, handled, request_of, answer_of, item_of, request_note, answer_note};

use crate::letters::{ABORTED, GONE, Hands, Letter, NO_PORT, Note, NoteKind};
use lwkt_base::{Call, CpuId, Flags, Item, MsgId, MsgState, MsgWord, Rec, ThreadId};

// In whose hands a message is that is taken for a thread, or for nobody.
fn hands_for(thread: Option<u8>, aborted: bool) -> Hands
    ensures { result ≡ hands_for thread aborted }
{
    match thread {
        None => Hands::Owes(NO_PORT),
        Some(thread) => {
            if aborted {
                Hands::Owes(ABORTED)
            } else {
                Hands::Shown(thread)
            }
        }
    }
}

impl Letter {
    /// At rest.
    pub(crate) fn at_rest(origin: ThreadId, round: u64) -> Letter
        ensures { result ≡ at_rest origin round }
    {
        Letter {
            origin,
            word: MsgWord {
                round,
                state: MsgState::Rest,
                origin: origin.cpu,
                target: CpuId(0),
                aborted: false,
                sync: false,
                dropable: false,
                abortable: false,
                priority: false,
            },
            rec: Rec {
                arg: 0,
                result: 0,
                op: 0,
                error: 0,
            },
            hands: Hands::Nobody,
        }
    }

    pub(crate) fn come_home(self) -> Letter
        ensures { result ≡ come_home self }
    {
        Letter::at_rest(self.origin, self.word.round)
    }

    /// Sent in its next round.
    pub(crate) fn sent(self, target: CpuId, call: Call, flags: Flags, sync: bool) -> Letter
        requires { self.word.round < LAST_ROUND }
        ensures { result ≡ sent target call flags sync self }
    {
        Letter {
            origin: self.origin,
            word: MsgWord {
                round: self.word.round + 1,
                state: MsgState::Out,
                origin: self.origin.cpu,
                target,
                aborted: false,
                sync,
                dropable: flags.dropable,
                abortable: flags.abortable,
                priority: flags.priority,
            },
            rec: Rec {
                arg: call.arg,
                result: 0,
                op: call.op,
                error: 0,
            },
            hands: self.hands,
        }
    }

    pub(crate) fn taken(mut self, hands: Hands) -> Letter
        ensures { result ≡ taken hands self }
    {
        self.word.state = MsgState::With;
        self.hands = hands;
        self
    }

    pub(crate) fn replied(mut self, error: u32, outcome: u64) -> Letter
        ensures { result ≡ replied error outcome self }
    {
        self.word.state = MsgState::Back;
        self.rec.error = error;
        self.rec.result = outcome;
        self.hands = Hands::Nobody;
        self
    }

    pub(crate) fn aborted(mut self) -> Letter
        ensures { result ≡ aborted self }
    {
        self.word.aborted = true;
        self
    }

    pub(crate) fn is_rest(&self) -> bool
        ensures { result ≡ is_rest self.now.word.state }
    {
        matches!(self.word.state, MsgState::Rest)
    }

    pub(crate) fn is_out(&self) -> bool
        ensures { result ≡ is_out self.now.word.state }
    {
        matches!(self.word.state, MsgState::Out)
    }

    pub(crate) fn is_with(&self) -> bool
        ensures { result ≡ is_with self.now.word.state }
    {
        matches!(self.word.state, MsgState::With)
    }

    fn is_back(&self) -> bool
        ensures { result ≡ is_back self.now.word.state }
    {
        matches!(self.word.state, MsgState::Back)
    }

    /// Whether it is on its way to this processor in the round of a note.
    pub(crate) fn can_be_taken(&self, cpu: usize, note: &Note) -> bool
        ensures { result ≡ can_be_taken cpu note.now self.now }
    {
        self.is_out() && usize::from(self.word.target.0) == cpu && self.word.round == note.round
    }

    /// Whether it came back to this processor in the round of a note.
    pub(crate) fn can_be_reaped(&self, cpu: usize, note: &Note) -> bool
        ensures { result ≡ can_be_reaped cpu note.now self.now }
    {
        self.is_back() && usize::from(self.origin.cpu.0) == cpu && self.word.round == note.round
    }

    pub(crate) fn is_shown_to(&self, cpu: usize, thread: usize) -> bool
        ensures { result ≡ is_shown_to cpu thread self.now }
    {
        let shown = match self.hands {
            Hands::Shown(other) => usize::from(other) == thread,
            Hands::Nobody | Hands::Owes(_) => false,
        };
        self.is_with() && usize::from(self.word.target.0) == cpu && shown
    }

    pub(crate) fn owed_by(&self, cpu: usize) -> Option<u32>
        ensures { result ≡ owed_by cpu self.now }
    {
        if !self.is_with() || usize::from(self.word.target.0) != cpu {
            return None;
        }
        match self.hands {
            Hands::Owes(error) => Some(error),
            Hands::Nobody | Hands::Shown(_) => None,
        }
    }

    pub(crate) fn is_of(&self, cpu: usize, thread: usize) -> bool
        ensures { result ≡ is_of cpu thread self.now }
    {
        usize::from(self.origin.cpu.0) == cpu && usize::from(self.origin.thread) == thread
    }

    /// What it becomes as a thread ends.
    pub(crate) fn left_by(mut self, cpu: usize, thread: usize) -> Letter
        ensures { result ≡ left_by cpu thread self }
    {
        if self.is_shown_to(cpu, thread) {
            self.hands = Hands::Owes(GONE);
        }
        self
    }

    // What a request makes of it.
    fn requested(self, cpu: usize, thread: Option<u8>, note: &Note) -> Letter
        requires { note.now.kind ≡ NoteKind.Request }
        ensures { result ≡ handled cpu thread note.now self }
    {
        if self.can_be_taken(cpu, note) {
            self.taken(hands_for(thread, self.word.aborted))
        } else {
            self
        }
    }

    // What an answer makes of it.
    fn answered(self, cpu: usize, thread: Option<u8>, note: &Note) -> Letter
        requires { note.now.kind ≡ NoteKind.Answer }
        ensures { result ≡ handled cpu thread note.now self }
    {
        if self.can_be_reaped(cpu, note) {
            self.come_home()
        } else {
            self
        }
    }

    /// What a note makes of it, of a port whose thread is this, or has ended.
    pub(crate) fn handled(self, cpu: usize, thread: Option<u8>, note: &Note) -> Letter
        ensures { result ≡ handled cpu thread note.now self }
    {
        match note.kind {
            NoteKind::Request => self.requested(cpu, thread, note),
            NoteKind::Answer => self.answered(cpu, thread, note),
        }
    }

    /// Its call, as an item.
    fn request(&self, msg: MsgId) -> Item
        ensures { result ≡ request_of msg self.now }
    {
        Item::Request(
            msg,
            Call {
                arg: self.rec.arg,
                op: self.rec.op,
            },
        )
    }

    /// The reply to it, as an item.
    pub(crate) fn answer(&self, msg: MsgId) -> Item
        ensures { result ≡ answer_of msg self.now }
    {
        Item::Answered(msg, self.rec.error, self.rec.result)
    }

    // What a request shows a thread.
    fn item_of_request(&self, cpu: usize, note: &Note) -> Option<Item>
        requires { note.now.kind ≡ NoteKind.Request }
        ensures { result ≡ item_of cpu note.now self.now }
    {
        if self.can_be_taken(cpu, note) && !self.word.aborted {
            Some(self.request(note.msg))
        } else {
            None
        }
    }

    // What an answer shows a thread.
    fn item_of_answer(&self, cpu: usize, note: &Note) -> Option<Item>
        requires { note.now.kind ≡ NoteKind.Answer }
        ensures { result ≡ item_of cpu note.now self.now }
    {
        if self.can_be_reaped(cpu, note) {
            Some(self.answer(note.msg))
        } else {
            None
        }
    }

    /// What a note of it shows a thread.
    pub(crate) fn item(&self, cpu: usize, note: &Note) -> Option<Item>
        ensures { result ≡ item_of cpu note.now self.now }
    {
        match note.kind {
            NoteKind::Request => self.item_of_request(cpu, note),
            NoteKind::Answer => self.item_of_answer(cpu, note),
        }
    }

    /// The note of a send to a port.
    pub(crate) fn request_note(&self, msg: MsgId, port: u8) -> Note
        ensures { result ≡ request_note msg port self.now }
    {
        Note {
            round: self.word.round,
            msg,
            port,
            kind: NoteKind::Request,
            urgent: self.word.priority,
        }
    }

    /// The note of a reply.
    pub(crate) fn answer_note(&self, msg: MsgId) -> Note
        ensures { result ≡ answer_note msg self.now }
    {
        Note {
            round: self.word.round,
            msg,
            port: self.origin.thread,
            kind: NoteKind::Answer,
            urgent: self.word.priority,
        }
    }
}
