//! The asks of a running thread about messages.
ghost use Rattle.std.specs.Prelude.{◌≡◌, ◌<◌, ◌≤◌, Option, Some, None, IfOk, OnOk, slice_get, false, ◌==◌, ◌&&◌};
ghost use Rattle.std.specs.Option.{option_map_or};
ghost use Rattle.lwkt_base.specs.declared.limits.TheConstants.{LAST_ROUND};
ghost use Rattle.lwkt_plain.specs.Letters.{is_of, is_rest};
ghost use Rattle.lwkt_plain.specs.Mailing.{mailed, may_send, send_refusal, goes_out, sends_over, sends, shown_letter, reply, abort_refusal, abort, is_aborted, drop_refusal, drop_msg, get_port, wait_port};
ghost use Rattle.lwkt_plain.specs.Sound.{IsSound};

use crate::letters::{Letter, PORTS};
use crate::nexts::Next;
use crate::states::{Phase, Plain};
use crate::token_asks::refused;
use lwkt_base::limits::LAST_ROUND;
use lwkt_base::{Answer, Call, Fault, Flags, MsgId, OutOfMemory, ThreadId};

/// What a thread wants to send, and to whom; whether it waits for the reply.
#[derive(Clone, Copy)]
pub struct Sending {
    pub msg: MsgId,
    pub to: ThreadId,
    pub call: Call,
    pub flags: Flags,
    pub sync: bool,
}

/// The thread that asks.
#[derive(Clone, Copy)]
pub struct Asker {
    pub cpu: usize,
    pub thread: u8,
}

impl Asker {
    fn is(self, id: ThreadId) -> bool
        ensures { result ≡ ((id.cpu.0 == self.cpu) && (id.thread == self.thread)) }
    {
        usize::from(id.cpu.0) == self.cpu && id.thread == self.thread
    }
}

// Why a thread may not ask for a message to be aborted.
fn abort_refusal(letter: &Letter, who: Asker) -> Option<Fault>
    ensures { result ≡ abort_refusal who.cpu who.thread letter.now }
{
    if !letter.is_of(who.cpu, usize::from(who.thread)) {
        return Some(Fault::NotOwner);
    }
    if !letter.is_out() && !letter.is_with() {
        return Some(Fault::NotOut);
    }
    if letter.word.abortable {
        None
    } else {
        Some(Fault::NotAbortable)
    }
}

// Why a thread may not drop a message.
fn drop_refusal(letter: &Letter, who: Asker) -> Option<Fault>
    ensures { result ≡ drop_refusal who.cpu who.thread letter.now }
{
    if !letter.is_of(who.cpu, usize::from(who.thread)) {
        return Some(Fault::NotOwner);
    }
    if !letter.is_out() {
        return Some(Fault::NotOut);
    }
    if letter.word.dropable {
        None
    } else {
        Some(Fault::NotDropable)
    }
}

impl Plain {
    // Whether a message is a thread's own, and at rest.
    fn may_send(&self, who: Asker, msg: MsgId) -> bool
        ensures { result ≡ may_send who.cpu who.thread self.now msg }
    {
        match self.letter(usize::from(msg.0)) {
            Some(letter) => letter.is_of(who.cpu, usize::from(who.thread)) && letter.is_rest(),
            None => false,
        }
    }

    // Why a send is refused before its lane is looked at.
    fn send_refusal(&self, who: Asker, sending: &Sending) -> Option<Fault>
        ensures { result ≡ send_refusal who.cpu who.thread self.now sending.now }
    {
        let to = sending.to;
        if usize::from(to.cpu.0) >= self.cpus.len() || usize::from(to.thread) >= PORTS {
            return Some(Fault::NoPort);
        }
        if sending.sync && who.is(to) {
            return Some(Fault::SelfDo);
        }
        if self.may_send(who, sending.msg) {
            None
        } else {
            Some(Fault::NotOwner)
        }
    }

    // A message goes out over a lane that has room.
    fn go_out(&mut self, c: usize, sending: &Sending, letter: &Letter) -> Result<(), OutOfMemory>
        requires { letter.now.word.round < LAST_ROUND }
        ensures { OnOk result (self.new ≡ goes_out c self.old sending.now letter.now) }
    {
        let away = letter.sent(sending.to.cpu, sending.call, sending.flags, sending.sync);
        self.put_letter(usize::from(sending.msg.0), away);
        let note = away.request_note(sending.msg, sending.to.thread);
        self.post(c, usize::from(sending.to.cpu.0), note)
    }

    // The same, refused for want of room, and at the last round.
    fn send_over(
        &mut self,
        c: usize,
        sending: &Sending,
        next: Next,
        letter: &Letter,
    ) -> Result<Next, OutOfMemory>
        requires { letter.now.word.round ≤ LAST_ROUND }
        ensures { IfOk result (λ comes. mailed self.new comes ≡ sends_over c self.old sending.now next letter.now) }
    {
        let to = usize::from(sending.to.cpu.0);
        if !self.has_room(c, to) {
            return Ok(refused(Fault::LaneFull));
        }
        if letter.word.round == LAST_ROUND {
            self.move_lane(c, to)?;
            return Ok(refused(Fault::RoundsOut));
        }
        self.go_out(c, sending, letter)?;
        Ok(next)
    }

    /// Sends a message; `next` comes next if it isn't refused.
    #[tactic(auto, using(crate::proofs::Frames::round_in))]
    pub(crate) fn send(
        &mut self,
        who: Asker,
        sending: &Sending,
        next: Next,
    ) -> Result<Next, OutOfMemory>
        requires { IsSound self.old }
        ensures { IfOk result (λ comes. mailed self.new comes ≡ sends who.cpu who.thread self.old sending.now next) }
    {
        if let Some(fault) = self.send_refusal(who, sending) {
            return Ok(refused(fault));
        }
        match self.letter(usize::from(sending.msg.0)) {
            None => Ok(refused(Fault::NotOwner)),
            Some(letter) => self.send_over(who.cpu, sending, next, &letter),
        }
    }

    // The message that a thread was shown, and hasn't replied to.
    fn shown(&self, who: Asker, msg: MsgId) -> Option<Letter>
        ensures { result ≡ shown_letter who.cpu who.thread self.now msg }
    {
        let letter = self.letter(usize::from(msg.0))?;
        if letter.is_shown_to(who.cpu, usize::from(who.thread)) {
            Some(letter)
        } else {
            None
        }
    }

    pub(crate) fn reply(
        &mut self,
        who: Asker,
        msg: MsgId,
        error: u32,
        outcome: u64,
    ) -> Result<Next, OutOfMemory>
        ensures { IfOk result (λ comes. mailed self.new comes ≡ reply who.cpu who.thread self.old msg error outcome) }
    {
        let Some(letter) = self.shown(who, msg) else {
            return Ok(refused(Fault::NotTaken));
        };
        if !self.has_room(who.cpu, usize::from(letter.origin.cpu.0)) {
            return Ok(refused(Fault::LaneFull));
        }
        self.answer(who.cpu, msg, &letter, error, outcome)?;
        Ok(Next::Runs(Answer::Done))
    }

    pub(crate) fn abort(&mut self, who: Asker, msg: MsgId) -> Next
        ensures { mailed self.new result ≡ abort who.cpu who.thread self.old msg }
    {
        let Some(letter) = self.letter(usize::from(msg.0)) else {
            return refused(Fault::NotOwner);
        };
        if let Some(fault) = abort_refusal(&letter, who) {
            return refused(fault);
        }
        self.abort_letter(usize::from(msg.0));
        Next::Runs(Answer::Done)
    }

    pub(crate) fn is_aborted(&self, who: Asker, msg: MsgId) -> Next
        ensures { mailed self.now result ≡ is_aborted who.cpu who.thread self.now msg }
    {
        match self.shown(who, msg) {
            Some(letter) => {
                if letter.word.aborted {
                    Next::Runs(Answer::Value(1))
                } else {
                    Next::Runs(Answer::Value(0))
                }
            }
            None => refused(Fault::NotTaken),
        }
    }

    pub(crate) fn drop_msg(&mut self, who: Asker, msg: MsgId) -> Next
        ensures { mailed self.new result ≡ drop_msg who.cpu who.thread self.old msg }
    {
        let Some(letter) = self.letter(usize::from(msg.0)) else {
            return refused(Fault::NotOwner);
        };
        if let Some(fault) = drop_refusal(&letter, who) {
            return refused(fault);
        }
        self.bring_home(usize::from(msg.0));
        Next::Runs(Answer::Dropped(msg, letter.rec))
    }

    pub(crate) fn get_port(&mut self, who: Asker) -> Next
        ensures { mailed self.new result ≡ get_port who.cpu who.thread self.old }
    {
        match self.look(who.cpu, who.thread) {
            Some(item) => Next::Runs(Answer::Got(item)),
            None => Next::Runs(Answer::NoMsg),
        }
    }

    /// `count` references are given up where the thread waits.
    pub(crate) fn wait_port(&mut self, who: Asker, count: usize) -> Next
        ensures { mailed self.new result ≡ wait_port who.cpu who.thread self.old count }
    {
        match self.look(who.cpu, who.thread) {
            Some(item) => Next::Runs(Answer::Got(item)),
            None => Next::Leaves(count, Phase::AwaitsItem),
        }
    }
}
