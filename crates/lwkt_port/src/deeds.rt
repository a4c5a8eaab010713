//! The steps on one message: each with what is kept of the message then, and its event.
ghost use Rattle.std.specs.Prelude.{◌≡◌, ◌+◌, ◌<◌, ◌≤◌, true, vec_len, vec_capacity, ◌++◌, MatchOption};
ghost use Rattle.lwkt_msg.specs.Desks.{cpus_of};
ghost use Rattle.lwkt_port.specs.Works.{work, away_count, HasTraced, HasTracedThese, CanStep, MailroomGrew, IsTaken};
ghost use Rattle.lwkt_port.specs.Sendings.{MaySend};
ghost use Rattle.lwkt_port.specs.Deeds.{taken_mail, mails_taken, take_events, Takes, reaped_mail, Reaps, replied_mail, Replies, sent_mail, Sends, IsRefused};

use crate::mailrooms::Mailroom;
use crate::mails::Mail;
use crate::traces::note_event;
use lwkt_base::{Call, CpuId, Flags, MsgId, Rec, ThreadId};
use lwkt_core::Event;
use lwkt_lane::Note;
use lwkt_msg::{MsgBook, Reaped, Taken};

/// For whom a request is taken.
#[derive(Clone, Copy, PartialEq, Eq)]
pub enum Claim {
    /// The thread of the port.
    Thread(u8),
    /// The port's thread has ended.
    Closed,
}

/// The error of a reply to a request that was aborted before a thread saw it: EINTR.
pub const ABORTED: u32 = 4;

/// The error of a reply to a request at a closed port.
pub const NO_PORT: u32 = 30;

// A message was taken.
#[inline(always)]
fn take_up(mail: &mut Mail, who: Claim, aborted: bool, priority: bool, round: u64)
    ensures { mail.new ≡ taken_mail who aborted priority round mail.old }
{
    mail.round = round;
    mail.urgent = priority;
    match who {
        Claim::Closed => mail.owed = Some(NO_PORT),
        Claim::Thread(_) if aborted => mail.owed = Some(ABORTED),
        Claim::Thread(thread) => mail.shown = Some(thread),
    }
}

// Keeps what a take answered.
#[inline(always)]
fn keep_taken(mails: &mut Vec<Mail>, who: Claim, note: Note, answer: Taken)
    requires { note.msg.0 < vec_len mails.old }
    ensures items { mails.new.items ≡ mails_taken who note answer mails.old.items }
{
    let m = usize::from(note.msg.0);
    match answer {
        Taken::Took {
            aborted,
            priority,
            ..
        } => take_up(&mut mails[m], who, aborted, priority, note.round),
        Taken::Stale | Taken::Again => {}
    }
}

// The event of a take, at the end of the trace.
#[inline(always)]
fn trace_taken(trace: &mut Vec<Event>, cpu: CpuId, note: Note, answer: Taken)
    requires { vec_len trace.old < vec_capacity trace.old }
    ensures { HasTracedThese cpu (take_events cpu note answer) trace.old trace.new }
{
    match answer {
        Taken::Took { .. } => {
            let Note { msg, round, .. } = note;
            note_event(trace, Event::TakeMsg { cpu, msg, round });
        }
        Taken::Stale | Taken::Again => {}
    }
}

impl Mailroom {
    /// Takes the message of a note, if it is in the note's round and on its way to this processor.
    #[inline(always)]
    #[tactic(auto, using(crate::proofs::Deeding::taken_keeps))]
    pub(crate) fn take(
        &mut self,
        book: &MsgBook,
        who: Claim,
        note: Note,
        trace: &mut Vec<Event>,
    ) -> Taken
        requires ready { CanStep 1 self.old book.now trace.old }
        requires exists { note.msg.0 < vec_len self.old.mails }
        ensures takes { Takes who note (work self.old trace.old) (work self.new trace.new) result }
        ensures grew_so { MailroomGrew 1 self.old trace.old self.new trace.new }
    {
        let cpu = self.seat.cpu();
        let answer = self.seat.take(book, note.msg, note.round);
        keep_taken(&mut self.mails, who, note, answer);
        trace_taken(trace, cpu, note, answer);
        answer
    }
}

// A message was reaped.
#[inline(always)]
fn come_home(mail: &mut Mail, keep: bool, rec: Rec)
    ensures { mail.new ≡ reaped_mail keep rec mail.old }
{
    mail.home = true;
    if keep {
        mail.done = Some(rec);
    }
}

// The event of a reap, at the end of the trace.
#[inline(always)]
fn trace_reap(trace: &mut Vec<Event>, cpu: CpuId, msg: MsgId)
    requires { vec_len trace.old < vec_capacity trace.old }
    ensures { HasTraced (Event.Reap cpu msg) trace.old trace.new }
{
    note_event(trace, Event::Reap { cpu, msg });
}

impl Mailroom {
    /// Takes the message of a note back, if it is in the note's round and was replied to. `keep` says that its record is kept
    /// for the thread that waits for it.
    #[inline(always)]
    #[tactic(auto, using(crate::proofs::Deeding::reaped_keeps, crate::proofs::Deeding::reaped_away))]
    pub(crate) fn reap(
        &mut self,
        book: &MsgBook,
        keep: bool,
        note: Note,
        trace: &mut Vec<Event>,
    ) -> Reaped
        requires ready { CanStep 1 self.old book.now trace.old }
        requires exists { note.msg.0 < vec_len self.old.mails }
        ensures reaps { Reaps keep note (work self.old trace.old) (work self.new trace.new) result }
        ensures grew_so { MailroomGrew 1 self.old trace.old self.new trace.new }
        ensures away { away_count self.new.mails.items + vec_len trace.new ≡ away_count self.old.mails.items + vec_len trace.old }
    {
        let cpu = self.seat.cpu();
        let m = usize::from(note.msg.0);
        match self.seat.reap(book, note.msg, note.round) {
            Reaped::Done { rec } => {
                come_home(&mut self.mails[m], keep, rec);
                trace_reap(trace, cpu, note.msg);
                Reaped::Done { rec }
            }
            Reaped::Stale => Reaped::Stale,
        }
    }
}

// A message was replied to.
#[inline]
fn settle(mail: &mut Mail)
    ensures { mail.new ≡ replied_mail mail.old }
{
    mail.owed = None;
    mail.shown = None;
}

// The event of a reply, at the end of the trace. It is made by a function of its own, since a function clears the room of all its values
// where it begins: so this room is cleared where it is written to.
#[inline(always)]
fn trace_reply(trace: &mut Vec<Event>, cpu: CpuId, msg: MsgId)
    requires { vec_len trace.old < vec_capacity trace.old }
    ensures { HasTraced (Event.Reply cpu msg) trace.old trace.new }
{
    note_event(trace, Event::Reply { cpu, msg });
}

impl Mailroom {
    /// Replies to a message that this processor has taken.
    #[inline(always)]
    #[tactic(auto, using(crate::proofs::Deeding::replied_keeps))]
    pub(crate) fn reply(
        &mut self,
        book: &MsgBook,
        msg: MsgId,
        error: u32,
        outcome: u64,
        trace: &mut Vec<Event>,
    )
        requires ready { CanStep 1 self.old book.now trace.old }
        requires taken { IsTaken msg self.old }
        ensures replies { Replies msg error outcome (work self.old trace.old) (work self.new trace.new) }
        ensures grew_so { MailroomGrew 1 self.old trace.old self.new trace.new }
    {
        let cpu = self.seat.cpu();
        let m = usize::from(msg.0);
        match self.seat.reply(book, msg, error, outcome) {
            Ok(()) => {
                settle(&mut self.mails[m]);
                trace_reply(trace, cpu, msg);
            }
            // The seat has taken the message, so this can't be.
            Err(_fault) => {}
        }
    }
}

// A message was sent.
#[inline(always)]
fn go_out(mail: &mut Mail, sync: bool)
    ensures { mail.new ≡ sent_mail sync mail.old }
{
    mail.home = false;
    mail.done = None;
    mail.sync = sync;
}

// The event of a send, at the end of the trace.
#[inline(always)]
fn trace_send(trace: &mut Vec<Event>, cpu: CpuId, msg: MsgId, to: CpuId, round: u64)
    requires { vec_len trace.old < vec_capacity trace.old }
    ensures { HasTraced (Event.Send cpu msg to round) trace.old trace.new }
{
    note_event(
        trace,
        Event::Send {
            cpu,
            msg,
            to,
            round,
        },
    );
}

/// What a thread sends, and to which thread.
#[derive(Clone, Copy)]
pub struct Sending {
    /// The sending thread, by its number on this processor.
    pub thread: u8,
    /// The message that is sent.
    pub msg: MsgId,
    /// The thread whose port it is sent to.
    pub to: ThreadId,
    /// What the message asks for.
    pub call: Call,
    /// What the sender may still do with it.
    pub flags: Flags,
    /// Whether the sender waits for the reply.
    pub sync: bool,
}

impl Mailroom {
    /// Sends an own message that is at rest, and answers its round. None if it is at its last round.
    #[inline(always)]
    #[tactic(auto, using(crate::proofs::Deeding::sent_keeps))]
    pub(crate) fn send(
        &mut self,
        book: &MsgBook,
        sending: &Sending,
        trace: &mut Vec<Event>,
    ) -> Option<u64>
        requires ready { CanStep 1 self.old book.now trace.old }
        requires may { MaySend sending.now self.old.mails.items }
        requires target { sending.now.to.cpu.0 < cpus_of self.old.seat }
        ensures sends { MatchOption result (IsRefused sending.now.msg (work self.old trace.old) (work self.new trace.new)) (λ round. Sends sending.now.msg sending.now.to.cpu sending.now.call sending.now.flags sending.now.sync (work self.old trace.old) (work self.new trace.new) round) }
        ensures grew_so { MailroomGrew 1 self.old trace.old self.new trace.new }
    {
        let cpu = self.seat.cpu();
        let Sending {
            thread: _,
            msg,
            to,
            call,
            flags,
            sync,
        } = *sending;
        let m = usize::from(msg.0);
        match self.seat.send(book, msg, to.cpu, call, flags, sync) {
            Ok(round) => {
                go_out(&mut self.mails[m], sync);
                trace_send(trace, cpu, msg, to.cpu, round);
                Some(round)
            }
            Err(_fault) => None,
        }
    }
}
