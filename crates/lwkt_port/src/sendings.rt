//! A thread sends a message.
ghost use Rattle.std.specs.Prelude.{◌≡◌, ◌↔◌, ◌+◌, ◌<◌, ◌≤◌, true, false, vec_len, vec_capacity, IsTrue, OnOk, IfErr, MatchResult};
ghost use Rattle.lwkt_msg.specs.Desks.{desk_cpu, cpus_of};
ghost use Rattle.lwkt_msg.specs.Views.{no_flags};
ghost use Rattle.lwkt_port.specs.Works.{work, Grew, CanStep, MailroomGrew, KeepsPorts};
ghost use Rattle.lwkt_port.specs.Sendings.{IsPortName, MaySend, SendsOver, RefusesOver, HasSentNote, WhyUnsent, PostSends, PostRefuses};
ghost use Rattle.lwkt_port.specs.Posts.{IsSamePost};
ghost use Rattle.lwkt_port.specs.Traced.{TracesDeeds};

use crate::deeds::Sending;
use crate::lines::{Lane, has_room, may_hold, post};
use crate::mailrooms::Mailroom;
use crate::mails::{Mail, mail_of};
use crate::offices::Office;
use crate::posts::Ports;
use lwkt_base::{Call, CpuId, Fault, Flags, MsgId, ThreadId};
use lwkt_core::Event;
use lwkt_core::events::CALL_EVENTS;
use lwkt_lane::{Note, NoteKind};
use lwkt_msg::{MsgBook, MsgSeat};

// Whether there may be such a port.
#[inline(always)]
fn is_port_name(seat: &MsgSeat, to: ThreadId) -> bool
    ensures { IsTrue result ↔ IsPortName (cpus_of seat.now) to }
{
    usize::from(to.cpu.0) < seat.cpus() && to.thread < 16
}

// Whether the thread may send the message.
#[inline(always)]
fn may_send(mails: &Vec<Mail>, sending: &Sending) -> bool
    ensures { IsTrue result ↔ MaySend sending.now mails.now.items }
{
    let m = usize::from(sending.msg.0);
    if m >= mails.len() {
        return false;
    }
    let mail = mail_of(mails, m);
    mail.home && mail.origin.thread == sending.thread
}

impl Mailroom {
    // Sends a message over the line to its target.
    #[inline(always)]
    #[tactic(auto, using(crate::proofs::Posting::posted_over))]
    fn send_over(
        &mut self,
        book: &MsgBook,
        line: &mut Lane,
        sending: &Sending,
        trace: &mut Vec<Event>,
    ) -> Result<(), Fault>
        requires ready { CanStep 1 self.old book.now trace.old }
        requires may { MaySend sending.now self.old.mails.items }
        requires target { sending.now.to.cpu.0 < cpus_of self.old.seat }
        ensures means { MatchResult result (λ _. SendsOver sending.now line.old line.new (work self.old trace.old) (work self.new trace.new)) (λ fault. RefusesOver sending.now line.old line.new (work self.old trace.old) (work self.new trace.new) fault) }
        ensures grew_so { MailroomGrew 1 self.old trace.old self.new trace.new }
        ensures line { line.new.kept ≡ line.old.kept }
    {
        if !has_room(line) {
            return Err(Fault::LaneFull);
        }
        let Some(round) = self.send(book, sending, trace) else {
            return Err(Fault::RoundsOut);
        };
        let note = Note {
            round,
            msg: sending.msg,
            port: sending.to.thread,
            kind: NoteKind::Request,
            urgent: sending.flags.priority,
        };
        post(line, note);
        Ok(())
    }
}

impl Office {
    // Sends a message of a thread.
    #[inline(always)]
    #[tactic(auto, using(crate::proofs::Dispatching::dispatched, crate::proofs::Dispatching::not_dispatched))]
    fn dispatch(
        &mut self,
        book: &MsgBook,
        sending: &Sending,
        trace: &mut Vec<Event>,
    ) -> Result<(), Fault>
        requires ready { CanStep 1 self.old.counters.room book.now trace.old }
        requires target { sending.now.to.cpu.0 < cpus_of self.old.counters.room.seat }
        ensures sent { OnOk result (HasSentNote sending.now self.old.lanes.items self.new.lanes.items (work self.old.counters.room trace.old) (work self.new.counters.room trace.new)) }
        ensures refused { IfErr result (λ fault. WhyUnsent sending.now self.old.lanes.items self.new.lanes.items (work self.old.counters.room trace.old) (work self.new.counters.room trace.new) fault) }
        ensures beside { KeepsPorts 1 self.old.counters trace.old self.new.counters trace.new }
    {
        if !may_send(&self.counters.room.mails, sending) {
            return Err(Fault::NotOwner);
        }
        let at = usize::from(sending.to.cpu.0);
        let line = &mut self.lanes[at];
        let sent = self.counters.room.send_over(book, line, sending, trace);
        self.holding = may_hold(self.holding, line);
        sent
    }
}

impl Ports {
    /// Sends a message of a thread to a thread's port, without waiting for the reply, as lwkt_sendmsg(9) does. The reply
    /// will be an item of the sender's own port. Sent with priority, the request and its reply come before other items. What
    /// differs: the message is named by its number, its target by processor and thread; a full lane refuses the send; a
    /// thread that isn't there, or has ended, answers by a reply with error 30.
    ///
    /// `NoPort`: there is no such processor, or the thread's number is 16 or more. `NotOwner`: there is no such message,
    /// it belongs to another thread, or it is away. `LaneFull`: the lane to the target's processor has no room.
    /// `RoundsOut`: the message is at its last round. A refusal makes neither event nor note.
    ///
    /// That the trace has room for 256 events is the caller's condition.
    #[inline(always)]
    pub fn send(
        &mut self,
        book: &MsgBook,
        thread: u8,
        msg: MsgId,
        to: ThreadId,
        call: Call,
        flags: Flags,
        trace: &mut Vec<Event>,
    ) -> Result<(), Fault>
        requires table { self.old.seat.table ≡ book.now.table }
        requires room { vec_len trace.old + CALL_EVENTS ≤ vec_capacity trace.old }
        ensures sent { OnOk result (PostSends (record { thread = thread; msg = msg; to = to; call = call; flags = flags; sync = false }) self.old self.new trace.old trace.new) }
        ensures refused { IfErr result (λ fault. PostRefuses (record { thread = thread; msg = msg; to = to; call = call; flags = flags; sync = false }) self.old self.new trace.old trace.new fault) }
        ensures same { IsSamePost self.old self.new }
        ensures grew { Grew (desk_cpu self.old.seat) 1 trace.old trace.new }
        ensures traced { TracesDeeds self.old.seat self.new.seat trace.old.items trace.new.items }
    {
        if !is_port_name(&self.office.counters.room.seat, to) {
            return Err(Fault::NoPort);
        }
        let sending = Sending {
            thread,
            msg,
            to,
            call,
            flags,
            sync: false,
        };
        self.office.dispatch(book, &sending, trace)
    }

    /// Sends a message of a thread to a thread's port, for the thread to wait for the reply, as lwkt_domsg(9) does. The
    /// reply is given by `done`, and is no item of a port; the request has no priority. What differs: the call itself doesn't wait.
    ///
    /// Refused as `send` is; after `NoPort` comes `SelfDo`: the target is the thread's own port.
    ///
    /// That the trace has room for 256 events is the caller's condition.
    #[inline(always)]
    pub fn send_sync(
        &mut self,
        book: &MsgBook,
        thread: u8,
        msg: MsgId,
        to: ThreadId,
        call: Call,
        trace: &mut Vec<Event>,
    ) -> Result<(), Fault>
        requires table { self.old.seat.table ≡ book.now.table }
        requires room { vec_len trace.old + CALL_EVENTS ≤ vec_capacity trace.old }
        ensures sent { OnOk result (PostSends (record { thread = thread; msg = msg; to = to; call = call; flags = no_flags; sync = true }) self.old self.new trace.old trace.new) }
        ensures refused { IfErr result (λ fault. PostRefuses (record { thread = thread; msg = msg; to = to; call = call; flags = no_flags; sync = true }) self.old self.new trace.old trace.new fault) }
        ensures same { IsSamePost self.old self.new }
        ensures grew { Grew (desk_cpu self.old.seat) 1 trace.old trace.new }
        ensures traced { TracesDeeds self.old.seat self.new.seat trace.old.items trace.new.items }
    {
        if !is_port_name(&self.office.counters.room.seat, to) {
            return Err(Fault::NoPort);
        }
        let own = ThreadId {
            cpu: self.office.counters.room.seat.cpu(),
            thread,
        };
        if to == own {
            return Err(Fault::SelfDo);
        }
        let flags = Flags {
            dropable: false,
            abortable: false,
            priority: false,
        };
        let sending = Sending {
            thread,
            msg,
            to,
            call,
            flags,
            sync: true,
        };
        self.office.dispatch(book, &sending, trace)
    }
}
