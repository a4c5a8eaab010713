//! A thread drops a message of its own, asks for it to be aborted, or hears whether one that it was shown is to be aborted.
ghost use Rattle.std.specs.Prelude.{◌≡◌, ◌↔◌, ◌+◌, ◌<◌, ◌≤◌, List, vec_len, vec_capacity, true, IsTrue, IsOk, OnOk, IfOk, IfErr};
ghost use Rattle.lwkt_core.specs.declared.events.Event.{Event};
ghost use Rattle.lwkt_msg.specs.Desks.{desk_cpu, IsSameDesk};
ghost use Rattle.lwkt_port.specs.Posts.{IsSamePost};
ghost use Rattle.lwkt_port.specs.Traced.{TracesDeeds};
ghost use Rattle.lwkt_port.specs.Works.{work, Grew, CanStep, MailroomGrew, IsTaken, HasOwn};
ghost use Rattle.lwkt_port.specs.Withdrawals.{IsOwnOf, Requests, IsUnasked, Drops, IsUntouched, MayRefuseAbort, MayRefuseDrop, IsHeard, PostAborts, PostRefusesAbort, PostDrops, PostRefusesDrop, PostHears, PostRefusesHearing};

use crate::mailrooms::Mailroom;
use crate::mails::mail_of;
use crate::posts::Ports;
use crate::replies::is_shown_to;
use crate::traces::note_event;
use lwkt_base::{Fault, MsgId, Rec, ThreadId};
use lwkt_core::Event;
use lwkt_core::events::CALL_EVENTS;
use lwkt_msg::MsgBook;

impl Mailroom {
    // Whether the message is a thread's own.
    fn is_own(&self, thread: u8, msg: MsgId) -> bool
        ensures { IsTrue result ↔ IsOwnOf thread msg self.now.seat self.now.mails.items }
    {
        let m = usize::from(msg.0);
        if m >= self.mails.len() {
            return false;
        }
        let own = ThreadId {
            cpu: self.seat.cpu(),
            thread,
        };
        mail_of(&self.mails, m).origin == own
    }
}

impl Mailroom {
    // Asks for an own message to be aborted.
    fn request(&mut self, book: &MsgBook, msg: MsgId, trace: &mut Vec<Event>) -> Result<(), Fault>
        requires ready { CanStep 1 self.old book.now trace.old }
        requires own { HasOwn msg self.old }
        ensures requests { OnOk result (Requests msg (work self.old trace.old) (work self.new trace.new)) }
        ensures refused { IfErr result (λ fault. MayRefuseAbort fault × IsUnasked msg (work self.old trace.old) (work self.new trace.new) fault) }
        ensures grew_so { MailroomGrew 1 self.old trace.old self.new trace.new }
    {
        let cpu = self.seat.cpu();
        match self.seat.abort(book, msg) {
            Ok(()) => {
                note_event(trace, Event::Abort { cpu, msg });
                Ok(())
            }
            Err(fault) => Err(fault),
        }
    }
}

impl Mailroom {
    // Drops an own message.
    fn withdraw(&mut self, book: &MsgBook, msg: MsgId, trace: &mut Vec<Event>) -> Result<Rec, Fault>
        requires ready { CanStep 1 self.old book.now trace.old }
        requires own { HasOwn msg self.old }
        ensures drops { IfOk result (λ rec. Drops msg (work self.old trace.old) (work self.new trace.new) rec) }
        ensures refused { IfErr result (λ fault. MayRefuseDrop fault × IsUntouched msg (work self.old trace.old) (work self.new trace.new) fault) }
        ensures grew_so { MailroomGrew 1 self.old trace.old self.new trace.new }
    {
        let cpu = self.seat.cpu();
        let m = usize::from(msg.0);
        match self.seat.drop_msg(book, msg) {
            Ok(rec) => {
                self.mails[m].home = true;
                note_event(trace, Event::DropMsg { cpu, msg });
                Ok(rec)
            }
            Err(fault) => Err(fault),
        }
    }
}

impl Mailroom {
    // Hears whether a message that the seat has taken is to be aborted.
    fn hear(&mut self, book: &MsgBook, msg: MsgId) -> Result<bool, Fault>
        requires table { self.old.seat.table ≡ book.now.table }
        requires taken { IsTaken msg self.old }
        ensures heard { IfOk result (λ aborted. (events : List Event) → IsHeard msg (record { seat = self.old.seat; mails = self.old.mails.items; trace = events }) (record { seat = self.new.seat; mails = self.new.mails.items; trace = events }) aborted) }
        ensures always { IsOk result }
        ensures same { IsSameDesk self.old.seat self.new.seat }
        ensures mails { self.new.mails ≡ self.old.mails }
    {
        self.seat.is_aborted(book, msg)
    }
}

impl Ports {
    /// Asks for a message of the thread to be aborted that is on its way or taken, as lwkt_abortmsg(9) does. What differs:
    /// it is a wish alone. A message that no thread has seen yet is replied to with EINTR when its port is looked at; one
    /// that a thread was shown is that thread's to reply to, which may ask for the wish by `is_aborted`.
    ///
    /// `NotOwner`: there is no such message, or it belongs to another thread. `NotOut`: it is at rest, or was replied to.
    /// `NotAbortable`: its last send didn't allow it. A refusal makes no event.
    ///
    /// That the trace has room for 256 events is the caller's condition.
    pub fn abort(
        &mut self,
        book: &MsgBook,
        thread: u8,
        msg: MsgId,
        trace: &mut Vec<Event>,
    ) -> Result<(), Fault>
        requires table { self.old.seat.table ≡ book.now.table }
        requires room { vec_len trace.old + CALL_EVENTS ≤ vec_capacity trace.old }
        ensures aborted { OnOk result (PostAborts thread msg self.old self.new trace.old trace.new) }
        ensures refused { IfErr result (λ fault. PostRefusesAbort thread msg self.old self.new trace.old trace.new fault) }
        ensures same { IsSamePost self.old self.new }
        ensures grew { Grew (desk_cpu self.old.seat) 1 trace.old trace.new }
        ensures traced { TracesDeeds self.old.seat self.new.seat trace.old.items trace.new.items }
    {
        if !self.office.counters.room.is_own(thread, msg) {
            return Err(Fault::NotOwner);
        }
        self.office.counters.room.request(book, msg, trace)
    }

    /// Whether the origin of a message that `get` has shown to the thread wishes it to be aborted, until the thread
    /// replies. In msgport(9) the target's own abort function would be called; here the thread asks.
    ///
    /// `NotTaken`: the thread wasn't shown the message, or it has replied already, or there is no such message.
    pub fn is_aborted(&mut self, book: &MsgBook, thread: u8, msg: MsgId) -> Result<bool, Fault>
        requires table { self.old.seat.table ≡ book.now.table }
        ensures heard { IfOk result (λ aborted. PostHears thread msg self.old self.new aborted) }
        ensures refused { IfErr result (λ fault. PostRefusesHearing thread msg self.old self.new fault) }
        ensures same { IsSamePost self.old self.new }
        ensures traced { (events : List Event) → TracesDeeds self.old.seat self.new.seat events events }
    {
        if !is_shown_to(&self.office.counters.room.mails, thread, msg) {
            return Err(Fault::NotTaken);
        }
        self.office.counters.room.hear(book, msg)
    }

    /// Drops a message of the thread that nobody has taken yet, as lwkt_dropmsg(9) does, and gives its record back as it
    /// was sent. The message is at rest with the thread again, and the note of it that is under way is stale. What
    /// differs: it is the origin who drops, and not the target.
    ///
    /// `NotOwner`: there is no such message, or it belongs to another thread. `NotOut`: it is not on its way, or its
    /// target took it just before. `NotDropable`: its last send didn't allow it. A refusal makes no event.
    ///
    /// That the trace has room for 256 events is the caller's condition.
    pub fn drop_msg(
        &mut self,
        book: &MsgBook,
        thread: u8,
        msg: MsgId,
        trace: &mut Vec<Event>,
    ) -> Result<Rec, Fault>
        requires table { self.old.seat.table ≡ book.now.table }
        requires room { vec_len trace.old + CALL_EVENTS ≤ vec_capacity trace.old }
        ensures dropped { IfOk result (λ rec. PostDrops thread msg self.old self.new trace.old trace.new rec) }
        ensures refused { IfErr result (λ fault. PostRefusesDrop thread msg self.old self.new trace.old trace.new fault) }
        ensures same { IsSamePost self.old self.new }
        ensures grew { Grew (desk_cpu self.old.seat) 1 trace.old trace.new }
        ensures traced { TracesDeeds self.old.seat self.new.seat trace.old.items trace.new.items }
    {
        if !self.office.counters.room.is_own(thread, msg) {
            return Err(Fault::NotOwner);
        }
        self.office.counters.room.withdraw(book, msg, trace)
    }
}
