//! A thread replies to a message, and is given the reply that it waited for.
ghost use Rattle.std.specs.Prelude.{◌≡◌, ◌↔◌, ◌+◌, ◌<◌, ◌≤◌, true, slice_set, vec_len, vec_capacity, None, IsTrue, OnOk, IfErr};
ghost use Rattle.lwkt_msg.specs.Desks.{desk_cpu, messages_of};
ghost use Rattle.lwkt_port.specs.Mails.{kept_mail_at};
ghost use Rattle.lwkt_port.specs.Works.{work, Grew, CanStep, MailroomGrew, KeepsPorts, IsTaken};
ghost use Rattle.lwkt_port.specs.Posts.{IsSamePost};
ghost use Rattle.lwkt_port.specs.Sendings.{answer_note, ReplyMeans, Answers, IsShownTo, PostReplies, PostRefusesReply};
ghost use Rattle.lwkt_port.specs.Traced.{TracesDeeds};

use crate::lines::{Lane, has_room, may_hold, post};
use crate::mailrooms::Mailroom;
use crate::mails::{Mail, mail_of};
use crate::offices::Office;
use crate::posts::Ports;
use lwkt_base::{Fault, MsgId, Rec};
use lwkt_core::Event;
use lwkt_core::events::CALL_EVENTS;
use lwkt_lane::{Note, NoteKind};
use lwkt_msg::MsgBook;

// The note of an answer.
#[inline(always)]
fn answer_of(msg: MsgId, mail: &Mail) -> Note
    ensures { result ≡ answer_note msg mail.now }
{
    Note {
        round: mail.round,
        msg,
        port: mail.origin.thread,
        kind: NoteKind::Answer,
        urgent: mail.urgent,
    }
}

impl Mailroom {
    // Replies to a message over a line. False if the line is full.
    #[inline(always)]
    #[tactic(auto, using(crate::proofs::Posting::posted_over))]
    fn reply_over(
        &mut self,
        book: &MsgBook,
        line: &mut Lane,
        msg: MsgId,
        error: u32,
        outcome: u64,
        trace: &mut Vec<Event>,
    ) -> bool
        requires ready { CanStep 1 self.old book.now trace.old }
        requires taken { IsTaken msg self.old }
        ensures means { ReplyMeans msg error outcome line.old line.new (work self.old trace.old) (work self.new trace.new) result }
        ensures grew_so { MailroomGrew 1 self.old trace.old self.new trace.new }
    {
        if !has_room(line) {
            return false;
        }
        let note = answer_of(msg, &mail_of(&self.mails, usize::from(msg.0)));
        self.reply(book, msg, error, outcome, trace);
        post(line, note);
        true
    }
}

impl Office {
    /// Replies to a message that this processor has taken, over the lane to the message's origin. False if that lane is full.
    #[inline(always)]
    #[tactic(auto, using(crate::proofs::Dispatching::answered_over, crate::proofs::Dispatching::line_is_there))]
    pub(crate) fn answer(
        &mut self,
        book: &MsgBook,
        msg: MsgId,
        error: u32,
        outcome: u64,
        trace: &mut Vec<Event>,
    ) -> bool
        requires ready { CanStep 1 self.old.counters.room book.now trace.old }
        requires taken { IsTaken msg self.old.counters.room }
        ensures means { Answers msg error outcome self.old.lanes.items self.new.lanes.items (work self.old.counters.room trace.old) (work self.new.counters.room trace.new) result }
        ensures beside { KeepsPorts 1 self.old.counters trace.old self.new.counters trace.new }
    {
        let mail = mail_of(&self.counters.room.mails, usize::from(msg.0));
        let at = usize::from(mail.origin.cpu.0);
        let line = &mut self.lanes[at];
        let room = &mut self.counters.room;
        let made = room.reply_over(book, line, msg, error, outcome, trace);
        self.holding = may_hold(self.holding, line);
        made
    }
}

/// Whether the thread was shown the message as a request, and hasn't replied yet.
#[inline(always)]
pub(crate) fn is_shown_to(mails: &Vec<Mail>, thread: u8, msg: MsgId) -> bool
    ensures { IsTrue result ↔ IsShownTo thread msg mails.now.items }
{
    let m = usize::from(msg.0);
    if m >= mails.len() {
        return false;
    }
    mail_of(mails, m).shown == Some(thread)
}

impl Ports {
    /// Replies to a message that `get` has shown to the thread, as lwkt_replymsg(9) does. What differs: a full lane
    /// refuses the reply, and the message stays with the thread.
    ///
    /// `NotTaken`: the thread wasn't shown the message, or it has replied already, or there is no such message.
    /// `LaneFull`: the lane to the processor of the message's origin has no room. A refusal makes neither event nor note.
    ///
    /// That the trace has room for 256 events is the caller's condition.
    #[inline(always)]
    #[tactic(auto, using(crate::proofs::Dispatching::shown_is_taken))]
    pub fn reply(
        &mut self,
        book: &MsgBook,
        thread: u8,
        msg: MsgId,
        error: u32,
        outcome: u64,
        trace: &mut Vec<Event>,
    ) -> Result<(), Fault>
        requires table { self.old.seat.table ≡ book.now.table }
        requires room { vec_len trace.old + CALL_EVENTS ≤ vec_capacity trace.old }
        ensures replied { OnOk result (PostReplies thread msg error outcome self.old self.new trace.old trace.new) }
        ensures refused { IfErr result (λ fault. PostRefusesReply thread msg error outcome self.old self.new trace.old trace.new fault) }
        ensures same { IsSamePost self.old self.new }
        ensures grew { Grew (desk_cpu self.old.seat) 1 trace.old trace.new }
        ensures traced { TracesDeeds self.old.seat self.new.seat trace.old.items trace.new.items }
    {
        if !is_shown_to(&self.office.counters.room.mails, thread, msg) {
            return Err(Fault::NotTaken);
        }
        if !self.office.answer(book, msg, error, outcome, trace) {
            return Err(Fault::LaneFull);
        }
        Ok(())
    }

    /// Gives the record of the reply to a synchronous send of the message, once; None if there is none. A later send of
    /// the message discards a reply that was not given. In msgport(9) lwkt_domsg itself waits for the reply, by
    /// lwkt_waitmsg. That there is such a message is the caller's condition.
    pub fn done(&mut self, msg: MsgId) -> Option<Rec>
        requires { msg.0 < messages_of self.old.seat }
        ensures reply { result ≡ (kept_mail_at self.old.mails msg.0).done }
        ensures same { IsSamePost self.old self.new }
        ensures given { self.new ≡ record self.old { mails = slice_set self.old.mails msg.0 (record (kept_mail_at self.old.mails msg.0) { done = None }) } }
    {
        let m = usize::from(msg.0);
        let done = self.office.counters.room.mails[m].done;
        self.office.counters.room.mails[m].done = None;
        done
    }
}
