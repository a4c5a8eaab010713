//! A thread looks at its port.
ghost use Rattle.std.specs.Prelude.{◌≡◌, ◌+◌, ◌<◌, ◌≤◌, true, false, [], ◌∷◌, vec_len, vec_capacity};
ghost use Rattle.lwkt_lane.specs.declared.notes.Note.{Note};
ghost use Rattle.lwkt_msg.specs.Desks.{desk_cpu};
ghost use Rattle.lwkt_port.specs.Posts.{IsSamePost};
ghost use Rattle.lwkt_port.specs.Queues.{HasNamed};
ghost use Rattle.lwkt_port.specs.Works.{work, Grew, CanStep, MailroomGrew};
ghost use Rattle.lwkt_port.specs.Servings.{served_request, served_answer, Serves, ServesPort, PostGets};
ghost use Rattle.lwkt_port.specs.Traced.{TracesDeeds};
ghost use Rattle.lwkt_port.specs.Hints.{OwesNone};

use crate::deeds::Claim;
use crate::mailrooms::Mailroom;
use crate::posts::Ports;
use crate::queues::{Port, count, drop_front, front};
use lwkt_base::{Call, Fault, Item, MsgId};
use lwkt_core::Event;
use lwkt_lane::{Note, NoteKind};
use lwkt_msg::{MsgBook, Reaped, Taken};

/// What became of a note that a thread was served with.
#[derive(Clone, Copy, PartialEq, Eq)]
pub enum Served {
    /// It was stale, or a request that was aborted before the thread saw it.
    Passed,
    /// Another processor's step came between.
    Lost,
    /// The thread is shown this.
    Shown(Item),
}

// What becomes of a request.
#[inline(always)]
fn serve_request(msg: MsgId, answer: Taken) -> Served
    ensures { result ≡ served_request msg answer }
{
    match answer {
        Taken::Took { aborted: true, .. } | Taken::Stale => Served::Passed,
        Taken::Took { rec, .. } => {
            let call = Call {
                arg: rec.arg,
                op: rec.op,
            };
            Served::Shown(Item::Request(msg, call))
        }
        Taken::Again => Served::Lost,
    }
}

// What becomes of an answer.
#[inline(always)]
fn serve_answer(msg: MsgId, answer: Reaped) -> Served
    ensures { result ≡ served_answer msg answer }
{
    match answer {
        Reaped::Done { rec } => Served::Shown(Item::Answered(msg, rec.error, rec.result)),
        Reaped::Stale => Served::Passed,
    }
}

impl Mailroom {
    // Serves a thread with a note of its port.
    #[inline(always)]
    fn serve_note(
        &mut self,
        book: &MsgBook,
        thread: u8,
        note: Note,
        trace: &mut Vec<Event>,
    ) -> Served
        requires ready { CanStep 1 self.old book.now trace.old }
        requires exists { note.msg.0 < vec_len self.old.mails }
        ensures serves { Serves thread note (work self.old trace.old) (work self.new trace.new) result }
        ensures grew_so { MailroomGrew 1 self.old trace.old self.new trace.new }
    {
        match note.kind {
            NoteKind::Request => {
                let who = Claim::Thread(thread);
                serve_request(note.msg, self.take(book, who, note, trace))
            }
            NoteKind::Answer => { serve_answer(note.msg, self.reap(book, false, note, trace)) }
        }
    }
}

impl Mailroom {
    // Serves a thread from its port. A note that is passed over may have left a reply owed.
    #[inline(always)]
    fn serve(
        &mut self,
        book: &MsgBook,
        port: &mut Port,
        thread: u8,
        owing: &mut bool,
        trace: &mut Vec<Event>,
    ) -> Result<Option<Item>, Fault>
        requires ready { CanStep 128 self.old book.now trace.old }
        requires named { HasNamed (vec_len self.old.mails) port.old }
        requires hint { owing.old ≡ false → OwesNone self.old.mails.items }
        ensures serves { ServesPort thread port.old port.new (work self.old trace.old) (work self.new trace.new) result }
        ensures grew_so { MailroomGrew 128 self.old trace.old self.new trace.new }
        ensures hint { owing.new ≡ false → OwesNone self.new.mails.items }
    {
        let notes = count(port);
        for _turn in 0..notes {
            let Some(note) = front(port) else {
                return Ok(None);
            };
            match self.serve_note(book, thread, note, trace) {
                Served::Passed => {
                    *owing = true;
                    drop_front(port)
                }
                Served::Lost => return Err(Fault::Again),
                Served::Shown(item) => {
                    drop_front(port);
                    return Ok(Some(item));
                }
            }
        }
        Ok(None)
    }
}

impl Ports {
    /// Gives the next item of a thread's port: a request, which the thread then has to reply to, or the reply to an
    /// asynchronous send, whose message is at rest with the thread again. None if the port has no item. This is
    /// lwkt_getport(9); lwkt_waitport is this call made again until it gives an item. Items of messages that were sent with
    /// priority come before the others, and each kind in the order in which it came. What differs: notes of messages that
    /// were taken back are passed over, and a request that was aborted before the thread saw it is owed EINTR.
    ///
    /// `Again`: another processor's step on the first note's message came between; the note stays first.
    ///
    /// That there is such a thread, and that the trace has room for 128 events, are the caller's conditions.
    #[inline(always)]
    pub fn get(
        &mut self,
        book: &MsgBook,
        thread: u8,
        trace: &mut Vec<Event>,
    ) -> Result<Option<Item>, Fault>
        requires table { self.old.seat.table ≡ book.now.table }
        requires exists { thread < self.old.threads }
        requires room { vec_len trace.old + 128 ≤ vec_capacity trace.old }
        ensures gets { PostGets thread self.old self.new trace.old trace.new result }
        ensures same { IsSamePost self.old self.new }
        ensures grew { Grew (desk_cpu self.old.seat) 128 trace.old trace.new }
        ensures traced { TracesDeeds self.old.seat self.new.seat trace.old.items trace.new.items }
    {
        let office = &mut self.office;
        let counters = &mut office.counters;
        counters.room.serve(
            book,
            &mut counters.ports[usize::from(thread)],
            thread,
            &mut office.owing,
            trace,
        )
    }
}
