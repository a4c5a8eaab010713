//! One note that came over a lane, and one lane.
ghost use Rattle.std.specs.Prelude.{◌≡◌, ◌↔◌, ◌+◌, ◌<◌, ◌≤◌, true, None, Some, IsTrue, vec_len};
ghost use Rattle.lwkt_port.specs.Works.{away_count, CanStep, work_state, KeepsWorkState};
ghost use Rattle.lwkt_port.specs.Posts.{KeepsNamed};
ghost use Rattle.lwkt_port.specs.Queues.{NamesBoth};
ghost use Rattle.lwkt_port.specs.Intakes.{desks, IsSyncAnswer, Handles, Pops, Empties};

use crate::counters::Counters;
use crate::lines::{Lane, pop};
use crate::mails::{Mail, mail_of};
use crate::queues::enqueue;
use lwkt_core::Event;
use lwkt_lane::{Note, NoteKind};
use lwkt_msg::{MsgBook, Reaped};

/// What became of a note that came over a lane.
#[derive(Clone, Copy, PartialEq, Eq)]
pub enum Fate {
    /// It names no message or no port, and nothing was done.
    Foreign,
    /// A synchronous answer: its message is at rest again.
    Reaped,
    /// A synchronous answer whose message has not come back in its round.
    Stale,
    /// It stands in its port's queue.
    Queued,
}

// Whether a note names a message and a port.
#[inline(always)]
fn names_both(mails: &Vec<Mail>, note: Note) -> bool
    ensures { IsTrue result ↔ NamesBoth (vec_len mails.now) note }
{
    usize::from(note.msg.0) < mails.len() && note.port < 16
}

// Whether a note is the answer to this processor's last send of its message, which was synchronous.
#[inline(always)]
fn is_sync_answer(mails: &Vec<Mail>, note: Note) -> bool
    requires { note.msg.0 < vec_len mails.now }
    ensures { IsTrue result ↔ IsSyncAnswer note mails.now.items }
{
    note.kind == NoteKind::Answer && mail_of(mails, usize::from(note.msg.0)).sync
}

impl Counters {
    // Handles a note that came over a lane. None if its port's queue is full.
    #[inline(always)]
    fn handle(&mut self, book: &MsgBook, note: Note, trace: &mut Vec<Event>) -> Option<Fate>
        requires ready { CanStep (away_count self.old.room.mails.items + 1) self.old.room book.now trace.old }
        ensures handles { Handles note (desks self.old trace.old) (desks self.new trace.new) result }
        ensures keeps { KeepsWorkState (work_state self.old trace.old) (work_state self.new trace.new) }
    {
        if !names_both(&self.room.mails, note) {
            return Some(Fate::Foreign);
        }
        if is_sync_answer(&self.room.mails, note) {
            return match self.room.reap(book, true, note, trace) {
                Reaped::Done { .. } => Some(Fate::Reaped),
                Reaped::Stale => Some(Fate::Stale),
            };
        }
        if !enqueue(&mut self.ports[usize::from(note.port)], note) {
            return None;
        }
        self.uncleared = self.uncleared || self.ports[usize::from(note.port)].closed;
        Some(Fate::Queued)
    }
}

impl Counters {
    // Pops at most so many notes from a lane that keeps none, and handles them; one that finds its port's queue full is kept, and is
    // the last. Answers how many were popped.
    #[inline(always)]
    fn pop_all(
        &mut self,
        book: &MsgBook,
        line: &mut Lane,
        most: usize,
        trace: &mut Vec<Event>,
    ) -> usize
        requires ready { CanStep (away_count self.old.room.mails.items + 1) self.old.room book.now trace.old }
        requires none { line.old.kept ≡ None }
        ensures pops { Pops most result line.old line.new (desks self.old trace.old) (desks self.new trace.new) }
        ensures keeps { KeepsWorkState (work_state self.old trace.old) (work_state self.new trace.new) }
    {
        for popped in 0..most {
            let Some(note) = pop(line) else {
                return popped;
            };
            let Some(_fate) = self.handle(book, note, trace) else {
                line.kept = Some(note);
                return popped + 1;
            };
        }
        most
    }
}

impl Counters {
    /// Empties the lane from a processor, as far as the limit and the queues of its notes' ports allow, the note that was kept
    /// first. Answers how many notes were popped.
    #[inline(always)]
    pub(crate) fn empty(
        &mut self,
        book: &MsgBook,
        line: &mut Lane,
        most: usize,
        trace: &mut Vec<Event>,
    ) -> usize
        requires ready { CanStep (away_count self.old.room.mails.items + 1) self.old.room book.now trace.old }
        requires line { KeepsNamed (vec_len self.old.room.mails) line.old }
        ensures empties { Empties most result line.old line.new (desks self.old trace.old) (desks self.new trace.new) }
        ensures within { result ≤ most }
        ensures keeps { KeepsWorkState (work_state self.old trace.old) (work_state self.new trace.new) }
    {
        let Some(note) = line.kept else {
            return self.pop_all(book, line, most, trace);
        };
        let Some(_fate) = self.handle(book, note, trace) else {
            return 0;
        };
        line.kept = None;
        self.pop_all(book, line, most, trace)
    }
}
