//! The notes of closed ports.
ghost use Rattle.std.specs.Prelude.{◌≡◌, ◌↔◌, ℕ, ◌+◌, ◌-◌, ◌<◌, ◌≤◌, true, false, IsTrue, vec_len};
ghost use Rattle.lwkt_port.specs.Chains.{Chain};
ghost use Rattle.lwkt_port.specs.Queues.{HasNamed};
ghost use Rattle.lwkt_port.specs.Works.{work, CanStep, MailroomGrew};
ghost use Rattle.lwkt_port.specs.Hints.{IsClear, AreClear};
ghost use Rattle.lwkt_port.specs.Intakes.{Clears, ClearsPort, Clearing, clearing, ClearsAt};

use crate::counters::Counters;
use crate::deeds::Claim;
use crate::mailrooms::Mailroom;
use crate::queues::{Port, count, drop_front, front};
use lwkt_core::Event;
use lwkt_lane::{Note, NoteKind};
use lwkt_msg::{MsgBook, Taken};

// The most notes of closed ports in one call.
const CLEARED_AT_ONCE: usize = 16;

impl Mailroom {
    // Clears a note of a closed port. True if it stays, since another step on its message came between.
    fn clear_note(&mut self, book: &MsgBook, note: Note, trace: &mut Vec<Event>) -> bool
        requires ready { CanStep 1 self.old book.now trace.old }
        requires exists { note.msg.0 < vec_len self.old.mails }
        ensures clears { Clears note (work self.old trace.old) (work self.new trace.new) result }
        ensures grew_so { MailroomGrew 1 self.old trace.old self.new trace.new }
    {
        match note.kind {
            NoteKind::Request => match self.take(book, Claim::Closed, note, trace) {
                Taken::Took { .. } | Taken::Stale => false,
                Taken::Again => true,
            },
            NoteKind::Answer => {
                let _ = self.reap(book, false, note, trace);
                false
            }
        }
    }
}

impl Mailroom {
    // Clears a port, if it is closed, of at most so many notes, the urgent ones first. Answers how many.
    fn clear(
        &mut self,
        book: &MsgBook,
        port: &mut Port,
        most: usize,
        trace: &mut Vec<Event>,
    ) -> usize
        requires ready { CanStep (most + 1) self.old book.now trace.old }
        requires named { HasNamed (vec_len self.old.mails) port.old }
        ensures clears { ClearsPort most result port.old port.new (work self.old trace.old) (work self.new trace.new) }
        ensures within { result ≤ most }
        ensures grew_so { MailroomGrew (result + 1) self.old trace.old self.new trace.new }
    {
        if !port.closed {
            return 0;
        }
        for done in 0..most {
            let Some(note) = front(port) else {
                return done;
            };
            if self.clear_note(book, note, trace) {
                return done;
            }
            drop_front(port);
        }
        most
    }
}

impl Counters {
    // Clears the closed ports, by rising number.
    #[cold]
    #[inline(never)]
    fn clear_each(&mut self, book: &MsgBook, trace: &mut Vec<Event>) -> usize
        requires ready { CanStep 64 self.old.room book.now trace.old }
        requires uncleared { self.old.uncleared ≡ true }
        ensures clears { Chain Clearing ClearsAt 16 (clearing self.old trace.old 16) (clearing self.new trace.new result) }
        ensures grew_so { MailroomGrew 32 self.old.room trace.old self.new.room trace.new }
    {
        let mut left = CLEARED_AT_ONCE;
        for at in 0..16 {
            left -= self.room.clear(book, &mut self.ports[at], left, trace);
        }
        left
    }
}

// Whether a port has nothing to clear.
fn is_clear(port: &Port) -> bool
    ensures { IsTrue result ↔ IsClear port.now }
{
    !port.closed || count(port) == 0
}

// Whether a closed port has a note.
fn has_notes_left(ports: &Vec<Port>) -> bool
    ensures { result ≡ false → AreClear ports.now.items }
{
    !ports.iter().all(is_clear)
}

impl Counters {
    /// Clears the closed ports, of at most 16 notes.
    #[inline]
    pub(crate) fn clear_all(&mut self, book: &MsgBook, trace: &mut Vec<Event>)
        requires ready { CanStep 64 self.old.room book.now trace.old }
        ensures clears { (left : ℕ) × Chain Clearing ClearsAt 16 (clearing self.old trace.old 16) (clearing self.new trace.new left) }
        ensures grew_so { MailroomGrew 32 self.old.room trace.old self.new.room trace.new }
        ensures none { self.old.uncleared ≡ false → self.new.room.mails.items ≡ self.old.room.mails.items }
    {
        if self.uncleared {
            let _left = self.clear_each(book, trace);
            self.uncleared = has_notes_left(&self.ports);
        }
    }
}
