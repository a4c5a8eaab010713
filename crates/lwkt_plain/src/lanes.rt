//! The steps on lanes and ports.
ghost use Rattle.std.specs.Prelude.{◌≡◌, drop, length, OnOk, Option, Some, None, is_some, slice_get};
ghost use Rattle.lwkt_plain.specs.Places.{moved, has_room, pushed};
ghost use Rattle.lwkt_plain.specs.Intakes.{has_space, queued, first_note, without_note};

use crate::letters::{LANE_QUEUE, Lane, Note, PORT_QUEUE, Port};
use lwkt_base::OutOfMemory;

impl Lane {
    /// Moves the note in hand into the queue, if that has room.
    pub(crate) fn move_on(&mut self) -> Result<(), OutOfMemory>
        ensures { OnOk result (self.new ≡ moved self.old) }
    {
        let Some(note) = self.hand else {
            return Ok(());
        };
        if self.queue.len() < LANE_QUEUE {
            self.queue.push(note)?;
            self.hand = None;
        }
        Ok(())
    }

    /// Whether a note can be sent over it.
    pub(crate) fn has_room(&self) -> bool
        ensures { result ≡ has_room self.now }
    {
        self.hand.is_none() || self.queue.len() < LANE_QUEUE
    }

    // Sends a note behind the queue.
    fn push(&mut self, note: Note) -> Result<(), OutOfMemory>
        ensures { OnOk result (self.new ≡ pushed note self.old) }
    {
        if self.queue.len() < LANE_QUEUE {
            return self.queue.push(note);
        }
        self.hand = Some(note);
        Ok(())
    }

    /// Sends a note over it, where it has room.
    pub(crate) fn send(&mut self, note: Note) -> Result<(), OutOfMemory>
        ensures { OnOk result (self.new ≡ pushed note (moved self.old)) }
    {
        self.move_on()?;
        self.push(note)
    }

    /// Takes the first note of the queue off.
    pub(crate) fn take_first(&mut self) -> Option<Note>
        ensures first { result ≡ slice_get self.old.queue 0 }
        ensures rest { self.new ≡ record self.old { queue = drop 1 self.old.queue } }
        ensures stays { result ≡ None → self.new ≡ self.old }
    {
        self.queue.take_first()
    }

    pub(crate) fn keep(&mut self, note: Option<Note>)
        ensures { self.new ≡ record self.old { kept = note } }
    {
        self.kept = note;
    }
}

impl Port {
    /// Whether the queue of a note's class has room.
    pub(crate) fn has_space(&self, note: &Note) -> bool
        ensures { result ≡ has_space note.now self.now }
    {
        if note.urgent {
            self.urgent.len() < PORT_QUEUE
        } else {
            self.ordinary.len() < PORT_QUEUE
        }
    }

    /// Puts a note behind the others of its class.
    pub(crate) fn enqueue(&mut self, note: Note) -> Result<(), OutOfMemory>
        ensures { OnOk result (self.new ≡ queued note self.old) }
    {
        if note.urgent {
            self.urgent.push(note)
        } else {
            self.ordinary.push(note)
        }
    }

    /// Takes the note off that is served first.
    pub(crate) fn take_first(&mut self) -> Option<Note>
        ensures first { result ≡ first_note self.old }
        ensures rest { self.new ≡ without_note self.old }
        ensures stays { result ≡ None → self.new ≡ self.old }
    {
        match self.urgent.take_first() {
            Some(note) => Some(note),
            None => self.ordinary.take_first(),
        }
    }
}
