//! Notes that wait, the oldest first.
ghost use Rattle.std.specs.Prelude.{◌≡◌, ◌≤◌, [], length, drop, slice_get, IfOk};
ghost use Rattle.lwkt_port.specs.Queues.{IsPut};

use circular_buffer::HeapCircularBuffer;
use lwkt_base::OutOfMemory;
use lwkt_base::memory::queue;
use lwkt_lane::Note;
use std::alloc::Global;
use std::marker::Model;

/// The most notes in each of the two queues of a port.
pub const QUEUE_LIMIT: usize = 64;

/// Notes that wait, at most 64, the oldest first.
#[derive(Drop)]
pub struct NoteQueue {
    ring: HeapCircularBuffer<Note>,
}

impl Model for NoteQueue {
    ghost use Rattle.std.specs.Prelude.{◌≡◌, List};
    ghost use Rattle.lwkt_lane.specs.declared.notes.Note.{Note};
    ghost use Rattle.lwkt_port.specs.declared.note_queues.TheConstants.{QUEUE_LIMIT};

    ghost Value = { List Note };

    ghost view = { λ q. q.ring.items };

    ghost invariant = { λ q. q.ring.capacity ≡ QUEUE_LIMIT };
}

impl NoteQueue {
    /// A queue without notes.
    pub(crate) fn new(alloc: Global) -> Result<NoteQueue, OutOfMemory>
        ensures { IfOk result (λ q. q ≡ []) }
    {
        let ring = queue(alloc, QUEUE_LIMIT)?;
        Ok(NoteQueue { ring })
    }

    /// How many notes wait.
    #[inline(always)]
    pub(crate) fn len(&self) -> usize
        ensures count { result ≡ length self.now }
        ensures few { result ≤ QUEUE_LIMIT }
    {
        self.ring.len()
    }

    /// The oldest note.
    #[inline(always)]
    pub(crate) fn first(&self) -> Option<Note>
        ensures { result ≡ slice_get self.now 0 }
    {
        self.ring.front().copied()
    }

    /// Takes the oldest note off, if there is one.
    #[inline(always)]
    pub(crate) fn drop_first(&mut self)
        ensures { self.new ≡ drop 1 self.old }
    {
        let _note = self.ring.pop_front();
    }

    /// Puts a note behind the others, if there is room.
    #[inline(always)]
    pub(crate) fn put(&mut self, note: Note) -> bool
        ensures { IsPut note self.old self.new result }
    {
        let few = self.len() <= QUEUE_LIMIT;
        prove!(few);
        self.ring.try_push_back(note).is_ok()
    }
}
