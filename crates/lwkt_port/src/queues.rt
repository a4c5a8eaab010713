//! The queues of one thread's port.
ghost use Rattle.std.specs.Prelude.{◌≡◌, ◌<◌, ◌≤◌, List, [], ◌∷◌, length, MatchOption, IfOk};
ghost use Rattle.lwkt_lane.specs.declared.notes.Note.{Note};
ghost use Rattle.lwkt_port.specs.Queues.{queue_of, IsQueued, HasLeft};

use crate::note_queues::NoteQueue;
use lwkt_base::OutOfMemory;
use lwkt_lane::Note;
use std::alloc::Global;

/// One thread's port.
#[derive(Drop)]
pub struct Port {
    /// The notes of messages that were sent with priority.
    pub(crate) urgent: NoteQueue,
    /// The other notes.
    pub(crate) ordinary: NoteQueue,
    /// Whether the port's thread has ended, or isn't there.
    pub(crate) closed: bool,
}

/// A port without notes.
pub(crate) fn empty_port(alloc: Global, closed: bool) -> Result<Port, OutOfMemory>
    ensures { IfOk result (λ port. (queue_of port ≡ []) × (port.closed ≡ closed)) }
{
    let urgent = NoteQueue::new(alloc)?;
    let ordinary = NoteQueue::new(alloc)?;
    Ok(Port {
        urgent,
        ordinary,
        closed,
    })
}

/// How many notes the queues have.
#[inline(always)]
pub(crate) fn count(port: &Port) -> usize
    ensures count { result ≡ length (queue_of port.now) }
    ensures few { result ≤ 128 }
{
    port.urgent.len() + port.ordinary.len()
}

/// The note to be served first.
#[inline(always)]
pub(crate) fn front(port: &Port) -> Option<Note>
    ensures { MatchOption result (queue_of port.now ≡ []) (λ note. (rest : List Note) × (queue_of port.now ≡ note ∷ rest)) }
{
    match port.urgent.first() {
        Some(note) => Some(note),
        None => port.ordinary.first(),
    }
}

/// Takes the note that is served first off its queue.
#[inline(always)]
pub(crate) fn drop_front(port: &mut Port)
    requires { 0 < length (queue_of port.old) }
    ensures { (note : Note) → (rest : List Note) → queue_of port.old ≡ note ∷ rest → HasLeft rest port.old port.new }
{
    if port.urgent.len() == 0 {
        port.ordinary.drop_first();
    } else {
        port.urgent.drop_first();
    }
}

/// Puts a note at the end of the queue of its class, if that has room.
#[inline(always)]
pub(crate) fn enqueue(port: &mut Port, note: Note) -> bool
    ensures { IsQueued note port.old port.new result }
{
    if note.urgent {
        port.urgent.put(note)
    } else {
        port.ordinary.put(note)
    }
}
