ghost use Rattle.std.specs.Prelude.{◌≡◌, ◌≤◌, [], ◌++◌, length, None, IfOk, IsOkUnless, vec_len, vec_capacity};
ghost use Rattle.lwkt_lane.specs.Lane.{sent_notes, in_hand, received, seen_notes, out_lane, IsLane, lane_capacity};
ghost use Rattle.lwkt_base.specs.Fault.{no_memory};

use crate::ins::LaneIn;
use crate::notes::Note;
use crate::outs::LaneOut;
use lwkt_base::memory::{ring, with_capacity};
use lwkt_base::{Fault, OutOfMemory};
use std::alloc::Global;

/// Makes a lane for `capacity` notes, 2 to 32: its queue has room for one fewer, and the sending end keeps one in hand.
/// Nothing was sent yet.
///
/// `Memory` if an allocation was refused.
pub fn lane(alloc: Global, capacity: usize) -> Result<(LaneOut, LaneIn), Fault>
    requires least { 2 ≤ capacity }
    requires most { capacity ≤ 32 }
    ensures ends { IfOk result (λ ends. IsLane ends.0 ends.1) }
    ensures sent { IfOk result (λ ends. (sent_notes ends.0 ≡ []) × (in_hand ends.0 ≡ None)) }
    ensures received { IfOk result (λ ends. received ends.1 ≡ []) }
    ensures capacity { IfOk result (λ ends. lane_capacity (out_lane ends.0) ≡ capacity) }
    ensures only { IsOkUnless result no_memory }
{
    Ok(new_lane(alloc, capacity)?)
}

/// Makes a lane, as `lane` does.
pub(crate) fn new_lane(alloc: Global, capacity: usize) -> Result<(LaneOut, LaneIn), OutOfMemory>
    requires least { 2 ≤ capacity }
    requires most { capacity ≤ 32 }
    ensures ends { IfOk result (λ ends. IsLane ends.0 ends.1) }
    ensures sent { IfOk result (λ ends. (sent_notes ends.0 ≡ []) × (in_hand ends.0 ≡ None)) }
    ensures received { IfOk result (λ ends. received ends.1 ≡ []) }
    ensures capacity { IfOk result (λ ends. lane_capacity (out_lane ends.0) ≡ capacity) }
{
    let (sender, receiver) = ring(alloc, capacity - 1)?;
    let out = LaneOut {
        ring: sender,
        hand: None,
    };
    Ok((out, LaneIn { ring: receiver }))
}

/// Gives up a lane, and gives every note that was sent and not received, the oldest first. `out` and `into` are the two
/// ends of one lane.
///
/// `Memory` if an allocation was refused; the lane is given up then too.
pub fn settle(alloc: Global, out: LaneOut, into: LaneIn) -> Result<Vec<Note>, Fault>
    requires { IsLane out into }
    ensures rest { IfOk result (λ notes. received into ++ notes.items ≡ sent_notes out) }
    ensures within { IfOk result (λ notes. vec_len notes ≤ lane_capacity (out_lane out)) }
    ensures only { IsOkUnless result no_memory }
{
    let mut out = out;
    let mut into = into;
    let room = out.ring.capacity() + 1;
    let mut notes = with_capacity(alloc, room)?;
    let count = into.see_all(&mut out);
    receive_all(&mut into, count, &mut notes);
    if let Some(note) = out.hand {
        notes.push(note).unwrap();
    }
    Ok(notes)
}

// Receives every note that the end has seen in the queue.
fn receive_all(into: &mut LaneIn, count: usize, notes: &mut Vec<Note>)
    requires seen { count ≡ length (seen_notes into.old) }
    requires empty { notes.old.items ≡ [] }
    requires room { count ≤ vec_capacity notes.old }
    ensures all { notes.new.items ≡ seen_notes into.old }
    ensures within { vec_len notes.new ≤ count }
    ensures capacity { vec_capacity notes.old ≤ vec_capacity notes.new }
{
    for _turn in 0..count {
        notes.push(into.ring.pop_known()).unwrap();
    }
}
