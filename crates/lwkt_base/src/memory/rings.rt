//! Rings, of a number of places that stays.
ghost use Rattle.std.specs.Prelude.{◌≡◌, ◌≤◌, [], IfOk};
ghost use Rattle.rtrb.specs.Ring.{sent, known_free, producer_capacity, received, known_items, consumer_capacity, IsPair};
ghost use Rattle.circular_buffer.specs.Buffer.{buffer};

use super::{MOST_ROOM, OutOfMemory, refused};
use circular_buffer::HeapCircularBuffer;
use rtrb::{Consumer, Producer, RingBuffer};
use std::alloc::Global;

/// A ring with so many places, for one thread that sends and one that receives.
pub fn ring<T: Drop>(
    alloc: Global,
    capacity: usize,
) -> Result<(Producer<T, Global>, Consumer<T, Global>), OutOfMemory>
    requires { capacity ≤ MOST_ROOM }
    ensures pair { IfOk result (λ r. IsPair r.0 r.1) }
    ensures producer { IfOk result (λ r. (sent r.0 ≡ []) × (known_free r.0 ≡ capacity) × (producer_capacity r.0 ≡ capacity)) }
    ensures consumer { IfOk result (λ r. (received r.1 ≡ []) × (known_items r.1 ≡ []) × (consumer_capacity r.1 ≡ capacity)) }
{
    match RingBuffer::new(alloc, capacity) {
        Ok(ends) => Ok(ends),
        Err(_) => Err(refused()),
    }
}

/// A queue with so many places.
pub fn queue<T>(
    alloc: Global,
    capacity: usize,
) -> Result<HeapCircularBuffer<T, Global>, OutOfMemory>
    requires { capacity ≤ MOST_ROOM }
    ensures { IfOk result (λ b. b ≡ buffer [] capacity) }
{
    match HeapCircularBuffer::with_capacity(alloc, capacity) {
        Ok(queue) => Ok(queue),
        Err(_) => Err(refused()),
    }
}
