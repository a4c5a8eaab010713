//! A trace: packed events, and behind them whole ones where packed ones have no more places.
ghost use Rattle.std.specs.Prelude.{◌≡◌, ◌+◌, ◌<◌, ◌≤◌, length, List, take, drop, slice_get, option_map, Some, vec_capacity, OnOk, OnErr, IfOk, [], ◌++◌};
ghost use Rattle.lwkt_base.specs.declared.sections.Section.{Section};
ghost use Rattle.lwkt_core.specs.RunSections.{sections_named};
ghost use Rattle.lwkt_drive.specs.Gives.{give_of};
ghost use Rattle.lwkt_drive.specs.Stretches.{StandFor};

use crate::gives::{Give, give_of};
use crate::packed::PackedList;
use crate::stretches::Stretches;
use lwkt_base::OutOfMemory;
use lwkt_base::memory::{extend_from_slice, reserve_for};
use lwkt_core::Event;
use std::alloc::Global;
use std::marker::Model;

/// The events of a processor or of a run, in order, and how many of whatever kinds they may be without more memory.
///
/// They are kept packed, as long as what lies beside their rows has places that fit 32 bits, and behind these whole.
#[derive(Drop)]
pub struct EventList {
    packed: PackedList,
    // It has room from the first time on that packed events have no places, and takes all later events.
    whole: Vec<Event>,
}

impl Model for EventList {
    ghost use Rattle.lwkt_drive.specs.ShortEvents.{KeptTrace, trace_of};

    ghost Value = { KeptTrace };

    ghost view = { λ t. trace_of t.packed t.whole };
}

impl EventList {
    /// No events.
    pub fn new(alloc: Global) -> Self
        ensures { result.items ≡ [] }
    {
        EventList {
            packed: PackedList::new(alloc),
            whole: Vec::new(alloc),
        }
    }

    /// How many events there are.
    pub fn len(&self) -> usize
        ensures { result ≡ length self.now.items }
    {
        self.packed.len() + self.whole.len()
    }

    /// Gives the list room for as many events more as another list has, of whatever kinds.
    ///
    /// `OutOfMemory` if it lacks that room and memory is refused: the events stay, and it has no less room than before.
    #[inline(always)]
    pub fn reserve_for<S>(&mut self, like: &[S]) -> Result<(), OutOfMemory>
        ensures items { self.new.items ≡ self.old.items }
        ensures capacity { self.old.capacity ≤ self.new.capacity }
        ensures ok { OnOk result (length self.old.items + length like.now ≤ self.new.capacity) }
        ensures full { OnErr result (self.new.capacity < length self.old.items + length like.now) }
    {
        if self.whole.capacity() == 0 && self.packed.reserve_for(like)? {
            return Ok(());
        }
        reserve_for(&mut self.whole, like)
    }

    /// These events, behind the others, in a list that has room for them.
    pub fn put_all(&mut self, events: &[Event])
        requires { length self.old.items + length events.now ≤ self.old.capacity }
        ensures items { self.new.items ≡ self.old.items ++ events.now }
        ensures capacity { self.old.capacity ≤ self.new.capacity }
    {
        if self.whole.capacity() == 0 {
            self.packed.put_all(events);
        } else {
            extend_from_slice(&mut self.whole, events).unwrap();
        }
    }

    /// These events, behind the others.
    ///
    /// `OutOfMemory` if the list lacks room for them and memory is refused: the events stay, and it has no less room than before.
    pub fn append(&mut self, events: &[Event]) -> Result<(), OutOfMemory>
        ensures ok { OnOk result (self.new.items ≡ self.old.items ++ events.now) }
        ensures err { OnErr result (self.new.items ≡ self.old.items) }
        ensures full { OnErr result (self.new.capacity < length self.old.items + length events.now) }
        ensures capacity { self.old.capacity ≤ self.new.capacity }
    {
        self.reserve_for(events)?;
        self.put_all(events);
        Ok(())
    }

    /// Writes so many events, from a place on, into a room, in place of what it had. That they are there is the caller's condition.
    ///
    /// `OutOfMemory` if the room lacks room for them and can't be given it; it is empty then.
    #[inline(always)]
    pub fn copy(&self, first: usize, count: usize, room: &mut Vec<Event>) -> Result<(), OutOfMemory>
        requires { first + count ≤ length self.now.items }
        ensures ok { OnOk result (room.new.items ≡ take count (drop first self.now.items)) }
        ensures err { OnErr result (room.new.items ≡ []) }
        ensures full { OnErr result (vec_capacity room.old < count) }
        ensures capacity { vec_capacity room.old ≤ vec_capacity room.new }
    {
        if self.whole.is_empty() {
            return self.packed.copy(first, count, room);
        }
        self.copy_across(first, count, room)
    }

    // What `copy` does where some of the events are whole.
    #[cold]
    #[inline(never)]
    fn copy_across(
        &self,
        first: usize,
        count: usize,
        room: &mut Vec<Event>,
    ) -> Result<(), OutOfMemory>
        requires { first + count ≤ length self.now.items }
        ensures ok { OnOk result (room.new.items ≡ take count (drop first self.now.items)) }
        ensures err { OnErr result (room.new.items ≡ []) }
        ensures full { OnErr result (vec_capacity room.old < count) }
        ensures capacity { vec_capacity room.old ≤ vec_capacity room.new }
    {
        let packed = self.packed.len();
        let start = first.min(packed);
        let here = count.min(packed - start);
        self.packed.copy(start, here, room)?;
        let others = &self.whole[first - start..];
        if let Err(refused) = extend_from_slice(room, &others[..count - here]) {
            room.clear();
            return Err(refused);
        }
        Ok(())
    }

    /// The written give at a place, from 0 on; None if another event is there. That one is there is the caller's condition.
    #[inline(always)]
    pub fn give(&self, place: usize) -> Option<Give>
        requires { place < length self.now.items }
        ensures { option_map give_of (slice_get self.now.items place) ≡ Some result }
    {
        let packed = self.packed.len();
        if place < packed {
            self.packed.give(place)
        } else {
            give_of(&self.whole[place - packed])
        }
    }

    /// Adds the written sections that the events name to stretches, in the order of the list.
    ///
    /// `OutOfMemory` if memory is refused.
    pub fn add_to_stretches(&self, stretches: &mut Stretches) -> Result<(), OutOfMemory>
        ensures { OnOk result ((sections : List Section) → StandFor stretches.old sections → StandFor stretches.new (sections ++ sections_named self.now.items)) }
    {
        self.packed.add_to_stretches(stretches)?;
        stretches.add_named(&self.whole)
    }

    /// All events, as whole ones.
    pub fn whole(&self, alloc: Global) -> Result<Vec<Event>, OutOfMemory>
        ensures { IfOk result (λ events. events.items ≡ self.now.items) }
    {
        let mut events = Vec::new(alloc);
        self.copy(0, self.len(), &mut events)?;
        Ok(events)
    }
}
