//! Events, packed: a short event for each, and lists of what is too long for it.
ghost use Rattle.std.specs.Prelude.{◌≡◌, ◌+◌, ◌^◌, ◌<◌, ◌≤◌, length, List, take, drop, slice_get, option_map, Some, vec_capacity, true, false, OnOk, OnErr, IfOk, [], ◌∷◌, ◌++◌};
ghost use Rattle.lwkt_base.specs.declared.sections.Section.{Section};
ghost use Rattle.lwkt_core.specs.RunSections.{sections_named};
ghost use Rattle.lwkt_drive.specs.Gives.{give_of};
ghost use Rattle.lwkt_drive.specs.Stretches.{StandFor};

use crate::gives::Give;
use crate::rooms::{have_places, spare_places};
use crate::short_events::{CellSection, ShortEvent, keep_event};
use crate::stretches::Stretches;
use crate::wide_events::WideEvent;
use lwkt_base::OutOfMemory;
use lwkt_base::memory::reserve_for;
use lwkt_core::Event;
use std::alloc::Global;
use std::marker::Model;

/// Events in order, and how many of whatever kinds they may be without more memory.
///
/// Few events have a section, a record or a number of more than 32 bits. So an event is kept in 8 bytes, one with such a value or round in
/// 16 more, the section of a token with one cell in 12 more if its numbers fit 32 bits, and all else that is longer in a list of its own.
#[derive(Drop)]
pub struct PackedList {
    rows: Vec<ShortEvent>,
    // The short sections of tokens with one cell, the events with a number that a row has no room for, and those that are too long for
    // it. A row has the place of each in 32 bits, so each of these lists takes 2^32 elements at most.
    cells: Vec<CellSection>,
    wides: Vec<WideEvent>,
    longs: Vec<Event>,
    // Each of these three lists takes at least so many more before it asks for memory. It is no sum: an event without an element there
    // leaves it as it is.
    beside: usize,
}

impl Model for PackedList {
    ghost use Rattle.lwkt_drive.specs.ShortEvents.{KeptTrace, events_in, capacity_in, AreKept};

    ghost Value = { KeptTrace };

    ghost view = { λ t. record { items = events_in t.cells.items t.wides.items t.longs.items t.rows.items; capacity = capacity_in t.rows t.cells t.wides t.longs } };

    ghost invariant = { λ t. AreKept t.rows t.cells t.wides t.longs t.beside };
}

impl PackedList {
    /// No events.
    pub fn new(alloc: Global) -> Self
        ensures { result.items ≡ [] }
    {
        PackedList {
            rows: Vec::new(alloc),
            cells: Vec::new(alloc),
            wides: Vec::new(alloc),
            longs: Vec::new(alloc),
            beside: 0,
        }
    }

    /// How many events there are.
    pub fn len(&self) -> usize
        ensures count { result ≡ length self.now.items }
        ensures few { result < 2 ^ 63 }
    {
        self.rows.len()
    }

    /// Gives the list room for as many events more as another list has, of whatever kinds. False if so many have no place in 32 bits.
    ///
    /// `OutOfMemory` if it lacks that room and memory is refused. The events stay, and it has no less room than before.
    #[inline(always)]
    pub fn reserve_for<S>(&mut self, like: &[S]) -> Result<bool, OutOfMemory>
        ensures items { self.new.items ≡ self.old.items }
        ensures capacity { self.old.capacity ≤ self.new.capacity }
        ensures ok { IfOk result (λ fits. fits ≡ true → length self.old.items + length like.now ≤ self.new.capacity) }
        ensures none { IfOk result (λ fits. fits ≡ false → self.new.capacity < length self.old.items + length like.now) }
        ensures some { IfOk result (λ fits. fits ≡ false → 0 < length like.now) }
        ensures full { OnErr result (self.new.capacity < length self.old.items + length like.now) }
    {
        let count = like.len();
        if count <= self.beside && count <= self.rows.capacity() - self.rows.len() {
            return Ok(true);
        }
        self.make_room(like)
    }

    // What `reserve_for` does where a list may lack room: each is looked at. No list is asked for more than so many.
    #[cold]
    #[inline(never)]
    fn make_room<S>(&mut self, like: &[S]) -> Result<bool, OutOfMemory>
        ensures items { self.new.items ≡ self.old.items }
        ensures capacity { self.old.capacity ≤ self.new.capacity }
        ensures ok { IfOk result (λ fits. fits ≡ true → length self.old.items + length like.now ≤ self.new.capacity) }
        ensures none { IfOk result (λ fits. fits ≡ false → self.new.capacity < length self.old.items + length like.now) }
        ensures some { IfOk result (λ fits. fits ≡ false → 0 < length like.now) }
        ensures full { OnErr result (self.new.capacity < length self.old.items + length like.now) }
    {
        let count = like.len();
        if !have_places(&self.cells, count)
            || !have_places(&self.wides, count)
            || !have_places(&self.longs, count)
        {
            return Ok(false);
        }
        reserve_for(&mut self.rows, like)?;
        reserve_for(&mut self.cells, like)?;
        reserve_for(&mut self.wides, like)?;
        reserve_for(&mut self.longs, like)?;
        self.beside = spare_places(&self.cells)
            .min(spare_places(&self.wides))
            .min(spare_places(&self.longs));
        Ok(true)
    }

    /// An event more, behind the others, in a list that has room for it.
    #[inline(always)]
    fn put(&mut self, event: &Event)
        requires { length self.old.items < self.old.capacity }
        ensures items { self.new.items ≡ self.old.items ++ event.now ∷ [] }
        ensures capacity { self.old.capacity ≤ self.new.capacity }
    {
        let row = keep_event(
            &mut self.cells,
            &mut self.wides,
            &mut self.longs,
            &mut self.beside,
            event,
        );
        self.rows.push_reserved(row);
    }

    /// These events, behind the others, in a list that has room for them.
    pub fn put_all(&mut self, events: &[Event])
        requires { length self.old.items + length events.now ≤ self.old.capacity }
        ensures items { self.new.items ≡ self.old.items ++ events.now }
        ensures capacity { self.old.capacity ≤ self.new.capacity }
    {
        for event in events {
            self.put(event);
        }
    }

    /// Writes so many events, from a place on, into a room, in place of what it had. That they are there is the caller's condition.
    ///
    /// `OutOfMemory` if the room lacks room for them and can't be given it; it is empty then.
    #[inline(always)]
    pub fn copy(&self, first: usize, count: usize, room: &mut Vec<Event>) -> Result<(), OutOfMemory>
        requires { first + count ≤ length self.now.items }
        ensures ok { OnOk result (room.new.items ≡ take count (drop first self.now.items)) }
        ensures err { OnErr result (room.new.items ≡ []) }
        ensures full { OnErr result (vec_capacity room.old < count) }
        ensures capacity { vec_capacity room.old ≤ vec_capacity room.new }
    {
        room.clear();
        reserve_for(room, &self.rows[first..first + count])?;
        for i in 0..count {
            self.rows[first + i].put(&self.cells, &self.wides, &self.longs, room);
        }
        Ok(())
    }

    /// The written give at a place, from 0 on; None if another event is there. That one is there is the caller's condition.
    #[inline(always)]
    pub fn give(&self, place: usize) -> Option<Give>
        requires { place < length self.now.items }
        ensures { option_map give_of (slice_get self.now.items place) ≡ Some result }
    {
        self.rows[place].give(&self.cells, &self.longs)
    }

    /// Adds the written sections that the events name to stretches, in the order of the list.
    ///
    /// `OutOfMemory` if memory is refused.
    pub fn add_to_stretches(&self, stretches: &mut Stretches) -> Result<(), OutOfMemory>
        ensures { OnOk result ((sections : List Section) → StandFor stretches.old sections → StandFor stretches.new (sections ++ sections_named self.now.items)) }
    {
        for row in &self.rows {
            row.add_to(&self.cells, &self.longs, stretches)?;
        }
        Ok(())
    }
}
