//! The search: it goes on from each state that is found, in the order in which they are found.
ghost use Rattle.std.specs.Prelude.{◌≡◌, ◌≢◌, ℕ, ◌+◌, ◌<◌, ◌≤◌, ◌⊎◌, List, [], ◌∷◌, length, All, Option, None, Some, IsTrue, IsFalse, IfOk, slice_index_or};
ghost use Rattle.lwkt_search.specs.Runs.{run, all_told, told_of, IsOrder, IsLast, IsOutcome, IsShortest, HasOutcome, HasStates, AreApart, HasAtMost};
ghost use Rattle.lwkt_search.specs.Graphs.{nodes_of, IsGraphOf, IsGrown, IsWithin, IsGrowth, IsTold, GrowsFrom};
ghost use Rattle.lwkt_search.specs.Rows.{IsAmong};

use crate::links::Links;
use crate::machines::{Machine, Seen, Watch};
use crate::refusals::Refusal;
use crate::rows::{LAST, UNTRIED, begin, furthest, has, is_still, put, stays_whole, tried_in};
use lwkt_base::OutOfMemory;
use lwkt_base::memory::push;
use std::alloc::Global;

/// A state, with an order that leads to it.
#[derive(Drop)]
pub struct Outcome {
    /// The state's number.
    pub place: usize,
    /// The processors of the turns that lead to it.
    pub order: Vec<u8>,
}

/// What ends a search before it has gone on from each state.
#[derive(Clone, Copy, Debug, PartialEq, Eq)]
pub enum Bound {
    /// A turn led to one state more than may be kept.
    States,
    /// The next state to go on from is deeper than may be.
    Turns,
    /// Who looks on ended it.
    Stopped,
}

/// What is searched: which machine, with how many processors, and how far.
#[derive(Drop)]
pub struct Task<M> {
    /// The machine.
    pub machine: M,
    /// How many processors there are.
    pub cpus: u8,
    /// How many states may be kept.
    pub bound: usize,
    /// How many turns may lead to a state that the search goes on from.
    pub turns: usize,
}

/// A layer: the states that so many turns lead to. They were found one after another.
#[derive(Clone, Copy)]
pub struct Layer {
    /// How many turns these are.
    pub depth: usize,
    /// The number of the first of them.
    pub begin: usize,
    /// One more than that of the last of them.
    pub end: usize,
}

/// The states that were found, what is noted of those that the search went on from, and how many these are.
#[derive(Drop)]
pub struct Growth<K> {
    /// The states.
    pub store: K,
    /// The turn that led to each.
    pub links: Links,
    /// Of each state that the search went on from `LAST` if it is a last one; else the last one of the states that turns lead to which
    /// were tried, if it was found later, and else its own number.
    pub onward: Vec<u32>,
    /// How many turns were tried.
    pub turns: u64,
    /// The layer of the state that the search went on from last; at first that of the first state.
    pub layer: Layer,
    /// How many states the search went on from.
    pub gone_on: usize,
    /// What ended the search, if these aren't all.
    pub met: Option<Bound>,
    /// Whether each turn was tried from each of these; of a search that ended, also whether these are all.
    pub is_whole: bool,
}

/// What a search found.
#[derive(Drop)]
pub struct Found<K> {
    /// The states, and what is noted of them.
    pub growth: Growth<K>,
    /// The last states among those that were gone on from.
    pub outcomes: Vec<Outcome>,
}

// The layer of a place, where so many states were found: the same, or the next one that begins there.
fn layer_at(layer: Layer, at: usize, count: usize) -> Layer
    requires { layer.depth < UNTRIED }
    ensures same { at < layer.end → result ≡ layer }
    ensures next { layer.end ≤ at → result ≡ record { depth = layer.depth + 1; begin = at; end = count } }
{
    if at < layer.end {
        return layer;
    }
    Layer {
        depth: layer.depth + 1,
        begin: at,
        end: count,
    }
}

impl<M: Machine> Task<M> {
    // Notes where the turn of a processor leads. Says whether there was room for that state.
    fn note(
        &self,
        store: &mut M::Store,
        links: &mut Links,
        row: &mut Vec<u32>,
        at: usize,
        cpu: u8,
    ) -> Result<bool, Refusal>
        requires sound { M.is_sound self.now.machine store.old }
        requires long { length links.old ≡ length (M.kept store.old) }
        requires within { IsWithin (M.turn_of self.now.machine) (M.start_of self.now.machine) self.now.cpus (nodes_of (M.kept store.old) links.old) row.old.items at }
        requires there { at < length links.old }
        requires cpu { cpu < self.now.cpus }
        ensures sound { IfOk result (λ kept. M.is_sound self.now.machine store.new) }
        ensures long { IfOk result (λ kept. length links.new ≡ length (M.kept store.new)) }
        ensures grows { IfOk result (λ kept. GrowsFrom (M.start_of self.now.machine) at (nodes_of (M.kept store.old) links.old) (nodes_of (M.kept store.new) links.new)) }
        ensures within { IfOk result (λ kept. IsWithin (M.turn_of self.now.machine) (M.start_of self.now.machine) self.now.cpus (nodes_of (M.kept store.new) links.new) row.new.items at) }
        ensures full { IfOk result (λ kept. IsFalse kept → HasStates (M.turn_of self.now.machine) self.now.cpus (M.start_of self.now.machine) (self.now.bound + 1)) }
        ensures few { IfOk result (λ kept. IsTrue kept → length links.old ≤ self.now.bound → length links.new ≤ self.now.bound) }
    {
        let before = links.len();
        let place = self.machine.turn(store, at, cpu)?;
        put(row, cpu as usize, place as u32);
        if place < before {
            return Ok(true);
        }
        links.push(at as u32, cpu)?;
        Ok(before < self.bound)
    }

    // Tries the turn of a processor from a state, if a set has it and it wasn't tried yet. Says whether there was room for the state that
    // it led to.
    fn try_one(
        &self,
        store: &mut M::Store,
        links: &mut Links,
        row: &mut Vec<u32>,
        at: usize,
        set: u8,
        cpu: u8,
    ) -> Result<bool, Refusal>
        requires sound { M.is_sound self.now.machine store.old }
        requires long { length links.old ≡ length (M.kept store.old) }
        requires within { IsWithin (M.turn_of self.now.machine) (M.start_of self.now.machine) self.now.cpus (nodes_of (M.kept store.old) links.old) row.old.items at }
        requires there { at < length links.old }
        requires cpu { cpu < self.now.cpus }
        ensures sound { IfOk result (λ kept. M.is_sound self.now.machine store.new) }
        ensures long { IfOk result (λ kept. length links.new ≡ length (M.kept store.new)) }
        ensures grows { IfOk result (λ kept. GrowsFrom (M.start_of self.now.machine) at (nodes_of (M.kept store.old) links.old) (nodes_of (M.kept store.new) links.new)) }
        ensures within { IfOk result (λ kept. IsWithin (M.turn_of self.now.machine) (M.start_of self.now.machine) self.now.cpus (nodes_of (M.kept store.new) links.new) row.new.items at) }
        ensures full { IfOk result (λ kept. IsFalse kept → HasStates (M.turn_of self.now.machine) self.now.cpus (M.start_of self.now.machine) (self.now.bound + 1)) }
        ensures few { IfOk result (λ kept. IsTrue kept → length links.old ≤ self.now.bound → length links.new ≤ self.now.bound) }
    {
        if !has(set, cpu) || row[cpu as usize] != UNTRIED {
            return Ok(true);
        }
        self.note(store, links, row, at, cpu)
    }

    // Tries the turns of a set from a state, those that weren't tried yet. Says whether there was room for each state that they led to.
    fn try_set(
        &self,
        store: &mut M::Store,
        links: &mut Links,
        row: &mut Vec<u32>,
        at: usize,
        set: u8,
    ) -> Result<bool, Refusal>
        requires sound { M.is_sound self.now.machine store.old }
        requires long { length links.old ≡ length (M.kept store.old) }
        requires within { IsWithin (M.turn_of self.now.machine) (M.start_of self.now.machine) self.now.cpus (nodes_of (M.kept store.old) links.old) row.old.items at }
        requires there { at < length links.old }
        ensures sound { IfOk result (λ kept. M.is_sound self.now.machine store.new) }
        ensures long { IfOk result (λ kept. length links.new ≡ length (M.kept store.new)) }
        ensures grows { IfOk result (λ kept. GrowsFrom (M.start_of self.now.machine) at (nodes_of (M.kept store.old) links.old) (nodes_of (M.kept store.new) links.new)) }
        ensures within { IfOk result (λ kept. IsWithin (M.turn_of self.now.machine) (M.start_of self.now.machine) self.now.cpus (nodes_of (M.kept store.new) links.new) row.new.items at) }
        ensures full { IfOk result (λ kept. IsFalse kept → HasStates (M.turn_of self.now.machine) self.now.cpus (M.start_of self.now.machine) (self.now.bound + 1)) }
        ensures few { IfOk result (λ kept. IsTrue kept → length links.old ≤ self.now.bound → length links.new ≤ self.now.bound) }
    {
        for cpu in 0..self.cpus {
            if !self.try_one(store, links, row, at, set, cpu)? {
                return Ok(false);
            }
        }
        Ok(true)
    }

    // Tries the turns of sets from a state, up to the first set that leads on to a state that was found later. Says whether there was room
    // for each state that they led to.
    fn go_on_by(
        &self,
        store: &mut M::Store,
        links: &mut Links,
        row: &mut Vec<u32>,
        at: usize,
        sets: [u8; 8],
    ) -> Result<bool, Refusal>
        requires sound { M.is_sound self.now.machine store.old }
        requires long { length links.old ≡ length (M.kept store.old) }
        requires within { IsWithin (M.turn_of self.now.machine) (M.start_of self.now.machine) self.now.cpus (nodes_of (M.kept store.old) links.old) row.old.items at }
        requires there { at < length links.old }
        requires few { at < UNTRIED }
        ensures sound { IfOk result (λ kept. M.is_sound self.now.machine store.new) }
        ensures long { IfOk result (λ kept. length links.new ≡ length (M.kept store.new)) }
        ensures grows { IfOk result (λ kept. GrowsFrom (M.start_of self.now.machine) at (nodes_of (M.kept store.old) links.old) (nodes_of (M.kept store.new) links.new)) }
        ensures within { IfOk result (λ kept. IsWithin (M.turn_of self.now.machine) (M.start_of self.now.machine) self.now.cpus (nodes_of (M.kept store.new) links.new) row.new.items at) }
        ensures full { IfOk result (λ kept. IsFalse kept → HasStates (M.turn_of self.now.machine) self.now.cpus (M.start_of self.now.machine) (self.now.bound + 1)) }
        ensures few { IfOk result (λ kept. IsTrue kept → length links.old ≤ self.now.bound → length links.new ≤ self.now.bound) }
    {
        for set in sets {
            if !self.try_set(store, links, row, at, set)? {
                return Ok(false);
            }
            let far = furthest(row.as_slice(), at as u32);
            if far as usize > at {
                return Ok(true);
            }
        }
        Ok(true)
    }

    // Where a state leads on, by its row; `LAST` if everything has ended there or each turn was tried and leads back.
    fn leads(&self, store: &M::Store, row: &[u32], at: usize) -> u32
        requires sound { M.is_sound self.now.machine store.now }
        requires there { at < length (M.kept store.now) }
        requires few { at < UNTRIED }
        ensures last { result ≡ LAST → M.ended_of self.now.machine (slice_index_or (M.kept store.now) at (M.start_of self.now.machine)) ⊎ All (λ n. n ≡ at) row.now }
        ensures going { result ≢ LAST → M.ended_of self.now.machine (slice_index_or (M.kept store.now) at (M.start_of self.now.machine)) → ⊥ }
        ensures moving { result ≢ LAST → All (λ n. n ≡ at) row.now → ⊥ }
        ensures among { result ≢ LAST → IsAmong row.now at result }
    {
        if self.machine.has_ended(store, at) {
            return LAST;
        }
        if is_still(row, at) {
            return LAST;
        }
        furthest(row, at as u32)
    }

    // Goes on from the next state. Says whether there was room for each state that its turns led to.
    fn go_on(&self, growth: &mut Growth<M::Store>, row: &mut Vec<u32>) -> Result<bool, Refusal>
        requires sound { M.is_sound self.now.machine growth.old.store }
        requires growth { IsGrowth (M.turn_of self.now.machine) (M.ended_of self.now.machine) (M.start_of self.now.machine) self.now.cpus self.now.turns (M.kept growth.old.store) growth.old }
        requires there { growth.old.gone_on < length growth.old.links }
        requires few { growth.old.gone_on < UNTRIED }
        requires inside { growth.old.gone_on < growth.old.layer.end }
        requires deep { growth.old.layer.depth ≤ self.now.turns }
        ensures sound { IfOk result (λ kept. M.is_sound self.now.machine growth.new.store) }
        ensures growth { IfOk result (λ kept. IsGrowth (M.turn_of self.now.machine) (M.ended_of self.now.machine) (M.start_of self.now.machine) self.now.cpus self.now.turns (M.kept growth.new.store) growth.new) }
        ensures full { IfOk result (λ kept. IsFalse kept → HasStates (M.turn_of self.now.machine) self.now.cpus (M.start_of self.now.machine) (self.now.bound + 1)) }
        ensures few { IfOk result (λ kept. IsTrue kept → length growth.old.links ≤ self.now.bound → length growth.new.links ≤ self.now.bound) }
        ensures next { IfOk result (λ kept. IsTrue kept → growth.new.gone_on ≡ growth.old.gone_on + 1) }
        ensures met { growth.new.met ≡ growth.old.met }
    {
        let at = growth.gone_on;
        let choice = self.machine.sets(&growth.store, at);
        begin(row, self.cpus)?;
        let has_room = self.go_on_by(&mut growth.store, &mut growth.links, row, at, choice)?;
        let turns = row.as_slice();
        growth.turns = growth.turns.saturating_add(tried_in(turns));
        if !has_room {
            return Ok(false);
        }
        let next = self.leads(&growth.store, turns, at);
        push(&mut growth.onward, next)?;
        let is_whole = stays_whole(growth.is_whole, turns);
        growth.is_whole = is_whole;
        growth.gone_on = at + 1;
        Ok(true)
    }

    // Goes on from the next state, unless it is too deep, or who looks on ends the search. Says what bound was met.
    fn step<W: Watch>(
        &self,
        growth: &mut Growth<M::Store>,
        row: &mut Vec<u32>,
        watch: &mut W,
    ) -> Result<Option<Bound>, Refusal>
        requires sound { M.is_sound self.now.machine growth.old.store }
        requires growth { IsGrowth (M.turn_of self.now.machine) (M.ended_of self.now.machine) (M.start_of self.now.machine) self.now.cpus self.now.turns (M.kept growth.old.store) growth.old }
        requires there { growth.old.gone_on < length growth.old.links }
        ensures sound { IfOk result (λ met. M.is_sound self.now.machine growth.new.store) }
        ensures growth { IfOk result (λ met. IsGrowth (M.turn_of self.now.machine) (M.ended_of self.now.machine) (M.start_of self.now.machine) self.now.cpus self.now.turns (M.kept growth.new.store) growth.new) }
        ensures full { IfOk result (λ met. met ≡ Some Bound.States → HasStates (M.turn_of self.now.machine) self.now.cpus (M.start_of self.now.machine) (self.now.bound + 1)) }
        ensures few { IfOk result (λ met. met ≡ None → length growth.old.links ≤ self.now.bound → length growth.new.links ≤ self.now.bound) }
        ensures next { IfOk result (λ met. met ≡ None → growth.new.gone_on ≡ growth.old.gone_on + 1) }
        ensures met { growth.new.met ≡ growth.old.met }
    {
        let at = growth.gone_on;
        let count = growth.links.len();
        let layer = layer_at(growth.layer, at, count);
        if layer.depth > self.turns {
            return Ok(Some(Bound::Turns));
        }
        let seen = Seen {
            states: count,
            frontier: count - at,
            turns: growth.turns,
            bytes: self.machine.bytes(&growth.store),
        };
        if !watch.goes_on(seen) {
            return Ok(Some(Bound::Stopped));
        }
        growth.layer = layer;
        if self.go_on(growth, row)? {
            return Ok(None);
        }
        Ok(Some(Bound::States))
    }

    // The first state alone.
    fn begun(&self, alloc: Global, store: M::Store) -> Result<Growth<M::Store>, OutOfMemory>
        requires first { M.kept store ≡ M.start_of self.now.machine ∷ [] }
        requires sound { M.is_sound self.now.machine store }
        ensures sound { IfOk result (λ growth. M.is_sound self.now.machine growth.store) }
        ensures growth { IfOk result (λ growth. IsGrowth (M.turn_of self.now.machine) (M.ended_of self.now.machine) (M.start_of self.now.machine) self.now.cpus self.now.turns (M.kept growth.store) growth) }
        ensures one { IfOk result (λ growth. length growth.links ≡ 1) }
        ensures none { IfOk result (λ growth. growth.gone_on ≡ 0) }
        ensures met { IfOk result (λ growth. growth.met ≡ None) }
    {
        let mut links = Links::none(alloc);
        links.push(0, 0)?;
        Ok(Growth {
            store,
            links,
            onward: Vec::new(alloc),
            turns: 0,
            layer: Layer {
                depth: 0,
                begin: 0,
                end: 1,
            },
            gone_on: 0,
            met: None,
            is_whole: true,
        })
    }

    // Goes on from each state that is found.
    pub(crate) fn grow<W: Watch>(
        &self,
        alloc: Global,
        store: M::Store,
        watch: &mut W,
    ) -> Result<Growth<M::Store>, Refusal>
        requires some { 0 < self.now.bound }
        requires sound { M.is_sound self.now.machine store }
        requires first { M.kept store ≡ M.start_of self.now.machine ∷ [] }
        ensures sound { IfOk result (λ growth. M.is_sound self.now.machine growth.store) }
        ensures growth { IfOk result (λ growth. IsGrowth (M.turn_of self.now.machine) (M.ended_of self.now.machine) (M.start_of self.now.machine) self.now.cpus self.now.turns (M.kept growth.store) growth) }
        ensures full { IfOk result (λ growth. growth.met ≡ Some Bound.States → HasStates (M.turn_of self.now.machine) self.now.cpus (M.start_of self.now.machine) (self.now.bound + 1)) }
        ensures complete { IfOk result (λ growth. growth.met ≡ None → growth.gone_on ≡ length growth.links) }
        ensures few { IfOk result (λ growth. growth.met ≡ None → length growth.links ≤ self.now.bound) }
        ensures whole { IfOk result (λ growth. IsTrue growth.is_whole → growth.met ≡ None) }
    {
        let mut growth = self.begun(alloc, store)?;
        let mut row = Vec::new(alloc);
        while growth.gone_on < growth.links.len() {
            if let Some(bound) = self.step(&mut growth, &mut row, watch)? {
                growth.met = Some(bound);
                growth.is_whole = false;
                return Ok(growth);
            }
        }
        Ok(growth)
    }

    /// The order that leads to a state.
    pub fn order(
        &self,
        alloc: Global,
        growth: &Growth<M::Store>,
        at: usize,
    ) -> Result<Vec<u8>, OutOfMemory>
        requires long { length growth.now.links ≤ length (M.kept growth.now.store) }
        requires graph { IsGraphOf (M.turn_of self.now.machine) (M.start_of self.now.machine) self.now.cpus (nodes_of (M.kept growth.now.store) growth.now.links) }
        requires there { at < length growth.now.links }
        ensures { IfOk result (λ order. IsTold (M.turn_of self.now.machine) (M.start_of self.now.machine) self.now.cpus (nodes_of (M.kept growth.now.store) growth.now.links) at (told_of (M.start_of self.now.machine) (M.kept growth.now.store) (record { place = at; order = order }))) }
    {
        let mut order = Vec::new(alloc);
        let mut number = at;
        while number != 0 {
            let by = growth.links.cpu(number);
            push(&mut order, by)?;
            let from = growth.links.parent(number);
            number = from as usize;
        }
        order.reverse();
        Ok(order)
    }

    /// Which last states orders of turns lead to, from the first state, the one that the store has.
    pub fn search<W: Watch>(
        &self,
        alloc: Global,
        store: M::Store,
        watch: &mut W,
    ) -> Result<Found<M::Store>, Refusal>
        requires some { 0 < self.now.bound }
        requires sound { M.is_sound self.now.machine store }
        requires first { M.kept store ≡ M.start_of self.now.machine ∷ [] }
        ensures store { IfOk result (λ found. M.is_sound self.now.machine found.growth.store) }
        ensures long { IfOk result (λ found. length found.growth.links ≡ length (M.kept found.growth.store)) }
        ensures grown { IfOk result (λ found. IsGrown (M.turn_of self.now.machine) (M.ended_of self.now.machine) (M.start_of self.now.machine) self.now.cpus (nodes_of (M.kept found.growth.store) found.growth.links) found.growth.onward.items found.growth.is_whole found.growth.gone_on) }
        ensures finished { IfOk result (λ found. found.growth.met ≡ None → found.growth.gone_on ≡ length found.growth.links) }
        ensures whole { IfOk result (λ found. IsTrue found.growth.is_whole → found.growth.met ≡ None) }
        ensures places { IfOk result (λ found. All (λ outcome. outcome.place < length (M.kept found.growth.store)) found.outcomes.items) }
        ensures short { IfOk result (λ found. All (λ outcome. length outcome.order.items ≤ self.now.turns) found.outcomes.items) }
        ensures orders { IfOk result (λ found. All (λ outcome. IsOrder self.now.cpus outcome.order.items) found.outcomes.items) }
        // Each outcome is a last state that its order leads to.
        ensures sound { IfOk result (λ found. All (λ outcome. IsOutcome (M.turn_of self.now.machine) (M.ended_of self.now.machine) self.now.cpus (M.start_of self.now.machine) outcome) (all_told (M.start_of self.now.machine) (M.kept found.growth.store) found.outcomes.items)) }
        // Each last state that an order leads to is an outcome, if each turn was tried.
        ensures complete { IfOk result (λ found. IsTrue found.growth.is_whole → (order : List ℕ) → IsOrder self.now.cpus order → IsLast (M.turn_of self.now.machine) (M.ended_of self.now.machine) self.now.cpus (run (M.turn_of self.now.machine) (M.start_of self.now.machine) order) → HasOutcome (run (M.turn_of self.now.machine) (M.start_of self.now.machine) order) (all_told (M.start_of self.now.machine) (M.kept found.growth.store) found.outcomes.items)) }
        // No order that leads to an outcome is shorter than its order, if each turn was tried.
        ensures shortest { IfOk result (λ found. IsTrue found.growth.is_whole → All (λ outcome. IsShortest (M.turn_of self.now.machine) self.now.cpus (M.start_of self.now.machine) outcome) (all_told (M.start_of self.now.machine) (M.kept found.growth.store) found.outcomes.items)) }
        // No state is told twice.
        ensures once { IfOk result (λ found. AreApart (all_told (M.start_of self.now.machine) (M.kept found.growth.store) found.outcomes.items)) }
        // The search is cut off for its states only where orders lead to more of them than may be kept.
        ensures full { IfOk result (λ found. found.growth.met ≡ Some Bound.States → HasStates (M.turn_of self.now.machine) self.now.cpus (M.start_of self.now.machine) (self.now.bound + 1)) }
        // If it is cut off for nothing, it has kept no more; and if each turn was tried, orders lead to no more.
        ensures kept { IfOk result (λ found. found.growth.met ≡ None → length found.growth.links ≤ self.now.bound) }
        ensures few { IfOk result (λ found. IsTrue found.growth.is_whole → HasAtMost (M.turn_of self.now.machine) self.now.cpus (M.start_of self.now.machine) self.now.bound) }
    {
        let growth = self.grow(alloc, store, watch)?;
        let mut outcomes = Vec::new(alloc);
        for at in 0..growth.gone_on {
            let next = growth.onward[at];
            if next == LAST {
                let order = self.order(alloc, &growth, at)?;
                push(&mut outcomes, Outcome { place: at, order })?;
            }
        }
        Ok(Found { growth, outcomes })
    }
}
