//! States from which no end can be reached.
ghost use Rattle.std.specs.Prelude.{◌≡◌, ◌≢◌, ◌↔◌, ℕ, ◌<◌, ◌≤◌, List, length, All, None, IsTrue, IsFalse, IfOk, false, sum_by, slice_index_or};
ghost use Rattle.lwkt_search.specs.Runs.{run, all_told, IsOrder, HasOutcome, AreApart};
ghost use Rattle.lwkt_search.specs.Graphs.{nodes_of, AllTried, IsFinished, IsGrown};
ghost use Rattle.lwkt_search.specs.Losses.{IsAgain, IsLost, IsLostOutcome, LeadsOn, IsNext, IsReaching, IsStable, IsSettled, missing};

use crate::links::Links;
use crate::machines::Machine;
use crate::refusals::Refusal;
use crate::rows::{LAST, has};
use crate::searches::{Growth, Outcome, Task};
use lwkt_base::OutOfMemory;
use lwkt_base::memory::push;
use std::alloc::Global;

// Whether it is noted of a state that an end can be reached from it, if it was found.
fn is_noted(reaches: &[bool], at: usize) -> bool
    ensures found { IsTrue result → at < length reaches.now }
    ensures noted { at < length reaches.now → slice_index_or reaches.now at false ≡ result }
{
    if at >= reaches.len() {
        return false;
    }
    reaches[at]
}

// Whether the turn of a processor is made again: if a set has it, or if each turn was tried.
fn is_made(is_whole: bool, set: u8, cpu: u8) -> bool
    ensures { IsTrue is_whole → IsTrue result }
{
    if is_whole {
        return true;
    }
    has(set, cpu)
}

// Makes the turns of a set from a state again, or all if each was tried. Says how far they lead, or nothing if one leads to a state from
// which it is noted that an end can be reached.
fn furthest_by<M: Machine>(
    task: &Task<M>,
    store: &mut M::Store,
    links: &Links,
    is_whole: bool,
    reaches: &[bool],
    at: usize,
    set: u8,
) -> Result<Option<usize>, Refusal>
    requires sound { M.is_sound task.now.machine store.old }
    requires room { length links.now ≤ length (M.kept store.old) }
    requires exact { IsTrue is_whole → length links.now ≡ length (M.kept store.old) }
    requires tried { IsTrue is_whole → AllTried (M.turn_of task.now.machine) (M.start_of task.now.machine) task.now.cpus (nodes_of (M.kept store.old) links.now) (length (nodes_of (M.kept store.old) links.now)) }
    requires there { at < length links.now }
    requires same { length reaches.now ≡ length links.now }
    ensures sound { IfOk result (λ done. M.is_sound task.now.machine store.new) }
    ensures again { IfOk result (λ done. IsAgain (nodes_of (M.kept store.old) links.now) links.now is_whole (M.kept store.new)) }
    ensures some { IfOk result (λ far. far ≡ None → LeadsOn (M.turn_of task.now.machine) (M.start_of task.now.machine) task.now.cpus (nodes_of (M.kept store.old) links.now) reaches.now at) }
    ensures none { IfOk result (λ far. far ≢ None → IsTrue is_whole → (cpu : ℕ) → cpu < task.now.cpus → IsNext (M.turn_of task.now.machine) (M.start_of task.now.machine) (nodes_of (M.kept store.old) links.now) reaches.now at cpu false) }
{
    let mut far = at;
    for cpu in 0..task.cpus {
        if !is_made(is_whole, set, cpu) {
            continue;
        }
        let next = task.machine.turn(store, at, cpu)?;
        if is_noted(reaches, next) {
            return Ok(None);
        }
        far = far.max(next);
    }
    Ok(Some(far))
}

// Makes the turns again that were tried from a state. Says whether one leads to a state from which it is noted that an end can be reached.
fn leads_out<M: Machine>(
    task: &Task<M>,
    store: &mut M::Store,
    links: &Links,
    is_whole: bool,
    reaches: &[bool],
    at: usize,
) -> Result<bool, Refusal>
    requires sound { M.is_sound task.now.machine store.old }
    requires room { length links.now ≤ length (M.kept store.old) }
    requires exact { IsTrue is_whole → length links.now ≡ length (M.kept store.old) }
    requires tried { IsTrue is_whole → AllTried (M.turn_of task.now.machine) (M.start_of task.now.machine) task.now.cpus (nodes_of (M.kept store.old) links.now) (length (nodes_of (M.kept store.old) links.now)) }
    requires there { at < length links.now }
    requires same { length reaches.now ≡ length links.now }
    ensures sound { IfOk result (λ done. M.is_sound task.now.machine store.new) }
    ensures again { IfOk result (λ done. IsAgain (nodes_of (M.kept store.old) links.now) links.now is_whole (M.kept store.new)) }
    ensures some { IfOk result (λ leads. IsTrue leads → LeadsOn (M.turn_of task.now.machine) (M.start_of task.now.machine) task.now.cpus (nodes_of (M.kept store.old) links.now) reaches.now at) }
    ensures none { IfOk result (λ leads. IsFalse leads → IsTrue is_whole → (cpu : ℕ) → cpu < task.now.cpus → IsNext (M.turn_of task.now.machine) (M.start_of task.now.machine) (nodes_of (M.kept store.old) links.now) reaches.now at cpu false) }
{
    if is_whole {
        let far = furthest_by(task, store, links, is_whole, reaches, at, u8::MAX)?;
        return Ok(far.is_none());
    }
    for set in task.machine.sets(store, at) {
        let Some(far) = furthest_by(task, store, links, is_whole, reaches, at, set)? else {
            return Ok(true);
        };
        if far > at {
            return Ok(false);
        }
    }
    Ok(false)
}

// Whether a turn leads from a state to one from which it is noted that an end can be reached. Turns are made again only where it doesn't
// follow from what is noted of the state.
fn leads_on<M: Machine>(
    task: &Task<M>,
    store: &mut M::Store,
    links: &Links,
    onward: &[u32],
    is_whole: bool,
    reaches: &[bool],
    at: usize,
) -> Result<bool, Refusal>
    requires sound { M.is_sound task.now.machine store.old }
    requires room { length links.now ≤ length (M.kept store.old) }
    requires exact { IsTrue is_whole → length links.now ≡ length (M.kept store.old) }
    requires grown { IsGrown (M.turn_of task.now.machine) (M.ended_of task.now.machine) (M.start_of task.now.machine) task.now.cpus (nodes_of (M.kept store.old) links.now) onward.now is_whole (length (nodes_of (M.kept store.old) links.now)) }
    requires there { at < length links.now }
    requires same { length reaches.now ≡ length links.now }
    requires dark { slice_index_or reaches.now at false ≡ false }
    requires reaching { IsReaching (M.turn_of task.now.machine) (M.ended_of task.now.machine) (M.start_of task.now.machine) task.now.cpus (nodes_of (M.kept store.old) links.now) reaches.now }
    ensures sound { IfOk result (λ done. M.is_sound task.now.machine store.new) }
    ensures again { IfOk result (λ done. IsAgain (nodes_of (M.kept store.old) links.now) links.now is_whole (M.kept store.new)) }
    ensures some { IfOk result (λ leads. IsTrue leads → LeadsOn (M.turn_of task.now.machine) (M.start_of task.now.machine) task.now.cpus (nodes_of (M.kept store.old) links.now) reaches.now at) }
    ensures none { IfOk result (λ leads. IsFalse leads → IsTrue is_whole → (cpu : ℕ) → cpu < task.now.cpus → IsNext (M.turn_of task.now.machine) (M.start_of task.now.machine) (nodes_of (M.kept store.old) links.now) reaches.now at cpu false) }
{
    let next = onward[at];
    if next == LAST {
        return Ok(false);
    }
    let leads = reaches[next as usize];
    if leads {
        return Ok(true);
    }
    leads_out(task, store, links, is_whole, reaches, at)
}

// Notes that an end can be reached from a state, if a turn leads to one from which it can. Says whether that is new.
fn step_back<M: Machine>(
    task: &Task<M>,
    store: &mut M::Store,
    links: &Links,
    onward: &[u32],
    is_whole: bool,
    reaches: &mut [bool],
    at: usize,
) -> Result<bool, Refusal>
    requires sound { M.is_sound task.now.machine store.old }
    requires room { length links.now ≤ length (M.kept store.old) }
    requires exact { IsTrue is_whole → length links.now ≡ length (M.kept store.old) }
    requires grown { IsGrown (M.turn_of task.now.machine) (M.ended_of task.now.machine) (M.start_of task.now.machine) task.now.cpus (nodes_of (M.kept store.old) links.now) onward.now is_whole (length (nodes_of (M.kept store.old) links.now)) }
    requires there { at < length links.now }
    requires same { length reaches.old ≡ length links.now }
    requires reaching { IsReaching (M.turn_of task.now.machine) (M.ended_of task.now.machine) (M.start_of task.now.machine) task.now.cpus (nodes_of (M.kept store.old) links.now) reaches.old }
    ensures sound { IfOk result (λ done. M.is_sound task.now.machine store.new) }
    ensures again { IfOk result (λ done. IsAgain (nodes_of (M.kept store.old) links.now) links.now is_whole (M.kept store.new)) }
    ensures reaching { IfOk result (λ is_new. IsReaching (M.turn_of task.now.machine) (M.ended_of task.now.machine) (M.start_of task.now.machine) task.now.cpus (nodes_of (M.kept store.old) links.now) reaches.new) }
    ensures fewer { IfOk result (λ is_new. IsTrue is_new → sum_by missing reaches.new < sum_by missing reaches.old) }
    ensures same { IfOk result (λ is_new. IsFalse is_new → reaches.new ≡ reaches.old) }
    ensures stable { IfOk result (λ is_new. IsFalse is_new → IsTrue is_whole → IsStable (M.turn_of task.now.machine) (M.start_of task.now.machine) task.now.cpus (nodes_of (M.kept store.old) links.now) reaches.old at) }
    ensures long { length reaches.new ≡ length reaches.old }
{
    if reaches[at] {
        return Ok(false);
    }
    if !leads_on(task, store, links, onward, is_whole, reaches, at)? {
        return Ok(false);
    }
    reaches[at] = true;
    Ok(true)
}

// Goes back over all states once, the last one first. Says whether an end can be reached from one more.
fn go_back<M: Machine>(
    task: &Task<M>,
    store: &mut M::Store,
    links: &Links,
    onward: &[u32],
    is_whole: bool,
    reaches: &mut [bool],
) -> Result<bool, Refusal>
    requires sound { M.is_sound task.now.machine store.old }
    requires room { length links.now ≤ length (M.kept store.old) }
    requires exact { IsTrue is_whole → length links.now ≡ length (M.kept store.old) }
    requires grown { IsGrown (M.turn_of task.now.machine) (M.ended_of task.now.machine) (M.start_of task.now.machine) task.now.cpus (nodes_of (M.kept store.old) links.now) onward.now is_whole (length (nodes_of (M.kept store.old) links.now)) }
    requires same { length reaches.old ≡ length links.now }
    requires reaching { IsReaching (M.turn_of task.now.machine) (M.ended_of task.now.machine) (M.start_of task.now.machine) task.now.cpus (nodes_of (M.kept store.old) links.now) reaches.old }
    ensures sound { IfOk result (λ done. M.is_sound task.now.machine store.new) }
    ensures again { IfOk result (λ done. IsAgain (nodes_of (M.kept store.old) links.now) links.now is_whole (M.kept store.new)) }
    ensures reaching { IfOk result (λ is_new. IsReaching (M.turn_of task.now.machine) (M.ended_of task.now.machine) (M.start_of task.now.machine) task.now.cpus (nodes_of (M.kept store.old) links.now) reaches.new) }
    ensures fewer { IfOk result (λ is_new. IsTrue is_new → sum_by missing reaches.new < sum_by missing reaches.old) }
    ensures settled { IfOk result (λ is_new. IsFalse is_new → IsTrue is_whole → IsSettled (M.turn_of task.now.machine) (M.start_of task.now.machine) task.now.cpus (nodes_of (M.kept store.old) links.now) reaches.new) }
    ensures long { length reaches.new ≡ length reaches.old }
{
    let mut is_new = false;
    let mut up = links.len();
    while up > 0 {
        up -= 1;
        if step_back(task, store, links, onward, is_whole, reaches, up)? {
            is_new = true;
        }
    }
    Ok(is_new)
}

// Of each state whether everything has ended there.
fn ends_of<M: Machine>(
    task: &Task<M>,
    alloc: Global,
    store: &M::Store,
    links: &Links,
) -> Result<Vec<bool>, OutOfMemory>
    requires sound { M.is_sound task.now.machine store.now }
    requires room { length links.now ≤ length (M.kept store.now) }
    ensures same { IfOk result (λ reaches. length reaches.items ≡ length links.now) }
    ensures reaching { IfOk result (λ reaches. IsReaching (M.turn_of task.now.machine) (M.ended_of task.now.machine) (M.start_of task.now.machine) task.now.cpus (nodes_of (M.kept store.now) links.now) reaches.items) }
{
    let mut reaches = Vec::new(alloc);
    for at in 0..links.len() {
        let ends = task.machine.has_ended(store, at);
        push(&mut reaches, ends)?;
    }
    Ok(reaches)
}

// Of each state whether an end can be reached from it.
fn reaching<M: Machine>(
    task: &Task<M>,
    alloc: Global,
    store: &mut M::Store,
    links: &Links,
    onward: &[u32],
    is_whole: bool,
) -> Result<Vec<bool>, Refusal>
    requires sound { M.is_sound task.now.machine store.old }
    requires room { length links.now ≤ length (M.kept store.old) }
    requires exact { IsTrue is_whole → length links.now ≡ length (M.kept store.old) }
    requires grown { IsGrown (M.turn_of task.now.machine) (M.ended_of task.now.machine) (M.start_of task.now.machine) task.now.cpus (nodes_of (M.kept store.old) links.now) onward.now is_whole (length (nodes_of (M.kept store.old) links.now)) }
    ensures sound { IfOk result (λ done. M.is_sound task.now.machine store.new) }
    ensures again { IfOk result (λ done. IsAgain (nodes_of (M.kept store.old) links.now) links.now is_whole (M.kept store.new)) }
    ensures same { IfOk result (λ reaches. length reaches.items ≡ length links.now) }
    ensures reaching { IfOk result (λ reaches. IsReaching (M.turn_of task.now.machine) (M.ended_of task.now.machine) (M.start_of task.now.machine) task.now.cpus (nodes_of (M.kept store.old) links.now) reaches.items) }
    ensures settled { IfOk result (λ reaches. IsTrue is_whole → IsSettled (M.turn_of task.now.machine) (M.start_of task.now.machine) task.now.cpus (nodes_of (M.kept store.old) links.now) reaches.items) }
{
    let mut reaches = ends_of(task, alloc, store, links)?;
    while go_back(task, store, links, onward, is_whole, reaches.as_mut_slice())? {}
    Ok(reaches)
}

// The states of which it is noted that no end can be reached, each with an order that leads to it.
fn lost_of<M: Machine>(
    task: &Task<M>,
    alloc: Global,
    growth: &Growth<M::Store>,
    reaches: &[bool],
) -> Result<Vec<Outcome>, OutOfMemory>
    requires finished { IsFinished (M.turn_of task.now.machine) (M.ended_of task.now.machine) (M.start_of task.now.machine) task.now.cpus (nodes_of (M.kept growth.now.store) growth.now.links) growth.now.onward.items growth.now.is_whole growth.now.gone_on }
    requires room { length growth.now.links ≤ length (M.kept growth.now.store) }
    requires same { length reaches.now ≡ length growth.now.links }
    requires reaching { IsReaching (M.turn_of task.now.machine) (M.ended_of task.now.machine) (M.start_of task.now.machine) task.now.cpus (nodes_of (M.kept growth.now.store) growth.now.links) reaches.now }
    requires settled { IsTrue growth.now.is_whole → IsSettled (M.turn_of task.now.machine) (M.start_of task.now.machine) task.now.cpus (nodes_of (M.kept growth.now.store) growth.now.links) reaches.now }
    ensures orders { IfOk result (λ lost. All (λ one. IsOrder task.now.cpus one.order.items) lost.items) }
    ensures sound { IfOk result (λ lost. IsTrue growth.now.is_whole → All (λ one. IsLostOutcome (M.turn_of task.now.machine) (M.ended_of task.now.machine) task.now.cpus (M.start_of task.now.machine) one) (all_told (M.start_of task.now.machine) (M.kept growth.now.store) lost.items)) }
    ensures complete { IfOk result (λ lost. IsTrue growth.now.is_whole → (order : List ℕ) → IsOrder task.now.cpus order → IsLost (M.turn_of task.now.machine) (M.ended_of task.now.machine) task.now.cpus (run (M.turn_of task.now.machine) (M.start_of task.now.machine) order) → HasOutcome (run (M.turn_of task.now.machine) (M.start_of task.now.machine) order) (all_told (M.start_of task.now.machine) (M.kept growth.now.store) lost.items)) }
    ensures once { IfOk result (λ lost. AreApart (all_told (M.start_of task.now.machine) (M.kept growth.now.store) lost.items)) }
{
    let mut lost = Vec::new(alloc);
    for at in 0..growth.links.len() {
        if !reaches[at] {
            let order = task.order(alloc, growth, at)?;
            push(&mut lost, Outcome { place: at, order })?;
        }
    }
    Ok(lost)
}

/// The states from which no end can be reached by turns that were tried, each with an order that leads to it, where the search went on
/// from each state. Turns are made again, since it isn't kept where they lead; no state comes to those that were found.
///
/// Refused as a turn is, or if memory is.
pub fn lost_states<M: Machine>(
    task: &Task<M>,
    alloc: Global,
    growth: &mut Growth<M::Store>,
) -> Result<Vec<Outcome>, Refusal>
    requires finished { IsFinished (M.turn_of task.now.machine) (M.ended_of task.now.machine) (M.start_of task.now.machine) task.now.cpus (nodes_of (M.kept growth.old.store) growth.old.links) growth.old.onward.items growth.old.is_whole growth.old.gone_on }
    requires sound { M.is_sound task.now.machine growth.old.store }
    requires long { length growth.old.links ≡ length (M.kept growth.old.store) }
    // Each order is one of turns of these processors.
    ensures orders { IfOk result (λ lost. All (λ one. IsOrder task.now.cpus one.order.items) lost.items) }
    // If each turn was tried, each is a state that its order leads to, and from which no order leads to an end.
    ensures sound { IfOk result (λ lost. IsTrue growth.old.is_whole → All (λ one. IsLostOutcome (M.turn_of task.now.machine) (M.ended_of task.now.machine) task.now.cpus (M.start_of task.now.machine) one) (all_told (M.start_of task.now.machine) (M.kept growth.new.store) lost.items)) }
    // And each state that an order leads to, and from which no order leads to an end, is one.
    ensures complete { IfOk result (λ lost. IsTrue growth.old.is_whole → (order : List ℕ) → IsOrder task.now.cpus order → IsLost (M.turn_of task.now.machine) (M.ended_of task.now.machine) task.now.cpus (run (M.turn_of task.now.machine) (M.start_of task.now.machine) order) → HasOutcome (run (M.turn_of task.now.machine) (M.start_of task.now.machine) order) (all_told (M.start_of task.now.machine) (M.kept growth.new.store) lost.items)) }
    // No state is told twice.
    ensures once { IfOk result (λ lost. AreApart (all_told (M.start_of task.now.machine) (M.kept growth.new.store) lost.items)) }
    // The states that were found keep their numbers, and nothing else changes.
    ensures store { IfOk result (λ lost. M.is_sound task.now.machine growth.new.store) }
    ensures kept { IfOk result (λ lost. IsAgain (nodes_of (M.kept growth.old.store) growth.old.links) growth.old.links growth.old.is_whole (M.kept growth.new.store)) }
    ensures rest { growth.new ≡ record { store = growth.new.store; links = growth.old.links; onward = growth.old.onward; turns = growth.old.turns; layer = growth.old.layer; gone_on = growth.old.gone_on; met = growth.old.met; is_whole = growth.old.is_whole } }
{
    let reaches = reaching(
        task,
        alloc,
        &mut growth.store,
        &growth.links,
        growth.onward.as_slice(),
        growth.is_whole,
    )?;
    let lost = lost_of(task, alloc, growth, reaches.as_slice())?;
    Ok(lost)
}
