//! Orders that aren't searched for: the run in rounds, and random orders.
ghost use Rattle.std.specs.Prelude.{◌≡◌, ◌<◌, ◌≤◌, length, IfOk};
ghost use Rattle.lwkt_plain.specs.Openings.{opened};
ghost use Rattle.lwkt_plain.specs.Sound.{IsSound};
ghost use Rattle.lwkt_plain.specs.Stores.{kept, IsStore};
ghost use Rattle.lwkt_explore.specs.Orders.{IsOrder};

use crate::outcomes::LastState;
use crate::samples::Course;
use lwkt_base::OutOfMemory;
use lwkt_base::memory::push;
use lwkt_plain::Store;
use lwkt_script::Script;
use lwkt_search::{Refusal, Seen};
use std::alloc::Global;

/// The number of a processor, as an order has it.
pub(crate) fn number_in_order(cpu: usize) -> u8
    ensures { cpu < 256 → result ≡ cpu }
{
    u8::try_from(cpu).unwrap_or(u8::MAX)
}

// Whether no turn changes a state.
fn is_quiet(script: &Script, store: &mut Store, at: usize) -> Result<bool, Refusal>
    requires store { IsStore store.old }
    requires there { at < length (kept store.old) }
    ensures store { IfOk result (λ quiet. IsStore store.new) }
    ensures longer { IfOk result (λ quiet. length (kept store.old) ≤ length (kept store.new)) }
{
    for cpu in 0..script.cpus {
        let next = store.turn(script, at, cpu)?;
        if next != at {
            return Ok(false);
        }
    }
    Ok(true)
}

// Whether no turn changes a state, which is looked at now and then where turns change nothing.
fn rests(script: &Script, store: &mut Store, at: usize, idle: usize) -> Result<bool, Refusal>
    requires some { 0 < script.now.cpus }
    requires store { IsStore store.old }
    requires there { at < length (kept store.old) }
    ensures store { IfOk result (λ quiet. IsStore store.new) }
    ensures longer { IfOk result (λ quiet. length (kept store.old) ≤ length (kept store.new)) }
{
    if idle == 0 || idle % (4 * usize::from(script.cpus)) != 0 {
        return Ok(false);
    }
    let quiet = is_quiet(script, store, at)?;
    Ok(quiet)
}

// How the state of a number stands, if the order that leads there isn't made longer.
fn last_state_of(script: &Script, store: &Store, at: usize) -> LastState
    requires store { IsStore store.now }
    requires there { at < length (kept store.now) }
{
    if store.has_ended(script, at) {
        LastState::AllEnded
    } else {
        LastState::Cut
    }
}

/// How far random orders are, of which so many were made, with so many turns.
pub(crate) fn seen_of(made: u64, turns: u64) -> Seen {
    Seen {
        states: usize::try_from(made).unwrap_or(usize::MAX),
        frontier: 0,
        turns,
        bytes: 0,
    }
}

// An order of at most so many turns that keeps to a course, up to where no turn changes anything, or all threads have ended that are no
/// services and the course stops. Says how the state stands that it led to.
fn strayed(
    alloc: Global,
    script: &Script,
    course: &mut Course,
    most: usize,
) -> Result<(Vec<u8>, LastState), Refusal>
    requires some { 0 < script.now.cpus }
    requires few { script.now.cpus ≤ 8 }
    requires sound { IsSound (opened script.now) }
    ensures order { IfOk result (λ made. IsOrder script.now.cpus most made.0.items) }
{
    let cpus = usize::from(script.cpus);
    let mut store = Store::open(alloc, script)?;
    let mut order = Vec::new(alloc);
    let mut at = 0usize;
    let mut idle = 0usize;
    for turn in 0..most {
        if store.has_ended(script, at) && course.stops(turn, cpus) {
            return Ok((order, LastState::AllEnded));
        }
        if rests(script, &mut store, at, idle)? {
            return Ok((order, LastState::Quiet));
        }
        let cpu = number_in_order(course.next(turn, cpus));
        let next = store.turn(script, at, cpu)?;
        idle = if next == at {
            idle.saturating_add(1)
        } else {
            0
        };
        at = next;
        push(&mut order, cpu)?;
    }
    let last_state = last_state_of(script, &store, at);
    Ok((order, last_state))
}

/// An order of at most so many turns that keeps to a course, up to where no turn changes anything, or all threads have ended that are no
/// services and the course stops. Says how the state stands that it led to.
pub(crate) fn stray(
    alloc: Global,
    script: &Script,
    course: &mut Course,
    most: usize,
) -> Result<(Vec<u8>, LastState), OutOfMemory>
    requires some { 0 < script.now.cpus }
    requires few { script.now.cpus ≤ 8 }
    requires sound { IsSound (opened script.now) }
    ensures order { IfOk result (λ made. IsOrder script.now.cpus most made.0.items) }
{
    match strayed(alloc, script, course, most) {
        Ok(made) => Ok(made),
        Err(Refusal::Memory(refused)) => Err(refused),
        // (it has too many states to be numbered)
        Err(Refusal::Numbers) => Ok((Vec::new(alloc), LastState::Cut)),
    }
}
