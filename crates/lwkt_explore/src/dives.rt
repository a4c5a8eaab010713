//! Runs that are made before a search, which may not be able to try every order: the run in rounds, and random orders.
ghost use Rattle.std.specs.Prelude.{◌<◌, ◌≤◌, IfErr};
ghost use Rattle.lwkt_explore.specs.Outcomes.{AreOutcomes, AreShort, RefusesSearch};
ghost use Rattle.lwkt_plain.specs.Openings.{opened};
ghost use Rattle.lwkt_plain.specs.Sound.{IsSound};

use crate::outcomes::{LastState, Outcomes};
use crate::samples::{Course, Dice};
use crate::searches::Bounds;
use crate::strays::{seen_of, stray};
use crate::watches::Watch;
use lwkt_base::Fault;
use lwkt_script::Script;
use std::alloc::Global;

// How many random orders are made.
const ORDERS: u64 = 64;

// The most turns of all of them together.
const TURNS: usize = 40000;

// Makes an order of at most so many turns, and keeps its outcome, unless it was cut. Says how many turns the order has.
fn add_one<W: Watch>(
    alloc: Global,
    script: &Script,
    bounds: Bounds,
    outcomes: &mut Outcomes,
    course: &mut Course,
    most: usize,
) -> Result<usize, Fault>
    requires some { 0 < script.now.cpus }
    requires few { script.now.cpus ≤ 8 }
    requires sound { IsSound (opened script.now) }
    requires most { most ≤ bounds.turns }
    requires outcomes { AreOutcomes script.now outcomes.old }
    requires short { AreShort bounds.turns outcomes.old }
    ensures found { AreOutcomes script.now outcomes.new }
    ensures short { AreShort bounds.turns outcomes.new }
    ensures refused { IfErr result (λ fault. RefusesSearch script.now fault) }
{
    let (order, last_state) = stray(alloc, script, course, most)?;
    let turns = order.len();
    if last_state == LastState::Cut {
        return Ok(turns);
    }
    match outcomes.add::<W>(alloc, script, order, last_state) {
        Ok(_) => Ok(turns),
        Err(fault) => Err(fault),
    }
}

// Makes the run in rounds.
fn go_round<W: Watch>(
    alloc: Global,
    script: &Script,
    bounds: Bounds,
    outcomes: &mut Outcomes,
) -> Result<(), Fault>
    requires some { 0 < script.now.cpus }
    requires few { script.now.cpus ≤ 8 }
    requires sound { IsSound (opened script.now) }
    requires outcomes { AreOutcomes script.now outcomes.old }
    requires short { AreShort bounds.turns outcomes.old }
    ensures found { AreOutcomes script.now outcomes.new }
    ensures short { AreShort bounds.turns outcomes.new }
    ensures refused { IfErr result (λ fault. RefusesSearch script.now fault) }
{
    let rounds = (script.turns as usize).saturating_mul(usize::from(script.cpus));
    let most = bounds.turns.min(TURNS).min(rounds);
    let mut course = Course::Rounds;
    add_one::<W>(alloc, script, bounds, outcomes, &mut course, most)?;
    Ok(())
}

// Makes random orders. Says whether who looks on lets the search go on.
fn go_about<W: Watch>(
    alloc: Global,
    script: &Script,
    bounds: Bounds,
    outcomes: &mut Outcomes,
    watch: &mut W,
) -> Result<bool, Fault>
    requires some { 0 < script.now.cpus }
    requires few { script.now.cpus ≤ 8 }
    requires sound { IsSound (opened script.now) }
    requires outcomes { AreOutcomes script.now outcomes.old }
    requires short { AreShort bounds.turns outcomes.old }
    ensures found { AreOutcomes script.now outcomes.new }
    ensures short { AreShort bounds.turns outcomes.new }
    ensures refused { IfErr result (λ fault. RefusesSearch script.now fault) }
{
    let mut course = Course::Random(Dice::new(0));
    let mut left = TURNS;
    for made in 0..ORDERS {
        if left == 0 {
            return Ok(true);
        }
        if !watch.goes_on(seen_of(made, (TURNS - left) as u64)) {
            return Ok(false);
        }
        let most = bounds.turns.min(left);
        let turns = add_one::<W>(alloc, script, bounds, outcomes, &mut course, most)?;
        left = left.saturating_sub(turns);
    }
    Ok(true)
}

/// Makes the run of a script in rounds and some random orders, and keeps their outcomes. Says whether who looks on lets the search
/// go on.
///
/// Refused as a search is.
pub(crate) fn dive<W: Watch>(
    alloc: Global,
    script: &Script,
    bounds: Bounds,
    outcomes: &mut Outcomes,
    watch: &mut W,
) -> Result<bool, Fault>
    requires some { 0 < script.now.cpus }
    requires few { script.now.cpus ≤ 8 }
    requires sound { IsSound (opened script.now) }
    requires outcomes { AreOutcomes script.now outcomes.old }
    requires short { AreShort bounds.turns outcomes.old }
    ensures found { AreOutcomes script.now outcomes.new }
    ensures short { AreShort bounds.turns outcomes.new }
    ensures refused { IfErr result (λ fault. RefusesSearch script.now fault) }
{
    go_round::<W>(alloc, script, bounds, outcomes)?;
    go_about(alloc, script, bounds, outcomes, watch)
}
