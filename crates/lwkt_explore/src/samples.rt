//! Random orders, for scripts that are too large for a search.
ghost use Rattle.std.specs.Prelude.{◌≡◌, ◌+◌, ◌≤◌, ◌<◌, None, sum, IfOk, IfErr};
ghost use Rattle.lwkt_explore.specs.Outcomes.{AreOnce, AreOutcomes, AreShort, RefusesSearch};
ghost use Rattle.lwkt_explore.specs.Tries.{HasTriedOrders};
ghost use Rattle.lwkt_plain.specs.Openings.{opened};
ghost use Rattle.lwkt_plain.specs.Sound.{IsSound};

use crate::extents::Extent;
use crate::outcomes::Outcomes;
use crate::searches::{Bounds, Found, Tried, opens};
use crate::strays::{seen_of, stray};
use crate::watches::Watch;
use lwkt_base::Fault;
use lwkt_script::Script;
use std::alloc::Global;

/// Numbers that look random, the same for a seed on every machine: Steele, Lea and Flood's SplitMix64.
#[derive(Clone, Copy, PartialEq, Eq)]
pub(crate) struct Dice {
    state: u64,
}

impl Dice {
    /// The dice of a seed.
    pub(crate) fn new(seed: u64) -> Dice {
        Dice { state: seed }
    }

    /// The next number.
    pub(crate) fn next(&mut self) -> u64 {
        self.state = self.state.wrapping_add(0x9e3779b97f4a7c15);
        let mut z = self.state;
        z = (z ^ (z >> 30)).wrapping_mul(0xbf58476d1ce4e5b9);
        z = (z ^ (z >> 27)).wrapping_mul(0x94d049bb133111eb);
        z ^ (z >> 31)
    }

    /// A number below a limit; 0 below no limit.
    pub(crate) fn below(&mut self, limit: u64) -> u64
        ensures { 0 < limit → result < limit }
    {
        let next = self.next();
        if limit == 0 { 0 } else { next % limit }
    }
}

/// What an order keeps to.
#[derive(Clone, Copy, PartialEq, Eq)]
pub(crate) enum Course {
    /// The rounds of a run.
    Rounds,
    /// What the dice say.
    Random(Dice),
}

impl Course {
    /// The processor of a turn, of so many.
    pub(crate) fn next(&mut self, turn: usize, cpus: usize) -> usize
        requires { 0 < cpus }
        ensures { result < cpus }
    {
        match self {
            Course::Rounds => turn % cpus,
            Course::Random(dice) => dice.below(cpus as u64) as usize,
        }
    }

    /// Whether an order stops at this turn, of so many processors, where all threads have ended: a run stops behind a round, a random
    /// order with a probability of one half.
    pub(crate) fn stops(&mut self, turn: usize, cpus: usize) -> bool
        requires { 0 < cpus }
    {
        match self {
            Course::Rounds => turn > 0 && turn % cpus == 0,
            Course::Random(dice) => dice.below(2) == 0,
        }
    }
}

// Makes one random order of at most so many turns, and keeps its outcome. Says how many turns it has.
fn add_one<W: Watch>(
    alloc: Global,
    script: &Script,
    outcomes: &mut Outcomes,
    course: &mut Course,
    most: usize,
) -> Result<usize, Fault>
    requires some { 0 < script.now.cpus }
    requires few { script.now.cpus ≤ 8 }
    requires sound { IsSound (opened script.now) }
    requires outcomes { AreOutcomes script.now outcomes.old }
    requires short { AreShort most outcomes.old }
    ensures found { AreOutcomes script.now outcomes.new }
    ensures once { AreOnce outcomes.old → AreOnce outcomes.new }
    ensures short { AreShort most outcomes.new }
    ensures counts { sum outcomes.new.counts.items ≤ sum outcomes.old.counts.items + 1 }
    ensures refused { IfErr result (λ fault. RefusesSearch script.now fault) }
{
    let (order, last_state) = stray(alloc, script, course, most)?;
    let turns = order.len();
    outcomes.add::<W>(alloc, script, order, last_state)?;
    Ok(turns)
}

// Makes so many random orders, and counts their turns.
fn add_all<W: Watch>(
    alloc: Global,
    script: &Script,
    outcomes: &mut Outcomes,
    most: usize,
    count: u64,
    seed: u64,
    turns: &mut u64,
    watch: &mut W,
) -> Result<(), Fault>
    requires some { 0 < script.now.cpus }
    requires few { script.now.cpus ≤ 8 }
    requires sound { IsSound (opened script.now) }
    requires outcomes { AreOutcomes script.now outcomes.old }
    requires short { AreShort most outcomes.old }
    requires none { sum outcomes.old.counts.items ≡ 0 }
    ensures found { AreOutcomes script.now outcomes.new }
    ensures once { AreOnce outcomes.old → AreOnce outcomes.new }
    ensures short { AreShort most outcomes.new }
    ensures counts { sum outcomes.new.counts.items ≤ count }
    ensures refused { IfErr result (λ fault. RefusesSearch script.now fault) }
{
    let mut course = Course::Random(Dice::new(seed));
    for made in 0..count {
        if !watch.goes_on(seen_of(made, *turns)) {
            return Ok(());
        }
        let more = add_one::<W>(alloc, script, outcomes, &mut course, most)?;
        *turns = turns.saturating_add(more as u64);
    }
    Ok(())
}

/// Makes `count` random orders of turns of a script, or fewer if memory is refused or who looks on ends it.
/// Each goes on until no turn changes anything, or the bound on turns is met; at each state in which all threads have ended it stops
/// with a probability of one half. A seed gives the same orders on every machine. Each outcome is the report of the run along its
/// order, whose verdict is `lawful`. What is found is never complete.
///
/// Refused with `Limits` or `LawBroken` for the script's opening, with `Memory`
/// if memory is refused before the first order, and with `Unlawful` if the verdict on a run isn't `lawful`.
pub fn sample<W: Watch>(
    alloc: Global,
    script: &Script,
    bounds: Bounds,
    count: u64,
    seed: u64,
    watch: &mut W,
) -> Result<Found, Fault>
    // Each outcome is one of the script.
    ensures found { IfOk result (λ found. AreOutcomes script.now found.outcomes) }

    // Each is there once.
    ensures once { IfOk result (λ found. AreOnce found.outcomes) }

    // Its order has no more turns than the bound allows.
    ensures short { IfOk result (λ found. AreShort bounds.turns found.outcomes) }
    ensures part { IfOk result (λ found. found.extent ≡ Extent.Sampled) }
    ensures lost { IfOk result (λ found. found.lost ≡ None) }
    ensures tried { IfOk result (λ found. HasTriedOrders count found.tried) }
    ensures refused { IfErr result (λ fault. RefusesSearch script.now fault) }
{
    opens(alloc, script)?;
    let mut outcomes = Outcomes::new(alloc);
    let mut turns = 0u64;
    match add_all(
        alloc,
        script,
        &mut outcomes,
        bounds.turns,
        count,
        seed,
        &mut turns,
        watch,
    ) {
        Ok(()) | Err(Fault::Memory(_)) => {}
        Err(fault) => return Err(fault),
    }
    let tried = Tried::Orders(outcomes.total());
    Ok(Found {
        outcomes,
        tried,
        turns,
        extent: Extent::Sampled,
        is_whole: false,
        lost: None,
    })
}
