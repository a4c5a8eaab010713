//! A value that one processor writes, and of which two others keep a copy, which they read anew only where its version has changed.
ghost use Rattle.std.specs.Prelude.{◌≡◌, ◌+◌, All, IfOk};

use crate::parties::{Party, SHARED};
use lwkt_base::{Fault, OutOfMemory};
use lwkt_machine::{Closed, LIMITS, Machine, Stepper, makers};
use std::alloc::Global;
use std::thread::Threads;

// The bodies of one processor.
fn alone(alloc: Global, reads: bool) -> Result<Vec<Stepper<Party>>, OutOfMemory>
    ensures { IfOk result (λ bodies. All (λ b. b.steps.hits + b.steps.misses + b.steps.left ≡ 20) bodies.items) }
{
    let party = Stepper::new(Party::new(reads));
    makers::list(alloc, [party])
}

/// Runs a writer and two readers. Each comes back with as many rounds behind it and left as it began with, and each round of a reader
/// was a hit or a miss.
pub fn run<R: Threads + Sync>(rt: &R, alloc: Global) -> Result<Closed<Stepper<Party>>, Fault>
    ensures rounds { IfOk result (λ closed. All (λ v. All (λ b. b.steps.hits + b.steps.misses + b.steps.left ≡ 20) v.items) closed.bodies.items) }
{
    let tokens = [makers::order(alloc, &[0, 0])?];
    let writer = alone(alloc, false)?;
    let first = alone(alloc, true)?;
    let second = alone(alloc, true)?;
    let bodies = makers::list(alloc, [writer, first, second])?;
    let mut machine = Machine::open(alloc, &tokens, &[], bodies)?;
    let room = machine.room(alloc)?;
    machine.drive(rt, &LIMITS);
    Ok(machine.close_in(room))
}
