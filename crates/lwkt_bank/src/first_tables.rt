//! The opening of a bank.
ghost use Rattle.std.specs.Prelude.{◌≡◌, ◌⊎◌, ◌↔◌, ℕ, ◌+◌, ◌*◌, ◌<◌, ◌≤◌, [], ◌∷◌, All, IsTrue, IfOk, slice_index};
ghost use Rattle.lwkt_core.specs.Opening.{IsTokenWithin, AreWithin};
ghost use Rattle.lwkt_bank.specs.Rule.{law_number};
ghost use Rattle.lwkt_bank.specs.Opened.{plan_of_spec, plans_of, slot_of_spec, opening_slots, block, opening_words};

use crate::places::GENERATION;
use crate::views::Plan;
use lwkt_base::limits::LAST_GENERATION;
use lwkt_base::memory::{extend_from_slice, push, with_capacity_for};
use lwkt_base::{Blob, Law, OutOfMemory, TokSpec};
use lwkt_core::are_within as model_within;
use std::alloc::Global;

/// Whether the opening keeps the limits.
pub(crate) fn are_within(cpus: usize, specs: &[TokSpec]) -> bool
    ensures { IsTrue result ↔ AreWithin cpus specs.now [] }
{
    model_within(cpus, specs, &[])
}

fn cell_or_zero(cells: &[u64], cell: usize) -> u64
    ensures { result ≡ slice_index cells.now cell }
{
    cells.get(cell).copied().unwrap_or(0)
}

// The cells of a row; past its end zeros.
fn four_cells(cells: &[u64]) -> [u64; 4]
    ensures { result ≡ slice_index cells.now 0 ∷ slice_index cells.now 1 ∷ slice_index cells.now 2 ∷ slice_index cells.now 3 ∷ [] }
{
    [
        cell_or_zero(cells, 0),
        cell_or_zero(cells, 1),
        cell_or_zero(cells, 2),
        cell_or_zero(cells, 3),
    ]
}

fn plan_of(spec: &TokSpec) -> Plan
    ensures { result ≡ plan_of_spec spec.now }
{
    let cells = spec.cells.as_slice();
    Plan {
        generation: spec.generation,
        param: spec.param,
        first: four_cells(cells),
        cells: cells.len(),
        law: spec.law,
        blob: spec.blob,
    }
}

/// What is declared of each token.
pub(crate) fn plans_of(alloc: Global, specs: &[TokSpec]) -> Result<Vec<Plan>, OutOfMemory>
    ensures { IfOk result (λ v. v.items ≡ plans_of specs.now) }
{
    let mut plans = with_capacity_for(alloc, specs)?;
    for spec in specs {
        push(&mut plans, plan_of(spec))?;
    }
    Ok(plans)
}

fn law_number(law: Law) -> u64
    ensures { result ≡ law_number law }
{
    match law {
        Law::Any => 0,
        Law::Sum => 1,
        Law::Order => 2,
        Law::Cap => 3,
        Law::Tally => 4,
        Law::Len => 5,
    }
}

fn block_of(spec: &TokSpec) -> [u64; 16]
    requires { spec.now.generation ≤ LAST_GENERATION }
    ensures { result ≡ block spec.now }
{
    let [first, second, third, fourth] = four_cells(spec.cells.as_slice());
    [
        GENERATION * spec.generation,
        first,
        second,
        third,
        fourth,
        law_number(spec.law),
        spec.param,
        0,
        0,
        0,
        0,
        0,
        0,
        0,
        0,
        0,
    ]
}

/// The words at the opening.
pub(crate) fn words_of(alloc: Global, specs: &[TokSpec]) -> Result<Vec<u64>, OutOfMemory>
    requires { All IsTokenWithin specs.now }
    ensures { IfOk result (λ v. v.items ≡ opening_words specs.now) }
{
    let mut words = Vec::new(alloc);
    push(&mut words, 0)?;
    for spec in specs {
        extend_from_slice(&mut words, &block_of(spec))?;
    }
    Ok(words)
}

fn slot_of(spec: &TokSpec) -> Blob
    ensures { result ≡ slot_of_spec spec.now }
{
    match spec.blob {
        None => Blob::of(&[]),
        Some(blob) => blob,
    }
}

/// What lies in the slots at the opening.
pub(crate) fn slots_of(alloc: Global, specs: &[TokSpec]) -> Result<Vec<Blob>, OutOfMemory>
    ensures { IfOk result (λ v. v.items ≡ opening_slots specs.now) }
{
    let mut slots = with_capacity_for(alloc, specs)?;
    for spec in specs {
        push(&mut slots, slot_of(spec))?;
    }
    Ok(slots)
}
