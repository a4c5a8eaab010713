// Copies of steps, in memory of their own.
ghost use Rattle.std.specs.Prelude.{◌≡◌, IfOk};

use crate::series::Series;
use crate::steps::{Operand, Step, Wish};
use lwkt_base::OutOfMemory;
use lwkt_base::memory::{push, with_capacity_for};
use std::alloc::Global;

fn copy_operand(alloc: Global, operand: &Operand) -> Result<Operand, OutOfMemory>
    ensures { IfOk result (λ o. o ≡ operand.now) }
{
    Ok(match operand {
        Operand::Token(tok) => Operand::Token(tok.copy(alloc)?),
        Operand::Cell(tok, cell) => Operand::Cell(tok.copy(alloc)?, cell.copy(alloc)?),
        Operand::Value(x) => Operand::Value(x.copy(alloc)?),
        Operand::Record(blob) => Operand::Record(*blob),
        Operand::Message(msg) => Operand::Message(msg.copy(alloc)?),
        Operand::Target(cpu, thread) => Operand::Target(cpu.copy(alloc)?, thread.copy(alloc)?),
        Operand::Call(op, arg) => Operand::Call(op.copy(alloc)?, arg.copy(alloc)?),
        Operand::Flags(flags) => Operand::Flags(*flags),
        Operand::Code(error) => Operand::Code(error.copy(alloc)?),
        Operand::Outcome(outcome) => Operand::Outcome(outcome.copy(alloc)?),
    })
}

fn copy_operands(alloc: Global, operands: &[Operand]) -> Result<Vec<Operand>, OutOfMemory>
    ensures { IfOk result (λ v. v.items ≡ operands.now) }
{
    let mut copies = with_capacity_for(alloc, operands)?;
    for operand in operands {
        push(&mut copies, copy_operand(alloc, operand)?)?;
    }
    Ok(copies)
}

fn copy_wish(alloc: Global, wish: &Wish) -> Result<Wish, OutOfMemory>
    ensures { IfOk result (λ w. w ≡ wish.now) }
{
    let operands = copy_operands(alloc, wish.operands.as_slice())?;
    Ok(Wish {
        verb: wish.verb,
        operands: Series::from_vec(operands),
    })
}

fn copy_step(alloc: Global, step: &Step) -> Result<Step, OutOfMemory>
    ensures { IfOk result (λ s. s ≡ step.now) }
{
    Ok(match step {
        Step::Fixed(ask) => Step::Fixed(*ask),
        Step::Make(wish, places) => Step::Make(copy_wish(alloc, wish)?, *places),
        Step::Set(v, e) => Step::Set(*v, e.copy(alloc)?),
        Step::Fault(v) => Step::Fault(*v),
        Step::Unless(test, c, to) => Step::Unless(*test, c.copy(alloc)?, *to),
        Step::Goto(jump, to) => Step::Goto(*jump, *to),
        Step::Count(k, n) => Step::Count(*k, *n),
        Step::Again(k, to) => Step::Again(*k, *to),
        Step::Assert(c, n) => Step::Assert(c.copy(alloc)?, *n),
    })
}

/// The same steps.
pub fn copy_steps(alloc: Global, steps: &[Step]) -> Result<Vec<Step>, OutOfMemory>
    ensures { IfOk result (λ v. v.items ≡ steps.now) }
{
    let mut copies = with_capacity_for(alloc, steps)?;
    for step in steps {
        push(&mut copies, copy_step(alloc, step)?)?;
    }
    Ok(copies)
}
