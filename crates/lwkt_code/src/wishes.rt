//! What a wish asks for.
ghost use Rattle.std.specs.Prelude.{◌≡◌};
ghost use Rattle.lwkt_code.specs.Wishes.{name_for, short_for, part_of, made, wished};

use crate::exprs::Expr;
use crate::steps::{Operand, Wish};
use crate::values::value;
use lwkt_base::steps::ask_of;
use lwkt_base::{Ask, Call, CpuId, MsgId, Part, ThreadId, TokId};

// The name that an expression's number stands for.
fn name(e: &Expr, vars: &[u64; 8]) -> u8
    ensures { result ≡ name_for e.now vars.now }
{
    value(e, vars).min(255) as u8
}

// The last 32 bits of an expression's number.
fn short(e: &Expr, vars: &[u64; 8]) -> u32
    ensures { result ≡ short_for e.now vars.now }
{
    (value(e, vars) % 0x1_0000_0000) as u32
}

// What an operand stands for.
fn part(operand: &Operand, vars: &[u64; 8]) -> Part
    ensures { result ≡ part_of vars.now operand.now }
{
    match operand {
        Operand::Token(tok) => Part::Token(TokId(name(tok, vars))),
        Operand::Cell(tok, cell) => Part::Cell(TokId(name(tok, vars)), name(cell, vars)),
        Operand::Value(x) => Part::Value(value(x, vars)),
        Operand::Record(blob) => Part::Record(*blob),
        Operand::Message(msg) => Part::Message(MsgId(name(msg, vars))),
        Operand::Target(cpu, thread) => Part::Target(ThreadId {
            cpu: CpuId(name(cpu, vars)),
            thread: name(thread, vars),
        }),
        Operand::Call(op, arg) => Part::Call(Call {
            arg: value(arg, vars),
            op: short(op, vars),
        }),
        Operand::Flags(flags) => Part::Flags(*flags),
        Operand::Code(error) => Part::Code(short(error, vars)),
        Operand::Outcome(result) => Part::Outcome(value(result, vars)),
    }
}

/// The ask of a wish, if its operands are those of its kind.
pub fn make(wish: &Wish, vars: &[u64; 8]) -> Option<Ask>
    ensures { result ≡ made wish.now vars.now }
{
    match wish.operands.as_slice() {
        [] => ask_of(wish.verb, &[]),
        [a] => ask_of(wish.verb, &[part(a, vars)]),
        [a, b] => ask_of(wish.verb, &[part(a, vars), part(b, vars)]),
        [a, b, c] => ask_of(wish.verb, &[part(a, vars), part(b, vars), part(c, vars)]),
        [a, b, c, d] => ask_of(
            wish.verb,
            &[part(a, vars), part(b, vars), part(c, vars), part(d, vars)],
        ),
        _ => None,
    }
}

/// What a wish asks for. One that makes no ask wants to end, and no program has such one.
pub fn ask_for(wish: &Wish, vars: &[u64; 8]) -> Ask
    ensures { result ≡ wished wish.now vars.now }
{
    match make(wish, vars) {
        None => Ask::Exit,
        Some(ask) => ask,
    }
}
