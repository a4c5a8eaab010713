// The steps of a thread in JSON: those that hold others as lists in lists.

use crate::exprs_written::{write_json_cond, write_json_expr};
use crate::jsons::{number_of_flags, write_ask, write_bytes};
use crate::pages::Sheet;
use crate::steps_written::{closes, opens};
use lwkt_base::OutOfMemory;
use lwkt_code::{Code, Expr, Jump, Operand, Places, Step, Test, Wish};

/// What the variables hold first, up to the last that doesn't hold 0.
pub fn held_first(code: &Code) -> &[u64] {
    let vars = code.vars().as_slice();
    let mut count = 0;
    for (v, value) in vars.iter().enumerate() {
        if *value != 0 {
            count = v + 1;
        }
    }
    &vars[..count.min(vars.len())]
}

fn write_one(page: &mut Sheet, e: &Expr) -> Result<(), OutOfMemory> {
    page.text(", ")?;
    write_json_expr(page, e)
}

fn write_two(page: &mut Sheet, first: &Expr, second: &Expr) -> Result<(), OutOfMemory> {
    write_one(page, first)?;
    write_one(page, second)
}

fn write_operand(page: &mut Sheet, operand: &Operand) -> Result<(), OutOfMemory> {
    match operand {
        Operand::Token(tok) => write_one(page, tok),
        Operand::Cell(tok, cell) => write_two(page, tok, cell),
        Operand::Value(x) => write_one(page, x),
        Operand::Record(blob) => {
            page.text(", \"")?;
            write_bytes(page, blob)?;
            page.text("\"")
        }
        Operand::Message(msg) => write_one(page, msg),
        Operand::Target(cpu, thread) => write_two(page, cpu, thread),
        Operand::Call(op, arg) => write_two(page, op, arg),
        Operand::Flags(flags) => page.tagged(", ", number_of_flags(*flags)),
        Operand::Code(error) => write_one(page, error),
        Operand::Outcome(outcome) => write_one(page, outcome),
    }
}

fn write_places(page: &mut Sheet, places: Places) -> Result<(), OutOfMemory> {
    match places {
        Places::Nowhere => Ok(()),
        Places::One(u) => {
            page.tagged(", {\"to\": ", u64::from(u))?;
            page.text("}")
        }
        Places::Two(u, v) => {
            page.tagged(", {\"to\": [", u64::from(u))?;
            page.tagged(", ", u64::from(v))?;
            page.text("]}")
        }
        Places::Three(u, v, w) => {
            page.tagged(", {\"to\": [", u64::from(u))?;
            page.tagged(", ", u64::from(v))?;
            page.tagged(", ", u64::from(w))?;
            page.text("]}")
        }
    }
}

fn write_wish(page: &mut Sheet, wish: &Wish, places: Places) -> Result<(), OutOfMemory> {
    page.text("[\"")?;
    page.text(wish.verb.word())?;
    page.text("\"")?;
    for operand in wish.operands.as_slice() {
        write_operand(page, operand)?;
    }
    write_places(page, places)?;
    page.text("]")
}

// A sentence, as far as the list in it; or where a list in another ends.
fn write_jump(page: &mut Sheet, jump: Jump) -> Result<(), OutOfMemory> {
    page.text(match jump {
        Jump::Else => "], [",
        Jump::Back => "]]",
        Jump::Break => "[\"break\"]",
        Jump::Loop => "[\"loop\", [",
        Jump::End => "]]",
    })
}

fn write_step(page: &mut Sheet, step: &Step) -> Result<(), OutOfMemory> {
    match step {
        Step::Fixed(ask) => {
            page.text("[")?;
            write_ask(page, ask)?;
            page.text("]")
        }
        Step::Make(wish, places) => write_wish(page, wish, *places),
        Step::Set(v, e) => {
            page.tagged("[\"set\", ", u64::from(*v))?;
            write_one(page, e)?;
            page.text("]")
        }
        Step::Fault(v) => {
            page.tagged("[\"fault\", ", u64::from(*v))?;
            page.text("]")
        }
        Step::Unless(test, c, _) => {
            page.text(match test {
                Test::If => "[\"if\", ",
                Test::While => "[\"while\", ",
            })?;
            write_json_cond(page, c.tree())?;
            page.text(", [")
        }
        Step::Goto(jump, _) => write_jump(page, *jump),
        Step::Count(_, n) => {
            page.tagged("[\"times\", ", u64::from(*n))?;
            page.text(", [")
        }
        Step::Again(_, _) => page.text("]]"),
        Step::Assert(c, n) => {
            page.text("[\"assert\", ")?;
            write_json_cond(page, c.tree())?;
            page.tagged(", ", u64::from(*n))?;
            page.text("]")
        }
    }
}

/// The items of a thread's list of steps.
pub fn write_steps(page: &mut Sheet, steps: &[Step]) -> Result<(), OutOfMemory> {
    let mut is_first = true;
    for step in steps {
        let is_else = matches!(step, Step::Goto(Jump::Else, _));
        if !is_first && !is_else && !closes(step) {
            page.text(", ")?;
        }
        write_step(page, step)?;
        is_first = is_else || opens(step);
    }
    Ok(())
}
