// The steps of a thread that computes and decides, in the text's form. Its variables are `v0`, `v1` and so on.

use crate::exprs_written::{
    constant, width_of_cond, width_of_expr, write_atom, write_cond, write_expr,
};
use crate::pages::Sheet;
use crate::writers::{Known, write_ask, write_flags, write_msg, write_number_tok, write_record};
use lwkt_base::{MsgId, OutOfMemory};
use lwkt_code::{Code, Expr, Jump, Operand, Places, Step, Test, Wish};

// How many variables there have to be for an operand.
fn width_of_operand(operand: &Operand) -> u8 {
    match operand {
        Operand::Token(e) => width_of_expr(e),
        Operand::Cell(e, f) => width_of_expr(e).max(width_of_expr(f)),
        Operand::Value(e) => width_of_expr(e),
        Operand::Record(_) => 0,
        Operand::Message(e) => width_of_expr(e),
        Operand::Target(e, f) => width_of_expr(e).max(width_of_expr(f)),
        Operand::Call(e, f) => width_of_expr(e).max(width_of_expr(f)),
        Operand::Flags(_) => 0,
        Operand::Code(e) => width_of_expr(e),
        Operand::Outcome(e) => width_of_expr(e),
    }
}

fn width_of_places(places: Places) -> u8 {
    match places {
        Places::Nowhere => 0,
        Places::One(u) => u.saturating_add(1),
        Places::Two(u, v) => u.max(v).saturating_add(1),
        Places::Three(u, v, w) => u.max(v).max(w).saturating_add(1),
    }
}

// How many variables there have to be for a wish: one at least, since only then its numbers may be expressions.
fn width_of_wish(wish: &Wish, places: Places) -> u8 {
    let mut width = width_of_places(places).max(1);
    for operand in wish.operands.as_slice() {
        width = width.max(width_of_operand(operand));
    }
    width
}

// How many variables there have to be for a step.
fn width_of_step(step: &Step) -> u8 {
    match step {
        Step::Fixed(_) => 0,
        Step::Make(wish, places) => width_of_wish(wish, *places),
        Step::Set(v, e) => width_of_expr(e).max(v.saturating_add(1)),
        Step::Fault(v) => v.saturating_add(1),
        Step::Unless(_, c, _) => width_of_cond(c.tree()),
        Step::Goto(_, _) => 0,
        Step::Count(_, _) => 0,
        Step::Again(_, _) => 0,
        Step::Assert(c, _) => width_of_cond(c.tree()),
    }
}

/// How many variables a program has, as far as it says so: up to the last that a step names or that doesn't hold 0 first.
pub fn width_of(code: &Code) -> u8 {
    let mut width = 0;
    for step in code.steps() {
        width = width.max(width_of_step(step));
    }
    for (v, value) in code.vars().iter().enumerate() {
        if *value != 0 {
            width = width.max(v as u8 + 1);
        }
    }
    width.min(8)
}

/// Whether a program is a list of asks alone, as those of versions 1 and 2 are.
pub fn is_listed(code: &Code) -> bool {
    code.steps()
        .iter()
        .all(|step| matches!(step, Step::Fixed(_)))
        && code.vars().iter().all(|value| *value == 0)
}

/// The variables at a thread's head.
pub fn write_vars(page: &mut Sheet, code: &Code) -> Result<(), OutOfMemory> {
    let width = width_of(code);
    for (v, value) in code.vars().iter().enumerate() {
        if v < usize::from(width) {
            page.tagged("    var v", v as u64)?;
            page.tagged(" = ", *value)?;
            page.text("\n")?;
        }
    }
    Ok(())
}

// A token: its name, its number, or an expression.
fn write_tok(page: &mut Sheet, known: Known, e: &Expr) -> Result<(), OutOfMemory> {
    match constant(e) {
        Some(n) => write_number_tok(page, known, n),
        None => {
            page.text(" ")?;
            write_atom(page, e)
        }
    }
}

fn write_message(page: &mut Sheet, known: Known, e: &Expr) -> Result<(), OutOfMemory> {
    match constant(e) {
        Some(n) if n <= 255 => write_msg(page, known, MsgId(n as u8)),
        _ => write_spaced(page, e),
    }
}

fn write_spaced(page: &mut Sheet, e: &Expr) -> Result<(), OutOfMemory> {
    page.text(" ")?;
    write_expr(page, e)
}

// A key and its value, if that isn't 0.
fn write_keyed(page: &mut Sheet, key: &str, e: &Expr) -> Result<(), OutOfMemory> {
    if matches!(constant(e), Some(0)) {
        return Ok(());
    }
    page.text(key)?;
    write_expr(page, e)
}

fn write_operand(page: &mut Sheet, known: Known, operand: &Operand) -> Result<(), OutOfMemory> {
    match operand {
        Operand::Token(tok) => write_tok(page, known, tok),
        Operand::Cell(tok, cell) => {
            write_tok(page, known, tok)?;
            page.text(".")?;
            write_atom(page, cell)
        }
        Operand::Value(x) => write_spaced(page, x),
        Operand::Record(blob) => write_record(page, " ", blob),
        Operand::Message(msg) => write_message(page, known, msg),
        Operand::Target(cpu, thread) => {
            page.text(" -> ")?;
            write_atom(page, cpu)?;
            page.text(".")?;
            write_atom(page, thread)
        }
        Operand::Call(op, arg) => {
            write_keyed(page, ", op ", op)?;
            write_keyed(page, ", arg ", arg)
        }
        Operand::Flags(flags) => write_flags(page, *flags),
        Operand::Code(error) => write_spaced(page, error),
        Operand::Outcome(outcome) => write_spaced(page, outcome),
    }
}

fn write_places(page: &mut Sheet, places: Places) -> Result<(), OutOfMemory> {
    match places {
        Places::Nowhere => Ok(()),
        Places::One(u) => {
            page.tagged("v", u64::from(u))?;
            page.text(" = ")
        }
        Places::Two(u, v) => {
            page.tagged("v", u64::from(u))?;
            page.tagged(", v", u64::from(v))?;
            page.text(" = ")
        }
        Places::Three(u, v, w) => {
            page.tagged("v", u64::from(u))?;
            page.tagged(", v", u64::from(v))?;
            page.tagged(", v", u64::from(w))?;
            page.text(" = ")
        }
    }
}

fn write_wish(
    page: &mut Sheet,
    known: Known,
    wish: &Wish,
    places: Places,
) -> Result<(), OutOfMemory> {
    write_places(page, places)?;
    page.text(wish.verb.word())?;
    for operand in wish.operands.as_slice() {
        write_operand(page, known, operand)?;
    }
    Ok(())
}

fn jump_word(jump: Jump) -> &'static str {
    match jump {
        Jump::Else => "else",
        Jump::Back => "end",
        Jump::Break => "break",
        Jump::Loop => "loop",
        Jump::End => "end",
    }
}

// One sentence.
fn write_sentence(page: &mut Sheet, known: Known, step: &Step) -> Result<(), OutOfMemory> {
    match step {
        Step::Fixed(ask) => write_ask(page, known, ask),
        Step::Make(wish, places) => write_wish(page, known, wish, *places),
        Step::Set(v, e) => {
            page.tagged("v", u64::from(*v))?;
            page.text(" = ")?;
            write_expr(page, e)
        }
        Step::Fault(v) => {
            page.tagged("v", u64::from(*v))?;
            page.text(" = refused")
        }
        Step::Unless(test, c, _) => {
            page.text(match test {
                Test::If => "if ",
                Test::While => "while ",
            })?;
            write_cond(page, c.tree())
        }
        Step::Goto(jump, _) => page.text(jump_word(*jump)),
        Step::Count(_, n) => page.tagged("times ", u64::from(*n)),
        Step::Again(_, _) => page.text("end"),
        Step::Assert(c, _) => {
            page.text("assert ")?;
            write_cond(page, c.tree())
        }
    }
}

/// Whether what stands behind a step stands in it.
pub fn opens(step: &Step) -> bool {
    match step {
        Step::Unless(_, _, _) => true,
        Step::Goto(Jump::Loop, _) => true,
        Step::Count(_, _) => true,
        _ => false,
    }
}

/// Whether a step ends what stands in another.
pub fn closes(step: &Step) -> bool {
    match step {
        Step::Goto(Jump::Back, _) => true,
        Step::Goto(Jump::End, _) => true,
        Step::Again(_, _) => true,
        _ => false,
    }
}

fn write_indent(page: &mut Sheet, depth: usize) -> Result<(), OutOfMemory> {
    for _ in 0..depth {
        page.text("    ")?;
    }
    Ok(())
}

/// The sentences of a thread, each on a line of its own, those that stand in others farther right.
pub fn write_steps(page: &mut Sheet, known: Known, steps: &[Step]) -> Result<(), OutOfMemory> {
    let mut depth = 1usize;
    for step in steps {
        let is_else = matches!(step, Step::Goto(Jump::Else, _));
        if closes(step) {
            depth = depth.saturating_sub(1).max(1);
        }
        let left = if is_else {
            depth.saturating_sub(1)
        } else {
            depth
        };
        write_indent(page, left)?;
        write_sentence(page, known, step)?;
        page.text("\n")?;
        if opens(step) {
            depth = depth.saturating_add(1);
        }
    }
    Ok(())
}
