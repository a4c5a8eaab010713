//! Asks whose numbers are expressions, and what their answers are put into, as words of a sentence.
ghost use Rattle.std.specs.Prelude.{◌≡◌, ◌≤◌, ◌+◌, ◌-◌, [], length, slice_get, unwrap_or, IfOk};
ghost use Rattle.lwkt_code.specs.Trees.{term_of};
ghost use Rattle.lwkt_text.specs.Outcome.{IsAsRead};
ghost use Rattle.lwkt_text.specs.Operating.{by_name, member_at, part_term_at, cells_named, cell_at, numbered_at, thread_by, target_at, keyed_at, last_at, call_at, operand_at, operands_at, wish_at, is_number, is_plain, all_plain, plain_ask, plainly, flawless, asked, variable_at, set_to, assigned, two_assigned, three_assigned, leaf_at, first_member};

use crate::looks::{bytes_at, demand_at, ends_at, is_at, text_at, wrong_at};
use crate::many::Many;
use crate::names::Name;
use crate::phrases::{FoundExpr, begins_phrase, closed_at, expr_at};
use crate::slips::checked;
use crate::steps::{flags_at, flags_end, step_ask};
use crate::tables::{Names, named_thread, position};
use crate::words::Word;
use crate::wrongs::{Slip, Wanted, What, Wrong};
use lwkt_base::steps::verb_written;
use lwkt_base::{Ask, OutOfMemory, PartKind, ThreadId};
use lwkt_code::checks::flaw_of;
use lwkt_code::wishes::ask_for;
use lwkt_code::{Expr, ExprTree, Operand, Operator, Places, Series, Step, Wish};
use std::alloc::Global;

/// An operand, and the place of the first word behind it.
#[derive(Drop)]
pub struct FoundOperand {
    pub operand: Operand,
    pub end: usize,
}

// The number of a part, or an expression.
fn by_name(
    alloc: Global,
    number: Option<usize>,
    what: What,
    vars: &[Name],
    words: &[Word],
    low: u8,
    i: usize,
) -> Result<FoundExpr, Slip>
    requires few { length words.now ≤ 1000 }
    requires start { i ≤ 10000 }
    requires binds { low ≤ 7 }
    ensures exact { IsAsRead result (by_name number what vars.now words.now low i) }
    ensures most { IfOk result (λ f. f.end ≤ i + 1 + (999 - i)) }
{
    if let Some(n) = number {
        return Ok(FoundExpr {
            expr: Expr::number(n as u64),
            end: i + 1,
        });
    }
    if begins_phrase(vars, words, i) {
        expr_at(alloc, vars, words, low, i)
    } else {
        Err(Slip::Wrong(wrong_at(words, i, what)))
    }
}

// The number of the member 0 of a name.
fn first_member(alloc: Global, parts: &[Name], text: &str) -> Result<Option<usize>, OutOfMemory>
    ensures { IfOk result (λ n. n ≡ first_member parts.now text.now) }
{
    let mut name = Name::of(alloc, text)?;
    name.push(b'[')?;
    name.push(b'0')?;
    name.push(b']')?;
    Ok(position(parts, name.as_str()))
}

// `NAME [ EXPR ]` from word i on.
fn member_at(
    alloc: Global,
    parts: &[Name],
    what: What,
    vars: &[Name],
    words: &[Word],
    i: usize,
) -> Result<FoundExpr, Slip>
    requires few { length words.now ≤ 1000 }
    requires start { i ≤ 10000 }
    ensures exact { IsAsRead result (member_at parts.now what vars.now words.now i) }
    ensures most { IfOk result (λ f. f.end ≤ i + 1 + (999 - i)) }
{
    let Some(n) = first_member(alloc, parts, text_at(words, i))? else {
        return Err(Slip::Wrong(wrong_at(words, i, what)));
    };
    let index = expr_at(alloc, vars, words, 5, i + 2)?;
    checked(closed_at(words, index.end, "]", Wanted::Square))?;
    let expr = Expr::both(alloc, Operator::Plus, Expr::number(n as u64), index.expr)?;
    Ok(FoundExpr {
        expr,
        end: index.end + 1,
    })
}

// A part from word i on: its name, a member of its name, or an expression.
fn part_term_at(
    alloc: Global,
    parts: &[Name],
    what: What,
    vars: &[Name],
    words: &[Word],
    low: u8,
    i: usize,
) -> Result<FoundExpr, Slip>
    requires few { length words.now ≤ 1000 }
    requires start { i ≤ 10000 }
    requires binds { low ≤ 7 }
    ensures exact { IsAsRead result (part_term_at parts.now what vars.now words.now low i) }
    ensures most { IfOk result (λ f. f.end ≤ i + 1 + (999 - i)) }
{
    if is_at(words, i + 1, "[") {
        return member_at(alloc, parts, what, vars, words, i);
    }
    let number = position(parts, text_at(words, i));
    by_name(alloc, number, what, vars, words, low, i)
}

// The names of the cells of a token.
fn names_of_cells(names: &Names, n: u64) -> &[Name]
    ensures { result.now ≡ unwrap_or (slice_get names.now.cells n) [] }
{
    match names.cells.as_slice().get(n as usize) {
        Some(cells) => cells.as_slice(),
        None => &[],
    }
}

// The names of the cells of the token that an expression's number begins with.
fn cells_named<'n>(names: &'n Names, tree: &ExprTree) -> &'n [Name]
    ensures { result.now ≡ cells_named names.now (term_of tree.now) }
{
    match tree {
        ExprTree::Number(n) => names_of_cells(names, *n),
        ExprTree::Variable(_) => &[],
        ExprTree::Both(_, a, _) => cells_named(names, a),
    }
}

// A token, a full stop and a cell.
fn cell_at(
    alloc: Global,
    names: &Names,
    vars: &[Name],
    words: &[Word],
    i: usize,
) -> Result<FoundOperand, Slip>
    requires few { length words.now ≤ 1000 }
    requires start { i ≤ 5000 }
    ensures exact { IsAsRead result (cell_at names.now vars.now words.now i) }
    ensures most { IfOk result (λ f. f.end ≤ i + 3 + (998 - i)) }
{
    let tokens = names.tokens.as_slice();
    let token = part_term_at(alloc, tokens, What::Token, vars, words, 7, i)?;
    checked(closed_at(words, token.end, ".", Wanted::Point))?;
    let at = token.end + 1;
    let number = position(cells_named(names, token.expr.tree()), text_at(words, at));
    let cell = by_name(alloc, number, What::Cell, vars, words, 7, at)?;
    Ok(FoundOperand {
        operand: Operand::Cell(token.expr, cell.expr),
        end: cell.end,
    })
}

// A thread by expressions: its processor, a full stop and its number there.
fn numbered_at(alloc: Global, vars: &[Name], words: &[Word], i: usize) -> Result<FoundOperand, Slip>
    requires few { length words.now ≤ 1000 }
    requires start { i ≤ 10000 }
    ensures exact { IsAsRead result (numbered_at vars.now words.now i) }
    ensures most { IfOk result (λ f. f.end ≤ 1000) }
{
    let cpu = expr_at(alloc, vars, words, 7, i)?;
    checked(closed_at(words, cpu.end, ".", Wanted::Point))?;
    let thread = expr_at(alloc, vars, words, 7, cpu.end + 1)?;
    Ok(FoundOperand {
        operand: Operand::Target(cpu.expr, thread.expr),
        end: thread.end,
    })
}

// A thread: its name, or else by expressions.
fn thread_by(
    alloc: Global,
    id: Option<ThreadId>,
    vars: &[Name],
    words: &[Word],
    i: usize,
) -> Result<FoundOperand, Slip>
    requires few { length words.now ≤ 1000 }
    requires start { i ≤ 10000 }
    ensures exact { IsAsRead result (thread_by id vars.now words.now i) }
    ensures most { IfOk result (λ f. f.end ≤ i + 1 + (1000 - i)) }
{
    if let Some(id) = id {
        let cpu = Expr::number(u64::from(id.cpu.0));
        let thread = Expr::number(u64::from(id.thread));
        return Ok(FoundOperand {
            operand: Operand::Target(cpu, thread),
            end: i + 1,
        });
    }
    if begins_phrase(vars, words, i) {
        numbered_at(alloc, vars, words, i)
    } else {
        Err(Slip::Wrong(wrong_at(words, i, What::Thread)))
    }
}

// `-> THREAD` from word i on.
fn target_at(
    alloc: Global,
    names: &Names,
    vars: &[Name],
    words: &[Word],
    i: usize,
) -> Result<FoundOperand, Slip>
    requires few { length words.now ≤ 1000 }
    requires start { i ≤ 5000 }
    ensures exact { IsAsRead result (target_at names.now vars.now words.now i) }
    ensures most { IfOk result (λ f. f.end ≤ i + 3 + (998 - i)) }
{
    let is_arrow = is_at(words, i, "->");
    checked(demand_at(words, i, What::Word(Wanted::Arrow), is_arrow))?;
    let id = named_thread(names, text_at(words, i + 1));
    thread_by(alloc, id, vars, words, i + 1)
}

// The value of the key that word i may be, and else 0.
fn keyed_at(
    alloc: Global,
    vars: &[Name],
    words: &[Word],
    i: usize,
    key: &str,
) -> Result<FoundExpr, Slip>
    requires few { length words.now ≤ 1000 }
    requires start { i ≤ 10000 }
    ensures exact { IsAsRead result (keyed_at vars.now words.now i key.now) }
    ensures most { IfOk result (λ f. f.end ≤ i + 1 + (999 - i)) }
{
    if is_at(words, i, key) {
        return expr_at(alloc, vars, words, 5, i + 1);
    }
    Ok(FoundExpr {
        expr: Expr::number(0),
        end: i,
    })
}

// An expression that may stand at the end, and else 0.
fn last_at(alloc: Global, vars: &[Name], words: &[Word], i: usize) -> Result<FoundExpr, Slip>
    requires few { length words.now ≤ 1000 }
    requires start { i ≤ 10000 }
    ensures exact { IsAsRead result (last_at vars.now words.now i) }
    ensures most { IfOk result (λ f. f.end ≤ i + 1 + (999 - i)) }
{
    if text_at(words, i) == "" {
        return Ok(FoundExpr {
            expr: Expr::number(0),
            end: i,
        });
    }
    expr_at(alloc, vars, words, 5, i)
}

// `op EXPR arg EXPR` from word i on.
fn call_at(alloc: Global, vars: &[Name], words: &[Word], i: usize) -> Result<FoundOperand, Slip>
    requires few { length words.now ≤ 1000 }
    requires start { i ≤ 5000 }
    ensures exact { IsAsRead result (call_at vars.now words.now i) }
    ensures most { IfOk result (λ f. f.end ≤ i + 3 + (998 - i)) }
{
    let op = keyed_at(alloc, vars, words, i, "op")?;
    let arg = keyed_at(alloc, vars, words, op.end, "arg")?;
    Ok(FoundOperand {
        operand: Operand::Call(op.expr, arg.expr),
        end: arg.end,
    })
}

// What stands behind the word of an ask, of a kind, from word i on.
fn operand_at(
    alloc: Global,
    names: &Names,
    vars: &[Name],
    kind: PartKind,
    words: &[Word],
    i: usize,
) -> Result<FoundOperand, Slip>
    requires few { length words.now ≤ 1000 }
    requires start { i ≤ 5000 }
    ensures exact { IsAsRead result (operand_at names.now vars.now kind words.now i) }
    ensures most { IfOk result (λ f. f.end ≤ i + 3 + (998 - i)) }
{
    let (operand, end) = match kind {
        PartKind::Token => {
            let tokens = names.tokens.as_slice();
            let found = part_term_at(alloc, tokens, What::Token, vars, words, 5, i)?;
            (Operand::Token(found.expr), found.end)
        }
        PartKind::Cell => return cell_at(alloc, names, vars, words, i),
        PartKind::Value => {
            let found = expr_at(alloc, vars, words, 5, i)?;
            (Operand::Value(found.expr), found.end)
        }
        PartKind::Record => (Operand::Record(checked(bytes_at(words, i, 65))?), i + 1),
        PartKind::Message => {
            let messages = names.messages.as_slice();
            let found = part_term_at(alloc, messages, What::Message, vars, words, 5, i)?;
            (Operand::Message(found.expr), found.end)
        }
        PartKind::Target => return target_at(alloc, names, vars, words, i),
        PartKind::Call => return call_at(alloc, vars, words, i),
        PartKind::Flags => (Operand::Flags(flags_at(words, i)), flags_end(words, i)),
        PartKind::Code => {
            let found = last_at(alloc, vars, words, i)?;
            (Operand::Code(found.expr), found.end)
        }
        PartKind::Outcome => {
            let found = last_at(alloc, vars, words, i)?;
            (Operand::Outcome(found.expr), found.end)
        }
    };
    Ok(FoundOperand { operand, end })
}

// The operands of these kinds from word i on, and nothing more.
fn operands_at(
    alloc: Global,
    names: &Names,
    vars: &[Name],
    kinds: &[PartKind],
    words: &[Word],
    i: usize,
) -> Result<Many<Operand>, Slip>
    requires few { length words.now ≤ 1000 }
    requires kinds { length kinds.now ≤ 4 }
    requires start { i ≤ 5 }
    ensures { IsAsRead result (operands_at names.now vars.now kinds.now words.now i) }
{
    let mut operands = Many::new(alloc);
    let mut at = i;
    for kind in kinds {
        let found = operand_at(alloc, names, vars, *kind, words, at)?;
        operands.push(found.operand)?;
        at = found.end;
    }
    checked(ends_at(words, at))?;
    Ok(operands)
}

// The ask whose word is word i.
fn wish_at(
    alloc: Global,
    names: &Names,
    vars: &[Name],
    words: &[Word],
    i: usize,
) -> Result<Wish, Slip>
    requires few { length words.now ≤ 1000 }
    requires start { i ≤ 4 }
    ensures { IsAsRead result (wish_at names.now vars.now words.now i) }
{
    let Some(verb) = verb_written(text_at(words, i)) else {
        return Err(Slip::Wrong(wrong_at(words, i, What::Keyword)));
    };
    let operands = operands_at(alloc, names, vars, verb.kinds(), words, i + 1)?;
    Ok(Wish {
        verb,
        operands: Series::from_vec(operands.into_vec()),
    })
}

// Whether an expression is a number up to a limit.
fn is_number(most: u64, e: &Expr) -> bool
    ensures { result ≡ is_number most e.now }
{
    match e.tree() {
        ExprTree::Number(n) => *n <= most,
        ExprTree::Variable(_) => false,
        ExprTree::Both(_, _, _) => false,
    }
}

// Whether an operand is what a step of version 2 may have.
fn is_plain(operand: &Operand) -> bool
    ensures { result ≡ is_plain operand.now }
{
    match operand {
        Operand::Token(tok) => is_number(255, tok),
        Operand::Cell(tok, cell) => is_number(255, tok) && is_number(255, cell),
        Operand::Value(x) => is_number(u64::MAX, x),
        Operand::Record(_) => true,
        Operand::Message(msg) => is_number(255, msg),
        Operand::Target(cpu, thread) => is_number(255, cpu) && is_number(255, thread),
        Operand::Call(op, arg) => is_number(0xffff_ffff, op) && is_number(u64::MAX, arg),
        Operand::Flags(_) => true,
        Operand::Code(error) => is_number(0xffff_ffff, error),
        Operand::Outcome(outcome) => is_number(u64::MAX, outcome),
    }
}

fn all_plain(operands: &[Operand]) -> bool
    ensures { result ≡ all_plain operands.now }
{
    for operand in operands {
        if !is_plain(operand) {
            return false;
        }
    }
    true
}

/// A step, if nothing is wrong with it by itself.
pub fn flawless(words: &[Word], step: Step) -> Result<Step, Slip>
    ensures { IsAsRead result (flawless words.now step) }
{
    match flaw_of(0, &step) {
        None => Ok(step),
        Some(flaw) => Err(Slip::Wrong(wrong_at(words, 0, What::Flawed(flaw)))),
    }
}

// The ask that a step makes each time, if it is the same, and its answer is put nowhere.
fn plain_ask(step: &Step) -> Option<Ask>
    ensures { result ≡ plain_ask step.now }
{
    match step {
        Step::Make(wish, Places::Nowhere) if all_plain(wish.operands.as_slice()) => {
            Some(ask_for(wish, &[0; 8]))
        }
        _ => None,
    }
}

// The same step, without expressions if it has none.
fn plainly(step: Step) -> Step
    ensures { result ≡ plainly step }
{
    match plain_ask(&step) {
        Some(ask) => Step::Fixed(ask),
        None => step,
    }
}

// The ask whose word is word i, and what its answer is put into.
fn asked(
    alloc: Global,
    names: &Names,
    vars: &[Name],
    words: &[Word],
    i: usize,
    places: Places,
) -> Result<Step, Slip>
    requires few { length words.now ≤ 1000 }
    requires start { i ≤ 4 }
    ensures { IsAsRead result (asked names.now vars.now words.now i places) }
{
    let wish = wish_at(alloc, names, vars, words, i)?;
    let step = flawless(words, Step::Make(wish, places))?;
    Ok(plainly(step))
}

// Word i, a variable of the thread.
fn variable_at(vars: &[Name], words: &[Word], i: usize) -> Result<u8, Wrong>
    ensures { result ≡ variable_at vars.now words.now i }
{
    match position(vars, text_at(words, i)) {
        Some(v) if v < 8 => Ok(v as u8),
        _ => Err(wrong_at(words, i, What::Variable)),
    }
}

// `x = EXPR`
fn set_to(alloc: Global, vars: &[Name], words: &[Word], v: u8) -> Result<Step, Slip>
    requires { length words.now ≤ 1000 }
    ensures { IsAsRead result (set_to vars.now words.now v) }
{
    let found = expr_at(alloc, vars, words, 5, 2)?;
    checked(ends_at(words, found.end))?;
    flawless(words, Step::Set(v, found.expr))
}

// `x = refused`, `x = ASK`, `x = EXPR`
fn assigned(
    alloc: Global,
    names: &Names,
    vars: &[Name],
    words: &[Word],
    v: u8,
) -> Result<Step, Slip>
    requires { length words.now ≤ 1000 }
    ensures { IsAsRead result (assigned names.now vars.now words.now v) }
{
    if is_at(words, 2, "refused") && words.len() == 3 {
        return Ok(Step::Fault(v));
    }
    if verb_written(text_at(words, 2)).is_some() {
        asked(alloc, names, vars, words, 2, Places::One(v))
    } else {
        set_to(alloc, vars, words, v)
    }
}

// `x, y = ASK`
fn two_assigned(alloc: Global, names: &Names, vars: &[Name], words: &[Word]) -> Result<Step, Slip>
    requires { length words.now ≤ 1000 }
    ensures { IsAsRead result (two_assigned names.now vars.now words.now) }
{
    let u = checked(variable_at(vars, words, 0))?;
    let v = checked(variable_at(vars, words, 1))?;
    asked(alloc, names, vars, words, 3, Places::Two(u, v))
}

// `x, y, z = ASK`
fn three_assigned(alloc: Global, names: &Names, vars: &[Name], words: &[Word]) -> Result<Step, Slip>
    requires { length words.now ≤ 1000 }
    ensures { IsAsRead result (three_assigned names.now vars.now words.now) }
{
    let u = checked(variable_at(vars, words, 0))?;
    let v = checked(variable_at(vars, words, 1))?;
    let w = checked(variable_at(vars, words, 2))?;
    asked(alloc, names, vars, words, 4, Places::Three(u, v, w))
}

/// What a sentence asks, or assigns.
pub fn leaf_at(alloc: Global, names: &Names, vars: &[Name], words: &[Word]) -> Result<Step, Slip>
    requires { length words.now ≤ 1000 }
    ensures { IsAsRead result (leaf_at names.now vars.now words.now) }
{
    if is_at(words, 1, "=") {
        let u = checked(variable_at(vars, words, 0))?;
        return assigned(alloc, names, vars, words, u);
    }
    if is_at(words, 2, "=") {
        return two_assigned(alloc, names, vars, words);
    }
    if is_at(words, 3, "=") {
        return three_assigned(alloc, names, vars, words);
    }
    if vars.is_empty() {
        return Ok(Step::Fixed(checked(step_ask(names, words))?));
    }
    asked(alloc, names, vars, words, 0, Places::Nowhere)
}
