ghost use Rattle.std.specs.Prelude.{◌≡◌, ◌≤◌, ◌+◌, length, IfOk};
ghost use Rattle.lwkt_text.specs.Stepping.{call_at, call_end, past_dropable, past_abortable, flags_at, flags_end, last_number, target_at, part_end, part_by_words, parts_at, known, step_ask};

use crate::looks::{
    bytes_at, demand_at, ends_at, is_at, number_at, optional, past, past_key, text_at, wrong_at,
};
use crate::tables::{Names, cell_at, message_id_at, thread_id_at, thread_length, token_id_at};
use crate::words::Word;
use crate::wrongs::{Wanted, What, Wrong};
use lwkt_base::limits::MOST_CODE;
use lwkt_base::steps::{ask_of, verb_written};
use lwkt_base::{Ask, Call, Flags, Part, PartKind, StepParts, ThreadId};

/// `op N arg N` from word i on, each of them 0 where it is left out.
#[tactic(auto, unfolding(crate::specs::Stepping::call_at))]
pub fn call_at(words: &[Word], i: usize) -> Result<Call, Wrong>
    requires { i ≤ 10000 }
    ensures { result ≡ call_at words.now i }
{
    let op = optional(words, i, "op", 0, MOST_CODE, 0)? as u32;
    let arg = optional(words, past_key(words, i, "op"), "arg", 0, u64::MAX, 0)?;
    Ok(Call { arg, op })
}

/// The place behind `op N arg N`.
pub fn call_end(words: &[Word], i: usize) -> usize
    requires { i ≤ 10000 }
    ensures exact { result ≡ call_end words.now i }
    ensures most { result ≤ i + 4 }
{
    past_key(words, past_key(words, i, "op"), "arg")
}

// The place behind `dropable`.
fn past_dropable(words: &[Word], i: usize) -> usize
    requires { i ≤ 9000 }
    ensures exact { result ≡ past_dropable words.now i }
    ensures most { result ≤ i + 1 }
{
    past(words, i, "dropable")
}

// The place behind `dropable abortable`.
fn past_abortable(words: &[Word], i: usize) -> usize
    requires { i ≤ 9000 }
    ensures exact { result ≡ past_abortable words.now i }
    ensures most { result ≤ i + 2 }
{
    past(words, past_dropable(words, i), "abortable")
}

/// `dropable abortable priority` from word i on, as they are there.
pub fn flags_at(words: &[Word], i: usize) -> Flags
    requires { i ≤ 9000 }
    ensures { result ≡ flags_at words.now i }
{
    Flags {
        dropable: is_at(words, i, "dropable"),
        abortable: is_at(words, past_dropable(words, i), "abortable"),
        priority: is_at(words, past_abortable(words, i), "priority"),
    }
}

/// The place behind them.
pub fn flags_end(words: &[Word], i: usize) -> usize
    requires { i ≤ 9000 }
    ensures exact { result ≡ flags_end words.now i }
    ensures most { result ≤ i + 3 }
{
    past(words, past_abortable(words, i), "priority")
}

/// A number that may stand at the end, at word i, and else 0.
pub fn last_number(words: &[Word], i: usize, high: u64) -> Result<u64, Wrong>
    ensures exact { result ≡ last_number words.now i high }
    ensures most { IfOk result (λ n. n ≤ high) }
{
    if text_at(words, i) == "" {
        return Ok(0);
    }
    number_at(words, i, 0, high)
}

// `-> THREAD` from word i on.
fn target_at(names: &Names, words: &[Word], i: usize) -> Result<ThreadId, Wrong>
    requires { i ≤ 9000 }
    ensures { result ≡ target_at names.now words.now i }
{
    demand_at(words, i, What::Word(Wanted::Arrow), is_at(words, i, "->"))?;
    thread_id_at(names, words, i + 1)
}

// The part of a kind from word i on.
fn part_by_words(names: &Names, kind: PartKind, words: &[Word], i: usize) -> Result<Part, Wrong>
    requires { i ≤ 9000 }
    ensures { result ≡ part_by_words names.now kind words.now i }
{
    Ok(match kind {
        PartKind::Token => Part::Token(token_id_at(names, words, i)?),
        PartKind::Cell => {
            let place = cell_at(names, words, i)?;
            Part::Cell(place.tok, place.cell)
        }
        PartKind::Value => Part::Value(number_at(words, i, 0, u64::MAX)?),
        PartKind::Record => Part::Record(bytes_at(words, i, 65)?),
        PartKind::Message => Part::Message(message_id_at(names, words, i)?),
        PartKind::Target => Part::Target(target_at(names, words, i)?),
        PartKind::Call => Part::Call(call_at(words, i)?),
        PartKind::Flags => Part::Flags(flags_at(words, i)),
        PartKind::Code => Part::Code(last_number(words, i, MOST_CODE)? as u32),
        PartKind::Outcome => Part::Outcome(last_number(words, i, u64::MAX)?),
    })
}

// The place behind such a part.
fn part_end(kind: PartKind, words: &[Word], i: usize) -> usize
    requires { i ≤ 9000 }
    ensures exact { result ≡ part_end kind words.now i }
    ensures most { result ≤ i + 4 }
{
    match kind {
        PartKind::Cell => i + 3,
        PartKind::Target => i + 1 + thread_length(words, i + 1),
        PartKind::Call => call_end(words, i),
        PartKind::Flags => flags_end(words, i),
        _ => i + 1,
    }
}

// The parts of these kinds behind the word of a step, and nothing more.
fn parts_at(names: &Names, kinds: &[PartKind], words: &[Word]) -> Result<StepParts, Wrong>
    requires { length kinds.now ≤ 4 }
    ensures { result ≡ parts_at names.now kinds.now words.now 1 }
{
    let mut parts = StepParts::of(&[]);
    let mut at = 1;
    for kind in kinds {
        parts.push(part_by_words(names, *kind, words, at)?);
        at = part_end(*kind, words, at);
    }
    ends_at(words, at)?;
    Ok(parts)
}

// What word 0 makes known, if it is the word of a step.
fn known<A>(words: &[Word], found: Option<A>) -> Result<A, Wrong>
    ensures { result ≡ known words.now found }
{
    found.ok_or(wrong_at(words, 0, What::Keyword))
}

/// The ask of a step.
pub fn step_ask(names: &Names, words: &[Word]) -> Result<Ask, Wrong>
    ensures { result ≡ step_ask names.now words.now }
{
    let verb = known(words, verb_written(text_at(words, 0)))?;
    let parts = parts_at(names, verb.kinds(), words)?;
    known(words, ask_of(verb, parts.as_slice()))
}
