ghost use Rattle.std.specs.Prelude.{◌≡◌, ◌≤◌, ◌<◌, ◌+◌, length, drop, IfSome, IfOk, IfErr, OnOk, OnErr, Ok, Err};
ghost use Rattle.lwkt_script.specs.Limits.{IsToken, IsMessage};
ghost use Rattle.lwkt_script.specs.Member.{law_of, allows};
ghost use Rattle.lwkt_text.specs.Outcome.{IsAsRead, IsSlipAsRead};
ghost use Rattle.lwkt_text.specs.Parting.{no_cells, cell_added, name_added, cell_named, word_added, cells_added, cells_at, law_said, law_end, has_param, param_end, asks_nothing, law_at, param_of, guard_place, guard_of, cells_place, cells_in, token_of, message_of, head_of};

use crate::looks::{
    bytes_at, decimal_number, demand_at, ends_at, is_at, is_name, number_at, optional, past,
    past_key, text_at,
};
use crate::many::Many;
use crate::names::Name;
use crate::slips::checked;
use crate::tables::{Names, position, thread_id_at, thread_length};
use crate::words::Word;
use crate::wrongs::{Slip, Wanted, What, Wrong};
use lwkt_base::limits::{LAST_GENERATION, LAST_ROUND, MOST_REPEATS, RECORD_LIMIT};
use lwkt_base::{Blob, Cells, CpuId, Law, MsgSpec, OutOfMemory, TokSpec};
use lwkt_script::records::may_guard;
use std::alloc::Global;

/// Cells that were said so far.
#[derive(Drop)]
pub struct CellList {
    /// Of each cell its name; a cell without one has the empty name.
    pub names: Many<Name>,
    /// The value of each cell at the opening.
    pub values: Many<u64>,
    /// The name of the next cell, if it was said.
    pub pending: Name,
}

/// What stands at the head of a thread.
#[derive(Clone, Copy)]
pub struct Head {
    /// The processor that the thread runs on.
    pub cpu: CpuId,
    /// How many times the thread makes its steps, 1 to 1000000.
    pub repeat: u32,
    /// Whether the thread serves others, and need not end.
    pub service: bool,
}

impl CellList {
    fn new(alloc: Global) -> Self
        ensures { result ≡ no_cells }
    {
        CellList {
            names: Many::new(alloc),
            values: Many::new(alloc),
            pending: Name::new(alloc),
        }
    }

    fn add(&mut self, alloc: Global, n: u64) -> Result<(), OutOfMemory>
        ensures { OnOk result (self.new ≡ cell_added n self.old) }
    {
        let name = self.pending.take(alloc);
        self.names.push(name)?;
        self.values.push(n)
    }

    // The name of the next cell.
    fn name_next(&mut self, alloc: Global, word: &Word) -> Result<(), Slip>
        ensures ok { OnOk result (name_added word.now self.old ≡ Ok self.new) }
        ensures err { IfErr result (λ slip. IsSlipAsRead slip (name_added word.now self.old)) }
    {
        let text = word.text.as_str();
        if position(self.names.as_slice(), text).is_some() {
            return Err(Slip::Wrong(Wrong {
                at: word.at,
                what: What::Twice,
            }));
        }
        self.pending = Name::of(alloc, text)?;
        Ok(())
    }

    // A word that is no number.
    fn name(&mut self, alloc: Global, word: &Word) -> Result<(), Slip>
        ensures ok { OnOk result (cell_named word.now self.old ≡ Ok self.new) }
        ensures err { IfErr result (λ slip. IsSlipAsRead slip (cell_named word.now self.old)) }
    {
        let text = word.text.as_str();
        let is_empty = self.pending.as_str().is_empty();
        if text == "=" && !is_empty {
            return Ok(());
        }
        if is_name(text) && is_empty {
            return self.name_next(alloc, word);
        }
        Err(Slip::Wrong(Wrong {
            at: word.at,
            what: What::CellList,
        }))
    }

    // One more word of a token's list of cells.
    fn add_word(&mut self, alloc: Global, word: &Word) -> Result<(), Slip>
        ensures ok { OnOk result (word_added word.now self.old ≡ Ok self.new) }
        ensures err { IfErr result (λ slip. IsSlipAsRead slip (word_added word.now self.old)) }
    {
        match decimal_number(word.text.as_str()) {
            Some(n) => Ok(self.add(alloc, n)?),
            None => self.name(alloc, word),
        }
    }
}

// The words from word i on.
fn rest_of(words: &[Word], i: usize) -> &[Word]
    ensures { result.now ≡ drop i words.now }
{
    if i <= words.len() { &words[i..] } else { &[] }
}

// Cells that are said by these words.
fn cells_added(alloc: Global, words: &[Word]) -> Result<CellList, Slip>
    ensures { IsAsRead result (cells_added no_cells words.now) }
{
    let mut cells = CellList::new(alloc);
    for word in words {
        cells.add_word(alloc, word)?;
    }
    Ok(cells)
}

// The cells from word i on.
fn cells_at(alloc: Global, words: &[Word], i: usize) -> Result<CellList, Slip>
    ensures { IsAsRead result (cells_at words.now i) }
{
    let cells = cells_added(alloc, rest_of(words, i))?;
    let what = What::Number {
        low: 0,
        high: u64::MAX,
    };
    let is_whole = cells.pending.as_str().is_empty();
    checked(demand_at(words, words.len(), what, is_whole))?;
    Ok(cells)
}

// The law of a name.
fn law_of(name: &str) -> Option<Law>
    ensures { result ≡ law_of name.now }
{
    match name {
        "any" => Some(Law::Any),
        "sum" => Some(Law::Sum),
        "order" => Some(Law::Order),
        "cap" => Some(Law::Cap),
        "tally" => Some(Law::Tally),
        "len" => Some(Law::Len),
        _ => None,
    }
}

// The law that word 2 may be.
fn law_said(words: &[Word]) -> Option<Law>
    ensures { result ≡ law_said words.now }
{
    law_of(text_at(words, 2))
}

fn law_end(words: &[Word]) -> usize
    ensures exact { result ≡ law_end words.now }
    ensures most { result ≤ 3 }
{
    if law_said(words).is_some() { 3 } else { 2 }
}

// Whether a number stands behind the law.
fn has_param(words: &[Word]) -> bool
    ensures { result ≡ has_param words.now }
{
    law_said(words).is_some() && decimal_number(text_at(words, 3)).is_some()
}

fn param_end(words: &[Word]) -> usize
    ensures exact { result ≡ param_end words.now }
    ensures most { result ≤ 4 }
{
    if has_param(words) { 4 } else { law_end(words) }
}

// Whether a law asks nothing of its parameter.
fn asks_nothing(law: Law) -> bool
    ensures { result ≡ asks_nothing law }
{
    match law {
        Law::Any | Law::Order | Law::Len => true,
        Law::Sum | Law::Cap | Law::Tally => false,
    }
}

fn law_at(words: &[Word]) -> Law
    ensures { result ≡ law_at words.now }
{
    law_said(words).unwrap_or(Law::Any)
}

fn param_of(words: &[Word]) -> Result<u64, Wrong>
    ensures { result ≡ param_of words.now }
{
    if has_param(words) {
        return number_at(words, 3, 0, u64::MAX);
    }
    let what = What::Number {
        low: 0,
        high: u64::MAX,
    };
    demand_at(words, law_end(words), what, asks_nothing(law_at(words)))?;
    Ok(0)
}

// Where `record` may stand.
fn guard_place(words: &[Word]) -> usize
    ensures exact { result ≡ guard_place words.now }
    ensures most { result ≤ 6 }
{
    past_key(words, param_end(words), "gen")
}

// The record that a token's sentence says, if it says one.
fn guard_of(words: &[Word]) -> Result<Option<Blob>, Wrong>
    ensures exact { result ≡ guard_of words.now }
    ensures short { IfOk result (λ guard. IfSome guard (λ blob. length blob ≤ RECORD_LIMIT)) }
{
    let place = guard_place(words);
    if !is_at(words, place, "record") {
        return Ok(None);
    }
    let blob = bytes_at(words, place + 1, 64)?;
    Ok(Some(blob))
}

// Where `cells` may stand.
fn cells_place(words: &[Word]) -> usize
    ensures exact { result ≡ cells_place words.now }
    ensures most { result ≤ 8 }
{
    past_key(words, guard_place(words), "record")
}

/// The cells that a token's sentence says.
pub fn cells_in(alloc: Global, words: &[Word]) -> Result<CellList, Slip>
    ensures { IsAsRead result (cells_in words.now) }
{
    let place = cells_place(words);
    if is_at(words, place, "cells") {
        return cells_at(alloc, words, place + 1);
    }
    checked(ends_at(words, place))?;
    Ok(CellList::new(alloc))
}

// Whether a token under this law may have so many cells.
fn allows(law: Law, count: usize) -> bool
    ensures { result ≡ allows law count }
{
    match law {
        Law::Tally => count == 1,
        Law::Len => 0 < count && count <= 4,
        _ => count <= 4,
    }
}

/// A token, by its sentence.
#[tactic(auto, unfolding(crate::specs::Parting::token_of))]
pub fn token_of(alloc: Global, words: &[Word]) -> Result<TokSpec, Slip>
    ensures exact { IsAsRead result (token_of words.now) }
    ensures limits { IfOk result IsToken }
{
    let param = checked(param_of(words))?;
    let end = param_end(words);
    let generation = checked(optional(words, end, "gen", 0, LAST_GENERATION, 0))?;
    let blob = checked(guard_of(words))?;
    let cells = cells_in(alloc, words)?;
    let law = law_at(words);
    let is_allowed = allows(law, cells.values.len());
    checked(demand_at(words, words.len(), What::CellCount, is_allowed))?;
    let is_guarded = may_guard(law, &blob);
    checked(demand_at(words, words.len(), What::Guard, is_guarded))?;
    Ok(TokSpec {
        cells: Cells::from_vec(cells.values.into_vec()),
        law,
        param,
        generation,
        blob,
    })
}

/// A message, by its sentence.
#[tactic(auto, unfolding(crate::specs::Parting::message_of))]
pub fn message_of(names: &Names, words: &[Word]) -> Result<MsgSpec, Wrong>
    ensures exact { result ≡ message_of names.now words.now }
    ensures limits { IfOk result (IsMessage names.now.cpus) }
{
    demand_at(words, 2, What::Word(Wanted::Of), is_at(words, 2, "of"))?;
    let origin = thread_id_at(names, words, 3)?;
    let is_there = origin.cpu.0 < names.cpus && origin.thread <= 15;
    demand_at(words, 3, What::Origin, is_there)?;
    let end = 3 + thread_length(words, 3);
    let round = optional(words, end, "round", 0, LAST_ROUND, 0)?;
    ends_at(words, past_key(words, end, "round"))?;
    Ok(MsgSpec { round, origin })
}

/// The head of a thread, by its sentence.
#[tactic(auto, unfolding(crate::specs::Parting::head_of))]
pub fn head_of(names: &Names, words: &[Word]) -> Result<Head, Wrong>
    requires some { 0 < names.now.cpus }
    ensures exact { result ≡ head_of names.now words.now }
    ensures cpu { IfOk result (λ h. h.cpu.0 < names.now.cpus) }
    ensures repeats { IfOk result (λ h. (1 ≤ h.repeat) × (h.repeat ≤ MOST_REPEATS)) }
{
    demand_at(words, 2, What::Word(Wanted::On), is_at(words, 2, "on"))?;
    let cpu = number_at(words, 3, 0, names.cpus as u64 - 1)? as u8;
    let repeat = optional(words, 4, "repeat", 1, MOST_REPEATS, 1)? as u32;
    let end = past_key(words, 4, "repeat");
    let service = is_at(words, end, "service");
    ends_at(words, past(words, end, "service"))?;
    Ok(Head {
        cpu: CpuId(cpu),
        repeat,
        service,
    })
}
