ghost use Rattle.std.specs.Prelude.{◌≡◌, [], None, Ok, codes, replicate};
ghost use Rattle.serde_json.specs.View.{view, items_view};
ghost use Rattle.serde_json.specs.Find.{get};
ghost use Rattle.lwkt_script.specs.Outcome.{Gives, each};
ghost use Rattle.lwkt_trace.specs.Words.{at_rest, at_other, end_of_three, end_of_four, end_by_word, message_end_of};
ghost use Rattle.lwkt_trace.specs.Format.{numbers, row_behind, tally, end, record_behind, blobs, members_of, closing_of_parts, closing_at, closing};

use crate::traces::Closing;
use lwkt_base::memory::push;
use lwkt_base::{Blob, Cells, CpuId, Fault, MsgEnd, Owner};
use lwkt_script::Series;
use lwkt_script::fields::{has, has_members, item_count, list_at};
use lwkt_script::records::guard_in;
use lwkt_script::steps::{small_at, whole_at};
use lwkt_script::tokens::cells_of;
use serde_json::Value;
use std::alloc::Global;

// The most rows, lists of tallies and ends of messages.
const LIMIT: usize = 64;

// A message's end by a word, its origin and its round.
fn at_rest(word: &str, origin: u8, round: u64) -> Option<MsgEnd>
    ensures { result ≡ at_rest word.now origin round }
{
    match word {
        "rest" => Some(MsgEnd {
            round,
            state: Owner::Rest {
                origin: CpuId(origin),
            },
        }),
        _ => None,
    }
}

// A message's end by a word, its origin, its target and its round.
fn at_other(word: &str, origin: u8, target: u8, round: u64) -> Option<MsgEnd>
    ensures { result ≡ at_other word.now origin target round }
{
    let origin = CpuId(origin);
    let target = CpuId(target);
    match word {
        "out" => Some(MsgEnd {
            round,
            state: Owner::Out { origin, target },
        }),
        "with" => Some(MsgEnd {
            round,
            state: Owner::With { origin, target },
        }),
        "back" => Some(MsgEnd {
            round,
            state: Owner::Back { origin, target },
        }),
        _ => None,
    }
}

// The end of a word with three items in all.
fn end_of_three(word: &str, value: &Value) -> Option<MsgEnd>
    ensures { result ≡ end_of_three word.now (view value.now) }
{
    let origin = small_at(value, 1)?;
    at_rest(word, origin, whole_at(value, 2)?)
}

// The end of a word with four items in all.
fn end_of_four(word: &str, value: &Value) -> Option<MsgEnd>
    ensures { result ≡ end_of_four word.now (view value.now) }
{
    let origin = small_at(value, 1)?;
    let target = small_at(value, 2)?;
    at_other(word, origin, target, whole_at(value, 3)?)
}

// The end of a word with so many items in all.
fn ended(word: &str, count: usize, value: &Value) -> Option<MsgEnd>
    ensures { result ≡ end_by_word word.now count (view value.now) }
{
    match count {
        3 => end_of_three(word, value),
        4 => end_of_four(word, value),
        _ => None,
    }
}

// The end that a list stands for.
fn message_end_of(value: &Value) -> Option<MsgEnd>
    ensures { result ≡ message_end_of (view value.now) }
{
    let count = item_count(value)?;
    ended(value.get(0usize)?.as_str()?, count, value)
}

// A list of whole numbers.
fn numbers(alloc: Global, place: u32, value: &Value) -> Result<Cells, Fault>
    ensures { Gives (λ c. c) result (numbers place (view value.now)) }
{
    match value.as_array() {
        Some(items) => Ok(Cells::from_vec(cells_of(alloc, place, items.as_slice())?)),
        None => Err(Fault::Script { place }),
    }
}

// The row after those.
fn row(alloc: Global, before: &[Cells], value: &Value) -> Result<Cells, Fault>
    ensures { Gives (λ c. c) result (row_behind before.now (view value.now)) }
{
    if before.len() >= LIMIT {
        return Err(Fault::Script { place: 3064 });
    }
    numbers(alloc, 3000 + before.len() as u32, value)
}

// The tallies after those.
fn tally(alloc: Global, before: &[Cells], value: &Value) -> Result<Cells, Fault>
    ensures { Gives (λ c. c) result (tally before.now (view value.now)) }
{
    if before.len() >= LIMIT {
        return Err(Fault::Script { place: 4064 });
    }
    numbers(alloc, 4000 + before.len() as u32, value)
}

// The end of a message after those.
fn end(before: &[MsgEnd], value: &Value) -> Result<MsgEnd, Fault>
    ensures { Gives (λ e. e) result (end before.now (view value.now)) }
{
    if before.len() >= LIMIT {
        return Err(Fault::Script { place: 5064 });
    }
    match message_end_of(value) {
        Some(end) => Ok(end),
        None => Err(Fault::Script {
            place: 5000 + before.len() as u32,
        }),
    }
}

fn rows_of(alloc: Global, items: &[Value]) -> Result<Vec<Cells>, Fault>
    ensures { Gives (λ v. v.items) result (each row_behind [] (items_view items.now)) }
{
    let mut rows = Vec::new(alloc);
    for item in items {
        let next = row(alloc, rows.as_slice(), item)?;
        push(&mut rows, next)?;
    }
    Ok(rows)
}

fn tallies_of(alloc: Global, items: &[Value]) -> Result<Vec<Cells>, Fault>
    ensures { Gives (λ v. v.items) result (each tally [] (items_view items.now)) }
{
    let mut tallies = Vec::new(alloc);
    for item in items {
        let next = tally(alloc, tallies.as_slice(), item)?;
        push(&mut tallies, next)?;
    }
    Ok(tallies)
}

fn ends_of(alloc: Global, items: &[Value]) -> Result<Vec<MsgEnd>, Fault>
    ensures { Gives (λ v. v.items) result (each end [] (items_view items.now)) }
{
    let mut ends = Vec::new(alloc);
    for item in items {
        let next = end(ends.as_slice(), item)?;
        push(&mut ends, next)?;
    }
    Ok(ends)
}

// The record of a token after those.
fn blob(before: &[Option<Blob>], value: &Value) -> Result<Option<Blob>, Fault>
    ensures { Gives (λ b. b) result (record_behind before.now (view value.now)) }
{
    if before.len() >= LIMIT {
        return Err(Fault::Script { place: 6064 });
    }
    match guard_in(value) {
        Some(blob) => Ok(blob),
        None => Err(Fault::Script {
            place: 6000 + before.len() as u32,
        }),
    }
}

fn blobs_of(alloc: Global, items: &[Value]) -> Result<Vec<Option<Blob>>, Fault>
    ensures { Gives (λ v. v.items) result (each record_behind [] (items_view items.now)) }
{
    let mut blobs = Vec::new(alloc);
    for item in items {
        let next = blob(blobs.as_slice(), item)?;
        push(&mut blobs, next)?;
    }
    Ok(blobs)
}

// So many records that aren't there.
fn no_blobs(alloc: Global, count: usize) -> Result<Vec<Option<Blob>>, Fault>
    ensures { Gives (λ v. v.items) result (Ok (replicate count None)) }
{
    let mut blobs = Vec::new(alloc);
    for _ in 0..count {
        push(&mut blobs, None)?;
    }
    Ok(blobs)
}

// The records of so many tokens, where they are stated.
fn blobs_in(alloc: Global, count: usize, value: &Value) -> Result<Vec<Option<Blob>>, Fault>
    ensures { Gives (λ v. v.items) result (blobs count (get (codes "records") (view value.now))) }
{
    match value.get("records") {
        None => no_blobs(alloc, count),
        Some(list) => match list.as_array() {
            Some(items) => blobs_of(alloc, items.as_slice()),
            None => Err(Fault::Script { place: 4 }),
        },
    }
}

// How many members closing values have.
fn members_of(value: &Value) -> usize
    ensures { result ≡ members_of (view value.now) }
{
    if has(value, "records") { 5 } else { 4 }
}

// The closing values that have these lists, and the records that an object has.
#[tactic(auto, unfolding(crate::specs::Format::closing_of_parts))]
fn closing_of_parts(
    alloc: Global,
    value: &Value,
    row_items: &[Value],
    gen_items: &[Value],
    tally_items: &[Value],
    end_items: &[Value],
) -> Result<Closing, Fault>
    ensures { Gives (λ c. c) result (closing_of_parts (view value.now) (items_view row_items.now) (items_view gen_items.now) (items_view tally_items.now) (items_view end_items.now)) }
{
    let rows = rows_of(alloc, row_items)?;
    let gens = cells_of(alloc, 5, gen_items)?;
    let tallies = tallies_of(alloc, tally_items)?;
    let ends = ends_of(alloc, end_items)?;
    let blobs = blobs_in(alloc, rows.len(), value)?;
    Ok(Closing {
        rows: Series::from_vec(rows),
        gens: Cells::from_vec(gens),
        tallies: Series::from_vec(tallies),
        messages: Series::from_vec(ends),
        blobs: Series::from_vec(blobs),
    })
}

/// The closing values that an object is.
///
/// Refused with `Script` and the place of the first bad part, as `read_trace` says it (4, 3000 + n, 5, 4000 + n, 5000 + n,
/// 6000 + n), and with `Memory` only where an allocation was refused.
#[tactic(auto, unfolding(crate::specs::Format::closing_at))]
pub fn closing_at(alloc: Global, value: &Value) -> Result<Closing, Fault>
    ensures { Gives (λ c. c) result (closing_at (view value.now)) }
{
    if !has_members(value, members_of(value)) {
        return Err(Fault::Script { place: 4 });
    }
    let row_items = list_at(4, value, "rows")?;
    let gen_items = list_at(4, value, "gens")?;
    let tally_items = list_at(4, value, "tallies")?;
    let end_items = list_at(4, value, "messages")?;
    closing_of_parts(
        alloc,
        value,
        row_items.as_slice(),
        gen_items.as_slice(),
        tally_items.as_slice(),
        end_items.as_slice(),
    )
}

/// The closing values, or none where there is null.
pub fn closing(alloc: Global, value: &Value) -> Result<Option<Closing>, Fault>
    ensures { Gives (λ c. c) result (closing (view value.now)) }
{
    if value.is_null() {
        return Ok(None);
    }
    match closing_at(alloc, value) {
        Ok(closing) => Ok(Some(closing)),
        Err(fault) => Err(fault),
    }
}
