//! Room for what a close reads: all of it is made before the first seat is taken back.
ghost use Rattle.std.specs.Prelude.{◌≡◌, ◌<◌, ◌≤◌, [], ◌∷◌, ◌++◌, length, IfOk, vec_capacity};
ghost use Rattle.lwkt_bank.specs.Rule.{table_words};
ghost use Rattle.lwkt_bank.specs.Closing.{IsEmptyRoom, IsRoomOf};

use crate::blanks::Blank;
use crate::closed::Closed;
use crate::kept::Kept;
use lwkt_base::limits::{CPU_LIMIT, TOKEN_LIMIT};
use lwkt_base::memory::{push, with_capacity};
use lwkt_base::{Blob, Cells, OutOfMemory};
use std::alloc::Global;

/// Appends a number to a list that has room.
pub(crate) fn put(list: &mut Vec<u64>, value: u64)
    requires { length list.old.items < vec_capacity list.old }
    ensures items { list.new.items ≡ list.old.items ++ value ∷ [] }
    ensures room { vec_capacity list.old ≤ vec_capacity list.new }
{
    let _ = list.push(value);
}

/// Appends cells to a list that has room.
pub(crate) fn put_cells(list: &mut Vec<Cells>, cells: Cells)
    requires { length list.old.items < vec_capacity list.old }
    ensures items { list.new.items ≡ list.old.items ++ cells ∷ [] }
    ensures room { vec_capacity list.old ≤ vec_capacity list.new }
{
    let _ = list.push(cells);
}

/// Appends a record, or none, to a list that has room.
pub(crate) fn put_blob(list: &mut Vec<Option<Blob>>, blob: Option<Blob>)
    requires { length list.old.items < vec_capacity list.old }
    ensures items { list.new.items ≡ list.old.items ++ blob ∷ [] }
    ensures room { vec_capacity list.old ≤ vec_capacity list.new }
{
    let _ = list.push(blob);
}

/// Appends what lay in a slot to a list that has room.
pub(crate) fn put_slot(list: &mut Vec<Blob>, blob: Blob)
    requires { length list.old.items < vec_capacity list.old }
    ensures items { list.new.items ≡ list.old.items ++ blob ∷ [] }
    ensures room { vec_capacity list.old ≤ vec_capacity list.new }
{
    let _ = list.push(blob);
}

/// Room for the rows and tallies of so many tokens.
pub(crate) fn blanks_for(alloc: Global, tokens: usize) -> Result<Vec<Blank>, OutOfMemory>
    requires { tokens ≤ TOKEN_LIMIT }
    ensures { IfOk result (λ blanks. length blanks.items ≡ tokens) }
{
    let mut blanks = with_capacity(alloc, tokens)?;
    for _token in 0..tokens {
        push(&mut blanks, Blank::new(alloc)?)?;
    }
    Ok(blanks)
}

/// Room for the closing values of so many tokens.
pub(crate) fn closed_for(alloc: Global, tokens: usize) -> Result<Closed, OutOfMemory>
    requires { tokens ≤ TOKEN_LIMIT }
    ensures { IfOk result (λ closed. IsEmptyRoom closed tokens) }
{
    let rows = with_capacity(alloc, tokens)?;
    let gens = with_capacity(alloc, tokens)?;
    let tallies = with_capacity(alloc, tokens)?;
    let blobs = with_capacity(alloc, tokens)?;
    Ok(Closed {
        rows,
        gens,
        tallies,
        blobs,
    })
}

/// Room for all that the close of a bank reads and makes. It is made before, so that the close can't fail.
#[derive(Drop)]
pub struct CloseRoom {
    pub(crate) kept: Vec<Kept>,
    pub(crate) words: Vec<u64>,
    pub(crate) slots: Vec<Blob>,
    pub(crate) blanks: Vec<Blank>,
    pub(crate) closed: Closed,
}

/// Room for the close of a bank of so many tokens, processors, words and slots.
pub(crate) fn room_of(
    alloc: Global,
    tokens: usize,
    cpus: usize,
    words: usize,
    slots: usize,
) -> Result<CloseRoom, OutOfMemory>
    requires tokens { tokens ≤ TOKEN_LIMIT }
    requires cpus { cpus ≤ CPU_LIMIT }
    requires words { words ≤ table_words TOKEN_LIMIT }
    requires slots { slots ≤ TOKEN_LIMIT }
    ensures { IfOk result (λ room. IsRoomOf tokens cpus words slots room) }
{
    Ok(CloseRoom {
        kept: with_capacity(alloc, cpus)?,
        words: with_capacity(alloc, words)?,
        slots: with_capacity(alloc, slots)?,
        blanks: blanks_for(alloc, tokens)?,
        closed: closed_for(alloc, tokens)?,
    })
}
