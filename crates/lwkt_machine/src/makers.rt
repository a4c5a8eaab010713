//! Tokens and messages as they are declared, and lists of what a machine is opened with.
ghost use Rattle.std.specs.Prelude.{◌≡◌, ◌⊎◌, ◌<◌, ◌≤◌, ◌∷◌, [], length, Err, IfOk, OnErr, OnOk, None, Some};
ghost use Rattle.lwkt_base.specs.Fault.{no_memory};

use lwkt_base::limits::RECORD_LIMIT;
use lwkt_base::memory::{from_array, from_slice};
use lwkt_base::{Blob, Cells, CpuId, Fault, Law, MsgSpec, OutOfMemory, ThreadId, TokSpec};
use std::alloc::Global;

// A token with these cells under this law.
fn token(alloc: Global, cells: &[u64], law: Law, param: u64) -> Result<TokSpec, OutOfMemory>
    ensures { IfOk result (λ spec. spec ≡ record { cells = cells.now; law = law; param = param; generation = 0; blob = None }) }
{
    let row = from_slice(alloc, cells)?;
    Ok(TokSpec {
        cells: Cells::from_vec(row),
        law,
        param,
        generation: 0,
        blob: None,
    })
}

/// A token under the law Any, of whose cells nothing is asked. As of all these tokens, its generation is 0, and a machine opens
/// with it only if it has at most 4 cells.
///
/// Refused if memory is.
pub fn any(alloc: Global, cells: &[u64]) -> Result<TokSpec, OutOfMemory>
    ensures { IfOk result (λ spec. spec ≡ record { cells = cells.now; law = Law.Any; param = 0; generation = 0; blob = None }) }
{
    token(alloc, cells, Law::Any, 0)
}

/// A token under the law Sum: its cells add up to `total`, without wrapping, at the opening and at the end of each section.
///
/// Refused if memory is.
pub fn sum(alloc: Global, cells: &[u64], total: u64) -> Result<TokSpec, OutOfMemory>
    ensures { IfOk result (λ spec. spec ≡ record { cells = cells.now; law = Law.Sum; param = total; generation = 0; blob = None }) }
{
    token(alloc, cells, Law::Sum, total)
}

/// A token under the law Order: no cell is less than the one before it, at the opening and at the end of each section.
///
/// Refused if memory is.
pub fn order(alloc: Global, cells: &[u64]) -> Result<TokSpec, OutOfMemory>
    ensures { IfOk result (λ spec. spec ≡ record { cells = cells.now; law = Law.Order; param = 0; generation = 0; blob = None }) }
{
    token(alloc, cells, Law::Order, 0)
}

/// A token under the law Cap: each cell is at most `most`, at the opening and at the end of each section.
///
/// Refused if memory is.
pub fn cap(alloc: Global, cells: &[u64], most: u64) -> Result<TokSpec, OutOfMemory>
    ensures { IfOk result (λ spec. spec ≡ record { cells = cells.now; law = Law.Cap; param = most; generation = 0; blob = None }) }
{
    token(alloc, cells, Law::Cap, most)
}

/// A token under the law Tally: its one cell is at each moment `first` and all that processors have added.
///
/// Refused if memory is.
pub fn tally(alloc: Global, first: u64) -> Result<TokSpec, OutOfMemory>
    ensures { IfOk result (λ spec. spec ≡ record { cells = first ∷ []; law = Law.Tally; param = first; generation = 0; blob = None }) }
{
    token(alloc, &[first], Law::Tally, first)
}

/// The token, guarding this record besides its cells, in place of one that it had. No machine opens with a Tally token that has a
/// record.
///
/// Refused with `Limits` exactly if the record has more than 64 bytes.
pub fn guarding(token: TokSpec, record_: &[u8]) -> Result<TokSpec, Fault>
    ensures ok { IfOk result (λ spec. spec ≡ record token { blob = Some record_.now }) }
    ensures within { OnOk result (length record_.now ≤ RECORD_LIMIT) }
    ensures only { OnErr result ((result ≡ Err Fault.Limits) × (RECORD_LIMIT < length record_.now)) }
{
    if record_.len() > 64 {
        return Err(Fault::Limits);
    }
    let TokSpec {
        cells,
        law,
        param,
        generation,
        blob: _,
    } = token;
    Ok(TokSpec {
        cells,
        law,
        param,
        generation,
        blob: Some(Blob::of(record_)),
    })
}

/// A token under the law Len: it has a record, whose length in bytes is in cell 0, at the opening and at the end of each section.
///
/// Refused with `Limits` only if the record has more than 64 bytes, and with `Memory` if memory is refused.
pub fn len(alloc: Global, cells: &[u64], record_: &[u8]) -> Result<TokSpec, Fault>
    ensures ok { IfOk result (λ spec. spec ≡ record { cells = cells.now; law = Law.Len; param = 0; generation = 0; blob = Some record_.now }) }
    ensures within { OnOk result (length record_.now ≤ RECORD_LIMIT) }
    ensures only { OnErr result ((result ≡ Err no_memory) ⊎ ((result ≡ Err Fault.Limits) × (RECORD_LIMIT < length record_.now))) }
{
    let token = token(alloc, cells, Law::Len, 0)?;
    guarding(token, record_)
}

/// The thread of this number, 0 to 15, at the processor `cpu`, 0 to 7. Whether a machine has it isn't asked.
pub fn thread(cpu: u8, number: u8) -> ThreadId
    ensures { result ≡ record { cpu = record { 0 = cpu }; thread = number } }
{
    ThreadId {
        cpu: CpuId(cpu),
        thread: number,
    }
}

/// A message that belongs to this thread, at rest in round 0.
pub fn message(origin: ThreadId) -> MsgSpec
    ensures { result ≡ record { round = 0; origin = origin } }
{
    MsgSpec { round: 0, origin }
}

/// A list of these, in order.
///
/// Refused if memory is; what was handed over is dropped then.
pub fn list<T: Drop, const N: usize>(alloc: Global, items: [T; N]) -> Result<Vec<T>, OutOfMemory>
    ensures { IfOk result (λ list. list.items ≡ items) }
{
    from_array(alloc, items)
}
