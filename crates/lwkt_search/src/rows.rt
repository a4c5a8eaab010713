//! Rows: where the turns of the processors lead from the state that a search goes on from.
ghost use Rattle.std.specs.Prelude.{◌≡◌, ◌≢◌, ◌↔◌, ◌<◌, ◌⊎◌, All, IsTrue, IfOk, replicate, slice_set, length};
ghost use Rattle.lwkt_search.specs.Rows.{IsAmong};

use lwkt_base::OutOfMemory;
use lwkt_base::memory::push;

/// Where the turn of a processor leads that wasn't tried.
pub(crate) const UNTRIED: u32 = u32::MAX;

/// Where a last state leads on: nowhere.
pub const LAST: u32 = u32::MAX;

/// Whether a set of processors has one.
pub(crate) fn has(set: u8, cpu: u8) -> bool {
    cpu < 8 && (set >> cpu) & 1 == 1
}

/// Begins a row: no turn was tried.
pub(crate) fn begin(row: &mut Vec<u32>, cpus: u8) -> Result<(), OutOfMemory>
    ensures { IfOk result (λ done. row.new.items ≡ replicate cpus UNTRIED) }
{
    row.clear();
    for _cpu in 0..cpus {
        push(row, UNTRIED)?;
    }
    Ok(())
}

/// Writes where the turn of a processor leads.
pub(crate) fn put(row: &mut Vec<u32>, cpu: usize, place: u32)
    requires { cpu < length row.old.items }
    ensures { row.new.items ≡ slice_set row.old.items cpu place }
{
    row[cpu] = place;
}

// Whether each turn was tried.
fn all_tried(row: &[u32]) -> bool
    ensures { IsTrue result ↔ All (λ n. n ≢ UNTRIED) row.now }
{
    row.iter().all(|n| *n != UNTRIED)
}

/// Whether a search is whole after the turns of a row: if it was before, and each of these was tried.
pub(crate) fn stays_whole(is_whole: bool, row: &[u32]) -> bool
    ensures whole { IsTrue result → IsTrue is_whole }
    ensures tried { IsTrue result → All (λ n. n ≢ UNTRIED) row.now }
{
    is_whole && all_tried(row)
}

/// How many turns were tried.
pub(crate) fn tried_in(row: &[u32]) -> u64 {
    row.iter().filter(|n| **n != UNTRIED).count() as u64
}

/// Whether each turn was tried, and leads back to the state.
pub(crate) fn is_still(row: &[u32], at: usize) -> bool
    ensures { IsTrue result ↔ All (λ n. n ≡ at) row.now }
{
    row.iter().all(|n| *n as usize == at)
}

// The later one of two places, of which the second one may be `UNTRIED`.
fn later(far: u32, next: u32) -> u32
    requires { far < UNTRIED }
    ensures few { result < UNTRIED }
    ensures one { (result ≡ far) ⊎ (result ≡ next) }
{
    if next != UNTRIED && next > far {
        return next;
    }
    far
}

/// The last one of the places that turns lead to that were tried, if it is behind the state's own, and else that.
pub(crate) fn furthest(row: &[u32], at: u32) -> u32
    requires { at < UNTRIED }
    ensures few { result < UNTRIED }
    ensures among { IsAmong row.now at result }
{
    let mut far = at;
    for cpu in 0..row.len() {
        let next = row[cpu];
        far = later(far, next);
    }
    far
}
