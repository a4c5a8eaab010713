//! Whether the sections that stretches stand for are chains.
ghost use Rattle.std.specs.Prelude.{◌≡◌, List, IsTrue, IfOk};
ghost use Rattle.lwkt_base.specs.declared.sections.Section.{Section};
ghost use Rattle.lwkt_core.specs.SectionChain.{AreSectionChains};
ghost use Rattle.lwkt_drive.specs.Stretches.{Follows, Lead, StandFor};

use crate::stretches::Stretch;
use lwkt_base::memory::from_slice;
use lwkt_base::{OutOfMemory, Row, Rows};
use std::alloc::Global;

// Whether a stretch goes on with its token's chain, where the chains have come to these rows and generations.
#[inline(always)]
fn follows(rows: &[(Row, u64)], stretch: &Stretch) -> bool
    ensures { IsTrue result → Follows rows.now stretch.now }
{
    let tok = usize::from(stretch.tok.0);
    if tok >= rows.len() {
        return false;
    }
    let (row, generation) = rows[tok];
    row.as_slice() == stretch.before.as_slice() && generation == stretch.first
}

// Goes on with the chains of tokens by stretches, one after another. False if one of them doesn't go on with its token's chain.
fn lead(rows: &mut Vec<(Row, u64)>, stretches: &[Stretch]) -> bool
    ensures { IsTrue result → Lead rows.old.items stretches.now rows.new.items }
{
    for stretch in stretches {
        let Some(next) = stretch.last.checked_add(1) else {
            return false;
        };
        if !follows(rows, stretch) {
            return false;
        }
        rows[usize::from(stretch.tok.0)] = (stretch.after, next);
    }
    true
}

// Whether a token has come to this row and generation.
fn is_at(reached: &(Row, u64), closing: &(Row, u64)) -> bool
    ensures { IsTrue result → reached.now ≡ closing.now }
{
    reached.0.as_slice() == closing.0.as_slice() && reached.1 == closing.1
}

// Whether tokens have come to these rows and generations.
fn have_come(rows: &[(Row, u64)], last: &[(Row, u64)]) -> bool
    ensures { IsTrue result → rows.now ≡ last.now }
{
    if rows.len() != last.len() {
        return false;
    }
    for (i, reached) in rows.iter().enumerate() {
        if !is_at(reached, &last[i]) {
            return false;
        }
    }
    true
}

/// Whether the sections that stretches stand for are, by token, one chain of generations from its row in `first` to its row in `last`.
/// It is true only if they are.
///
/// `OutOfMemory` if memory is refused.
pub fn are_chains(
    alloc: Global,
    first: &Rows,
    last: &Rows,
    stretches: Vec<Stretch>,
) -> Result<bool, OutOfMemory>
    ensures { IfOk result (λ yes. IsTrue yes → (sections : List Section) → StandFor stretches.items sections → AreSectionChains first.now last.now sections) }
{
    let mut stretches = stretches;
    stretches.sort_unstable_by_key(|stretch| (stretch.tok.0, stretch.first));
    let mut rows = from_slice(alloc, first.as_slice())?;
    Ok(lead(&mut rows, &stretches) && have_come(&rows, last.as_slice()))
}
