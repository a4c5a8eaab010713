ghost use Rattle.std.specs.Prelude.{◌≡◌, ◌<◌, ◌≤◌, ◌↔◌, ℕ, length, take, IsTrue, OnOk, IfErr, IfSome, slice_get, slice_set};
ghost use Rattle.lwkt_core.specs.SectionChain.{generation_at, AreInOrder, AreSectionChains, GoOn, rows_after_all, SectionsFailAt, IsUpTo, SectionFailureRefutes, SectionFailureIsOnly};

use lwkt_base::{Fault, Row, Rows, Section};

// What the chain of one token has come to: its row and generation, and the index of the next section.
#[derive(Clone, Copy)]
struct Reached {
    row: Row,
    generation: u64,
    index: usize,
}

// Whether the section goes on with the chain of a token that has come to this row and generation, below its closing one.
fn goes_on(section: &Section, tok: usize, reached: &Reached, closing: u64) -> bool
    ensures { IsTrue result ↔ ((section.now.tok.0 ≡ tok) × (section.now.before ≡ reached.now.row) × (section.now.generation ≡ reached.now.generation) × (section.now.generation < closing)) }
{
    section.tok.0 as usize == tok
        && section.before.as_slice() == reached.row.as_slice()
        && section.generation == reached.generation
        && section.generation < closing
}

// Goes through the sections from an index on, as long as they go on with the chain of a token.
fn follow(
    first: &[(Row, u64)],
    last: &[(Row, u64)],
    sections: &[Section],
    tok: usize,
    from: usize,
) -> Reached
    requires known { tok < length first.now }
    requires as_many { length first.now ≡ length last.now }
    requires come { IsUpTo first.now last.now sections.now tok from }
    ensures within { result.index ≤ length sections.now }
    ensures gone { GoOn last.now first.now (take result.index sections.now) }
    ensures moved { rows_after_all first.now (take result.index sections.now) ≡ slice_set (rows_after_all first.now (take from sections.now)) tok (result.row, result.generation) }
    ensures stops { IfSome (slice_get sections.now result.index) (λ s. ¬ ((s.tok.0 ≡ tok) × (s.before ≡ result.row) × (s.generation ≡ result.generation) × (s.generation < generation_at last.now tok))) }
{
    let (opening, generation) = first[tok];
    let (_, closing) = last[tok];
    let mut reached = Reached {
        row: opening,
        generation,
        index: from,
    };
    for i in from..sections.len() {
        let section = sections[i];
        if !goes_on(&section, tok, &reached, closing) {
            return reached;
        }
        reached = Reached {
            row: section.after,
            generation: section.generation + 1,
            index: i + 1,
        };
    }
    reached
}

// Whether the chain has come to these values.
fn is_at(reached: &Reached, closing: &(Row, u64)) -> bool
    ensures { IsTrue result ↔ ((reached.now.row, reached.now.generation) ≡ closing.now) }
{
    reached.row.as_slice() == closing.0.as_slice() && reached.generation == closing.1
}

// Goes through the chains of all tokens, one after another.
fn follow_all(first: &[(Row, u64)], last: &[(Row, u64)], sections: &[Section]) -> Result<(), usize>
    requires { length first.now ≡ length last.now }
    ensures chained { OnOk result (AreInOrder sections.now × AreSectionChains first.now last.now sections.now) }
    ensures failed { IfErr result (λ index. SectionsFailAt first.now last.now sections.now index) }
{
    let mut index = 0;
    let mut settled = true;
    for (tok, closing) in last.iter().enumerate() {
        let reached = follow(first, last, sections, tok, index);
        index = reached.index;
        if reached.generation < closing.1 {
            return Err(index);
        }
        if !is_at(&reached, closing) {
            settled = false;
        }
    }
    if index < sections.len() || !settled {
        return Err(index);
    }
    Ok(())
}

/// Whether the sections, ordered by token and then by generation, are for each token one chain of generations from its row
/// in `first` to its row in `last`. It takes no memory.
///
/// If not, `Unlawful` with the index of the first section that doesn't go on with its token's chain (one whose generation
/// isn't below its token's in `last` doesn't) or that begins a later token too early, or with the number of sections if only
/// the last values differ.
pub fn check_sections(first: &Rows, last: &Rows, sections: &[Section]) -> Result<(), Fault>
    requires { length first.now ≡ length last.now }
    ensures chained { OnOk result (AreInOrder sections.now × AreSectionChains first.now last.now sections.now) }
    ensures refused { IfErr result (λ f. (index : ℕ) × ((f ≡ Fault.Unlawful index) × SectionsFailAt first.now last.now sections.now index)) }
{
    match follow_all(first.as_slice(), last.as_slice(), sections) {
        Ok(()) => Ok(()),
        Err(index) => Err(Fault::Unlawful { index }),
    }
}

/// The theorem that an index at which sections fail shows that they are not chains in order.
pub fn section_failure_refutes()
    ensures { SectionFailureRefutes }
{}

/// The theorem that sections fail at one index only.
pub fn section_failure_is_only()
    ensures { SectionFailureIsOnly }
{}
