ghost use Rattle.std.specs.Prelude.{◌≡◌, ◌<◌, ◌≤◌, Ok, Err, IfOk, IfErr};
ghost use Rattle.lwkt_script.specs.Limits.{IsWithinLimits};
ghost use Rattle.lwkt_text.specs.Within.{IsDraft};
ghost use Rattle.lwkt_text.specs.Absence.{NamesWhatIsThere};
ghost use Rattle.lwkt_text.specs.Reading.{drafted, claims_checked, sealed, reading_of, reading_spread, reading_of_sentences};
ghost use Rattle.lwkt_text.specs.Refusing.{IsRefusalOf};

use crate::absences::absences;
use crate::claims::Expectation;
use crate::drafts::{Draft, draft_of};
use crate::expansions::{Spread, spread_of};
use crate::listings::{Listing, listing_of};
use crate::many::Many;
use crate::scans::sentences_of;
use crate::tables::Names;
use crate::words::Sentence;
use crate::wrongs::Wrong;
use lwkt_base::OutOfMemory;
use lwkt_base::limits::CPU_LIMIT;
use lwkt_script::{Script, Series};
use std::alloc::Global;

/// A text, read.
#[derive(Drop)]
pub struct Reading {
    /// The script that the text means.
    pub script: Script,
    /// The names that the text gives.
    pub names: Names,
    /// What the text says of the outcomes of its script.
    pub expectations: Many<Expectation>,
}

/// Why a text isn't read.
#[derive(Drop)]
pub enum Refusal {
    /// Memory was refused.
    Memory(OutOfMemory),
    /// All that is wrong with it: first with its names, then with its sentences, each in their order; and where that is nothing, with
    /// what its claims name. There is some.
    Wrongs(Many<Wrong>),
}

impl From<OutOfMemory> for Refusal {
    ghost use Rattle.lwkt_text.specs.declared.readers.Refusal.TheVariants.{Memory};

    ghost from_gives = { λ refused refusal. refusal ≡ Memory refused };

    fn from(refused: OutOfMemory) -> Refusal {
        Refusal::Memory(refused)
    }
}

// All that was said.
fn drafted(names: Names, draft: Draft) -> Reading
    ensures exact { result ≡ drafted names draft }
    ensures limits { IsDraft names.cpus draft → 1 ≤ names.cpus → names.cpus ≤ CPU_LIMIT → IsWithinLimits result.script }
{
    let script = Script {
        turns: draft.turns,
        idle: draft.idle,
        cpus: names.cpus,
        tokens: Series::from_vec(draft.tokens.into_vec()),
        messages: Series::from_vec(draft.messages.into_vec()),
        threads: Series::from_vec(draft.threads.into_vec()),
    };
    Reading {
        script,
        names,
        expectations: draft.expectations,
    }
}

// Refuses what was read where a claim of it names what isn't there.
fn claims_looked_at(alloc: Global, reading: &Reading) -> Result<(), Refusal>
    ensures ok { IfOk result (λ _. claims_checked reading.now ≡ Ok reading.now) }
    ensures there { IfOk result (λ _. NamesWhatIsThere reading.now.script reading.now.expectations) }
    ensures err { IfErr result (λ refusal. IsRefusalOf refusal (claims_checked reading.now)) }
{
    let wrongs = absences(alloc, &reading.script, reading.expectations.as_slice())?;
    if wrongs.len() == 0 {
        Ok(())
    } else {
        Err(Refusal::Wrongs(wrongs))
    }
}

// What was read, if each of its claims names what is there.
fn claims_checked(alloc: Global, reading: Reading) -> Result<Reading, Refusal>
    ensures ok { IfOk result (λ checked. claims_checked reading ≡ Ok checked) }
    ensures same { IfOk result (λ checked. checked ≡ reading) }
    ensures there { IfOk result (λ checked. NamesWhatIsThere checked.script checked.expectations) }
    ensures err { IfErr result (λ refusal. IsRefusalOf refusal (claims_checked reading)) }
{
    match claims_looked_at(alloc, &reading) {
        Ok(()) => Ok(reading),
        Err(refusal) => Err(refusal),
    }
}

// What was said, if nothing of it is wrong.
fn sealed(alloc: Global, names: Names, draft: Draft) -> Result<Reading, Refusal>
    ensures ok { IfOk result (λ reading. sealed names draft ≡ Ok reading) }
    ensures err { IfErr result (λ refusal. IsRefusalOf refusal (sealed names draft)) }
    ensures there { IfOk result (λ reading. NamesWhatIsThere reading.script reading.expectations) }
    ensures limits { IsDraft names.cpus draft → 1 ≤ names.cpus → names.cpus ≤ CPU_LIMIT → IfOk result (λ reading. IsWithinLimits reading.script) }
{
    if draft.faults.len() != 0 {
        return Err(Refusal::Wrongs(draft.faults));
    }
    claims_checked(alloc, drafted(names, draft))
}

// Reads what the sentences of a text stand for.
pub(crate) fn read_spread(alloc: Global, spread: Spread) -> Result<Reading, Refusal>
    ensures ok { IfOk result (λ reading. reading_spread spread ≡ Ok reading) }
    ensures limits { IfOk result (λ reading. IsWithinLimits reading.script) }
    ensures there { IfOk result (λ reading. NamesWhatIsThere reading.script reading.expectations) }
    ensures err { IfErr result (λ refusal. IsRefusalOf refusal (reading_spread spread)) }
{
    let Spread {
        names: _,
        values: _,
        rounds: _,
        sentences,
        faults: before,
    } = spread;
    let Listing {
        names,
        is_said: _,
        faults,
    } = listing_of(alloc, sentences.as_slice(), before)?;
    let draft = draft_of(alloc, &names, sentences.as_slice(), faults)?;
    sealed(alloc, names, draft)
}

// Reads the sentences of a text.
pub(crate) fn read_sentences(alloc: Global, sentences: &[Sentence]) -> Result<Reading, Refusal>
    ensures ok { IfOk result (λ reading. reading_of_sentences sentences.now ≡ Ok reading) }
    ensures limits { IfOk result (λ reading. IsWithinLimits reading.script) }
    ensures there { IfOk result (λ reading. NamesWhatIsThere reading.script reading.expectations) }
    ensures err { IfErr result (λ refusal. IsRefusalOf refusal (reading_of_sentences sentences.now)) }
{
    let spread = spread_of(alloc, sentences)?;
    read_spread(alloc, spread)
}

/// Reads a text: the script that it is, its names, and what it says of outcomes.
///
/// Refused with all that is wrong with it, each with its place, and with `Memory` only where an allocation was refused.
#[tactic(auto, unfolding(crate::specs::Reading::reading_of))]
pub fn read_text(alloc: Global, bytes: &[u8]) -> Result<Reading, Refusal>
    // What the bytes are.
    ensures ok { IfOk result (λ reading. reading_of bytes.now ≡ Ok reading) }

    // Each script that is read keeps the limits of the format.
    ensures limits { IfOk result (λ reading. IsWithinLimits reading.script) }

    // Each claim names only what its script has.
    ensures there { IfOk result (λ reading. NamesWhatIsThere reading.script reading.expectations) }

    // All that is wrong with them, and that is something.
    ensures err { IfErr result (λ refusal. IsRefusalOf refusal (reading_of bytes.now)) }
{
    let sentences = sentences_of(alloc, bytes)?;
    read_sentences(alloc, sentences.as_slice())
}
