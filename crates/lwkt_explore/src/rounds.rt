//! The run in rounds, of which a text may say something.
ghost use Rattle.std.specs.Prelude.{◌≡◌, IfOk, IfErr};
ghost use Rattle.lwkt_explore.specs.Outcomes.{RefusesSearch};
ghost use Rattle.lwkt_explore.specs.Rounds.{is_of_rounds, asks_rounds, AreRounds, truth_in_rounds};

use crate::claims::truth_of;
use crate::judgements::is_unlawful;
use crate::truths::Truth;
use lwkt_base::Fault;
use lwkt_report::Closing;
use lwkt_run::close_turns;
use lwkt_script::Script;
use lwkt_text::claims::{Claim, Expectation, When};
use std::alloc::Global;

// Whether something is said of the run in rounds.
fn is_of_rounds(expectation: &Expectation) -> bool
    ensures { result ≡ is_of_rounds expectation.now }
{
    matches!(expectation.when, When::InRounds)
}

// Whether one of these is said of it.
fn asks_rounds(expectations: &[Expectation]) -> bool
    ensures { result ≡ asks_rounds expectations.now }
{
    expectations
        .iter()
        .any(|expectation| is_of_rounds(expectation))
}

/// The outcome of the run in rounds, if a text says something of it.
///
/// Refused as a search of the script is.
#[tactic(auto, using(crate::proofs::RefusalLemmas::refused_run))]
pub fn rounds_of(
    alloc: Global,
    script: &Script,
    expectations: &[Expectation],
) -> Result<Option<Closing>, Fault>
    ensures made { IfOk result (AreRounds script.now expectations.now) }
    ensures refused { IfErr result (RefusesSearch script.now) }
{
    if asks_rounds(expectations) {
        Ok(Some(close_turns(alloc, script)?))
    } else {
        Ok(None)
    }
}

/// Whether a claim is so of the run in rounds: `Open` if that wasn't made, or wasn't lawful.
pub(crate) fn truth_in_rounds(rounds: &Option<Closing>, claim: &Claim) -> Truth
    ensures { result ≡ truth_in_rounds rounds.now claim.now }
{
    match rounds {
        Some(closing) if !is_unlawful(closing.verdict) => truth_of(closing, claim),
        _ => Truth::Open,
    }
}
