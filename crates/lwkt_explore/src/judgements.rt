//! What a run came to by its expectations.
ghost use Rattle.std.specs.Prelude.{◌≡◌};
ghost use Rattle.std.specs.List.{list_any};
ghost use Rattle.lwkt_explore.specs.Judgements.{is_unlawful, is_unmet, is_open, judgement_of, status_of_judgement};

use crate::claims::all_ended;
use crate::judging::truth_in_run;
use crate::truths::Truth;
use lwkt_report::{Closing, Verdict};
use lwkt_run::Mode;
use lwkt_text::claims::Expectation;

/// What a run came to, by its outcome and by what the text of its script says of that.
#[derive(Clone, Copy, PartialEq, Eq)]
pub enum Judgement {
    /// All that is said of the outcome is so; of a script of which nothing is said every thread has ended.
    Met,
    /// Nothing is said of the outcome, and some thread hadn't ended.
    TurnsOut,
    /// The run was not lawful.
    Unlawful,
    /// Something that is said of the outcome isn't so.
    Unmet,
    /// Nothing that is said of the outcome isn't so, and of something the report doesn't tell.
    NotDecided,
}

impl Judgement {
    /// The exit status of a program that ran the script.
    pub fn status(self) -> u8
        ensures { result ≡ status_of_judgement self }
    {
        match self {
            Judgement::Met => 0,
            Judgement::TurnsOut => 2,
            Judgement::Unlawful => 4,
            Judgement::Unmet | Judgement::NotDecided => 5,
        }
    }
}

/// Whether a verdict is that a run was not lawful.
pub(crate) fn is_unlawful(verdict: Verdict) -> bool
    ensures { result ≡ is_unlawful verdict }
{
    matches!(verdict, Verdict::Unlawful { .. })
}

// Whether an expectation isn't so of a run.
fn is_unmet(expectation: &Expectation, mode: Mode, outcome: &Closing) -> bool
    ensures { result ≡ is_unmet mode outcome.now expectation.now }
{
    matches!(truth_in_run(expectation, mode, outcome), Truth::No)
}

// Whether a run's report doesn't tell whether an expectation is so.
fn is_open(expectation: &Expectation, mode: Mode, outcome: &Closing) -> bool
    ensures { result ≡ is_open mode outcome.now expectation.now }
{
    matches!(truth_in_run(expectation, mode, outcome), Truth::Open)
}

// Whether something that is said of an outcome isn't so.
fn any_unmet(expectations: &[Expectation], mode: Mode, outcome: &Closing) -> bool
    ensures { result ≡ list_any (is_unmet mode outcome.now) expectations.now }
{
    expectations
        .iter()
        .any(|expectation| is_unmet(expectation, mode, outcome))
}

// Whether something that is said of an outcome is open.
fn any_open(expectations: &[Expectation], mode: Mode, outcome: &Closing) -> bool
    ensures { result ≡ list_any (is_open mode outcome.now) expectations.now }
{
    expectations
        .iter()
        .any(|expectation| is_open(expectation, mode, outcome))
}

/// What a run, driven so, with this one outcome came to.
pub fn judgement_of(expectations: &[Expectation], mode: Mode, outcome: &Closing) -> Judgement
    ensures { result ≡ judgement_of expectations.now mode outcome.now }
{
    if is_unlawful(outcome.verdict) {
        return Judgement::Unlawful;
    }
    if any_unmet(expectations, mode, outcome) {
        return Judgement::Unmet;
    }
    if any_open(expectations, mode, outcome) {
        return Judgement::NotDecided;
    }
    if expectations.is_empty() && !all_ended(outcome) {
        return Judgement::TurnsOut;
    }
    Judgement::Met
}
