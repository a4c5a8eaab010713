//! The exit status of what was found.
ghost use Rattle.std.specs.Prelude.{◌≡◌, is_some};
ghost use Rattle.std.specs.List.{list_any};
ghost use Rattle.lwkt_explore.specs.Statuses.{is_stuck, status_of_found};

use crate::outcomes::{Kind, Outcome, Outcomes};
use crate::searches::Found;

// Whether an outcome is stuck.
fn is_stuck(outcome: &Outcome) -> bool
    ensures { result ≡ is_stuck outcome.now }
{
    matches!(outcome.kind, Kind::Stuck)
}

// Whether some outcome is stuck.
fn has_stuck(outcomes: &Outcomes) -> bool
    ensures { result ≡ list_any is_stuck outcomes.now.all.items }
{
    outcomes.all.iter().any(|outcome| is_stuck(outcome))
}

/// The exit status of what was found in a script: 4 if the real machine differs from its plain machine; 5 if not every order was tried; else 2 if an outcome is stuck, or there is a
/// state from which no end can be reached; else 0.
pub fn status_of_found(found: &Found) -> u8
    ensures { result ≡ status_of_found found.now }
{
    if found.differs() {
        return 4;
    }
    if !found.is_complete() {
        return 5;
    }
    if found.lost.is_some() || has_stuck(&found.outcomes) {
        2
    } else {
        0
    }
}
