ghost use Rattle.std.specs.Prelude.{◌≡◌, ◌++◌, false, OnOk, string_bytes};
ghost use Rattle.lwkt_checker.specs.Said.{is_in, before_said, mode_said, are_idle, exclusive_said, shared_said, holders_said};

use lwkt_base::memory::{push_str, put};
use lwkt_base::{Held, Mode, OutOfMemory};
use lwkt_core::Token;

// Whether a holding is in a mode.
fn is_in(mode: Mode, held: Held) -> bool
    ensures { result ≡ is_in mode held }
{
    matches!(
        (mode, held),
        (Mode::Exclusive, Held::Holds(Mode::Exclusive, _))
            | (Mode::Shared, Held::Holds(Mode::Shared, _))
    )
}

// Appends what stands before a processor: some words before the first, a comma before each further one.
fn show_before(out: &mut String, words: &str, found: bool) -> Result<(), OutOfMemory>
    ensures { OnOk result (string_bytes out.new ≡ string_bytes out.old ++ before_said words.now found) }
{
    if found {
        push_str(out, ", ")
    } else {
        push_str(out, words)
    }
}

// Appends the processors that hold a token in a mode, behind some words.
fn show_mode(out: &mut String, holders: &[Held], mode: Mode, words: &str) -> Result<(), OutOfMemory>
    ensures { OnOk result (string_bytes out.new ≡ string_bytes out.old ++ mode_said mode words.now false 0 holders.now) }
{
    let mut found = false;
    for (cpu, held) in holders.iter().enumerate() {
        if is_in(mode, *held) {
            show_before(out, words, found)?;
            put(out, cpu)?;
            found = true;
        }
    }
    Ok(())
}

// Whether nobody holds anything.
fn are_idle(holders: &[Held]) -> bool
    ensures { result ≡ are_idle holders.now }
{
    holders.iter().all(|held| !held.is_held())
}

// Appends who holds a token exclusively.
#[tactic(auto, unfolding(crate::specs::Said::exclusive_said))]
fn show_exclusive(out: &mut String, holders: &[Held]) -> Result<(), OutOfMemory>
    ensures { OnOk result (string_bytes out.new ≡ string_bytes out.old ++ exclusive_said holders.now) }
{
    show_mode(out, holders, Mode::Exclusive, "held exclusively by ")
}

// Appends who holds a token shared.
#[tactic(auto, unfolding(crate::specs::Said::shared_said))]
fn show_shared(out: &mut String, holders: &[Held]) -> Result<(), OutOfMemory>
    ensures { OnOk result (string_bytes out.new ≡ string_bytes out.old ++ shared_said holders.now) }
{
    show_mode(out, holders, Mode::Shared, "held shared by ")
}

/// Appends who holds a token: `held shared by 0, 2`, or `held by nobody`.
pub fn show_holders(out: &mut String, token: &Token) -> Result<(), OutOfMemory>
    ensures { OnOk result (string_bytes out.new ≡ string_bytes out.old ++ holders_said token.now) }
{
    if are_idle(&token.holders) {
        return push_str(out, "held by nobody");
    }
    show_exclusive(out, &token.holders)?;
    show_shared(out, &token.holders)
}
