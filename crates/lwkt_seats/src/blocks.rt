//! All that a seat holds given up.
ghost use Rattle.std.specs.Prelude.{◌≡◌, ◌≢◌, ◌<◌, ℕ, true, false};
ghost use Rattle.lwkt_base.specs.declared.laws.Law.TheVariants.{Tally};
ghost use Rattle.lwkt_base.specs.Holding.{is_held, removed};
ghost use Rattle.lwkt_bank.specs.Seats.{id_of, bank_of, tokens_of, plan_of, entry, holding};
ghost use Rattle.lwkt_seats.specs.Asks.{ObeysItsLaw};
ghost use Rattle.lwkt_seats.specs.Cells.{IsMine};
ghost use Rattle.lwkt_seats.specs.Lists.{EndsRestored, EndsOne, EndsEach, BreaksLaw, BlocksSeat, first_restored};
ghost use Rattle.lwkt_seats.specs.Brief.{KeepsBankAndCpu};

use crate::answers::GaveBack;
use crate::asks::{give, references_of};
use lwkt_bank::{Bank, CpuSeat};
use lwkt_base::{Held, Mode, TokId};

// Ends a section that has broken its law, with its first row and record.
fn end_restored(seat: &mut CpuSeat, bank: &Bank, tok: TokId)
    requires of { bank_of seat.old ≡ id_of bank.now }
    requires there { tok.0 < tokens_of (bank_of seat.old) }
    requires last { holding seat.old tok.0 ≡ Held.Holds Mode.Exclusive 0 }
    requires untallied { (plan_of (bank_of seat.old) tok.0).law ≢ Tally }
    ensures does { EndsRestored tok.0 seat.old seat.new }
    ensures given { holding seat.new ≡ removed (holding seat.old) tok.0 }
    ensures others { (other : ℕ) → other ≢ tok.0 → entry seat.new other ≡ entry seat.old other }
    ensures same { KeepsBankAndCpu seat.old seat.new }
{
    seat.restore(bank, tok);
    seat.give(bank, tok);
}

// Gives a reference back, and says whether row and record were restored before.
fn end_one(seat: &mut CpuSeat, bank: &Bank, tok: TokId) -> bool
    requires of { bank_of seat.old ≡ id_of bank.now }
    requires there { tok.0 < tokens_of (bank_of seat.old) }
    requires held { is_held (holding seat.old tok.0) ≡ true }
    ensures does { EndsOne tok.0 seat.old seat.new result }
    ensures given { holding seat.new ≡ removed (holding seat.old) tok.0 }
    ensures others { (other : ℕ) → other ≢ tok.0 → entry seat.new other ≡ entry seat.old other }
    ensures same { KeepsBankAndCpu seat.old seat.new }
{
    match give(seat, bank, tok.0 as u32) {
        GaveBack::Given => false,
        GaveBack::Broken => {
            end_restored(seat, bank, tok);
            true
        }
        // The last two don't come: the token is there, and is held.
        GaveBack::NoToken => false,
        GaveBack::NotHeld => false,
    }
}

// The first token that was restored so far, if any was, after one token more.
fn first_restored(first: Option<TokId>, restored: bool, tok: TokId) -> Option<TokId>
    ensures { result ≡ first_restored first restored tok }
{
    match first {
        Some(first) => Some(first),
        None if restored => Some(tok),
        None => None,
    }
}

// Gives all references to a token back, and says whether row and record were restored before the last.
fn give_up(seat: &mut CpuSeat, bank: &Bank, tok: TokId) -> bool
    requires of { bank_of seat.old ≡ id_of bank.now }
    requires there { tok.0 < tokens_of (bank_of seat.old) }
    ensures does { EndsEach seat.old seat.new }
    ensures broken { result ≡ true → BreaksLaw seat.old tok.0 }
    ensures lawful { result ≡ false → IsMine seat.old tok.0 → ObeysItsLaw seat.old tok.0 }
    ensures gone { holding seat.new tok.0 ≡ Held.Nothing }
    ensures others { (other : ℕ) → other ≢ tok.0 → entry seat.new other ≡ entry seat.old other }
    ensures same { KeepsBankAndCpu seat.old seat.new }
{
    let mut restored = false;
    for _given in 0..references_of(seat, bank, tok) {
        restored = end_one(seat, bank, tok);
    }
    restored
}

/// Gives up all that the seat holds, token by token. The first one whose row and record broke its law is named: they were restored.
pub(crate) fn block(seat: &mut CpuSeat, bank: &Bank) -> Option<TokId>
    requires of { bank_of seat.old ≡ id_of bank.now }
    ensures does { BlocksSeat seat.old seat.new result }
    ensures same { KeepsBankAndCpu seat.old seat.new }
{
    // What is said of it: a seat holds no token that its bank doesn't have.
    let _ = seat.cpu();
    let mut first = None;
    for tok in 0..bank.tokens() {
        let restored = give_up(seat, bank, TokId(tok as u8));
        first = first_restored(first, restored, TokId(tok as u8));
    }
    first
}
