//! A bank freed, and a seat given up that was lost, for C; include/lwkt.h declares them.
ghost use Rattle.std.specs.Prelude.{◌≡◌, ◌≢◌, ◌⊎◌, None, MatchOption};
ghost use Rattle.lwkt_seats.specs.Desks.{IsAbandonAnswer};

use crate::desks::CLOSED;
use crate::handles::{LwktBank, LwktHeld, hold, let_go, no_bank};
use crate::raw_boxes::RawBox;
use std::alloc::Global;
use std::mem;

/// What is answered where a bank can't be freed yet.
pub const OPEN: u32 = 56;

// Puts a handle in the place of a bank of zeros.
fn keep(alloc: Global, bank: &mut LwktHeld, held: LwktHeld)
    requires { bank.old.desk ≡ None }
    ensures { bank.new ≡ held }
{
    if let Some(parts) = let_go(alloc, mem::replace(bank, held)) {
        drop(parts.into_box());
    }
}

/// Frees what is left of a bank that is closed, or of which a seat was given up as lost. The handle is a bank of zeros then.
///
/// 0; or 52 for a bank of zeros; or 56 where the bank is open, and no seat of it was given up: it stays as it is.
#[unsafe(no_mangle)]
pub extern "C" fn lwkt_bank_free(alloc: Global, bank: &mut LwktHeld) -> u32
    ensures zeros { bank.old.desk ≡ None → result ≡ 52 }
    ensures freed { result ≡ 0 → bank.new.desk ≡ None }
    ensures kept { result ≢ 0 → bank.new.desk ≡ bank.old.desk }
    ensures only { (result ≡ 0) ⊎ ((result ≡ 52) ⊎ (result ≡ 56)) }
{
    let Some(parts) = let_go(alloc, mem::replace(bank, no_bank())) else {
        return CLOSED;
    };
    let desk = parts.into_box();
    if desk.is_over() {
        return 0;
    }
    keep(alloc, bank, hold(RawBox::of(desk)));
    OPEN
}

/// Gives up a seat whose call never came back, as after a `longjmp` out of it. Each later call on it answers 54.
///
/// 0; or 30 where there is no seat of this number, 52 where the bank is closed, 54 where the seat was given up before, 55 where it rests
/// in its place, so that it isn't lost.
#[unsafe(no_mangle)]
pub extern "C" fn lwkt_abandon(bank: LwktBank, seat: u32) -> u32
    ensures { MatchOption bank.desk (result ≡ 52) (λ desk. IsAbandonAnswer desk seat result) }
{
    match bank.desk() {
        Some(desk) => desk.abandon(seat),
        None => CLOSED,
    }
}
