//! References asked for, marked and given back.
ghost use Rattle.std.specs.Prelude.{◌≡◌, ℕ, ◌+◌, ◌-◌, ◌*◌, ◌<◌, ◌≤◌, true, false};
ghost use Rattle.lwkt_base.specs.Holding.{references_in};
ghost use Rattle.lwkt_bank.specs.Seats.{id_of, bank_of, tokens_of, holding, references};
ghost use Rattle.lwkt_seats.specs.Asks.{is_upgrade, has_no_reference, AsksFor, Furthers, MarksToken, GivesToken};
ghost use Rattle.lwkt_seats.specs.Brief.{KeepsBankAndCpu};

use crate::answers::{Asked, Furthered, GaveBack, Marked};
use lwkt_bank::{Bank, CpuSeat, Try};
use lwkt_base::limits::LIST_LIMIT;
use lwkt_base::{Held, Mode, TokId};

/// How many references the seat has to a token.
pub(crate) fn references_of(seat: &CpuSeat, bank: &Bank, tok: TokId) -> usize
    requires of { bank_of seat.now ≡ id_of bank.now }
    requires there { tok.0 < tokens_of (bank_of seat.now) }
    ensures is { result ≡ references_in (holding seat.now tok.0) }
    ensures few { result ≤ 256 }
{
    match seat.held(bank, tok) {
        Held::Nothing => 0,
        Held::Holds(_, further) => further as usize + 1,
    }
}

/// How many references the seat has.
pub(crate) fn count(seat: &CpuSeat, bank: &Bank) -> usize
    requires of { bank_of seat.now ≡ id_of bank.now }
    ensures { result ≡ references seat.now }
{
    let mut sum = 0;
    let tokens = bank.tokens();
    for done in 0..tokens {
        sum += references_of(seat, bank, TokId((tokens - 1 - done) as u8));
    }
    sum
}

// Whether an exclusive reference is asked for under a shared one.
fn is_upgrade(mode: Mode, held: Held) -> bool
    ensures { result ≡ is_upgrade mode held }
{
    matches!(
        (mode, held),
        (Mode::Exclusive, Held::Holds(Mode::Shared, _))
    )
}

// Asks for a first reference.
#[inline(always)]
fn take_first(seat: &mut CpuSeat, bank: &Bank, tok: TokId, mode: Mode, alone: bool) -> Asked
    requires of { bank_of seat.old ≡ id_of bank.now }
    requires there { tok.0 < tokens_of (bank_of seat.old) }
    requires few { references seat.old < LIST_LIMIT }
    requires free { holding seat.old tok.0 ≡ Held.Nothing }
    requires alone { alone ≡ has_no_reference seat.old }
    ensures does { AsksFor mode tok.0 seat.old seat.new result }
    ensures same { KeepsBankAndCpu seat.old seat.new }
{
    match seat.try_take(bank, tok, mode, alone) {
        Try::Got { .. } => Asked::Taken,
        Try::Busy { .. } => Asked::Busy,
        Try::Again => Asked::Again,
        Try::Worn => Asked::Worn,
    }
}

/// Asks for a reference in this mode: a first one, or a further one where the seat holds the token.
#[inline(always)]
pub(crate) fn ask(seat: &mut CpuSeat, bank: &Bank, count: usize, token: u32, mode: Mode) -> Asked
    requires of { bank_of seat.old ≡ id_of bank.now }
    requires count { count ≡ references seat.old }
    ensures does { AsksFor mode token seat.old seat.new result }
    ensures same { KeepsBankAndCpu seat.old seat.new }
{
    if token as usize >= bank.tokens() {
        return Asked::NoToken;
    }
    let tok = TokId(token as u8);
    if count >= 32 {
        return Asked::ListFull;
    }
    let held = seat.held(bank, tok);
    if !held.is_held() {
        return take_first(seat, bank, tok, mode, count == 0);
    }
    if is_upgrade(mode, held) {
        return Asked::Upgrade;
    }
    seat.again(bank, tok);
    Asked::Further
}

/// One reference more of a token that the seat holds.
pub(crate) fn further(seat: &mut CpuSeat, bank: &Bank, count: usize, token: u32) -> Furthered
    requires of { bank_of seat.old ≡ id_of bank.now }
    requires count { count ≡ references seat.old }
    ensures does { Furthers token seat.old seat.new result }
    ensures same { KeepsBankAndCpu seat.old seat.new }
{
    if token as usize >= bank.tokens() {
        return Furthered::NoToken;
    }
    let tok = TokId(token as u8);
    if !seat.held(bank, tok).is_held() {
        return Furthered::NotHeld;
    }
    if count >= 32 {
        return Furthered::ListFull;
    }
    seat.again(bank, tok);
    Furthered::Further
}

/// Marks a token for an exclusive request.
pub(crate) fn mark(seat: &mut CpuSeat, bank: &Bank, token: u32) -> Marked
    requires of { bank_of seat.old ≡ id_of bank.now }
    ensures does { MarksToken token seat.old seat.new result }
    ensures same { KeepsBankAndCpu seat.old seat.new }
{
    if token as usize >= bank.tokens() {
        return Marked::NoToken;
    }
    seat.mark(bank, TokId(token as u8));
    Marked::Set
}

// Whether this is one exclusive reference, which ends its section when it is given back.
fn ends_section(held: Held) -> bool
    ensures yes { result ≡ true → held ≡ Held.Holds Mode.Exclusive 0 }
    ensures no { result ≡ false → held ≡ Held.Holds Mode.Exclusive 0 → ⊥ }
{
    matches!(held, Held::Holds(Mode::Exclusive, 0))
}

// Ends a section that obeys its law.
#[inline(always)]
fn end(seat: &mut CpuSeat, bank: &Bank, tok: TokId) -> GaveBack
    requires of { bank_of seat.old ≡ id_of bank.now }
    requires there { tok.0 < tokens_of (bank_of seat.old) }
    requires last { holding seat.old tok.0 ≡ Held.Holds Mode.Exclusive 0 }
    ensures does { GivesToken tok.0 seat.old seat.new result }
    ensures same { KeepsBankAndCpu seat.old seat.new }
{
    if !seat.lawful(bank, tok) {
        return GaveBack::Broken;
    }
    seat.give(bank, tok);
    GaveBack::Given
}

/// Gives a reference back. A section that would end and has broken its law goes on.
#[inline(always)]
pub(crate) fn give(seat: &mut CpuSeat, bank: &Bank, token: u32) -> GaveBack
    requires of { bank_of seat.old ≡ id_of bank.now }
    ensures does { GivesToken token seat.old seat.new result }
    ensures same { KeepsBankAndCpu seat.old seat.new }
{
    if token as usize >= bank.tokens() {
        return GaveBack::NoToken;
    }
    let tok = TokId(token as u8);
    let held = seat.held(bank, tok);
    if !held.is_held() {
        return GaveBack::NotHeld;
    }
    if ends_section(held) {
        return end(seat, bank, tok);
    }
    seat.give(bank, tok);
    GaveBack::Given
}

/// Gives back the one reference of an exclusive holder who has written nothing, to a token whose law asks nothing. Whether it is so:
/// else all stays as it is.
#[inline(always)]
pub(crate) fn give_quietly(seat: &mut CpuSeat, bank: &Bank, token: u32) -> bool
    requires of { bank_of seat.old ≡ id_of bank.now }
    ensures gives { result ≡ true → GivesToken token seat.old seat.new GaveBack.Given }
    ensures kept { result ≡ false → seat.new ≡ seat.old }
    ensures same { KeepsBankAndCpu seat.old seat.new }
{
    if token as usize >= bank.tokens() {
        return false;
    }
    seat.give_quietly(bank, TokId(token as u8))
}
