//! The cells of a token that a seat holds.
ghost use Rattle.std.specs.Prelude.{◌≡◌, ◌<◌, IfOk, IfErr};
ghost use Rattle.lwkt_bank.specs.Seats.{id_of, bank_of};
ghost use Rattle.lwkt_seats.specs.Cells.{HasCell, Lacks, Loads, StoresInCell, AddsToCell, JudgesToken, Restores};
ghost use Rattle.lwkt_seats.specs.Brief.{KeepsBankAndCpu};

use crate::answers::{Added, Judged, Loaded, RowRestored, Stored};
use lwkt_bank::{Bank, CpuSeat};
use lwkt_base::{Fault, TokId};

/// The token and the cell of these numbers, or that there is none.
#[inline(always)]
pub(crate) fn find(
    seat: &CpuSeat,
    bank: &Bank,
    token: u32,
    cell: u32,
) -> Result<(TokId, u8), Loaded>
    requires of { bank_of seat.now ≡ id_of bank.now }
    ensures there { IfOk result (λ _. HasCell seat.now token cell) }
    ensures named { IfOk result (λ found. (found.0.0 ≡ token) × (found.1 ≡ cell)) }
    ensures err { IfErr result (λ lack. Lacks token cell seat.now lack) }
{
    if token as usize >= bank.tokens() {
        return Err(Loaded::NoToken);
    }
    let tok = TokId(token as u8);
    if cell as usize >= bank.cells(tok) {
        return Err(Loaded::NoCell);
    }
    Ok((tok, cell as u8))
}

/// The value of a cell.
pub(crate) fn load(seat: &mut CpuSeat, bank: &Bank, token: u32, cell: u32) -> Loaded
    requires of { bank_of seat.old ≡ id_of bank.now }
    ensures does { Loads token cell seat.old seat.new result }
    ensures same { KeepsBankAndCpu seat.old seat.new }
{
    if token as usize >= bank.tokens() {
        return Loaded::NoToken;
    }
    let tok = TokId(token as u8);
    if cell as usize >= bank.cells(tok) {
        return Loaded::NoCell;
    }
    if !seat.held(bank, tok).is_held() {
        return Loaded::NotHeld;
    }
    Loaded::Value(seat.load(bank, tok, cell as u8))
}

/// Stores a value in a cell.
#[inline(always)]
pub(crate) fn store(seat: &mut CpuSeat, bank: &Bank, token: u32, cell: u32, value: u64) -> Stored
    requires of { bank_of seat.old ≡ id_of bank.now }
    ensures does { StoresInCell token cell value seat.old seat.new result }
    ensures same { KeepsBankAndCpu seat.old seat.new }
{
    if token as usize >= bank.tokens() {
        return Stored::NoToken;
    }
    let tok = TokId(token as u8);
    if cell as usize >= bank.cells(tok) {
        return Stored::NoCell;
    }
    let held = seat.held(bank, tok);
    if !held.is_held() {
        return Stored::NotHeld;
    }
    if !held.is_exclusive() {
        return Stored::SharedWrite;
    }
    match seat.store(bank, tok, cell as u8, value) {
        Ok(()) => Stored::Stored,
        Err(_) => Stored::TallyOnly,
    }
}

/// Adds to the cell of a Tally token.
pub(crate) fn add(seat: &mut CpuSeat, bank: &Bank, token: u32, amount: u64) -> Added
    requires of { bank_of seat.old ≡ id_of bank.now }
    ensures does { AddsToCell token amount seat.old seat.new result }
    ensures same { KeepsBankAndCpu seat.old seat.new }
{
    if token as usize >= bank.tokens() {
        return Added::NoToken;
    }
    let tok = TokId(token as u8);
    let held = seat.held(bank, tok);
    if !held.is_held() {
        return Added::NotHeld;
    }
    if !held.is_exclusive() {
        return Added::SharedWrite;
    }
    match seat.add(bank, tok, amount) {
        Ok(sum) => Added::Sum(sum),
        Err(Fault::Overflow) => Added::Overflow,
        Err(_) => Added::TallyOnly,
    }
}

/// Whether row and record obey the law.
pub(crate) fn judge(seat: &mut CpuSeat, bank: &Bank, token: u32) -> Judged
    requires of { bank_of seat.old ≡ id_of bank.now }
    ensures does { JudgesToken token seat.old seat.new result }
    ensures same { KeepsBankAndCpu seat.old seat.new }
{
    if token as usize >= bank.tokens() {
        return Judged::NoToken;
    }
    let tok = TokId(token as u8);
    let held = seat.held(bank, tok);
    if !held.is_held() {
        return Judged::NotHeld;
    }
    if !held.is_exclusive() {
        return Judged::SharedWrite;
    }
    if seat.lawful(bank, tok) {
        return Judged::Lawful;
    }
    Judged::Broken
}

/// Stores the section's first row and record again.
pub(crate) fn restore(seat: &mut CpuSeat, bank: &Bank, token: u32) -> RowRestored
    requires of { bank_of seat.old ≡ id_of bank.now }
    ensures does { Restores token seat.old seat.new result }
    ensures same { KeepsBankAndCpu seat.old seat.new }
{
    if token as usize >= bank.tokens() {
        return RowRestored::NoToken;
    }
    let tok = TokId(token as u8);
    let held = seat.held(bank, tok);
    if !held.is_held() {
        return RowRestored::NotHeld;
    }
    if !held.is_exclusive() {
        return RowRestored::SharedWrite;
    }
    seat.restore(bank, tok);
    RowRestored::Restored
}
