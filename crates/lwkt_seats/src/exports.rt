//! The calls on a seat, for C; include/lwkt.h declares them.
ghost use Rattle.std.specs.Prelude.{◌≡◌, ◌≢◌, ℕ, Some};
ghost use Rattle.lwkt_base.specs.declared.names.Mode.TheVariants.{Exclusive, Shared};
ghost use Rattle.lwkt_seats.specs.Desks.{HasSeat, IsDeskAnswer};
ghost use Rattle.lwkt_seats.specs.Calls.{TakesAt, GainsOne, SetsMark, GivesOneBack, LoadsCell, StoresValue, AddsTo, JudgesRow, RestoresFirst, PutsLoaded, PutsAdded};
ghost use Rattle.lwkt_seats.specs.Numbers.{loaded_number, added_number};

use crate::answers::{Added, Loaded};
use crate::desks::Desk;
use crate::handles::LwktBank;
use crate::places::Hand;
use lwkt_base::Mode;

// Puts the value of a cell in its place, and answers.
fn put_loaded(loaded: Loaded, value: &mut u64) -> u32
    ensures is { result ≡ loaded_number loaded }
    ensures put { PutsLoaded loaded value.old value.new }
    ensures kept { result ≢ 0 → value.new ≡ value.old }
{
    if let Loaded::Value(found) = loaded {
        *value = found;
    }
    loaded.number()
}

// Puts the new value of a cell in its place, and answers.
fn put_added(added: Added, value: &mut u64) -> u32
    ensures is { result ≡ added_number added }
    ensures put { PutsAdded added value.old value.new }
    ensures kept { result ≢ 0 → value.new ≡ value.old }
{
    if let Added::Sum(sum) = added {
        *value = sum;
    }
    added.number()
}

/// Asks for an exclusive reference: a first one, or a further one where the seat holds the token exclusively.
///
/// 0; or 16 where there is no such token, else 10 where the seat has 32 references, else 11 where it holds the token shared; and
/// where it doesn't hold it, 20 at the last generation, 23 where another seat holds it, 34 where another seat's step came between. 30 where there is no seat of this number, 50 while another call has it, 52 where the bank is closed.
#[unsafe(no_mangle)]
pub extern "C" fn lwkt_take(bank: LwktBank, seat: u32, token: u32) -> u32
    ensures { IsDeskAnswer bank.desk seat (TakesAt Exclusive token) result }
{
    let (desk, mut hand) = match bank.seat(seat) {
        Ok(found) => found,
        Err(answer) => return answer,
    };
    let Some(sitter) = hand.slot_mut(&desk.places.shared, seat as usize) else {
        unreachable!()
    };
    let answer = sitter.ask(token, Mode::Exclusive);
    desk.put_back(seat, hand);
    answer.number()
}

/// Asks for a shared reference: a first one, or a further one, of whatever mode, where the seat holds the token.
///
/// 0; or 16, 10, 23 and 34 as `lwkt_take`; 23 also where the mark of an exclusive request holds off a seat that has no reference. 30 where there is no seat of this number, 50 while another call has it, 52 where the bank is closed.
#[unsafe(no_mangle)]
pub extern "C" fn lwkt_share(bank: LwktBank, seat: u32, token: u32) -> u32
    ensures { IsDeskAnswer bank.desk seat (TakesAt Shared token) result }
{
    let (desk, mut hand) = match bank.seat(seat) {
        Ok(found) => found,
        Err(answer) => return answer,
    };
    let Some(sitter) = hand.slot_mut(&desk.places.shared, seat as usize) else {
        unreachable!()
    };
    let answer = sitter.ask(token, Mode::Shared);
    desk.put_back(seat, hand);
    answer.number()
}

/// One reference more of a token that the seat holds, in the mode of its first.
///
/// 0; or 16 where there is no such token, else 13 where the seat doesn't hold it, else 10 where it has 32 references. 30 where there is no seat of this number, 50 while another call has it, 52 where the bank is closed.
#[unsafe(no_mangle)]
pub extern "C" fn lwkt_again(bank: LwktBank, seat: u32, token: u32) -> u32
    ensures { IsDeskAnswer bank.desk seat (GainsOne token) result }
{
    let (desk, mut hand) = match bank.seat(seat) {
        Ok(found) => found,
        Err(answer) => return answer,
    };
    let Some(sitter) = hand.slot_mut(&desk.places.shared, seat as usize) else {
        unreachable!()
    };
    let answer = sitter.further(token);
    desk.put_back(seat, hand);
    answer.number()
}

/// Marks a token for an exclusive request.
///
/// 0; or 16 where there is no such token. 30 where there is no seat of this number, 50 while another call has it, 52 where the bank is closed.
#[unsafe(no_mangle)]
pub extern "C" fn lwkt_mark(bank: LwktBank, seat: u32, token: u32) -> u32
    ensures { IsDeskAnswer bank.desk seat (SetsMark token) result }
{
    let (desk, mut hand) = match bank.seat(seat) {
        Ok(found) => found,
        Err(answer) => return answer,
    };
    let Some(sitter) = hand.slot_mut(&desk.places.shared, seat as usize) else {
        unreachable!()
    };
    let answer = sitter.mark(token);
    desk.put_back(seat, hand);
    answer.number()
}

// Gives a reference back, of a seat that was taken from its place.
#[inline(never)]
fn give(desk: &Desk, mut hand: Hand, seat: u32, token: u32) -> u32
    requires { HasSeat desk.now seat hand }
    ensures { IsDeskAnswer (Some desk.now) seat (GivesOneBack token) result }
{
    let Some(sitter) = hand.slot_mut(&desk.places.shared, seat as usize) else {
        unreachable!()
    };
    let answer = sitter.give(token);
    desk.put_back(seat, hand);
    answer.number()
}

/// Gives a reference back.
///
/// 0; or 16 where there is no such token, else 13 where the seat doesn't hold it, else 19 where it is the last reference of an
/// exclusive holder, and row and record don't obey the law: the token stays held. 30 where there is no seat of this number, 50 while another call has it, 52 where the bank is closed.
#[unsafe(no_mangle)]
pub extern "C" fn lwkt_give(bank: LwktBank, seat: u32, token: u32) -> u32
    ensures { IsDeskAnswer bank.desk seat (GivesOneBack token) result }
{
    let (desk, mut hand) = match bank.seat(seat) {
        Ok(found) => found,
        Err(answer) => return answer,
    };
    let Some(sitter) = hand.slot_mut(&desk.places.shared, seat as usize) else {
        unreachable!()
    };
    if !sitter.give_quietly(token) {
        return give(desk, hand, seat, token);
    }
    desk.put_back(seat, hand);
    0
}

/// Stores a value in a cell.
///
/// 0; or 16 where there is no such token, else 17 where it has no such cell, else 13 where the seat doesn't hold it, else 18 where
/// it holds it shared, else 22 for a Tally token. 30 where there is no seat of this number, 50 while another call has it, 52 where the bank is closed.
#[unsafe(no_mangle)]
pub extern "C" fn lwkt_store(bank: LwktBank, seat: u32, token: u32, cell: u32, value: u64) -> u32
    ensures { IsDeskAnswer bank.desk seat (StoresValue token cell value) result }
{
    let (desk, mut hand) = match bank.seat(seat) {
        Ok(found) => found,
        Err(answer) => return answer,
    };
    let Some(sitter) = hand.slot_mut(&desk.places.shared, seat as usize) else {
        unreachable!()
    };
    let answer = sitter.store(token, cell, value);
    desk.put_back(seat, hand);
    answer.number()
}

/// Whether row and record of a token obey its law.
///
/// 0 where they do, and 19 where they don't; or 16 where there is no such token, else 13 where the seat doesn't hold it, else 18
/// where it holds it shared. 30 where there is no seat of this number, 50 while another call has it, 52 where the bank is closed.
#[unsafe(no_mangle)]
pub extern "C" fn lwkt_lawful(bank: LwktBank, seat: u32, token: u32) -> u32
    ensures { IsDeskAnswer bank.desk seat (JudgesRow token) result }
{
    let (desk, mut hand) = match bank.seat(seat) {
        Ok(found) => found,
        Err(answer) => return answer,
    };
    let Some(sitter) = hand.slot_mut(&desk.places.shared, seat as usize) else {
        unreachable!()
    };
    let answer = sitter.judge(token);
    desk.put_back(seat, hand);
    answer.number()
}

/// Stores the section's first row and record again: each cell that was stored to in it gets its first value, and the record its first
/// bytes, if it has others. A Tally token stays as it is.
///
/// 0; or 16, 13 and 18 as `lwkt_lawful`. 30 where there is no seat of this number, 50 while another call has it, 52 where the bank is closed.
#[unsafe(no_mangle)]
pub extern "C" fn lwkt_restore(bank: LwktBank, seat: u32, token: u32) -> u32
    ensures { IsDeskAnswer bank.desk seat (RestoresFirst token) result }
{
    let (desk, mut hand) = match bank.seat(seat) {
        Ok(found) => found,
        Err(answer) => return answer,
    };
    let Some(sitter) = hand.slot_mut(&desk.places.shared, seat as usize) else {
        unreachable!()
    };
    let answer = sitter.restore(token);
    desk.put_back(seat, hand);
    answer.number()
}

/// The value of a cell of a token that the seat holds, in any mode.
///
/// 0, and the value; or 16 where there is no such token, else 17 where it has no such cell, else 13 where the seat doesn't hold it. 30 where there is no seat of this number, 50 while another call has it, 52 where the bank is closed. `value` stays as it was but with 0.
#[unsafe(no_mangle)]
pub extern "C" fn lwkt_load(
    bank: LwktBank,
    seat: u32,
    token: u32,
    cell: u32,
    value: &mut u64,
) -> u32
    ensures does { IsDeskAnswer bank.desk seat (LoadsCell token cell value.old value.new) result }
    ensures kept { result ≢ 0 → value.new ≡ value.old }
{
    let (desk, mut hand) = match bank.seat(seat) {
        Ok(found) => found,
        Err(answer) => return answer,
    };
    let Some(sitter) = hand.slot_mut(&desk.places.shared, seat as usize) else {
        unreachable!()
    };
    let answer = sitter.load(token, cell);
    desk.put_back(seat, hand);
    put_loaded(answer, value)
}

/// Adds to the cell of a Tally token.
///
/// 0, and the new value; or 16 where there is no such token, else 13 where the seat doesn't hold it, else 18 where it holds it
/// shared, else 22 for any other token, else 21 where the sum passes 18446744073709551615. 30 where there is no seat of this number, 50 while another call has it, 52 where the bank is closed. `value` stays as it was but with 0.
#[unsafe(no_mangle)]
pub extern "C" fn lwkt_add(
    bank: LwktBank,
    seat: u32,
    token: u32,
    amount: u64,
    value: &mut u64,
) -> u32
    ensures does { IsDeskAnswer bank.desk seat (AddsTo token amount value.old value.new) result }
    ensures kept { result ≢ 0 → value.new ≡ value.old }
{
    let (desk, mut hand) = match bank.seat(seat) {
        Ok(found) => found,
        Err(answer) => return answer,
    };
    let Some(sitter) = hand.slot_mut(&desk.places.shared, seat as usize) else {
        unreachable!()
    };
    let answer = sitter.add(token, amount);
    desk.put_back(seat, hand);
    put_added(answer, value)
}
