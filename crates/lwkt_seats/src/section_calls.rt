//! The calls that begin and end a section together with a cell's load and store, for C; include/lwkt.h declares them.
ghost use Rattle.std.specs.Prelude.{◌≡◌, ◌≢◌};
ghost use Rattle.lwkt_seats.specs.Desks.{IsDeskAnswer};
ghost use Rattle.lwkt_seats.specs.Calls.{TakesAndLoads, StoresAndGives};

use crate::handles::LwktBank;

/// Asks for an exclusive reference as `lwkt_take`, and loads a cell as `lwkt_load`. The cell is looked up before the reference is asked for.
///
/// 0, and the value; or 16 where there is no such token, else 17 where it has no such cell, else as `lwkt_take`. 30 where there is no seat of this number, 50 while another call has it, 52 where the bank is closed. `value` stays as it was but with 0.
#[unsafe(no_mangle)]
pub extern "C" fn lwkt_take_load(
    bank: LwktBank,
    seat: u32,
    token: u32,
    cell: u32,
    value: &mut u64,
) -> u32
    ensures does { IsDeskAnswer bank.desk seat (TakesAndLoads token cell value.old value.new) result }
    ensures kept { result ≢ 0 → value.new ≡ value.old }
{
    let (desk, mut hand) = match bank.seat(seat) {
        Ok(found) => found,
        Err(answer) => return answer,
    };
    let Some(sitter) = hand.slot_mut(&desk.places.shared, seat as usize) else {
        unreachable!()
    };
    let answer = sitter.take_load(token, cell, value);
    desk.put_back(seat, hand);
    answer
}

/// Stores a value as `lwkt_store`; and if that answers 0, gives a reference back as `lwkt_give`.
///
/// 0; or 16, 17, 13, 18 and 22 as `lwkt_store`, else 19 as `lwkt_give`: the value is stored then, and the token stays held. 30 where there is no seat of this number, 50 while another call has it, 52 where the bank is closed.
#[unsafe(no_mangle)]
pub extern "C" fn lwkt_store_give(
    bank: LwktBank,
    seat: u32,
    token: u32,
    cell: u32,
    value: u64,
) -> u32
    ensures { IsDeskAnswer bank.desk seat (StoresAndGives token cell value) result }
{
    let (desk, mut hand) = match bank.seat(seat) {
        Ok(found) => found,
        Err(answer) => return answer,
    };
    let Some(sitter) = hand.slot_mut(&desk.places.shared, seat as usize) else {
        unreachable!()
    };
    let answer = sitter.store_give(token, cell, value);
    desk.put_back(seat, hand);
    answer
}
