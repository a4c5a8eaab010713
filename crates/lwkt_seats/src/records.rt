//! The record of a token that a seat holds.
ghost use Rattle.std.specs.Prelude.{◌≡◌, ◌<◌};
ghost use Rattle.lwkt_bank.specs.Seats.{id_of, bank_of};
ghost use Rattle.lwkt_seats.specs.Records.{ReadsBytes, WritesBytes};
ghost use Rattle.lwkt_seats.specs.Brief.{KeepsBankAndCpu};

use crate::answers::{RecordRead, RecordWritten};
use lwkt_bank::{Bank, CpuSeat};
use lwkt_base::{Blob, TokId};

/// The record.
pub(crate) fn read(seat: &mut CpuSeat, bank: &Bank, token: u32) -> RecordRead
    requires of { bank_of seat.old ≡ id_of bank.now }
    ensures does { ReadsBytes token seat.old seat.new result }
    ensures same { KeepsBankAndCpu seat.old seat.new }
{
    if token as usize >= bank.tokens() {
        return RecordRead::NoToken;
    }
    let tok = TokId(token as u8);
    if !bank.guards(tok) {
        return RecordRead::NoRecord;
    }
    let held = seat.held(bank, tok);
    if !held.is_held() {
        return RecordRead::NotHeld;
    }
    if !held.is_exclusive() {
        return RecordRead::SharedRecord;
    }
    RecordRead::Bytes(seat.read_blob(bank, tok))
}

/// Writes the record.
pub(crate) fn write(seat: &mut CpuSeat, bank: &Bank, token: u32, bytes: &[u8]) -> RecordWritten
    requires of { bank_of seat.old ≡ id_of bank.now }
    ensures does { WritesBytes token bytes.now seat.old seat.new result }
    ensures same { KeepsBankAndCpu seat.old seat.new }
{
    if token as usize >= bank.tokens() {
        return RecordWritten::NoToken;
    }
    let tok = TokId(token as u8);
    if !bank.guards(tok) {
        return RecordWritten::NoRecord;
    }
    let held = seat.held(bank, tok);
    if !held.is_held() {
        return RecordWritten::NotHeld;
    }
    if !held.is_exclusive() {
        return RecordWritten::SharedRecord;
    }
    if bytes.len() > 64 {
        return RecordWritten::RecordLong;
    }
    seat.write_blob(bank, tok, &Blob::of(bytes));
    RecordWritten::Written
}
