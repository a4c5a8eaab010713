//! The calls on a token's record, for C; include/lwkt.h declares them.
ghost use Rattle.std.specs.Prelude.{◌≡◌, ◌≢◌, ◌≤◌};
ghost use Rattle.lwkt_seats.specs.Desks.{IsDeskAnswer};
ghost use Rattle.lwkt_seats.specs.Calls.{ReadsTheRecord, WritesRecord, PutsRecord};
ghost use Rattle.lwkt_seats.specs.Numbers.{record_read_number};
ghost use Rattle.lwkt_seats.specs.Records.{buffer_with_bytes};

use crate::answers::{RecordRead, RecordWritten};
use crate::handles::LwktBank;
use lwkt_base::limits::RECORD_LIMIT;

// Puts bytes into a buffer, as far as this has room.
fn fill(buffer: &mut [u8], whole: &[u8])
    ensures { buffer.new ≡ buffer_with_bytes buffer.old whole.now }
{
    let count = whole.len().min(buffer.len());
    buffer[..count].copy_from_slice(&whole[..count]);
}

// Puts a record in its place, and answers.
fn put_record(read: RecordRead, buffer: &mut [u8], length: &mut usize) -> u32
    ensures is { result ≡ record_read_number read }
    ensures put { PutsRecord read buffer.old buffer.new length.old length.new }
    ensures kept { result ≢ 0 → (buffer.new ≡ buffer.old) × (length.new ≡ length.old) }
{
    if let RecordRead::Bytes(found) = read {
        fill(buffer, found.as_slice());
        *length = found.len() as usize;
    }
    read.number()
}

/// The record of a token that the seat holds exclusively, put into the buffer as far as this has room; `length` is how many bytes it
/// has.
///
/// 0, the bytes and their number, at most 64; or 16 where there is no such token, else 17 where it guards no record, else 13 where the
/// seat doesn't hold it, else 37 where it holds it shared. 30 where there is no seat of this number, 50 while another call has it, 52
/// where the bank is closed. Buffer and `length` stay as they were but with 0.
#[unsafe(no_mangle)]
pub extern "C" fn lwkt_read_record(
    bank: LwktBank,
    seat: u32,
    token: u32,
    buffer: &mut [u8],
    length: &mut usize,
) -> u32
    ensures does { IsDeskAnswer bank.desk seat (ReadsTheRecord token buffer.old buffer.new length.old length.new) result }
    ensures short { result ≡ 0 → length.new ≤ RECORD_LIMIT }
    ensures kept { result ≢ 0 → (buffer.new ≡ buffer.old) × (length.new ≡ length.old) }
{
    let (desk, mut hand) = match bank.seat(seat) {
        Ok(found) => found,
        Err(answer) => return answer,
    };
    let Some(sitter) = hand.slot_mut(&desk.places.shared, seat as usize) else {
        unreachable!()
    };
    let answer = sitter.read(token);
    desk.put_back(seat, hand);
    put_record(answer, buffer, length)
}

/// Writes the record of a token.
///
/// 0; or 16 where there is no such token, else 17 where it guards no record, else 13 where the seat doesn't hold it, else 37 where it
/// holds it shared, else 38 for more than 64 bytes. 30 where there is no seat of this number, 50 while another call has it, 52 where
/// the bank is closed.
#[unsafe(no_mangle)]
pub extern "C" fn lwkt_write_record(bank: LwktBank, seat: u32, token: u32, bytes: &[u8]) -> u32
    ensures { IsDeskAnswer bank.desk seat (WritesRecord token bytes.now) result }
{
    let (desk, mut hand) = match bank.seat(seat) {
        Ok(found) => found,
        Err(answer) => return answer,
    };
    let Some(sitter) = hand.slot_mut(&desk.places.shared, seat as usize) else {
        unreachable!()
    };
    let answer = sitter.write(token, bytes);
    desk.put_back(seat, hand);
    answer.number()
}
