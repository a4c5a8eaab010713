//! The calls on lists of references, for C; include/lwkt.h declares them.
ghost use Rattle.std.specs.Prelude.{◌≡◌, ◌≢◌};
ghost use Rattle.lwkt_seats.specs.Desks.{IsDeskAnswer};
ghost use Rattle.lwkt_seats.specs.Calls.{ResumesList, GivesUpAll, PutsPlace, PutsFirst};
ghost use Rattle.lwkt_seats.specs.ListNumbers.{resumed_number, blocked_number, NamesNoPlace};

use crate::handles::LwktBank;
use crate::list_answers::Resumed;
use crate::references::LwktReference;
use lwkt_base::TokId;

// Puts the place of a reference that was refused where the caller wants it, and answers.
fn put_place(came: Resumed, missed: &mut usize) -> u32
    ensures is { result ≡ resumed_number came }
    ensures put { PutsPlace came missed.old missed.new }
    ensures kept { NamesNoPlace result → missed.new ≡ missed.old }
{
    match came {
        Resumed::All | Resumed::Holds => {}
        Resumed::Unlisted(at, _) => *missed = at,
        Resumed::Missed(at, _) => *missed = at,
    }
    came.number()
}

// Puts the first token that was restored where the caller wants it, and answers.
fn put_first(first: Option<TokId>, restored: &mut u32) -> u32
    ensures is { result ≡ blocked_number first }
    ensures put { PutsFirst first restored.old restored.new }
    ensures kept { result ≢ 19 → restored.new ≡ restored.old }
{
    let Some(tok) = first else {
        return 0;
    };
    *restored = tok.0 as u32;
    19
}

/// Takes a list of references in order, all or none, for a seat that holds nothing. At the first one that is missed those in front of it
/// are given back.
///
/// 0; or 51 where the seat holds a token; else, at the first place where it is so, 16 where there is no such token, 39 where the mode
/// is neither, 10 behind 32 references, 11 for an exclusive reference to a token whose first one is shared; else 20, 23 or 34 as
/// `lwkt_take`, and `missed` is the place. 30 where there is no seat of this number, 50 while another call has it, 52 where the bank is
/// closed. `missed` stays as it was with 0, 30, 50, 51 and 52.
#[unsafe(no_mangle)]
pub extern "C" fn lwkt_resume(
    bank: LwktBank,
    seat: u32,
    list: &[LwktReference],
    missed: &mut usize,
) -> u32
    ensures does { IsDeskAnswer bank.desk seat (ResumesList list.now missed.old missed.new) result }
    ensures kept { NamesNoPlace result → missed.new ≡ missed.old }
{
    let (desk, mut hand) = match bank.seat(seat) {
        Ok(found) => found,
        Err(answer) => return answer,
    };
    let Some(sitter) = hand.slot_mut(&desk.places.shared, seat as usize) else {
        unreachable!()
    };
    let came = sitter.resume(list);
    desk.put_back(seat, hand);
    put_place(came, missed)
}

/// Gives up all that the seat holds, token by token. A section that has broken its law gets its first row and record again before it
/// ends.
///
/// 0; or 19 where a section had broken its law, and `restored` is the lowest such token: all is given up then too. 30 where there is no
/// seat of this number, 50 while another call has it, 52 where the bank is closed. `restored` stays as it was but with 19.
#[unsafe(no_mangle)]
pub extern "C" fn lwkt_block(bank: LwktBank, seat: u32, restored: &mut u32) -> u32
    ensures does { IsDeskAnswer bank.desk seat (GivesUpAll restored.old restored.new) result }
    ensures kept { result ≢ 19 → restored.new ≡ restored.old }
{
    let (desk, mut hand) = match bank.seat(seat) {
        Ok(found) => found,
        Err(answer) => return answer,
    };
    let Some(sitter) = hand.slot_mut(&desk.places.shared, seat as usize) else {
        unreachable!()
    };
    let first = sitter.block();
    desk.put_back(seat, hand);
    put_first(first, restored)
}
