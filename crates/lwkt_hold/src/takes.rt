//! One reference of a list: taken.
ghost use Rattle.std.specs.Prelude.{◌≡◌, ℕ, ◌+◌, ◌<◌, ◌≤◌, [], ◌∷◌, ◌++◌, length, take, slice_get, IsSomeAnd, OnOk, OnErr, IfErr, vec_len, vec_capacity};
ghost use Rattle.lwkt_base.specs.Holding.{holding_of};
ghost use Rattle.lwkt_bank.specs.Seats.{id_of, bank_of, tokens_of, holding};
ghost use Rattle.lwkt_base.specs.Refs.{is_alone};
ghost use Rattle.lwkt_hold.specs.Fronts.{IsFront};
ghost use Rattle.lwkt_hold.specs.Runs.{Ran};
ghost use Rattle.lwkt_core.specs.Takings.{taking_event};
ghost use Rattle.lwkt_hold.specs.Takings.{TakesRows};
ghost use Rattle.lwkt_hold.specs.Misses.{Misses};
ghost use Rattle.lwkt_hold.specs.Rows.{SameRow};

use crate::answers::Missed;
use crate::traces::{note_again, note_taken};
use lwkt_bank::{Bank, CpuSeat, Try};
use lwkt_base::limits::LIST_LIMIT;
use lwkt_base::{Ref, TokId};
use lwkt_core::Event;

/// Whether the list has no reference to another token.
#[inline]
fn has_only(refs: &[Ref], tok: TokId) -> bool
    ensures { result ≡ is_alone refs.now tok.0 }
{
    refs.iter().all(|r| r.tok.0 == tok.0)
}

/// Takes the reference of this place, those before it being held. Of a miss it says why.
#[inline(always)]
pub(crate) fn take_one(
    seat: &mut CpuSeat,
    bank: &Bank,
    refs: &[Ref],
    at: usize,
    trace: &mut Vec<Event>,
) -> Result<(), Missed>
    requires of { bank_of seat.old ≡ id_of bank.now }
    requires there { IsSomeAnd (slice_get refs.now at) (λ r. r.tok.0 < tokens_of (bank_of seat.old)) }
    requires short { length refs.now ≤ LIST_LIMIT }
    requires within { at < length refs.now }
    requires front { holding seat.old ≡ holding_of (take at refs.now) }
    requires room { vec_len trace.old < vec_capacity trace.old }
    ensures ran { Ran (IsFront refs.now) 1 seat.old seat.new trace.old trace.new }
    ensures taken { OnOk result (holding seat.new ≡ holding_of (take (at + 1) refs.now)) }
    ensures kept { OnErr result (holding seat.new ≡ holding seat.old) }
    ensures silent { OnErr result (trace.new ≡ trace.old) }
    ensures traced { OnOk result (IsSomeAnd (slice_get refs.now at) (λ r. trace.new.items ≡ trace.old.items ++ taking_event seat.old.cpu (take at refs.now) r ∷ [])) }
    ensures rows { TakesRows seat.old seat.new }
    ensures same { OnErr result ((tok : ℕ) → SameRow seat.old seat.new tok) }
    ensures missed { IfErr result (λ why. Misses seat.old seat.new refs.now at why) }
{
    let new = refs[at];
    let cpu = seat.cpu();
    if seat.held(bank, new.tok).is_held() {
        seat.again(bank, new.tok);
        note_again(trace, cpu, new.tok);
        return Ok(());
    }
    let alone = has_only(refs, new.tok);
    match seat.try_take(bank, new.tok, new.mode, alone) {
        Try::Got { .. } => {
            note_taken(trace, cpu, new);
            Ok(())
        }
        Try::Busy { word } => Err(Missed::Busy { word }),
        Try::Again => Err(Missed::Again),
        Try::Worn => Err(Missed::Worn),
    }
}
