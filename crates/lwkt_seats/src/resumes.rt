//! A list of references taken, all or none.
ghost use Rattle.std.specs.Prelude.{◌≡◌, ◌≢◌, ◌<◌, ◌≤◌, true, false, length, take, All, OnOk, IfErr};
ghost use Rattle.lwkt_base.specs.Holding.{is_held, holding_of, holds_nothing};
ghost use Rattle.lwkt_bank.specs.Seats.{id_of, bank_of, tokens_of, holding, references};
ghost use Rattle.lwkt_seats.specs.Lists.{has_only, TakesOne, MissesOne, HoldsClean, GivesUnwritten, TakesAll, TakesUpTo, GivesBackAll, TakesNone, ResumesSeat};
ghost use Rattle.lwkt_seats.specs.Brief.{KeepsBankAndCpu};

use crate::list_answers::{Missed, Resumed};
use crate::references::{LwktReference, list_of};
use lwkt_bank::{Bank, CpuSeat, Try};
use lwkt_base::limits::LIST_LIMIT;
use lwkt_base::{Ref, TokId};

// Whether the list has no reference to another token.
fn has_only(refs: &[Ref], tok: TokId) -> bool
    ensures { result ≡ has_only refs.now tok.0 }
{
    refs.iter().all(|r| r.tok.0 == tok.0)
}

// Takes a reference of a list.
fn take_one(seat: &mut CpuSeat, bank: &Bank, refs: &[Ref], new: Ref) -> Result<(), Missed>
    requires of { bank_of seat.old ≡ id_of bank.now }
    requires there { new.tok.0 < tokens_of (bank_of seat.old) }
    requires few { references seat.old < LIST_LIMIT }
    ensures ok { OnOk result (TakesOne refs.now new seat.old seat.new) }
    ensures err { IfErr result (λ why. MissesOne refs.now new seat.old seat.new why) }
    ensures same { KeepsBankAndCpu seat.old seat.new }
{
    if seat.held(bank, new.tok).is_held() {
        seat.again(bank, new.tok);
        return Ok(());
    }
    let alone = has_only(refs, new.tok);
    match seat.try_take(bank, new.tok, new.mode, alone) {
        Try::Got { .. } => Ok(()),
        Try::Busy { .. } => Err(Missed::Busy),
        Try::Again => Err(Missed::Again),
        Try::Worn => Err(Missed::Worn),
    }
}

// Takes the references of a list in order, up to the first one that is missed.
fn take_each(seat: &mut CpuSeat, bank: &Bank, refs: &[Ref]) -> Result<(), (usize, Missed)>
    requires of { bank_of seat.old ≡ id_of bank.now }
    requires there { All (λ r. r.tok.0 < tokens_of (bank_of seat.old)) refs.now }
    requires short { length refs.now ≤ LIST_LIMIT }
    requires idle { holding seat.old ≡ holds_nothing }
    ensures all { OnOk result (TakesAll refs.now seat.old seat.new) }
    ensures missed { IfErr result (λ no. TakesUpTo refs.now no.0 no.1 seat.old seat.new) }
    ensures front { IfErr result (λ no. (no.0 ≤ length refs.now) × (holding seat.new ≡ holding_of (take no.0 refs.now))) }
    ensures clean { HoldsClean seat.new }
    ensures same { KeepsBankAndCpu seat.old seat.new }
{
    for at in 0..refs.len() {
        if let Err(why) = take_one(seat, bank, refs, refs[at]) {
            return Err((at, why));
        }
    }
    Ok(())
}

// Gives a reference back where nothing was written.
fn give_one(seat: &mut CpuSeat, bank: &Bank, tok: TokId)
    requires of { bank_of seat.old ≡ id_of bank.now }
    requires there { tok.0 < tokens_of (bank_of seat.old) }
    requires held { is_held (holding seat.old tok.0) ≡ true }
    requires clean { HoldsClean seat.old }
    ensures gives { GivesUnwritten tok.0 seat.old seat.new }
    ensures same { KeepsBankAndCpu seat.old seat.new }
{
    seat.give(bank, tok);
}

// Gives the first references of a list back, in reverse order, where nothing was written.
fn give_front(seat: &mut CpuSeat, bank: &Bank, refs: &[Ref], count: usize)
    requires of { bank_of seat.old ≡ id_of bank.now }
    requires there { All (λ r. r.tok.0 < tokens_of (bank_of seat.old)) refs.now }
    requires within { count ≤ length refs.now }
    requires front { holding seat.old ≡ holding_of (take count refs.now) }
    requires clean { HoldsClean seat.old }
    ensures gives { GivesBackAll seat.old seat.new }
    ensures same { KeepsBankAndCpu seat.old seat.new }
{
    for given in 0..count {
        give_one(seat, bank, refs[count - 1 - given].tok);
    }
}

// Takes the references of a list, or gives back those that it took.
fn take_all(seat: &mut CpuSeat, bank: &Bank, refs: &[Ref]) -> Result<(), (usize, Missed)>
    requires of { bank_of seat.old ≡ id_of bank.now }
    requires there { All (λ r. r.tok.0 < tokens_of (bank_of seat.old)) refs.now }
    requires short { length refs.now ≤ LIST_LIMIT }
    requires idle { holding seat.old ≡ holds_nothing }
    ensures all { OnOk result (TakesAll refs.now seat.old seat.new) }
    ensures none { IfErr result (λ no. TakesNone refs.now no.0 no.1 seat.old seat.new) }
    ensures same { KeepsBankAndCpu seat.old seat.new }
{
    match take_each(seat, bank, refs) {
        Ok(()) => Ok(()),
        Err((at, why)) => {
            give_front(seat, bank, refs, at);
            Err((at, why))
        }
    }
}

/// Whether a seat with so many references holds nothing.
pub(crate) fn is_idle(seat: &CpuSeat, count: usize) -> bool
    requires { count ≡ references seat.now }
    ensures yes { result ≡ true → holding seat.now ≡ holds_nothing }
    ensures no { result ≡ false → holding seat.now ≢ holds_nothing }
{
    // What is said of it: a seat holds no token that its bank doesn't have.
    let _ = seat.cpu();
    count == 0
}

/// Takes a list of references for a seat that holds nothing.
pub(crate) fn resume(
    seat: &mut CpuSeat,
    bank: &Bank,
    count: usize,
    refs: &[LwktReference],
) -> Resumed
    requires of { bank_of seat.old ≡ id_of bank.now }
    requires count { count ≡ references seat.old }
    ensures does { ResumesSeat refs.now seat.old seat.new result }
    ensures same { KeepsBankAndCpu seat.old seat.new }
{
    if !is_idle(seat, count) {
        return Resumed::Holds;
    }
    let list = match list_of(bank, refs) {
        Ok(list) => list,
        Err((at, why)) => return Resumed::Unlisted(at, why),
    };
    match take_all(seat, bank, list.refs()) {
        Ok(()) => Resumed::All,
        Err((at, why)) => Resumed::Missed(at, why),
    }
}
