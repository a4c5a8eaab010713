//! A reference asked for.
ghost use Rattle.std.specs.Prelude.{◌≡◌, ℕ, ◌+◌, ◌<◌, List, [], ◌∷◌, ◌++◌, length, Ok, Err, OnOk, OnErr, IfOk, vec_len, vec_capacity};
ghost use Rattle.std.specs.Result.{result_err};
ghost use Rattle.lwkt_base.specs.declared.names.Ref.{Ref};
ghost use Rattle.lwkt_bank.specs.Seats.{id_of, bank_of, tokens_of, holding};
ghost use Rattle.lwkt_hold.specs.declared.answers.Missed.{Missed};
ghost use Rattle.lwkt_hold.specs.Misses.{Misses, fault_of, exclusive};
ghost use Rattle.lwkt_hold.specs.Fronts.{IsFront};
ghost use Rattle.lwkt_hold.specs.Runs.{Ran};
ghost use Rattle.lwkt_hold.specs.Rows.{SameRow};
ghost use Rattle.lwkt_hold.specs.Ready.{IsReady};
ghost use Rattle.lwkt_hold.specs.Refusals.{get_refusal, RefusedBy};
ghost use Rattle.lwkt_hold.specs.Outcomes.{Acquires, Takes, ChangesNothing, IsMissed, IsWorn};

use crate::answers::{Acquired, Missed};
use crate::holds::Hold;
use crate::takes::take_one;
use crate::traces::note;
use lwkt_bank::{Bank, CpuSeat};
use lwkt_base::{Fault, Mode, Ref, TokId, TokList};
use lwkt_core::Event;
use lwkt_core::events::CALL_EVENTS;

/// Puts the mark of an exclusive request on its token; a shared one puts none.
fn mark(seat: &mut CpuSeat, bank: &Bank, new: Ref, trace: &mut Vec<Event>)
    requires of { bank_of seat.old ≡ id_of bank.now }
    requires there { new.tok.0 < tokens_of (bank_of seat.old) }
    requires room { vec_len trace.old < vec_capacity trace.old }
    ensures ran { Ran (λ h. h ≡ holding seat.old) 1 seat.old seat.new trace.old trace.new }
    ensures kept { holding seat.new ≡ holding seat.old }
    ensures rows { (tok : ℕ) → SameRow seat.old seat.new tok }
    ensures exclusive { new.mode ≡ Mode.Exclusive → trace.new.items ≡ trace.old.items ++ Event.Mark seat.old.cpu new.tok ∷ [] }
    ensures shared { new.mode ≡ Mode.Shared → (trace.new ≡ trace.old) × (seat.new ≡ seat.old) }
{
    if new.mode == Mode::Exclusive {
        let cpu = seat.cpu();
        seat.mark(bank, new.tok);
        note(trace, Event::Mark { cpu, tok: new.tok });
    }
}

/// Puts a reference on the list and takes it; where it is missed, it stays on the list.
#[inline(always)]
fn push_and_take(
    seat: &mut CpuSeat,
    bank: &Bank,
    list: &mut TokList,
    new: Ref,
    trace: &mut Vec<Event>,
) -> Result<Result<(), Missed>, Fault>
    requires { IsReady (id_of bank.now) seat.old list.old trace.old 1 }
    ensures ran { Ran (IsFront list.new) 1 seat.old seat.new trace.old trace.new }
    ensures refused { result_err result ≡ get_refusal (id_of bank.now) list.old new }
    ensures pushed { OnOk result (list.new ≡ list.old ++ new ∷ []) }
    ensures got { result ≡ Ok (Ok tt) → Takes list.old list.new new seat.old seat.new trace.old trace.new }
    ensures missed { (why : Missed) → result ≡ Ok (Err why) → Misses seat.old seat.new list.new (length list.old) why × ChangesNothing seat.old seat.new trace.old trace.new }
    ensures err { OnErr result ((list.new ≡ list.old) × (seat.new ≡ seat.old) × (trace.new ≡ trace.old)) }
{
    if new.tok.0 as usize >= bank.tokens() {
        return Err(Fault::NoToken);
    }
    let at = list.len();
    list.push(new)?;
    Ok(take_one(seat, bank, list.refs(), at, trace))
}

/// Takes the last reference off the list.
fn take_off(list: &mut TokList, new: Ref)
    requires { (front : List Ref) × (list.old ≡ front ++ new ∷ []) }
    ensures { (front : List Ref) → list.old ≡ front ++ new ∷ [] → list.new ≡ front }
{
    let _ = list.pop(new.tok);
}

fn refusal(why: Missed) -> Fault
    ensures { result ≡ fault_of why }
{
    match why {
        Missed::Busy { .. } => Fault::Busy,
        Missed::Again => Fault::Again,
        Missed::Worn => Fault::Worn,
    }
}

impl Hold {
    ghost use Rattle.lwkt_hold.specs.Holds.{seat_of};

    /// Asks for a reference. `Got`: it is last on the list and held. `MustSwitch`: it is last on the list and isn't held, and
    /// an exclusive one has put its mark on the token. That the holding is the list's and that the trace has room for 256
    /// events are the caller's conditions.
    ///
    /// Refused with `NoToken` exactly if there is no such token, else with `ListFull` exactly if the list has 32 references,
    /// else with `Upgrade` exactly if the reference is exclusive and the first one to its token is shared, else with `Worn`
    /// if it is exclusive and the token is at its last generation; list and holding are then as before.
    #[inline(always)]
    pub fn get(
        &mut self,
        bank: &Bank,
        list: &mut TokList,
        new: Ref,
        trace: &mut Vec<Event>,
    ) -> Result<Acquired, Fault>
        requires { IsReady (id_of bank.now) (seat_of self.old) list.old trace.old CALL_EVENTS }
        ensures ran { Ran (IsFront list.new) 1 (seat_of self.old) (seat_of self.new) trace.old trace.new }
        ensures refused { RefusedBy (get_refusal (id_of bank.now) list.old new) (IsWorn list.old new (seat_of self.old) (seat_of self.new)) result }
        ensures ok { IfOk result (λ acquired. Acquires list.old list.new new (seat_of self.old) (seat_of self.new) trace.old trace.new acquired) }
        ensures err { OnErr result ((list.new ≡ list.old) × ChangesNothing (seat_of self.old) (seat_of self.new) trace.old trace.new) }
    {
        match push_and_take(&mut self.seat, bank, list, new, trace)? {
            Ok(()) => Ok(Acquired::Got),
            Err(Missed::Worn) => {
                take_off(list, new);
                Err(Fault::Worn)
            }
            Err(why) => {
                mark(&mut self.seat, bank, new, trace);
                Ok(Acquired::MustSwitch { why })
            }
        }
    }

    /// Asks for an exclusive reference without blocking: on `Ok` it is last on the list and held. That the holding is the
    /// list's and that the trace has room for 256 events are the caller's conditions.
    ///
    /// Refused with `NoToken`, `ListFull`, `Upgrade` and `Worn` as `get` is, else with `Busy` if the token is held, and with
    /// `Again` if another processor's step came between; list, holding and words are then as before.
    #[inline(never)]
    pub fn try_get(
        &mut self,
        bank: &Bank,
        list: &mut TokList,
        tok: TokId,
        trace: &mut Vec<Event>,
    ) -> Result<(), Fault>
        requires { IsReady (id_of bank.now) (seat_of self.old) list.old trace.old CALL_EVENTS }
        ensures ran { Ran (IsFront list.new) 1 (seat_of self.old) (seat_of self.new) trace.old trace.new }
        ensures refused { RefusedBy (get_refusal (id_of bank.now) list.old (exclusive tok)) (IsMissed list.old (exclusive tok) (seat_of self.old) (seat_of self.new)) result }
        ensures ok { OnOk result (Takes list.old list.new (exclusive tok) (seat_of self.old) (seat_of self.new) trace.old trace.new) }
        ensures err { OnErr result ((list.new ≡ list.old) × ChangesNothing (seat_of self.old) (seat_of self.new) trace.old trace.new) }
    {
        let new = Ref {
            tok,
            mode: Mode::Exclusive,
        };
        match push_and_take(&mut self.seat, bank, list, new, trace)? {
            Ok(()) => Ok(()),
            Err(why) => {
                take_off(list, new);
                Err(refusal(why))
            }
        }
    }
}
