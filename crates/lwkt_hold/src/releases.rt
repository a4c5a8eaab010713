//! References of a list given up: the last one, or all.
ghost use Rattle.std.specs.Prelude.{◌≡◌, ◌≢◌, ◌⊎◌, ℕ, ◌+◌, ◌-◌, ◌*◌, ◌<◌, ◌≤◌, ◌↔◌, [], ◌∷◌, ◌++◌, true, false, List, length, take, Some, None, Ok, Err, Option, OnOk, IfErr, vec_len, vec_capacity};
ghost use Rattle.lwkt_base.specs.Holding.{holding_of, holds_nothing};
ghost use Rattle.lwkt_base.specs.Refs.{first_mode, IsLastTo};
ghost use Rattle.lwkt_bank.specs.Seats.{id_of, bank_of, holding};
ghost use Rattle.lwkt_hold.specs.Fronts.{IsFront};
ghost use Rattle.lwkt_hold.specs.Runs.{Ran};
ghost use Rattle.lwkt_hold.specs.Ready.{IsReady};
ghost use Rattle.lwkt_hold.specs.Rows.{first_of};
ghost use Rattle.lwkt_base.specs.declared.names.Ref.{Ref};

use crate::answers::Blocked;
use crate::gives::give_last;
use crate::holds::Hold;
use lwkt_bank::Bank;
use lwkt_base::{Fault, TokId, TokList};
use lwkt_core::Event;
use lwkt_core::events::CALL_EVENTS;

impl Hold {
    ghost use Rattle.lwkt_hold.specs.Holds.{seat_of};
    ghost use Rattle.lwkt_hold.specs.Rows.{GivenUp, Blocks};
    ghost use Rattle.lwkt_hold.specs.Givings.{ReleasesLast, ReleasesAll};
    ghost use Rattle.lwkt_core.specs.declared.events.Event.{Event};

    /// Gives the last reference back, which has to be to this token. That the holding is the list's and that the
    /// trace has room for 256 events are the caller's conditions.
    ///
    /// Refused with `NotHeld` exactly if the token is not on the list, else with `NotLast` exactly if the last reference is
    /// to another token; nothing changes then. `Broken` says that the reference ended a section whose row and record had
    /// broken its law: they are the section's first ones again, and the reference is given back.
    #[inline(always)]
    pub fn rel(
        &mut self,
        bank: &Bank,
        list: &mut TokList,
        tok: TokId,
        trace: &mut Vec<Event>,
    ) -> Result<(), Fault>
        requires { IsReady (id_of bank.now) (seat_of self.old) list.old trace.old CALL_EVENTS }
        ensures ran { Ran (IsFront list.old) 6 (seat_of self.old) (seat_of self.new) trace.old trace.new }
        ensures held { holding (seat_of self.new) ≡ holding_of list.new }
        ensures ok { OnOk result (ReleasesLast (seat_of self.old) (seat_of self.new) list.old list.new tok false trace.old.items trace.new.items) }
        ensures err { IfErr result (λ fault. ((fault ≡ Fault.Broken) × ReleasesLast (seat_of self.old) (seat_of self.new) list.old list.new tok true trace.old.items trace.new.items)
            ⊎ (((fault ≡ Fault.NotHeld) ⊎ (fault ≡ Fault.NotLast)) × (self.new ≡ self.old) × (list.new ≡ list.old) × (trace.new ≡ trace.old))) }
        ensures not_held { (result ≡ Err Fault.NotHeld) ↔ (first_mode list.old tok.0 ≡ None) }
        ensures not_last { (result ≡ Err Fault.NotLast) ↔ ((first_mode list.old tok.0 ≢ None) × ¬ IsLastTo list.old tok.0) }
    {
        list.pop(tok)?;
        if give_last(&mut self.seat, bank, tok, trace) {
            return Err(Fault::Broken);
        }
        Ok(())
    }

    /// Gives up the first `held` references of a list, in reverse order. A section that has broken its law gets its first
    /// row and record again before it ends; the first such token is named. That these references are held and that the trace has room
    /// for 256 events are the caller's conditions.
    #[inline(never)]
    pub fn block(
        &mut self,
        bank: &Bank,
        list: &TokList,
        held: usize,
        trace: &mut Vec<Event>,
    ) -> Blocked
        requires of { bank_of (seat_of self.old) ≡ id_of bank.now }
        requires within { held ≤ length list.now }
        requires held { holding (seat_of self.old) ≡ holding_of (take held list.now) }
        requires room { vec_len trace.old + CALL_EVENTS ≤ vec_capacity trace.old }
        ensures ran { Ran (IsFront (take held list.now)) 192 (seat_of self.old) (seat_of self.new) trace.old trace.new }
        ensures empty { holding (seat_of self.new) ≡ holds_nothing }
        ensures rows { GivenUp (seat_of self.old) (seat_of self.new) }
        ensures events { (done : List Event) × ((trace.new.items ≡ trace.old.items ++ done) × ReleasesAll (seat_of self.old) [] (take held list.now) done) }
        ensures blocks { Blocks (seat_of self.old) list.now result }
    {
        let refs = list.refs();
        let mut first = None;
        for given in 0..held {
            let tok = refs[held - 1 - given].tok;
            let restored = give_last(&mut self.seat, bank, tok, trace);
            first = first_restored(first, restored, tok);
        }
        match first {
            Some(tok) => Blocked::Restored(tok),
            None => Blocked::Clean,
        }
    }
}

// The first token restored, after one more reference was given back.
fn first_restored(first: Option<TokId>, restored: bool, tok: TokId) -> Option<TokId>
    ensures { result ≡ first_of first restored tok }
{
    match first {
        Some(first) => Some(first),
        None if restored => Some(tok),
        None => None,
    }
}
