//! A whole list of references: taken, or not at all.
ghost use Rattle.std.specs.Prelude.{◌≡◌, ℕ, ◌+◌, ◌<◌, ◌≤◌, [], ◌++◌, take, All, vec_len, vec_capacity};
ghost use Rattle.lwkt_base.specs.Holding.{holds_nothing};
ghost use Rattle.lwkt_bank.specs.Seats.{id_of, bank_of, tokens_of, holding};
ghost use Rattle.lwkt_hold.specs.Fronts.{IsFront};
ghost use Rattle.lwkt_hold.specs.Runs.{Ran};

use crate::answers::Resumed;
use crate::gives::give_clean;
use crate::holds::Hold;
use crate::takes::take_one;
use lwkt_bank::Bank;
use lwkt_base::TokList;
use lwkt_core::Event;

impl Hold {
    ghost use Rattle.lwkt_hold.specs.Holds.{seat_of, Resumes};
    ghost use Rattle.lwkt_hold.specs.Rows.{IsAllClean};
    ghost use Rattle.lwkt_core.specs.Takings.{takes_all};
    ghost use Rattle.lwkt_hold.specs.Givings.{gives_all};
    ghost use Rattle.lwkt_hold.specs.declared.answers.Missed.{Missed};

    /// Takes the references of a list in order. At the first miss it gives back what it took, in reverse order. That
    /// nothing is held, that the tokens exist and that the trace has room for 64 events are the caller's conditions.
    pub fn resume(&mut self, bank: &Bank, list: &TokList, trace: &mut Vec<Event>) -> Resumed
        requires of { bank_of (seat_of self.old) ≡ id_of bank.now }
        requires there { All (λ r. r.tok.0 < tokens_of (bank_of (seat_of self.old))) list.now }
        requires empty { holding (seat_of self.old) ≡ holds_nothing }
        requires room { vec_len trace.old + 64 ≤ vec_capacity trace.old }
        ensures ran { Ran (IsFront list.now) 64 (seat_of self.old) (seat_of self.new) trace.old trace.new }
        ensures all { result ≡ Resumed.All → trace.new.items ≡ trace.old.items ++ takes_all (seat_of self.old).cpu [] list.now }
        ensures passed { (place : ℕ) → (why : Missed) → result ≡ Resumed.Passed place why
            → trace.new.items ≡ trace.old.items ++ (takes_all (seat_of self.old).cpu [] (take place list.now) ++ gives_all (seat_of self.old).cpu [] (take place list.now)) }
        ensures clean { IsAllClean (seat_of self.new) }
        ensures resumes { Resumes (seat_of self.old) (seat_of self.new) list.now result }
    {
        let refs = list.refs();
        for at in 0..refs.len() {
            if let Err(why) = take_one(&mut self.seat, bank, refs, at, trace) {
                give_clean(&mut self.seat, bank, refs, at, trace);
                return Resumed::Passed { at, why };
            }
        }
        Resumed::All
    }
}
