//! A word that refused a list, looked at again.
ghost use Rattle.std.specs.Prelude.{◌≡◌, ℕ, ◌<◌, true, length, All};
ghost use Rattle.lwkt_base.specs.Holding.{holds_nothing};
ghost use Rattle.lwkt_bank.specs.Seats.{id_of, bank_of, tokens_of, holding};

use crate::holds::Hold;
use lwkt_bank::Bank;
use lwkt_base::TokList;

impl Hold {
    ghost use Rattle.lwkt_hold.specs.Holds.{seat_of};
    ghost use Rattle.lwkt_hold.specs.Misses.{IsRefusing, Misses};
    ghost use Rattle.lwkt_hold.specs.Rows.{SameRow};
    ghost use Rattle.lwkt_hold.specs.Stays.{Stays, RunsUnseen};
    ghost use Rattle.lwkt_hold.specs.declared.answers.Missed.{Missed};

    /// Whether the word of the token that the reference of this place is to is still this one: one load. Where it is the word
    /// that refused this reference, a try of it would be refused by that word again. That nothing is held, that the tokens
    /// exist and that the place is one of the list are the caller's conditions.
    pub fn still(&mut self, bank: &Bank, list: &TokList, at: usize, word: u64) -> bool
        requires of { bank_of (seat_of self.old) ≡ id_of bank.now }
        requires there { All (λ r. r.tok.0 < tokens_of (bank_of (seat_of self.old))) list.now }
        requires empty { holding (seat_of self.old) ≡ holds_nothing }
        requires within { at < length list.now }
        ensures stays { Stays (seat_of self.old) (seat_of self.new) list.now at word result }
        ensures refuses { result ≡ true → IsRefusing list.now at word → Misses (seat_of self.old) (seat_of self.new) list.now at (Missed.Busy word) }
        ensures ran { RunsUnseen (seat_of self.old) (seat_of self.new) }
        ensures empty { holding (seat_of self.new) ≡ holds_nothing }
        ensures rows { (tok : ℕ) → SameRow (seat_of self.old) (seat_of self.new) tok }
    {
        let refs = list.refs();
        let found = self.seat.word(bank, refs[at].tok);
        found == word
    }
}
