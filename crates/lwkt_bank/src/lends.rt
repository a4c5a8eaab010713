//! The bank's table and its seats, as the kit has them: what ties the calls to the rule.
ghost use Rattle.std.specs.Prelude.{◌≡◌};
ghost use Rattle.lwkt_bank.specs.Rule.{table_words};
ghost use Rattle.lwkt_bank.specs.Seats.{id_of, cpus_of, tokens_of};
ghost use Rattle.lwkt_bank.specs.Lent.{IsSeatOf};

use crate::banks::Bank;
use crate::rules::{BankRule, Key};
use crate::seats::CpuSeat;
use crate::views::View;
use atomic_table::{Seat, Shared};
use lwkt_base::Blob;

impl Bank {
    /// The table that the bank's seats step on. Its type names the rule that the kit keeps between any two steps of any
    /// number of seats. Whoever steps on it has to keep that rule.
    pub fn shared(&self) -> &Shared<Blob, View, Key, BankRule>
        ensures table { result.now.table_id ≡ (id_of self.now).table }
        ensures plans { result.now.key.plans.items ≡ (id_of self.now).plans }
        ensures processors { result.now.key.cpus ≡ cpus_of self.now }
        ensures wide { result.now.table_id.words ≡ table_words (tokens_of (id_of self.now)) }
        ensures deep { result.now.table_id.slots ≡ tokens_of (id_of self.now) }
    {
        &self.table.shared
    }
}

impl CpuSeat {
    /// The seat at the bank's table that the calls step with.
    pub fn seat(&self) -> &Seat<Blob, View>
        ensures { IsSeatOf self.now result.now }
    {
        &self.seat
    }

    /// Gives up the calls, and keeps the seat at the bank's table. The bank can't be closed then.
    pub fn into_seat(self) -> Seat<Blob, View>
        ensures { IsSeatOf self result }
    {
        let CpuSeat {
            notes: _,
            seat,
            cpu: _,
        } = self;
        seat
    }
}
