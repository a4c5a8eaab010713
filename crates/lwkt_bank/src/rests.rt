//! The clerk's seat rests while the bank is in use.
ghost use Rattle.std.specs.Prelude.{◌≡◌};
ghost use Rattle.lwkt_bank.specs.Seats.{id_of, id_of_desk};

use crate::banks::Bank;
use crate::clerks::ClerkDesk;
use lwkt_table::Resting;

impl ClerkDesk {
    /// The bank, whose clerk rests from now on.
    pub(crate) fn into_bank(self) -> Bank
        ensures { (id_of result ≡ id_of_desk self) × (result.key ≡ self.key) }
    {
        let ClerkDesk { table, clerk, key } = self;
        let clerk = Resting::of(clerk);
        Bank { table, clerk, key }
    }
}

impl Bank {
    /// The bank with its clerk's seat at hand again.
    pub(crate) fn into_desk(self) -> ClerkDesk
        ensures { (id_of_desk result ≡ id_of self) × (result.key ≡ self.key) }
    {
        let Bank { table, clerk, key } = self;
        let clerk = clerk.wake();
        ClerkDesk { table, clerk, key }
    }
}
