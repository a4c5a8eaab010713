use crate::views::{Plan, View};
use atomic_table::TableRule;
use lwkt_base::Blob;

/// What the bank's table is given once, when it is made.
#[derive(Drop)]
pub struct Key {
    /// The tokens, by their numbers.
    pub plans: Vec<Plan>,
    /// The number of processors.
    pub cpus: usize,
}

/// The rule between any two steps of any number of seats.
pub struct BankRule;

impl TableRule<Blob, View, Key> for BankRule {
    ghost use Rattle.lwkt_bank.specs.Ledger.{Ledger};
    ghost use Rattle.lwkt_bank.specs.Views.{first_view};

    ghost holds = { λ key. Ledger key.plans.items key.cpus };

    ghost first = { λ key. first_view key.plans.items };
}
