ghost use Rattle.std.specs.Prelude.{◌≡◌, ℕ, ◌+◌, ◌*◌, ◌≤◌, length};
ghost use Rattle.std.specs.Coded.{Coded-set};
ghost use Rattle.lwkt_base.specs.declared.limits.TheConstants.{CELL_LIMIT, CPU_LIMIT, TOKEN_LIMIT};
ghost use Rattle.lwkt_base.specs.declared.laws.Law.TheVariants.{Tally};
ghost use Rattle.lwkt_bank.specs.Views.{at, amount};
ghost use Rattle.lwkt_bank.specs.Rule.{plan_at, table_words};
ghost use Rattle.lwkt_bank.specs.Notes.{clerk_number};

use crate::rules::{BankRule, Key};
use crate::views::View;
use atomic_table::{Seat, Table};
use lwkt_base::Blob;
use std::alloc::Global;

/// A bank whose clerk's seat is at hand: at the opening, where the clerk makes the seats, and at the close.
#[derive(Drop)]
pub(crate) struct ClerkDesk {
    pub(crate) table: Table<Blob, View, Key, BankRule, Global>,
    pub(crate) clerk: Seat<Blob, View>,
    pub(crate) key: Key,
    ghost key_is: { table.shared.key ≡ key } by { Coded-set key-code table.shared.key key },
    ghost wide: { table.shared.table_id.words ≡ table_words (length key.plans.items) },
    ghost deep: { table.shared.table_id.slots ≡ length key.plans.items },
    ghost few: { length key.plans.items ≤ TOKEN_LIMIT },
    ghost few_cpus: { key.cpus ≤ CPU_LIMIT },
    ghost short: { (tok : ℕ) → (plan_at key.plans.items tok).cells ≤ CELL_LIMIT },
    ghost single: { (tok : ℕ) → (plan_at key.plans.items tok).law ≡ Tally → (plan_at key.plans.items tok).cells ≡ 1 },
    ghost seated: { clerk.table_id ≡ table.shared.table_id },
    ghost counts: { clerk_number clerk.me.0.kind ≡ 1 },
    ghost informed: { length clerk.me.0.plans ≡ length key.plans.items },
    ghost clean: { (tok : ℕ) → ((at clerk.me.0.tokens tok).written ≡ 0) × ((cpu : ℕ) → amount cpu (at clerk.me.0.tokens tok).added ≡ 0) },
}
