//! What is so of every state of an open bank's table, and of an open book's.
ghost use Rattle.std.specs.Prelude.{◌≡◌};
ghost use Rattle.lwkt_bank.specs.Rule.{Bench};
ghost use Rattle.lwkt_bank.specs.Ledger.{Ledger};
ghost use Rattle.lwkt_bank.specs.Seats.{id_of, cpus_of};
ghost use Rattle.atomic_table.specs.Table.{State};
ghost use Rattle.lwkt_msg.specs.Ledger.{Ledger as BookLedger};
ghost use Rattle.lwkt_tie.specs.Sound.{IsSound};
ghost use Rattle.lwkt_tie.specs.Mails.{IsSoundBook};

use atomic_table::{Shared, TableRule};
use lwkt_bank::rules::{BankRule, Key};
use lwkt_bank::views::View;
use lwkt_bank::{Bank, laws as bank_laws};
use lwkt_base::{Blob, Rec};
use lwkt_core::headline;
use lwkt_msg::rules::BookRule;
use lwkt_msg::views::{Key as MailKey, View as MailView};
use lwkt_msg::{MsgBook, laws as book_laws};

/// The headline holds in every state that an open bank's table may be in between two steps of any number of seats: the rule
/// of its table, which the type names, allows no other.
pub fn states_are_sound(bank: &Bank)
    ensures { (key : Key) (s : Bench) → key.plans.items ≡ (id_of bank.now).plans → key.cpus ≡ cpus_of bank.now → ⟦<BankRule as TableRule<Blob, View, Key>>⟧.holds key s
        → (ledger : Ledger (id_of bank.now).plans (cpus_of bank.now) s) × IsSound (id_of bank.now).plans (cpus_of bank.now) s ledger }
{
    headline::runs_are_compatible();
    headline::runs_keep_laws();
    bank_laws::bank_keeps_that_rule();
    // That the bank's table is one of this rule, its type says.
    let _table: &Shared<Blob, View, Key, BankRule> = bank.shared();
}

/// The same of an open book's table.
pub fn book_states_are_sound(book: &MsgBook)
    ensures { (key : MailKey) (s : State Rec MailView) → key.specs.items ≡ book.now.specs → key.cpus ≡ book.now.cpus → ⟦<BookRule as TableRule<Rec, MailView, MailKey>>⟧.holds key s
        → (ledger : BookLedger key s) × IsSoundBook key s ledger }
{
    book_laws::rule_shows_safety();
    book_laws::states_are_reached();
    book_laws::book_keeps_that_rule();
    // That the book's table is one of this rule, its type says.
    let _table: &Shared<Rec, MailView, MailKey, BookRule> = book.shared();
}
