use crate::views::{Key, View};
use atomic_table::{Seat, Shared, Table, TableRule};
use lwkt_base::Rec;
use std::alloc::Global;

/// The rule of the book: each message has one owner, with its record where the owner is, and there is one history of what all
/// seats have done.
pub struct BookRule;

impl TableRule<Rec, View, Key> for BookRule {
    ghost use Rattle.lwkt_msg.specs.Book.{first_view};
    ghost use Rattle.lwkt_msg.specs.Ledger.{Ledger};

    ghost holds = { Ledger };

    ghost first = { first_view };
}

/// The words and records of a book.
pub type BookTable = Table<Rec, View, Key, BookRule, Global>;

/// The part of a book's table that seats step on.
pub type Top = Shared<Rec, View, Key, BookRule>;

/// A seat at a book's table.
pub type Place = Seat<Rec, View>;
