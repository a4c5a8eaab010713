//! The places of a bank's seats: a table of the kit's, with a word and a slot for each. The word says whether the seat rests, and whoever
//! finds in it that it does, and writes that it is away, has the seat.
ghost use Rattle.std.specs.Prelude.{◌≡◌};
ghost use Rattle.std.specs.Arc.{arc_value};
ghost use Rattle.lwkt_seats.specs.Places.{AreAtRest, claims, leaves};

use crate::sitters::Sitter;
use atomic_table::{Play, Seat, TableRule};
use lwkt_bank::Bank;
use std::sync::Arc;

/// A seat that a call has: with it its slot is out of the table.
pub type Hand = Seat<Option<Box<Sitter>>, Arc<Bank>>;

/// Where a place's word says that the seat rests, its slot has the seat of its number, of the bank that the table is for.
pub struct PlaceRule;

impl TableRule<Option<Box<Sitter>>, Arc<Bank>, Arc<Bank>> for PlaceRule {
    ghost holds = { λ bank. AreAtRest (arc_value bank) };

    ghost first = { λ bank. bank };
}

/// A swap that takes a seat that rests.
pub(crate) struct Claim;

impl Play<Option<Box<Sitter>>, Arc<Bank>> for Claim {
    ghost then = { claims };
}

/// A store that puts it back.
pub(crate) struct Leave;

impl Play<Option<Box<Sitter>>, Arc<Bank>> for Leave {
    ghost then = { leaves };
}
