//! What each step on the table shows its seat.
ghost use Rattle.lwkt_bank.specs.Plays.{at_word, at_cell, shares, takes_out, puts_back, brings_record, reads_record, writes_record, Looks, AddsOne, Marks, GivesOne, GivesClean, GivesWritten, ReadsCell, StoresCell, RaisesCell};
ghost use Rattle.lwkt_bank.specs.Views.{clerk_after, new_seat, joined, spent};

use crate::views::View;
use atomic_table::{Join, Play, Split};
use lwkt_base::Blob;

/// A load of a count word.
pub(crate) struct Look;

impl Play<Blob, View> for Look {
    ghost then = { at_word Looks };
}

/// An exchange that takes a token exclusively.
pub(crate) struct Take;

impl Play<Blob, View> for Take {
    ghost then = { takes_out };
}

/// An exchange that takes a token shared.
pub(crate) struct Share;

impl Play<Blob, View> for Share {
    ghost then = { shares };
}

/// A further reference.
pub(crate) struct AddOne;

impl Play<Blob, View> for AddOne {
    ghost then = { at_word AddsOne };
}

/// The mark.
pub(crate) struct SetMark;

impl Play<Blob, View> for SetMark {
    ghost then = { at_word Marks };
}

/// A reference less that doesn't end an exclusive holding.
pub(crate) struct GiveOne;

impl Play<Blob, View> for GiveOne {
    ghost then = { at_word GivesOne };
}

/// The end of an exclusive holding with the row as it was.
pub(crate) struct GiveClean;

impl Play<Blob, View> for GiveClean {
    ghost then = { puts_back GivesClean };
}

/// The end of an exclusive holding with another row.
pub(crate) struct GiveWritten;

impl Play<Blob, View> for GiveWritten {
    ghost then = { puts_back GivesWritten };
}

/// A load of a cell.
pub(crate) struct ReadCell;

impl Play<Blob, View> for ReadCell {
    ghost then = { at_cell ReadsCell };
}

/// A store to a cell.
pub(crate) struct StoreCell;

impl Play<Blob, View> for StoreCell {
    ghost then = { at_cell StoresCell };
}

/// A store to the cell of a Tally token.
pub(crate) struct RaiseCell;

impl Play<Blob, View> for RaiseCell {
    ghost then = { at_cell RaisesCell };
}

/// A load that notes that a record is read.
pub(crate) struct ReadRecord;

impl Play<Blob, View> for ReadRecord {
    ghost then = { reads_record };
}

/// A load that brings a record to the front, and notes nothing.
pub(crate) struct BringRecord;

impl Play<Blob, View> for BringRecord {
    ghost then = { brings_record };
}

/// A load that notes that the record in front was written.
pub(crate) struct WriteRecord;

impl Play<Blob, View> for WriteRecord {
    ghost then = { writes_record };
}

/// The clerk makes a seat.
pub(crate) struct HandOut;

impl Split<View> for HandOut {
    ghost left = { clerk_after };

    ghost right = { new_seat };
}

/// The clerk takes a seat back.
pub(crate) struct TakeBack;

impl Join<View> for TakeBack {
    ghost both = { joined };

    ghost spent = { spent };
}
