//! What each step on the book's table shows, and how views are cut and put together.
ghost use Rattle.lwkt_msg.specs.Plays.{looks, sends_it, takes_it, replies_to_it, reaps_it, drops_it, requests, hands_out};
ghost use Rattle.lwkt_msg.specs.Views.{clerk_after, new_seat, spent_left, whole_right, joined, spent_view};

use crate::views::View;
use atomic_table::{Join, Play, Split};
use lwkt_base::Rec;

/// A load of a message's word.
pub(crate) struct Look;

impl Play<Rec, View> for Look {
    ghost then = { looks };
}

/// The load at the opening by which an origin gets a record.
pub(crate) struct HandOut;

impl Play<Rec, View> for HandOut {
    ghost then = { hands_out };
}

pub(crate) struct Send;

impl Play<Rec, View> for Send {
    ghost then = { sends_it };
}

pub(crate) struct Take;

impl Play<Rec, View> for Take {
    ghost then = { takes_it };
}

pub(crate) struct Reply;

impl Play<Rec, View> for Reply {
    ghost then = { replies_to_it };
}

pub(crate) struct Reap;

impl Play<Rec, View> for Reap {
    ghost then = { reaps_it };
}

pub(crate) struct DropMsg;

impl Play<Rec, View> for DropMsg {
    ghost then = { drops_it };
}

pub(crate) struct Abort;

impl Play<Rec, View> for Abort {
    ghost then = { requests };
}

/// The clerk makes the seat of the next processor.
pub(crate) struct MakeSeat;

impl Split<View> for MakeSeat {
    ghost left = { clerk_after };

    ghost right = { new_seat };
}

/// A seat's view is cut off from the records that it has in hand.
pub(crate) struct CutOff;

impl Split<View> for CutOff {
    ghost left = { spent_left };

    ghost right = { whole_right };
}

/// The clerk takes a seat back.
pub(crate) struct TakeBack;

impl Join<View> for TakeBack {
    ghost both = { joined };

    ghost spent = { spent_view };
}
