//! What a table of seats has, be it of tokens or of messages: the history of what was done at it, what each seat has seen of this
//! history, and the clerk, which makes the seats and takes them back.
//!
//! Words: a *deed* is one atomic step of a seat; a *history* is the deeds of all seats of a table, in order; a *view* is what a
//! seat knows, and a *chapter* what one that was taken back had seen; a *clerk* makes a table's seats and takes them back; it
//! *rests* while others step on the table, and *wakes* for the close; a *spent* view is one that was joined into another.
#![tactic(auto)]

pub mod laws;
pub mod seats;

ghost use Rattle.std.specs.Prelude.{◌≡◌};
ghost use Rattle.std.specs.Borrow.{ftrue};

use atomic_table::Seat;
pub use seats::{Chapter, Deed, Operation, SeatKind, WordStep};
use std::marker::Model;

/// A clerk's seat at rest. A reference to it gives no seat, so threads may share what it lies in; who owns it wakes the clerk.
pub struct Resting<S, V> {
    seat: Seat<S, V>,
}

impl<S, V> Model for Resting<S, V> {
    // It owns nothing beside the seat. By this member a reference to it shows none of its fields.
    ghost also_owns = { λ _. ftrue };
}

impl<S, V> Resting<S, V> {
    /// The clerk's seat, which rests from now on.
    pub fn of(seat: Seat<S, V>) -> Resting<S, V>
        ensures { result.seat ≡ seat }
    {
        Resting { seat }
    }

    /// The clerk's seat, as it was when it came to rest.
    pub fn wake(self) -> Seat<S, V>
        ensures { result ≡ self.seat }
    {
        let Resting { seat } = self;
        seat
    }
}

impl<S, V> Drop for Resting<S, V> {
    fn drop(self) {
        drop(self.wake());
    }
}

unsafe impl<S: Send, V> Send for Resting<S, V> {}

// Who has a reference has no seat.
unsafe impl<S: Send, V> Sync for Resting<S, V> {}
