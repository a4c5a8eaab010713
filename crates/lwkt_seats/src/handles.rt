//! What C has of a bank: a pointer to its desk, or null.
ghost use Rattle.std.specs.Prelude.{◌≡◌, MatchOption, Option, Some, None, IfOk, IfErr};
ghost use Rattle.lwkt_seats.specs.declared.desks.Desk.{Desk};
ghost use Rattle.lwkt_seats.specs.Desks.{HasSeat};
ghost use Rattle.lwkt_seats.specs.Handles.{desk_coded, is_lent, is_held, IsAbsentIn};

use crate::desks::{CLOSED, Desk};
use crate::places::Hand;
use crate::raw_boxes::RawBox;
use std::alloc::Global;
use std::marker::Model;

/// A bank as C passes it to a call. The call takes its desk to be there for good; what it needs is that the desk is there until the call
/// returns, since it keeps nothing of it. That is what C owes: it frees no bank that a call has.
#[repr(C)]
pub struct LwktBank {
    place: *mut u8,
    pub ghost desk: { Option Desk } by { desk_coded },
}

impl Model for LwktBank {
    ghost also_owns = { λ b. is_lent b.place b.desk };
}

impl LwktBank {
    /// The desk; none where this is a bank of zeros.
    pub fn desk(self) -> Option<&'static Desk>
        ensures { MatchOption result (self.desk ≡ None) (λ r. self.desk ≡ Some r.now) }
    {
        let LwktBank { place } = self;
        if place.is_null() {
            return None;
        }
        unsafe { Some(&*(place as *const Desk)) }
    }

    /// The seat of this number, taken from its place; a bank of zeros counts as one that is closed.
    #[inline(always)]
    pub(crate) fn seat(self, number: u32) -> Result<(&'static Desk, Hand), u32>
        ensures ok { IfOk result (λ found. self.desk ≡ Some found.0.now) }
        ensures seat { IfOk result (λ found. HasSeat found.0.now number found.1) }
        ensures err { IfErr result (λ answer. IsAbsentIn self.desk number answer) }
    {
        match self.desk() {
            Some(desk) => match desk.seat(number) {
                Ok(hand) => Ok((desk, hand)),
                Err(answer) => Err(answer),
            },
            None => Err(CLOSED),
        }
    }
}

/// A bank as C keeps it.
#[repr(C)]
pub struct LwktHeld {
    place: *mut u8,
    pub ghost desk: { Option Desk } by { desk_coded },
}

impl Model for LwktHeld {
    ghost also_owns = { λ b. is_held b.place b.desk };
}

/// A bank of zeros.
pub fn no_bank() -> LwktHeld
    ensures { result.desk ≡ None }
{
    LwktHeld {
        place: std::ptr::null_mut(),
    }
}

/// A desk, closed: a pointer to it can be kept.
pub fn hold(parts: RawBox<Desk, Global>) -> LwktHeld
    ensures { result.desk ≡ Some parts.value }
{
    let RawBox { ptr, alloc: _ } = parts;
    LwktHeld {
        place: ptr as *mut u8,
    }
}

/// The desk again; none where this is a bank of zeros.
pub fn let_go(alloc: Global, held: LwktHeld) -> Option<RawBox<Desk, Global>>
    ensures { MatchOption result (held.desk ≡ None) (λ parts. held.desk ≡ Some parts.value) }
{
    let LwktHeld { place } = held;
    if place.is_null() {
        return None;
    }
    Some(RawBox {
        ptr: place as *mut Desk,
        alloc,
    })
}

/// Puts a desk into C's hands: where it is.
pub fn hand_out(parts: RawBox<Desk, Global>) -> *mut u8
    ensures { result ≡ parts.ptr }
{
    let RawBox { ptr, alloc: _ } = parts;
    ptr as *mut u8
}

unsafe impl Send for LwktBank {}

unsafe impl Send for LwktHeld {}
