//! The desk of a bank: a place for the seat of each processor, where it rests between calls, and what a close needs.
ghost use Rattle.std.specs.Prelude.{◌≡◌, ◌⊎◌, ◌↔◌, ◌*◌, ◌<◌, ◌≤◌, true, is_none, IsTrue, IfOk, IfErr, IfSome};
ghost use Rattle.std.specs.Arc.{arc_value};
ghost use Rattle.lwkt_base.specs.declared.limits.TheConstants.{CPU_LIMIT};
ghost use Rattle.lwkt_bank.specs.Seats.{cpus_of};
ghost use Rattle.lwkt_seats.specs.Endings.{IsEndingOf};
ghost use Rattle.lwkt_seats.specs.Places.{word_of_place};
ghost use Rattle.lwkt_seats.specs.SeatStates.{seat_state, away_number, abandon_number, MayFree};

use crate::endings::{Chest, Ending};
use crate::places::{Claim, Hand, Leave, PlaceRule};
use crate::sitters::Sitter;
use atomic_table::Table;
use counted_slot::{Counted, FREE, MARKED, PRESENT, TAKEN};
use lwkt_bank::Bank;
use std::alloc::Global;
use std::sync::Arc;
use std::sync::atomic::{AtomicU64, Ordering};

/// What the library answers where there is no seat of the number.
pub const NO_SEAT: u32 = 30;

/// What it answers while another call has the seat.
pub const IN_USE: u32 = 50;

/// What it answers where the bank is closed.
pub const CLOSED: u32 = 52;

/// The word of a place whose seat rests in it.
pub const AT_REST: u64 = 0;

/// The word of a place whose seat a call has, or the close.
pub const AWAY: u64 = 1;

/// The place of what a close needs. While its word is `PRESENT`, a close is at work; once it is `MARKED`, the bank is closed.
pub type Drawer = Counted<Option<Chest>>;

/// Where a seat is.
#[derive(Clone, Copy)]
pub enum SeatState {
    /// It rests in its place.
    Rests,
    /// A call has it, or had it and never came back.
    Away,
    /// The bank is closed.
    Shut,
}

/// The word of the place of a number.
#[inline(always)]
pub(crate) fn word_of_place(number: usize) -> usize
    requires { number < CPU_LIMIT }
    ensures { result ≡ word_of_place number }
{
    16 * number + 8
}

/// Takes what a close needs from its place: `IN_USE` while another close is at work, or `CLOSED`.
pub(crate) fn open_drawer(drawer: &Drawer) -> Result<Box<Ending>, u32>
    ensures ok { IfOk result (λ ending. IsEndingOf (arc_value drawer.now) ending.value) }
    ensures err { IfErr result (λ answer. (answer ≡ 50) ⊎ (answer ≡ 52)) }
{
    let (found, claim) = drawer.turn(FREE, TAKEN);
    if found == MARKED {
        claim.done();
        return Err(CLOSED);
    }
    if found != FREE {
        claim.done();
        return Err(IN_USE);
    }
    match claim.put(None, PRESENT) {
        Some(chest) => Ok(chest.into_ending()),
        None => Err(IN_USE),
    }
}

/// Puts it back.
pub(crate) fn close_drawer(drawer: &Drawer, ending: Box<Ending>)
    requires { IsEndingOf (arc_value drawer.now) ending.value }
{
    let (found, claim) = drawer.turn(PRESENT, TAKEN);
    if found != PRESENT {
        claim.done();
        return;
    }
    let _ = claim.put(Some(Chest::of(ending)), FREE);
}

/// Shuts the empty place of it for good.
pub(crate) fn shut_drawer(drawer: &Drawer) {
    let (found, claim) = drawer.turn(PRESENT, TAKEN);
    if found != PRESENT {
        claim.done();
        return;
    }
    let _ = claim.put(None, MARKED);
}

// By the word of its place, and whether the bank is closed.
fn seat_state(word: u64, closed: bool) -> SeatState
    ensures { result ≡ seat_state word closed }
{
    match word {
        AT_REST => SeatState::Rests,
        _ if closed => SeatState::Shut,
        _ => SeatState::Away,
    }
}

// What is answered where a seat is away, and whether it was given up.
fn away_number(lost: bool) -> u32
    ensures { result ≡ away_number lost }
{
    if lost { 54 } else { IN_USE }
}

// What is answered where a seat is to be given up.
fn abandon_number(state: SeatState, before: bool) -> u32
    ensures { result ≡ abandon_number state before }
{
    match state {
        SeatState::Rests => 55,
        SeatState::Shut => CLOSED,
        SeatState::Away if before => 54,
        SeatState::Away => 0,
    }
}

fn may_free(word: u64, lost: u64) -> bool
    ensures { IsTrue result ↔ MayFree word lost }
{
    word == MARKED || lost != 0
}

/// The places of a bank's seats, by processor: 1 to 8; and that of what its close needs.
#[derive(Drop)]
pub struct Desk {
    pub(crate) places: Table<Option<Box<Sitter>>, Arc<Bank>, Arc<Bank>, PlaceRule, Global>,
    pub(crate) drawer: Drawer,
    // A bit for each seat that was given up as lost.
    pub(crate) lost: AtomicU64,
    ghost wide: { places.shared.table_id.words ≡ 16 * places.shared.table_id.slots },
    ghost few: { places.shared.table_id.slots ≤ CPU_LIMIT },
    ghost all: { cpus_of (arc_value places.shared.key) ≡ places.shared.table_id.slots },
    ghost one: { arc_value drawer ≡ arc_value places.shared.key },
}

impl Desk {
    ghost use Rattle.lwkt_seats.specs.Desks.{seats_of, HasSeat, IsAbsent, IsAbandonAnswer};

    /// How many seats there are.
    pub(crate) fn seats(&self) -> usize
        ensures is { result ≡ seats_of self.now }
        ensures few { result ≤ CPU_LIMIT }
    {
        self.places.slot_count()
    }

    // Takes the seat of a number, if it rests in its place.
    #[inline(always)]
    fn take_out(&self, number: usize) -> Option<Hand>
        requires { number < seats_of self.now }
        ensures { IfSome result (λ hand. HasSeat self.now number hand) }
    {
        let word = word_of_place(number);
        let (found, hand) = self.places.shared.swap_new_seat::<Claim>(word, AWAY);
        if found != AT_REST {
            return None;
        }
        Some(hand)
    }

    // Whether the bank is closed.
    fn is_closed(&self) -> bool {
        self.drawer.load() == MARKED
    }

    // Whether the seat of this number was given up as lost.
    fn is_lost(&self, number: usize) -> bool
        requires { number < 64 }
    {
        self.lost.load(Ordering::SeqCst) >> number & 1 == 1
    }

    // What is answered where the seat doesn't rest.
    #[inline(never)]
    fn absent(&self, number: usize) -> u32
        requires { number < seats_of self.now }
        ensures { (result ≡ 50) ⊎ ((result ≡ 52) ⊎ (result ≡ 54)) }
    {
        if self.is_closed() {
            return CLOSED;
        }
        away_number(self.is_lost(number))
    }

    /// The seat of this number, taken from its place: `NO_SEAT` where there is none, `IN_USE`, `CLOSED`, or 54 where it was given up.
    #[inline(always)]
    pub(crate) fn seat(&self, number: u32) -> Result<Hand, u32>
        ensures ok { IfOk result (λ hand. HasSeat self.now number hand) }
        ensures err { IfErr result (λ answer. IsAbsent self.now number answer) }
    {
        let number = number as usize;
        if number >= self.seats() {
            return Err(NO_SEAT);
        }
        match self.take_out(number) {
            Some(hand) => Ok(hand),
            None => Err(self.absent(number)),
        }
    }

    /// Puts the seat of this number back in its place.
    #[inline(always)]
    pub(crate) fn put_back(&self, number: u32, mut hand: Hand)
        requires { HasSeat self.now number hand }
    {
        let word = word_of_place(number as usize);
        self.places.shared.store::<Leave>(&mut hand, word, AT_REST);
    }

    // Notes that the seat is given up. Whether it was before.
    fn lose(&self, number: u32, state: SeatState) -> bool
        requires place { number < 64 }
        requires away { state ≡ SeatState.Away }
    {
        self.lost.fetch_or(1 << number, Ordering::SeqCst) >> number & 1 == 1
    }

    /// Gives up a seat that is away for good, since the call that had it never came back.
    pub(crate) fn abandon(&self, number: u32) -> u32
        ensures { IsAbandonAnswer self.now number result }
    {
        if number as usize >= self.seats() {
            return NO_SEAT;
        }
        let word = self.places.shared.peek(word_of_place(number as usize));
        match seat_state(word, self.is_closed()) {
            SeatState::Away => abandon_number(SeatState::Away, self.lose(number, SeatState::Away)),
            state => abandon_number(state, false),
        }
    }

    /// Whether the bank may be freed.
    pub(crate) fn is_over(&self) -> bool {
        may_free(self.drawer.load(), self.lost.load(Ordering::SeqCst))
    }
}
