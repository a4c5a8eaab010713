//! The close of a bank: its seats are taken from their places, and the bank is closed with them. All memory for it was taken at the
//! opening.
ghost use Rattle.std.specs.Prelude.{◌≡◌, ◌≢◌, ◌⊎◌, ◌↔◌, ◌<◌, ◌≤◌, [], ◌∷◌, ◌++◌, length, map, All, IfOk, IfErr, IfSome, OnOk, MatchOption, Ok, Err, vec_capacity};
ghost use Rattle.std.specs.Arc.{arc_value};
ghost use Rattle.lwkt_bank.specs.declared.closed.Closed.{Closed};
ghost use Rattle.lwkt_bank.specs.Seats.{id_of, cpus_of, tokens_of};
ghost use Rattle.lwkt_bank.specs.Closing.{IsReady, IsRoomFor};
ghost use Rattle.lwkt_bank.specs.Gathered.{IsClosed};

use crate::desks::{Desk, close_drawer, open_drawer, shut_drawer};
use crate::endings::Ending;
use crate::places::Hand;
use crate::resumes::is_idle;
use crate::sitters::Sitter;
use crate::taken::Taken;
use lwkt_bank::{Bank, CloseRoom, Closed, CpuSeat};
use std::sync::Arc;

/// What is answered where there is too little room for the closing values.
pub const NO_ROOM: u32 = 39;

/// What is answered where a seat holds a token.
pub const HOLDS: u32 = 51;

/// What is answered where a share of the bank is out for good: with a seat that was given up as lost.
pub const BANK_IN_USE: u32 = 53;

// Appends a seat that is out of its slot to a list that has room.
fn put_taken(list: &mut Vec<Taken>, taken: Taken)
    requires { length list.old.items < vec_capacity list.old }
    ensures items { list.new.items ≡ list.old.items ++ taken ∷ [] }
    ensures room { vec_capacity list.old ≤ vec_capacity list.new }
{
    let _ = list.push(taken);
}

// Appends a seat to a list that has room.
fn put_seat(list: &mut Vec<CpuSeat>, seat: CpuSeat)
    requires { length list.old.items < vec_capacity list.old }
    ensures items { list.new.items ≡ list.old.items ++ seat ∷ [] }
    ensures room { vec_capacity list.old ≤ vec_capacity list.new }
{
    let _ = list.push(seat);
}

// A seat without its bank.
fn seat_of(taken: Taken) -> CpuSeat
    ensures { result ≡ taken.sitter.value.seat }
{
    let Taken { sitter, hand: _ } = taken;
    let Sitter {
        seat,
        bank,
        count: _,
    } = Box::into_inner(sitter);
    drop(bank);
    seat
}

// The seats of all, without their bank.
fn seats_of(sitters: Vec<Taken>, mut seats: Vec<CpuSeat>) -> Vec<CpuSeat>
    requires none { seats.items ≡ [] }
    requires room { length sitters.items ≤ vec_capacity seats }
    ensures { result.items ≡ map (λ x. x.sitter.value.seat) sitters.items }
{
    for taken in sitters {
        put_seat(&mut seats, seat_of(taken));
    }
    seats
}

// Closes a bank with all its seats, if no share of it is out: exactly else it is still in use.
fn close_sole(sole: Option<Bank>, room: CloseRoom, seats: Vec<CpuSeat>) -> Result<Closed, u32>
    requires ready { IfSome sole (λ bank. All (IsReady (id_of bank)) seats.items) }
    requires all { IfSome sole (λ bank. length seats.items ≡ cpus_of bank) }
    requires room { IfSome sole (λ bank. IsRoomFor (id_of bank) (cpus_of bank) room) }
    ensures { MatchOption sole (result ≡ Err 53) (λ bank. (closed : Closed) × ((result ≡ Ok closed) × IsClosed (id_of bank) (cpus_of bank) seats.items closed)) }
{
    match sole {
        Some(bank) => Ok(bank.close_in(room, seats)),
        None => Err(BANK_IN_USE),
    }
}

// Closes a bank that is shared no more, with all its seats.
fn finish(bank: Arc<Bank>, room: CloseRoom, seats: Vec<CpuSeat>) -> Result<Closed, u32>
    requires ready { All (IsReady (id_of (arc_value bank))) seats.items }
    requires all { length seats.items ≡ cpus_of (arc_value bank) }
    requires room { IsRoomFor (id_of (arc_value bank)) (cpus_of (arc_value bank)) room }
    ensures closed { IfOk result (λ closed. IsClosed (id_of (arc_value bank)) (cpus_of (arc_value bank)) seats.items closed) }
    ensures only { IfErr result (λ answer. answer ≡ 53) }
{
    close_sole(Arc::into_inner(bank), room, seats)
}

// What a close answers where a seat isn't in its place: a seat that was given up has a share of the bank.
fn close_number(answer: u32) -> u32
    requires { (answer ≡ 30) ⊎ ((answer ≡ 50) ⊎ ((answer ≡ 52) ⊎ (answer ≡ 54))) }
    ensures in_use { result ≡ 53 ↔ answer ≡ 54 }
    ensures same { answer ≢ 54 → result ≡ answer }
{
    if answer == 54 { BANK_IN_USE } else { answer }
}

impl Desk {
    ghost use Rattle.lwkt_seats.specs.Desks.{seats_of as seats_in, HasSeat};
    ghost use Rattle.lwkt_seats.specs.Closes.{HasOut, IsFreeAt, AreFree, IsEndingWith, SomeHolds, ClosesDesk, IsWide};

    // Takes a seat out of its slot.
    fn lift(&self, number: u32, mut hand: Hand) -> Taken
        requires { HasSeat self.now number hand }
        ensures { HasOut self.now number result }
    {
        let Some(sitter) = self
            .places
            .shared
            .exchange(&mut hand, number as usize, None)
        else {
            unreachable!()
        };
        Taken { sitter, hand }
    }

    // Puts a seat that is out of its slot back in its place.
    fn set_down(&self, number: u32, taken: Taken)
        requires { HasOut self.now number taken }
    {
        let Taken { sitter, mut hand } = taken;
        let _ = self
            .places
            .shared
            .exchange(&mut hand, number as usize, Some(sitter));
        self.put_back(number, hand);
    }

    // The seat of a number, which holds nothing, out of its slot.
    fn free_seat(&self, number: u32) -> Result<Taken, u32>
        requires { number < seats_in self.now }
        ensures ok { IfOk result (λ taken. IsFreeAt self.now number taken) }
        ensures holds { result ≡ Err 51 → SomeHolds self.now }
        ensures only { IfErr result (λ answer. (answer ≡ 50) ⊎ ((answer ≡ 51) ⊎ ((answer ≡ 52) ⊎ (answer ≡ 53)))) }
    {
        let hand = match self.seat(number) {
            Ok(hand) => hand,
            Err(answer) => return Err(close_number(answer)),
        };
        let taken = self.lift(number, hand);
        if is_idle(&taken.sitter.seat, taken.sitter.count) {
            return Ok(taken);
        }
        self.set_down(number, taken);
        Err(HOLDS)
    }

    // Puts the seats back in their places.
    fn put_all_back(&self, sitters: &mut Vec<Taken>)
        requires { AreFree self.now sitters.old.items }
        ensures none { sitters.new.items ≡ [] }
        ensures room { vec_capacity sitters.new ≡ vec_capacity sitters.old }
    {
        while let Some(taken) = sitters.pop() {
            self.set_down(sitters.len() as u32, taken);
        }
    }

    // All seats, which hold nothing, out of their slots.
    fn free_seats(&self, sitters: &mut Vec<Taken>) -> Result<(), u32>
        requires none { sitters.old.items ≡ [] }
        requires room { seats_in self.now ≤ vec_capacity sitters.old }
        ensures ok { OnOk result (AreFree self.now sitters.new.items × (length sitters.new.items ≡ seats_in self.now)) }
        ensures back { IfErr result (λ answer. sitters.new.items ≡ []) }
        ensures room { vec_capacity sitters.old ≤ vec_capacity sitters.new }
        ensures holds { result ≡ Err 51 → SomeHolds self.now }
        ensures only { IfErr result (λ answer. (answer ≡ 50) ⊎ ((answer ≡ 51) ⊎ ((answer ≡ 52) ⊎ (answer ≡ 53)))) }
    {
        for number in 0..self.seats() {
            match self.free_seat(number as u32) {
                Ok(taken) => put_taken(sitters, taken),
                Err(answer) => {
                    self.put_all_back(sitters);
                    return Err(answer);
                }
            }
        }
        Ok(())
    }

    // Closes the bank with the seats that were taken.
    fn end(&self, ending: Box<Ending>, places: usize) -> Result<Closed, u32>
        requires ending { IsEndingWith self.now ending.value }
        requires fits { tokens_of (id_of (arc_value ending.value.bank)) ≤ places }
        ensures ok { IfOk result (λ closed. ClosesDesk self.now places closed) }
        ensures only { IfErr result (λ answer. answer ≡ 53) }
    {
        let Ending {
            bank,
            sitters,
            seats,
            room,
        } = Box::into_inner(ending);
        let closed = finish(bank, room, seats_of(sitters, seats));
        shut_drawer(&self.drawer);
        closed
    }

    /// Closes the bank, with all its seats: each has to rest in its place and to hold nothing, and there has to be room for each token's
    /// closing values. It takes no memory.
    ///
    /// `IN_USE` while another close is at work, or where a seat doesn't rest; `CLOSED`; `BANK_IN_USE` where a seat was given up; `HOLDS`
    /// where one holds a token; `NO_ROOM`. All is as before then.
    pub(crate) fn close(&self, room: usize) -> Result<Closed, u32>
        ensures ok { IfOk result (λ closed. ClosesDesk self.now room closed) }
        ensures holds { result ≡ Err 51 → SomeHolds self.now }
        ensures short { result ≡ Err 39 → IsWide self.now room }
        ensures only { IfErr result (λ answer. (answer ≡ 39) ⊎ ((answer ≡ 50) ⊎ ((answer ≡ 51) ⊎ ((answer ≡ 52) ⊎ (answer ≡ 53))))) }
    {
        let mut ending = open_drawer(&self.drawer)?;
        let held = &mut *ending;
        if let Err(answer) = self.free_seats(&mut held.sitters) {
            close_drawer(&self.drawer, ending);
            return Err(answer);
        }
        if held.bank.tokens() > room {
            self.put_all_back(&mut held.sitters);
            close_drawer(&self.drawer, ending);
            return Err(NO_ROOM);
        }
        self.end(ending, room)
    }
}
