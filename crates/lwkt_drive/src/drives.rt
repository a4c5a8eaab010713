//! Processors driven, each on a thread of its own.
ghost use Rattle.std.specs.Prelude.{◌≡◌, ◌≢◌, true, false, ◌+◌, ◌<◌, ◌≤◌, ◌^◌, IfSome, All, None};
ghost use Rattle.std.specs.List.{AllZip};
ghost use Rattle.lwkt_bank.specs.Seats.{id_of};
ghost use Rattle.lwkt_drive.specs.Course.{IsAtTables, IsBelowLimits, IsDriven, MakesOne, ComesTo, GoesTo, DrivesOn};

use crate::boards::Board;
use crate::driven::{Door, Driven, Ending, Limits};
use crate::gates::Gate;
use crate::slices::{begin_all, drive_slices};
use crate::watches::Watch;
use lwkt_bank::Bank;
use lwkt_cpu::{Body, Turned};
use lwkt_msg::MsgBook;
use std::thread::Threads;

impl<B> Driven<B> {
    /// Whether it makes no further turn.
    pub(crate) fn has_ended(&self) -> bool
        ensures no { result ≡ false → self.now.ending ≡ Ending.NotDriven }
        ensures yes { result ≡ true → self.now.ending ≢ Ending.NotDriven }
    {
        !matches!(self.ending, Ending::NotDriven)
    }
}

impl<B: Body> Driven<B> {
    // Makes one turn more, or says why none. After a turn that ran no thread there is a pause, or the processor leaves its slice: that
    // is reported as `NotDriven`, since it hasn't ended.
    fn step<G: Gate>(
        &mut self,
        door: &Door<'_, G>,
        watch: &mut Watch<'_>,
        limits: &Limits,
        bank: &Bank,
        book: &MsgBook,
        turn: u64,
    ) -> Option<Ending>
        requires at { IsAtTables (id_of bank.now) book.now.table self.old }
        requires within { IsBelowLimits limits.now self.old.drove }
        ensures some { IfSome result (λ ending. ComesTo B.polled (G.answers door.now.gate.now) (id_of bank.now) limits.now turn self.old self.new ending) }
        ensures none { result ≡ None → MakesOne B.polled (G.answers door.now.gate.now) (id_of bank.now) limits.now turn self.old self.new }
        ensures at { IsAtTables (id_of bank.now) book.now.table self.new }
        ensures same { self.new.id ≡ self.old.id }
    {
        if let Some(ending) = self.ends(door, watch, limits, turn) {
            return Some(ending);
        }
        match self.advance(watch, bank, book) {
            Ok(Turned::Ran { .. }) => watch.ran(),
            Ok(Turned::Idle | Turned::AllExited) => {
                if self.rests(watch) {
                    return Some(Ending::NotDriven);
                }
            }
            Err(refused) => {
                watch.board().call_off(refused);
                return Some(Ending::NoMemory(refused));
            }
        }
        None
    }

    // Makes turns, and says why it makes no further one: with `NotDriven` it goes on in a later slice.
    fn go_on<G: Gate>(
        &mut self,
        door: &Door<'_, G>,
        watch: &mut Watch<'_>,
        limits: &Limits,
        bank: &Bank,
        book: &MsgBook,
    ) -> Ending
        requires at { IsAtTables (id_of bank.now) book.now.table self.old }
        requires within { IsBelowLimits limits.now self.old.drove }
        ensures goes { GoesTo B.polled (G.answers door.now.gate.now) (id_of bank.now) limits.now self.old self.new result }
        ensures more { result ≡ Ending.NotDriven → self.old.drove.ran + self.old.drove.idle < self.new.drove.ran + self.new.drove.idle }
        ensures at { IsAtTables (id_of bank.now) book.now.table self.new }
        ensures within { IsBelowLimits limits.now self.new.drove }
    {
        let made = self.drove.ran + self.drove.idle;
        for turn in made..u64::from(limits.turns) + u64::from(limits.idle) {
            if let Some(ending) = self.step(door, watch, limits, bank, book, turn) {
                return ending;
            }
        }
        Ending::TurnsOut
    }

    /// Drives the processor in a slice, if it hasn't ended. It waits so many longest pauses for others to come under way, before it
    /// leaves the slice for them.
    pub(crate) fn drive_on<G: Gate>(
        &mut self,
        door: &Door<'_, G>,
        board: &Board,
        number: usize,
        waits: u32,
        limits: &Limits,
        bank: &Bank,
        book: &MsgBook,
    )
        requires at { IsAtTables (id_of bank.now) book.now.table self.old }
        requires within { IsBelowLimits limits.now self.old.drove }
        ensures on { DrivesOn B.polled (G.answers door.now.gate.now) (id_of bank.now) limits.now self.old self.new }
        ensures at { IsAtTables (id_of bank.now) book.now.table self.new }
        ensures within { IsBelowLimits limits.now self.new.drove }
    {
        if self.has_ended() {
            return;
        }
        let before = self.sight();
        let mut watch = Watch::new(board, number, waits);
        self.ending = self.go_on(door, &mut watch, limits, bank, book);
        if self.has_ended() {
            watch.stop();
        } else {
            watch.leave(self.sight() != before);
        }
    }
}

// How many processors there are, with those that aren't driven here.
fn peers<B>(all: &[Driven<B>]) -> usize {
    match all.first() {
        Some(driven) => driven.cpu.cpus(),
        None => 0,
    }
}

/// Drives processors, each on a thread of its own if one can be made. Each makes turns until the gate says no to it, a limit is
/// reached, every thread of every processor has ended, no turn of any processor can change anything, or memory for the events of a
/// turn is refused, which ends all. What ended it is kept in `ending`. That the processors are of this bank and book is the caller's
/// condition.
///
/// The list is halved and both halves run at once, down to one processor each; if no thread can be made, those of both halves take
/// turns on one thread, each as long as it finds something to do.
pub fn drive_all<R: Threads + Sync, G: Gate + Sync, B: Body + Send>(
    rt: &R,
    gate: &G,
    limits: &Limits,
    bank: &Bank,
    book: &MsgBook,
    all: &mut [Driven<B>],
)
    requires at { All (IsAtTables (id_of bank.now) book.now.table) all.old }
    ensures driven { AllZip (λ old new. IsDriven B.polled (G.answers gate.now) (id_of bank.now) limits.now old new new.ending) all.old all.new }
    ensures at { All (IsAtTables (id_of bank.now) book.now.table) all.new }
{
    drive_on_threads(rt, all.len(), gate, limits, bank, book, all);
}

/// Drives processors as `drive_all` does, on at most `threads` threads, the caller's among them; 0 counts as 1.
pub fn drive_on_threads<R: Threads + Sync, G: Gate + Sync, B: Body + Send>(
    rt: &R,
    threads: usize,
    gate: &G,
    limits: &Limits,
    bank: &Bank,
    book: &MsgBook,
    all: &mut [Driven<B>],
)
    requires at { All (IsAtTables (id_of bank.now) book.now.table) all.old }
    ensures driven { AllZip (λ old new. IsDriven B.polled (G.answers gate.now) (id_of bank.now) limits.now old new new.ending) all.old all.new }
    ensures at { All (IsAtTables (id_of bank.now) book.now.table) all.new }
{
    let board = Board::new(all.len(), peers(all));
    let door = Door::new(gate);
    begin_all(rt, all);
    drive_slices(rt, threads, &door, &board, limits, bank, book, all);
}
