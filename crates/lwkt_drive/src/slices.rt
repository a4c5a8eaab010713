//! The slices in which processors are driven. Where a thread can be made for each there is one slice, in which each is driven to its
//! end. Where not, a processor that finds nothing to do leaves the slice for those that aren't under way, and goes on in the next.
ghost use Rattle.std.specs.Prelude.{◌≡◌, ◌≢◌, false, All};
ghost use Rattle.std.specs.List.{AllZip};
ghost use Rattle.lwkt_bank.specs.Seats.{id_of};
ghost use Rattle.lwkt_drive.specs.Course.{IsAtTables, IsBelowLimits, DrivesOn, DrivesOut, drive_begun};

use crate::boards::Board;
use crate::driven::{Door, Driven, Ending, Limits};
use crate::gates::Gate;
use lwkt_bank::Bank;
use lwkt_cpu::Body;
use lwkt_msg::MsgBook;
use std::thread;
use std::thread::Threads;

// For how many longest pauses a processor waits for others before it leaves a slice for them: some hundredths of a second.
const LONG: u32 = 5000;

// Whether a thread can be made just now.
fn can_start<R: Threads>(rt: &R) -> bool {
    match thread::spawn(rt, || ()) {
        Ok(started) => {
            started.join(rt);
            true
        }
        Err(_) => false,
    }
}

// How long others are waited for in the slice of this number. A thread that was made may begin late. Where threads can be made, though
// not for all, there are many slices, and few of them wait.
fn waits<R: Threads>(rt: &R, number: u64) -> u32 {
    if number == 0 || number.count_ones() == 1 && can_start(rt) {
        LONG
    } else {
        0
    }
}

/// None of the processors has made a turn, and none has ended.
pub(crate) fn begin_all<R: Threads + Sync, B: Body + Send>(rt: &R, all: &mut [Driven<B>])
    ensures { AllZip (λ old new. new ≡ drive_begun old) all.old all.new }
{
    thread::for_each_mut(rt, all, 1, &|_number, driven| { driven.begin() });
}

// Whether a processor hasn't ended.
fn is_one_left<B>(all: &[Driven<B>]) -> bool
    ensures { result ≡ false → All (λ d. d.ending ≢ Ending.NotDriven) all.now }
{
    all.iter().any(|driven| !driven.has_ended())
}

// Drives the processors that haven't ended, on at most so many threads where they can be made, until each has ended or left the slice.
fn drive_slice<R: Threads + Sync, G: Gate + Sync, B: Body + Send>(
    rt: &R,
    threads: usize,
    door: &Door<'_, G>,
    board: &Board,
    waits: u32,
    limits: &Limits,
    bank: &Bank,
    book: &MsgBook,
    all: &mut [Driven<B>],
)
    requires at { All (IsAtTables (id_of bank.now) book.now.table) all.old }
    requires within { All (λ d. IsBelowLimits limits.now d.drove) all.old }
    ensures on { AllZip (DrivesOn B.polled (G.answers door.now.gate.now) (id_of bank.now) limits.now) all.old all.new }
    ensures at { All (IsAtTables (id_of bank.now) book.now.table) all.new }
    ensures within { All (λ d. IsBelowLimits limits.now d.drove) all.new }
{
    thread::for_each_mut(
        rt,
        all,
        threads.max(1),
        &|number, driven| { driven.drive_on(door, board, number, waits, limits, bank, book) },
    );
}

/// Drives the processors in slices, on at most so many threads, until each has ended. Each slice makes a turn of each that hasn't, so
/// there are no more slices than turns that a processor may make, and one.
pub(crate) fn drive_slices<R: Threads + Sync, G: Gate + Sync, B: Body + Send>(
    rt: &R,
    threads: usize,
    door: &Door<'_, G>,
    board: &Board,
    limits: &Limits,
    bank: &Bank,
    book: &MsgBook,
    all: &mut [Driven<B>],
)
    requires at { All (IsAtTables (id_of bank.now) book.now.table) all.old }
    requires within { All (λ d. IsBelowLimits limits.now d.drove) all.old }
    ensures out { AllZip (DrivesOut B.polled (G.answers door.now.gate.now) (id_of bank.now) limits.now) all.old all.new }
    ensures at { All (IsAtTables (id_of bank.now) book.now.table) all.new }
{
    for number in 0..u64::from(limits.turns) + u64::from(limits.idle) + 1 {
        let waits = if threads < all.len() {
            0
        } else {
            waits(rt, number)
        };
        board.open_slice();
        drive_slice(rt, threads, door, board, waits, limits, bank, book, all);
        if !is_one_left(all) {
            return;
        }
        board.close_slice();
    }
}
