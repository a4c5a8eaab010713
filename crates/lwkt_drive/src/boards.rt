//! What processors that are driven together report to each other of themselves, so that none goes on for nothing. All of it lies outside
//! the model, and nothing is claimed of it: by it processors end earlier than by their limits.
//!
//! A turn is quiet where it polled no thread, appended no event, moved no note and ended no thread. A processor has come to rest at
//! a count of changes where a quiet turn of it began after that count was read; every change that it made earlier was counted before
//! that. A turn that isn't quiet takes its rest back.
//!
//! Where every processor rests at one count, or has stopped for good with its changes counted, and the count still stands, no turn of
//! any of them can change anything. For think of the first change after the earliest of these readings. It is made in some turn. That
//! isn't counted yet, since the count stands; so its processor hasn't stopped, and the turn comes after the quiet turn by which that
//! processor came to rest, since a rest is reported only after all earlier changes were counted. But the quiet turn found nothing to do,
//! and between it and the later turn nothing has changed, here or elsewhere: the later one does what the quiet one did, which is
//! nothing. A word that is exchanged by somebody else just then needs no report: an exchange is lost to another one's change.
//!
//! Where threads can't be made for all processors, they are driven in slices: one that finds nothing to do leaves its slice where
//! another that hasn't ended isn't under way, so that this one may begin on the same thread. A slice is over once each has ended or
//! left. Where in a whole slice none has ended or changed anything, each that hasn't ended has made an idle turn in it, and nothing
//! has changed from before the first of these turns to after the last. So the next turn of each would do what that one did.

use lwkt_base::OutOfMemory;
use std::sync::OnceLock;
use std::sync::atomic::{AtomicU64, Ordering};

/// The most processors of a board. A bank has no more.
const PLACES: usize = 8;

/// A processor that doesn't rest.
pub(crate) const AWAKE: u64 = 0;

/// A processor that makes no further turn.
pub(crate) const STOPPED: u64 = u64::MAX;

/// What the processors report to each other: plain counts.
#[derive(Drop)]
pub(crate) struct Board {
    cpus: usize,
    whole: bool,
    exited: AtomicU64,
    // What the first processor whose turn was refused was refused with.
    called_off: OnceLock<OutOfMemory>,
    changes: AtomicU64,
    rests: [AtomicU64; PLACES],
    // How many that haven't ended aren't under way.
    outside: AtomicU64,
    // Whether one has left this slice.
    left: AtomicU64,
    // Whether one has changed something in this slice, or has ended.
    moved: AtomicU64,
}

// A processor that has reported nothing.
fn awake() -> AtomicU64 {
    AtomicU64::new(AWAKE)
}

impl Board {
    /// A board for so many processors, at most 8, out of so many of the book. None has reported anything.
    pub(crate) fn new(cpus: usize, all: usize) -> Board {
        Board {
            cpus,
            whole: cpus == all && cpus <= PLACES,
            exited: AtomicU64::new(0),
            called_off: OnceLock::new(),
            changes: AtomicU64::new(AWAKE + 1),
            rests: [
                awake(),
                awake(),
                awake(),
                awake(),
                awake(),
                awake(),
                awake(),
                awake(),
            ],
            outside: AtomicU64::new(cpus as u64),
            left: AtomicU64::new(0),
            moved: AtomicU64::new(0),
        }
    }

    /// One more processor has said that every thread of its own has ended.
    pub(crate) fn say_exited(&self) {
        self.exited.fetch_add(1, Ordering::SeqCst);
    }

    /// Whether all have said so.
    pub(crate) fn have_all_exited(&self) -> bool {
        self.exited.load(Ordering::SeqCst) >= self.cpus as u64
    }

    /// Memory for a turn was refused: nobody goes on.
    pub(crate) fn call_off(&self, refused: OutOfMemory) {
        let _ = self.called_off.try_set(refused);
    }

    /// What a turn was refused with, if one was.
    pub(crate) fn called_off(&self) -> Option<OutOfMemory> {
        self.called_off.get().copied()
    }

    /// The count of changes.
    pub(crate) fn changes(&self) -> u64 {
        self.changes.load(Ordering::SeqCst)
    }

    /// There were changes since they were counted last.
    pub(crate) fn count_changes(&self) {
        self.changes.fetch_add(1, Ordering::SeqCst);
    }

    /// A processor reports at which count of changes it rests.
    pub(crate) fn report(&self, number: usize, rest: u64) {
        if let Some(place) = self.rests.get(number) {
            place.store(rest, Ordering::SeqCst);
        }
    }

    /// Whether every processor rests at this count, or has stopped, and the count still stands. The rests are read before it.
    pub(crate) fn is_at_rest(&self, count: u64) -> bool {
        self.whole
            && self.rests.iter().take(self.cpus).all(|place| {
                let rest = place.load(Ordering::SeqCst);
                rest == count || rest == STOPPED
            })
            && self.changes() == count
    }

    /// What a processor reported last, 0 before that.
    pub(crate) fn reported(&self, number: usize) -> u64 {
        match self.rests.get(number) {
            Some(place) => place.load(Ordering::SeqCst),
            None => AWAKE,
        }
    }

    /// A slice begins.
    pub(crate) fn open_slice(&self) {
        self.left.store(0, Ordering::SeqCst);
        self.moved.store(0, Ordering::SeqCst);
    }

    /// A processor that hasn't ended is under way.
    pub(crate) fn enter(&self) {
        self.outside.fetch_sub(1, Ordering::SeqCst);
    }

    /// It leaves the slice.
    pub(crate) fn leave(&self) {
        self.outside.fetch_add(1, Ordering::SeqCst);
        self.left.store(1, Ordering::SeqCst);
    }

    /// Whether one that hasn't ended isn't under way.
    pub(crate) fn is_one_outside(&self) -> bool {
        self.outside.load(Ordering::SeqCst) != 0
    }

    /// Whether one has left this slice.
    pub(crate) fn has_one_left(&self) -> bool {
        self.left.load(Ordering::SeqCst) != 0
    }

    /// A processor has changed something in this slice, or has ended.
    pub(crate) fn say_moved(&self) {
        self.moved.store(1, Ordering::SeqCst);
    }

    /// A slice is over. Where none has changed anything in it, all that haven't ended rest at the count of changes.
    pub(crate) fn close_slice(&self) {
        if self.whole && self.moved.load(Ordering::SeqCst) == 0 {
            let count = self.changes();
            for place in self.rests.iter() {
                if place.load(Ordering::SeqCst) != STOPPED {
                    place.store(count, Ordering::SeqCst);
                }
            }
        }
    }
}
