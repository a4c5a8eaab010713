//! How long a processor that finds nothing to do waits, and what it reports to the others of it.

use crate::boards::{AWAKE, Board, STOPPED};
use lwkt_cpu::Progress;
use std::{hint, thread};

// The most hints of a pause.
const LONGEST_PAUSE: u32 = 512;

// A processor that waits for others to begin pauses at most so many times LONGEST_PAUSE hints between two idle turns.
const WAITS: u32 = 64;

/// What a turn has left: how many turns ran a thread, how many events there are, and how far the processor has come.
#[derive(Clone, Copy, PartialEq, Eq)]
pub(crate) struct Sight {
    pub(crate) ran: u64,
    pub(crate) events: usize,
    pub(crate) progress: Progress,
}

/// One processor's place at the board.
#[derive(Drop)]
pub(crate) struct Watch<'a> {
    board: &'a Board,
    number: usize,
    // How many longest pauses more the processor waits for others to come under way before it leaves the slice.
    waits: u32,
    // The hints of the next pause.
    hints: u32,
    // What the last turn left, where that came after a longest pause.
    last: Option<Sight>,
    // The count of changes that was read before the turn to come, where all changes of this processor are in it.
    count: Option<u64>,
    // What was reported last.
    rest: u64,
}

impl<'a> Watch<'a> {
    /// A processor comes under way in a slice.
    pub(crate) fn new(board: &'a Board, number: usize, waits: u32) -> Watch<'a> {
        board.enter();
        let rest = board.reported(number);
        Watch {
            board,
            number,
            waits,
            hints: 1,
            last: None,
            count: if rest == AWAKE { None } else { Some(rest) },
            rest,
        }
    }

    /// The board, by which the processors report to each other.
    pub(crate) fn board(&self) -> &'a Board {
        self.board
    }

    // Reports to the others, if this is something else than was reported last.
    fn report(&mut self, rest: u64) {
        if self.rest != rest {
            self.rest = rest;
            self.board.report(self.number, rest);
        }
    }

    // A turn that wasn't quiet: the processor doesn't rest, and has changes that aren't counted.
    fn wake(&mut self, last: Option<Sight>) {
        self.last = last;
        self.count = None;
        self.report(AWAKE);
    }

    /// A turn has polled a thread.
    pub(crate) fn ran(&mut self) {
        self.hints = 1;
        if self.last.is_some() {
            self.wake(None);
        }
    }

    // A turn was quiet. The first one of several makes the earlier changes known.
    fn was_quiet(&mut self) {
        match self.count {
            Some(count) => self.report(count),
            None => self.board.count_changes(),
        }
        self.count = Some(self.board.changes());
    }

    /// Whether the pauses are the longest ones: from then on each turn that polled no thread is looked at.
    pub(crate) fn is_patient(&self) -> bool {
        self.hints == LONGEST_PAUSE
    }

    /// A turn that polled no thread has left this.
    pub(crate) fn look(&mut self, now: Sight) {
        if self.last == Some(now) {
            self.was_quiet();
        } else {
            self.wake(Some(now));
        }
    }

    // Waits as long as the next pause; after longest pauses another thread may run.
    fn wait(&self) {
        for _hint in 0..self.hints {
            hint::spin_loop();
        }
        if self.is_patient() {
            thread::yield_now();
        }
    }

    /// Waits a little, longer each time.
    pub(crate) fn pause(&mut self) {
        self.wait();
        self.hints = self.hints.saturating_mul(2).min(LONGEST_PAUSE);
    }

    // Waits a while for the others that haven't ended to come under way. None does so once one has left.
    fn wait_for_others(&mut self) {
        for _wait in 0..WAITS {
            if self.waits == 0 || self.board.has_one_left() || !self.board.is_one_outside() {
                return;
            }
            self.wait();
            self.waits = self.waits.saturating_sub(1);
        }
    }

    /// Whether the processor leaves the slice after an idle turn: another that hasn't ended isn't under way, and was waited for.
    pub(crate) fn leaves(&mut self) -> bool {
        if self.waits > 0 && !self.is_patient() || !self.board.is_one_outside() {
            return false;
        }
        self.wait_for_others();
        (self.waits == 0 || self.board.has_one_left()) && self.board.is_one_outside()
    }

    /// Whether no turn of any processor can change anything.
    pub(crate) fn is_over(&self) -> bool {
        self.rest != AWAKE && self.board.is_at_rest(self.rest)
    }

    /// The processor makes no further turn.
    pub(crate) fn stop(&mut self) {
        if self.count.is_none() {
            self.board.count_changes();
        }
        self.report(STOPPED);
        self.board.say_moved();
    }

    /// The processor leaves the slice, in which it has changed nothing or something.
    pub(crate) fn leave(&mut self, has_moved: bool) {
        self.report(AWAKE);
        if has_moved {
            self.board.say_moved();
        }
        self.board.leave();
    }
}
