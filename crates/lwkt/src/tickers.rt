//! Who looks on at a search by the clock.
ghost use Rattle.std.specs.Prelude.{◌≡◌, None, false, IsTrue};

use lwkt_base::OutOfMemory;
use lwkt_base::memory::put;
use lwkt_explore::{Seen, Watch};
use lwkt_report::{Sink, write_whole};
use lwkt_request::Search;
use lwkt_run::TurnsRun;
use lwkt_script::Script;
use lwkt_show::whys_of;
use std::alloc::Global;
use std::time::{Clock, Duration, Instant};

/// Looks on at a search: says each second how far it is, if `progress` is asked for, and ends it after the `seconds` that are named. If
/// the clock fails, it says nothing and ends nothing.
#[derive(Drop)]
pub struct Ticker<'a, R, E> {
    rt: &'a R,
    alloc: Global,
    errors: &'a mut E,
    search: Search,
    // when it began to look on
    start: Option<Instant>,
    // when it looked last, and how many turns had been tried then
    last: Option<Instant>,
    turns: u64,
}

// What is said: `lwkt: N states, N to go on from, N turns a second`.
fn line_of(alloc: Global, seen: Seen, turns: u64) -> Result<String, OutOfMemory> {
    let Seen {
        states,
        frontier,
        ..
    } = seen;
    let mut line = String::new(alloc);
    put(
        &mut line,
        (
            "lwkt: ",
            states,
            " states, ",
            frontier,
            (" to go on from, ", turns, " turns a second\n"),
        ),
    )?;
    Ok(line)
}

// Whether so many seconds have passed between two times, if both are known.
fn have_passed(from: Option<Instant>, now: Option<Instant>, seconds: u64) -> bool {
    let (Some(from), Some(now)) = (from, now) else {
        return false;
    };
    now.duration_since(from) >= Duration::from_secs(seconds)
}

impl<'a, R: Clock, E: Sink> Ticker<'a, R, E> {
    /// One that begins to look on now.
    pub fn new(rt: &'a R, alloc: Global, errors: &'a mut E, search: Search) -> Ticker<'a, R, E>
        ensures search { result.search ≡ search }
        ensures errors { result.errors.now ≡ errors.entry.now }
    {
        let start = Instant::now(rt).ok();
        Ticker {
            rt,
            alloc,
            errors,
            search,
            start,
            last: start,
            turns: 0,
        }
    }

    // Says how far the search is, if a second has passed since it looked last; then it has looked now.
    fn say(&mut self, now: Option<Instant>, seen: Seen)
        ensures quiet { self.old.search.progress ≡ false → self.new.errors.now ≡ self.old.errors.now }
        ensures search { self.new.search ≡ self.old.search }
    {
        if !self.search.progress || !have_passed(self.last, now, 1) {
            return;
        }
        let turns = seen.turns.saturating_sub(self.turns);
        self.turns = seen.turns;
        self.last = now;
        if let Ok(line) = line_of(self.alloc, seen, turns) {
            let _ = write_whole(self.errors, line.as_bytes());
        }
    }

    // Whether the search has taken as long as it may.
    fn is_over(&self, now: Option<Instant>) -> bool
        ensures { self.now.search.seconds ≡ None → result ≡ false }
    {
        match self.search.seconds {
            Some(seconds) => have_passed(self.start, now, seconds),
            None => false,
        }
    }
}

impl<'a, R: Clock, E: Sink> Watch for Ticker<'a, R, E> {
    fn goes_on(&mut self, seen: Seen) -> bool
        ensures on { self.old.search.seconds ≡ None → IsTrue result }
        ensures quiet { self.old.search.progress ≡ false → self.new.errors.now ≡ self.old.errors.now }
        ensures search { self.new.search ≡ self.old.search }
    {
        if !self.search.progress && self.search.seconds.is_none() {
            return true;
        }
        let now = Instant::now(self.rt).ok();
        self.say(now, seen);
        !self.is_over(now)
    }

    fn why(alloc: Global, script: &Script, run: &TurnsRun) -> Result<String, OutOfMemory> {
        whys_of(alloc, script, run)
    }
}
