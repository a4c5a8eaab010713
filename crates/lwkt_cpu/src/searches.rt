//! The search for a thread to run: the first one from the cursor on, round once, whose whole list can be held. A thread is
//! passed over without a try where the word that refused its list last is still its token's: a try would be refused again.
ghost use Rattle.std.specs.Prelude.{◌≡◌, ℕ, ◌+◌, ◌-◌, ◌*◌, ◌<◌, ◌≤◌, true, false, length, All, Some, None, vec_len, vec_capacity};
ghost use Rattle.lwkt_base.specs.Holding.{holds_nothing};
ghost use Rattle.lwkt_bank.specs.Seats.{id_of, bank_of, tokens_of, holding};
ghost use Rattle.lwkt_hold.specs.Holds.{seat_of};
ghost use Rattle.lwkt_hold.specs.Fronts.{IsFront};
ghost use Rattle.lwkt_hold.specs.Runs.{Ran};
ghost use Rattle.lwkt_hold.specs.declared.answers.Missed.{Missed};
ghost use Rattle.lwkt_hold.specs.Stays.{RunsUnseen};
ghost use Rattle.lwkt_cpu.specs.Searches.{missed_by, IsPassedOver, MayBeTried, TriesToHold, TriesList, Skips, point, IsIn, SkipsTo, FindsIn, FindsThread, IsOfOne};
ghost use Rattle.lwkt_cpu.specs.Processors.{KeepsBusyWord, AreThere, AllKeepBusyWords};
ghost use Rattle.lwkt_cpu.specs.Traced.{TracesTokensOnly};

use crate::ends::end;
use crate::phases::Phase;
use crate::threads::{BusyAt, Thread};
use lwkt_bank::Bank;
use lwkt_base::Fault;
use lwkt_base::limits::THREAD_LIMIT;
use lwkt_core::Event;
use lwkt_hold::{Hold, Missed, Resumed};

// Whether the word that refused a thread's list last is still its token's, so that a try would be refused by it again.
fn is_still_busy(hold: &mut Hold, bank: &Bank, thread: &Thread) -> bool
    requires of { bank_of (seat_of hold.old) ≡ id_of bank.now }
    requires there { All (λ r. r.tok.0 < tokens_of (bank_of (seat_of hold.old))) thread.now.list }
    requires empty { holding (seat_of hold.old) ≡ holds_nothing }
    requires busy { KeepsBusyWord thread.now }
    ensures ran { RunsUnseen (seat_of hold.old) (seat_of hold.new) }
    ensures empty { holding (seat_of hold.new) ≡ holds_nothing }
    ensures yes { result ≡ true → IsPassedOver (seat_of hold.old) (seat_of hold.new) thread.now }
    ensures no { result ≡ false → MayBeTried (seat_of hold.old) (seat_of hold.new) thread.now }
{
    match thread.busy {
        Some(busy) => hold.still(bank, &thread.list, busy.at, busy.word),
        None => false,
    }
}

// What a missed try leaves: a word that refused the list is kept, and at a last generation the thread ends.
fn miss(thread: &mut Thread, at: usize, why: Missed)
    ensures { thread.new ≡ missed_by at why thread.old }
{
    match why {
        Missed::Busy { word } => thread.busy = Some(BusyAt { word, at }),
        Missed::Again => thread.busy = None,
        Missed::Worn => end(thread, Phase::Faulted(Fault::Worn)),
    }
}

// Tries the list of a thread: says whether it is held now.
fn try_list(hold: &mut Hold, bank: &Bank, thread: &mut Thread, trace: &mut Vec<Event>) -> bool
    requires of { bank_of (seat_of hold.old) ≡ id_of bank.now }
    requires there { All (λ r. r.tok.0 < tokens_of (bank_of (seat_of hold.old))) thread.old.list }
    requires empty { holding (seat_of hold.old) ≡ holds_nothing }
    requires room { vec_len trace.old + 64 ≤ vec_capacity trace.old }
    ensures ran { Ran (IsFront thread.old.list) 64 (seat_of hold.old) (seat_of hold.new) trace.old trace.new }
    ensures quiet { TracesTokensOnly trace.old.items trace.new.items }
    ensures yes { result ≡ true → (thread.new ≡ thread.old) × TriesToHold (seat_of hold.old) (seat_of hold.new) trace.old trace.new thread.old.list Resumed.All }
    ensures no { result ≡ false → (place : ℕ) × ((why : Missed) × (TriesToHold (seat_of hold.old) (seat_of hold.new) trace.old trace.new thread.old.list (Resumed.Passed place why) × (thread.new ≡ missed_by place why thread.old))) }
{
    match hold.resume(bank, &thread.list, trace) {
        Resumed::All => true,
        Resumed::Passed { at, why } => {
            miss(thread, at, why);
            false
        }
    }
}

/// Tries one thread: says whether it can run and its whole list is held now. One that was refused at a last generation ends.
pub(crate) fn try_one(
    hold: &mut Hold,
    bank: &Bank,
    thread: &mut Thread,
    trace: &mut Vec<Event>,
) -> bool
    requires of { bank_of (seat_of hold.old) ≡ id_of bank.now }
    requires there { All (λ r. r.tok.0 < tokens_of (bank_of (seat_of hold.old))) thread.old.list }
    requires empty { holding (seat_of hold.old) ≡ holds_nothing }
    requires busy { KeepsBusyWord thread.old }
    requires room { vec_len trace.old + 64 ≤ vec_capacity trace.old }
    ensures ran { Ran (IsFront thread.old.list) 64 (seat_of hold.old) (seat_of hold.new) trace.old trace.new }
    ensures quiet { TracesTokensOnly trace.old.items trace.new.items }
    ensures yes { result ≡ true → (thread.new ≡ thread.old) × (thread.old.phase ≡ Phase.Live) × TriesList (seat_of hold.old) (seat_of hold.new) trace.old trace.new thread.old Resumed.All }
    ensures no { result ≡ false → (holding (seat_of hold.new) ≡ holds_nothing) × Skips (seat_of hold.old) (seat_of hold.new) trace.old trace.new thread.old thread.new }
{
    if !thread.phase.is_live() {
        return false;
    }
    if is_still_busy(hold, bank, thread) {
        return false;
    }
    try_list(hold, bank, thread, trace)
}

/// Tries the threads from one number on and below another; the first that can run and whose list could be held.
pub(crate) fn scan(
    hold: &mut Hold,
    bank: &Bank,
    threads: &mut [Thread],
    from: usize,
    to: usize,
    trace: &mut Vec<Event>,
) -> Option<usize>
    requires of { bank_of (seat_of hold.old) ≡ id_of bank.now }
    requires there { AreThere (seat_of hold.old) threads.old }
    requires busy { AllKeepBusyWords threads.old }
    requires rising { from ≤ to }
    requires within { to ≤ length threads.old }
    requires empty { holding (seat_of hold.old) ≡ holds_nothing }
    requires room { vec_len trace.old + 64 * (to - from) ≤ vec_capacity trace.old }
    ensures ran { Ran (IsOfOne threads.old) (64 * (to - from)) (seat_of hold.old) (seat_of hold.new) trace.old trace.new }
    ensures quiet { TracesTokensOnly trace.old.items trace.new.items }
    ensures some { (place : ℕ) → result ≡ Some place → IsIn from to place × FindsIn from place (point (seat_of hold.old) threads.old trace.old) (point (seat_of hold.new) threads.new trace.new) }
    ensures none { result ≡ None → (holding (seat_of hold.new) ≡ holds_nothing) × SkipsTo from to (point (seat_of hold.old) threads.old trace.old) (point (seat_of hold.new) threads.new trace.new) }
{
    for at in from..to {
        if try_one(hold, bank, &mut threads[at], trace) {
            return Some(at);
        }
    }
    None
}

/// Finds the first thread from the cursor on, round once, that can run and whose list could be held.
pub(crate) fn find(
    hold: &mut Hold,
    bank: &Bank,
    threads: &mut [Thread],
    cursor: usize,
    trace: &mut Vec<Event>,
) -> Option<usize>
    requires of { bank_of (seat_of hold.old) ≡ id_of bank.now }
    requires there { AreThere (seat_of hold.old) threads.old }
    requires busy { AllKeepBusyWords threads.old }
    requires few { length threads.old ≤ THREAD_LIMIT }
    requires within { cursor ≤ length threads.old }
    requires empty { holding (seat_of hold.old) ≡ holds_nothing }
    requires room { vec_len trace.old + 1024 ≤ vec_capacity trace.old }
    ensures ran { Ran (IsOfOne threads.old) 1024 (seat_of hold.old) (seat_of hold.new) trace.old trace.new }
    ensures quiet { TracesTokensOnly trace.old.items trace.new.items }
    ensures finds { FindsThread cursor (point (seat_of hold.old) threads.old trace.old) (point (seat_of hold.new) threads.new trace.new) result }
{
    let count = threads.len();
    match scan(hold, bank, threads, cursor, count, trace) {
        Some(at) => Some(at),
        None => scan(hold, bank, threads, 0, cursor, trace),
    }
}
