//! Threads that wait for each other's replies, and come round to the first.
ghost use Rattle.std.specs.Prelude.{◌≡◌, length};
ghost use Rattle.std.specs.Option.{option_copied};
ghost use Rattle.lwkt_refusals.specs.Pages.{GrowsBy};
ghost use Rattle.lwkt_told.specs.Called.{is_thread};
ghost use Rattle.lwkt_show.specs.Circles.{next_of, comes_back, first_of, arrow_text, others_text, circle_text};

use crate::words::show_thread;
use lwkt_base::ThreadId;
use lwkt_refusals::Page;
use lwkt_text::Names;

/// That a thread waits for the reply of a thread.
#[derive(Clone, Copy)]
pub struct Wait {
    /// The thread that waits.
    pub from: ThreadId,
    /// The one that is to reply.
    pub to: ThreadId,
}

// Whether two threads are the same.
fn is_thread(one: ThreadId, other: ThreadId) -> bool
    ensures { result ≡ is_thread one other }
{
    one.cpu.0 == other.cpu.0 && one.thread == other.thread
}

// The thread whose reply a thread waits for.
fn next_of(waits: &[Wait], id: ThreadId) -> Option<ThreadId>
    ensures { result ≡ next_of waits.now id }
{
    match waits.iter().find(|wait| is_thread(wait.from, id)) {
        Some(wait) => Some(wait.to),
        None => None,
    }
}

// Whether a thread waits, through others, for itself.
fn comes_back(waits: &[Wait], first: ThreadId) -> bool
    ensures { result ≡ comes_back (next_of waits.now) first (length waits.now) first }
{
    let mut now = first;
    for _wait in 0..waits.len() {
        match next_of(waits, now) {
            None => return false,
            Some(to) if is_thread(to, first) => return true,
            Some(to) => now = to,
        }
    }
    false
}

/// The first thread that waits, through others, for itself.
pub(crate) fn first_of(waits: &[Wait]) -> Option<ThreadId>
    ensures { result ≡ first_of waits.now }
{
    match waits.iter().find(|wait| comes_back(waits, wait.from)) {
        Some(wait) => Some(wait.from),
        None => None,
    }
}

// Appends a thread behind an arrow.
fn show_next(out: &mut Page, names: Option<&Names>, id: ThreadId)
    ensures { GrowsBy out.old out.new (arrow_text (option_copied names.entry) id) }
{
    out.add(" &#8594; ");
    show_thread(out, names, id)
}

// Appends, each behind an arrow, the threads from the one that a thread waits for up to that thread.
#[tactic(auto, using(crate::proofs::CircleLemmas::others_last))]
fn show_others(out: &mut Page, names: Option<&Names>, waits: &[Wait], first: ThreadId)
    ensures { GrowsBy out.old out.new (others_text (option_copied names.entry) (next_of waits.now) first (length waits.now) first) }
{
    let mut now = first;
    for _wait in 0..waits.len() {
        match next_of(waits, now) {
            None => return,
            Some(to) => {
                show_next(out, names, to);
                if is_thread(to, first) {
                    return;
                }
                now = to;
            }
        }
    }
}

/// Appends a circle of threads, from one to that one, each of which waits for the next: `left → right → left`.
pub(crate) fn show_circle(out: &mut Page, names: Option<&Names>, waits: &[Wait], first: ThreadId)
    ensures { GrowsBy out.old out.new (circle_text (option_copied names.entry) waits.now first) }
{
    show_thread(out, names, first);
    show_others(out, names, waits, first)
}
