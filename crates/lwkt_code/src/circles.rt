//! Loops without an ask.
ghost use Rattle.std.specs.Prelude.{◌≡◌, ℕ, ◌+◌, ◌-◌, ◌<◌, ◌≤◌, ◌==◌, if◌then◌else◌, Some, None, MatchOption, length, slice_get, slice_index, replicate};
ghost use Rattle.lwkt_code.specs.Accepted.{IsCircle, leads_to};
ghost use Rattle.lwkt_code.specs.Marks.{back_by, back_of, back_from, AreMarks, IsReady, Opens, IsFirstCircle, places};

use crate::steps::Step;

/// The most steps of a program: a sentence with what ends it makes three at most, so that 256 sentences have room.
pub const MOST_STEPS: usize = 768;

// Where a step may lead without an ask.
#[derive(Clone, Copy)]
pub enum Leads {
    Nowhere,
    To(usize),
    Either(usize, usize),
}

fn leads_from(steps: &[Step], at: usize) -> Leads
    requires { length steps.now ≤ MOST_STEPS }
    ensures { places result ≡ leads_to (slice_get steps.now at) at }
{
    match steps.get(at) {
        None => Leads::Nowhere,
        Some(Step::Fixed(_)) => Leads::Nowhere,
        Some(Step::Make(_, _)) => Leads::Nowhere,
        Some(Step::Set(_, _)) => Leads::To(at + 1),
        Some(Step::Fault(_)) => Leads::To(at + 1),
        Some(Step::Unless(_, _, to)) => Leads::Either(at + 1, *to),
        Some(Step::Goto(_, to)) => Leads::To(*to),
        Some(Step::Count(_, _)) => Leads::To(at + 1),
        Some(Step::Again(_, to)) => Leads::Either(at + 1, *to),
        Some(Step::Assert(_, _)) => Leads::To(at + 1),
    }
}

// What a place gets as its mark if it leads there: 1 more than the place from which a way over it comes back to the beginning, and 0 if none
// is known.
fn back_by(marks: &[usize; 769], begin: usize, at: usize, to: usize) -> usize
    requires { at ≤ MOST_STEPS }
    ensures { result ≡ back_by marks.now begin at to }
{
    if to == begin {
        return at + 1;
    }
    if to > begin && to <= MOST_STEPS {
        marks[to]
    } else {
        0
    }
}

// What a place gets as its mark.
fn back_from(steps: &[Step], marks: &[usize; 769], begin: usize, at: usize) -> usize
    requires few { length steps.now ≤ MOST_STEPS }
    requires at { at ≤ MOST_STEPS }
    ensures { result ≡ back_from steps.now marks.now begin at }
{
    match leads_from(steps, at) {
        Leads::Nowhere => 0,
        Leads::To(to) => back_by(marks, begin, at, to),
        Leads::Either(one, other) => {
            let back = back_by(marks, begin, at, one);
            if back > 0 {
                back
            } else {
                back_by(marks, begin, at, other)
            }
        }
    }
}

// A place behind the beginning that has no mark and gets one, with that.
fn find_ready(steps: &[Step], marks: &[usize; 769], begin: usize) -> Option<(usize, usize)>
    requires few { length steps.now ≤ MOST_STEPS }
    requires begin { begin ≤ MOST_STEPS }
    ensures { MatchOption result ((k : ℕ) → begin < k → k < length steps.now → slice_index marks.now k ≡ 0 → back_from steps.now marks.now begin k ≡ 0) (λ r. IsReady steps.now marks.now begin r.0 r.1) }
{
    for at in begin + 1..steps.len() {
        if marks[at] == 0 {
            let back = back_from(steps, marks, begin, at);
            if back > 0 {
                return Some((at, back));
            }
        }
    }
    None
}

// Gives marks until no place gets one any more.
fn mark(steps: &[Step], marks: &mut [usize; 769], begin: usize)
    requires few { length steps.now ≤ MOST_STEPS }
    requires begin { begin ≤ MOST_STEPS }
    requires marks { AreMarks steps.now begin marks.old }
    ensures marks { AreMarks steps.now begin marks.new }
    ensures all { (k : ℕ) → begin < k → k < length steps.now → slice_index marks.new k ≡ 0 → back_from steps.now marks.new begin k ≡ 0 }
{
    loop {
        match find_ready(steps, marks, begin) {
            None => return,
            Some(ready) => marks[ready.0] = ready.1,
        }
    }
}

// The place that a mark stands for.
fn place_of(back: usize) -> Option<usize>
    ensures { result ≡ (if back == 0 then None else Some (back - 1)) }
{
    if back == 0 { None } else { Some(back - 1) }
}

// The last place of a loop without an ask that begins there.
fn circle_from(steps: &[Step], begin: usize) -> Option<usize>
    requires few { length steps.now ≤ MOST_STEPS }
    requires begin { begin ≤ MOST_STEPS }
    ensures { MatchOption result (Opens steps.now begin) (IsCircle steps.now begin) }
{
    let mut marks = [0; 769];
    mark(steps, &mut marks, begin);
    place_of(back_from(steps, &marks, begin, begin))
}

/// The first place and the last one of a loop without an ask: of those that begin first.
pub fn find_circle(steps: &[Step]) -> Option<(usize, usize)>
    requires few { length steps.now ≤ MOST_STEPS }
    ensures { MatchOption result ((k : ℕ) → k < length steps.now → Opens steps.now k) (λ r. IsFirstCircle steps.now r.0 r.1) }
{
    for begin in 0..steps.len() {
        match circle_from(steps, begin) {
            None => {}
            Some(end) => return Some((begin, end)),
        }
    }
    None
}
