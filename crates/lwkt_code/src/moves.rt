//! What a thread asks next.
ghost use Rattle.std.specs.Prelude.{◌≡◌, ◌<◌, ◌+◌, ◌-◌, false, IfSome, is_some, Some, None, option_and_then, slice_get, slice_index, slice_set};
ghost use Rattle.std.specs.Option.{option_copied};
ghost use Rattle.lwkt_code.specs.declared.steps.Step.TheVariants.{Fixed, Again};
ghost use Rattle.lwkt_code.specs.Next.{is_last, ask_at, moved, fixed_ask, standing, ask_from, next};
ghost use Rattle.lwkt_code.specs.Accepted.{IsAccepted};

use crate::answers::take;
use crate::locals::Local;
use crate::steps::Step;
use crate::values::{holds, put, value};
use crate::wishes::ask_for;
use lwkt_base::{Answer, Ask};

// What is left of a count, 0 where there is no such one.
fn count(counts: &[u32; 8], k: u8) -> u32
    ensures { result ≡ slice_index counts.now k }
{
    if k < 8 { counts[k as usize] } else { 0 }
}

// Puts a number into a count, if there is such one.
fn put_count(counts: &mut [u32; 8], k: u8, n: u32)
    ensures { counts.new ≡ slice_set counts.old k n }
{
    if k < 8 {
        counts[k as usize] = n;
    }
}

// Whether the repetition that a thread is in is its last.
#[inline(always)]
fn is_last(local: &Local) -> bool
    ensures { result ≡ is_last local.now }
{
    local.left == 0 || !local.asked
}

// The end of the program.
fn end(local: &mut Local) -> Option<Ask>
    ensures asks { result ≡ ask_at None local.old }
    ensures moves { local.new ≡ moved None local.old }
{
    if is_last(local) {
        return Some(Ask::Exit);
    }
    local.at = 0;
    local.left -= 1;
    local.asked = false;
    None
}

// What a step asks, if it asks.
fn ask_of(step: &Step, local: &Local) -> Option<Ask>
    ensures { result ≡ ask_at (Some step.now) local.now }
{
    match step {
        Step::Fixed(ask) => Some(*ask),
        Step::Make(wish, _) => Some(ask_for(wish, &local.vars)),
        Step::Assert(cond, n) => {
            if holds(cond, &local.vars) {
                None
            } else {
                Some(Ask::Fail(*n))
            }
        }
        _ => None,
    }
}

// Puts a number into a variable, and goes on to the next place.
fn set(local: &mut Local, ahead: usize, v: u8, x: u64)
    requires { ahead ≡ local.old.at + 1 }
    ensures { local.new ≡ record local.old { at = local.old.at + 1; vars = slice_set local.old.vars v x } }
{
    put(&mut local.vars, v, x);
    local.at = ahead;
}

// Counts down by one, and goes on at the place as long as something is left.
fn count_down(local: &mut Local, ahead: usize, k: u8, to: usize)
    requires { ahead ≡ local.old.at + 1 }
    ensures { local.new ≡ moved (Some (Again k to)) local.old }
{
    let left = count(&local.counts, k);
    put_count(&mut local.counts, k, left.saturating_sub(1));
    local.at = if left > 1 { to } else { ahead };
}

// Goes on from a step, before the place ahead.
fn move_on(step: &Step, local: &mut Local, ahead: usize)
    requires { ahead ≡ local.old.at + 1 }
    ensures { local.new ≡ moved (Some step.now) local.old }
{
    match step {
        Step::Fixed(_) | Step::Make(..) => {
            local.at = ahead;
            local.asked = true;
        }
        Step::Set(v, e) => {
            let x = value(e, &local.vars);
            set(local, ahead, *v, x);
        }
        Step::Fault(v) => set(local, ahead, *v, u64::from(local.refused)),
        Step::Unless(_, c, to) => {
            local.at = if holds(c, &local.vars) { ahead } else { *to };
        }
        Step::Goto(_, to) => local.at = *to,
        Step::Count(k, n) => {
            put_count(&mut local.counts, *k, *n);
            local.at = ahead;
        }
        Step::Again(k, to) => count_down(local, ahead, *k, *to),
        Step::Assert(cond, _) => {
            if !holds(cond, &local.vars) {
                local.asked = true;
            }
            local.at = ahead;
        }
    }
}

/// Makes the step at which a thread stands; what it asks, if it asks.
pub fn act(steps: &[Step], local: &mut Local) -> Option<Ask>
    ensures asks { result ≡ ask_at (slice_get steps.now local.old.at) local.old }
    ensures moves { local.new ≡ moved (slice_get steps.now local.old.at) local.old }
{
    match steps.get(local.at) {
        None => end(local),
        Some(step) => {
            let ask = ask_of(step, local);
            let ahead = local.at + 1;
            move_on(step, local, ahead);
            ask
        }
    }
}

// Goes on to the next ask.
#[inline(always)]
fn go_on(steps: &[Step], local: &mut Local) -> Ask
    requires { IsAccepted steps.now }
    ensures ask { result ≡ (ask_from steps.now local.old).0 }
    ensures local { local.new ≡ (ask_from steps.now local.old).1 }
{
    loop {
        match act(steps, local) {
            Some(ask) => return ask,
            None => {}
        }
    }
}

/// The ask that stands at a place of some steps, if it is the same each time.
#[inline(always)]
pub fn fixed_at(steps: &[Step], at: usize) -> Option<&Ask>
    ensures asks { option_copied result ≡ option_and_then fixed_ask (slice_get steps.now at) }
    ensures stands { IfSome (option_copied result) (λ ask. slice_get steps.now at ≡ Some (Fixed ask)) }
{
    match steps.get(at) {
        Some(Step::Fixed(ask)) => Some(ask),
        _ => None,
    }
}

// Goes on past the ask that stands where a thread stands, which is given the answer to the ask before.
#[inline(always)]
#[tactic(auto, using(crate::proofs::Passing::passed_here))]
fn pass_here<'a>(steps: &'a [Step], local: &mut Local, answer: &Answer) -> Option<&'a Ask>
    ensures asks { option_copied result ≡ option_and_then fixed_ask (slice_get steps.now local.old.at) }
    ensures ahead { IfSome (option_copied result) (λ ask. 0 < local.new.at) }
    ensures stands { IfSome (option_copied result) (λ ask. slice_get steps.now (local.new.at - 1) ≡ Some (Fixed ask)) }
    ensures passes { IfSome (option_copied result) (λ ask. next steps.now local.old answer.now ≡ (ask, local.new)) }
    ensures stays { is_some result ≡ false → local.new ≡ local.old }
{
    let at = local.at;
    let ask = fixed_at(steps, at)?;
    take(steps, local, answer);
    local.at = at + 1;
    local.asked = true;
    Some(ask)
}

// The same at the end of a repetition that isn't the last, of the ask that stands first.
#[inline(always)]
#[tactic(auto, using(crate::proofs::Passing::passed_again))]
fn pass_again<'a>(steps: &'a [Step], local: &mut Local, answer: &Answer) -> Option<&'a Ask>
    requires accepted { IsAccepted steps.now }
    requires ends { slice_get steps.now local.old.at ≡ None }
    requires more { is_last local.old ≡ false }
    ensures asks { option_copied result ≡ option_and_then fixed_ask (slice_get steps.now 0) }
    ensures ahead { IfSome (option_copied result) (λ ask. 0 < local.new.at) }
    ensures stands { IfSome (option_copied result) (λ ask. slice_get steps.now (local.new.at - 1) ≡ Some (Fixed ask)) }
    ensures passes { IfSome (option_copied result) (λ ask. next steps.now local.old answer.now ≡ (ask, local.new)) }
    ensures stays { is_some result ≡ false → local.new ≡ local.old }
{
    let ask = fixed_at(steps, 0)?;
    take(steps, local, answer);
    local.left -= 1;
    local.at = 1;
    local.asked = true;
    Some(ask)
}

/// Goes on past the ask that stands where a thread stands, if one does that is the same each time, given the answer to its last ask.
#[inline(always)]
pub fn pass<'a>(steps: &'a [Step], local: &mut Local, answer: &Answer) -> Option<&'a Ask>
    requires { IsAccepted steps.now }
    ensures asks { option_copied result ≡ standing steps.now local.old }
    ensures ahead { IfSome (option_copied result) (λ ask. 0 < local.new.at) }
    ensures stands { IfSome (option_copied result) (λ ask. slice_get steps.now (local.new.at - 1) ≡ Some (Fixed ask)) }
    ensures passes { IfSome (option_copied result) (λ ask. next steps.now local.old answer.now ≡ (ask, local.new)) }
    ensures stays { is_some result ≡ false → local.new ≡ local.old }
{
    if local.at < steps.len() {
        return pass_here(steps, local, answer);
    }
    if is_last(local) {
        return None;
    }
    pass_again(steps, local, answer)
}

/// What a thread asks next, given the answer to its last ask.
#[inline(always)]
pub fn next(steps: &[Step], local: &mut Local, answer: &Answer) -> Ask
    requires { IsAccepted steps.now }
    ensures ask { result ≡ (next steps.now local.old answer.now).0 }
    ensures local { local.new ≡ (next steps.now local.old answer.now).1 }
{
    take(steps, local, answer);
    go_on(steps, local)
}
