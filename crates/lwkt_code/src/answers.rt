//! What an answer leaves in the thread that it is given to.
ghost use Rattle.std.specs.Prelude.{◌≡◌, Option, Some, None, slice_get};
ghost use Rattle.lwkt_code.specs.Answers.{held_by_item, held_by_value, held_by_try, held_by_reply, held_by_port, held_by, put_in, stored, given, refusal_of, last_step, taken, logs};

use crate::locals::Local;
use crate::steps::{Places, Step};
use crate::values::put;
use lwkt_base::{Answer, Fault, Item, Verb};

/// The numbers that an answer holds, for the first place of its ask, the second and the third.
#[derive(Clone, Copy)]
pub struct Held {
    pub first: Option<u64>,
    pub second: Option<u64>,
    pub third: Option<u64>,
}

// What holds nothing.
const NOTHING: Held = Held {
    first: None,
    second: None,
    third: None,
};

// What holds one number.
fn one(n: u64) -> Held
    ensures { result ≡ record { first = Some n; second = None; third = None } }
{
    Held {
        first: Some(n),
        second: None,
        third: None,
    }
}

// What an item of a port holds.
fn of_item(item: &Item) -> Held
    ensures { result ≡ held_by_item item.now }
{
    match item {
        Item::Request(msg, call) => Held {
            first: Some(u64::from(msg.0)),
            second: Some(u64::from(call.op)),
            third: Some(call.arg),
        },
        Item::Answered(msg, error, outcome) => Held {
            first: Some(u64::from(msg.0)),
            second: Some(u64::from(*error)),
            third: Some(*outcome),
        },
    }
}

// What the answer to a read holds.
fn of_value(answer: &Answer) -> Held
    ensures { result ≡ held_by_value answer.now }
{
    match answer {
        Answer::Value(n) => one(*n),
        _ => NOTHING,
    }
}

// What the answer to a try holds.
fn of_try(answer: &Answer) -> Held
    ensures { result ≡ held_by_try answer.now }
{
    match answer {
        Answer::Done => one(1),
        Answer::Refused(Fault::Busy) => one(0),
        _ => NOTHING,
    }
}

// What the answer to a message that was waited for holds.
fn of_reply(answer: &Answer) -> Held
    ensures { result ≡ held_by_reply answer.now }
{
    match answer {
        Answer::Got(Item::Answered(_, error, outcome)) => Held {
            first: Some(*outcome),
            second: Some(u64::from(*error)),
            third: None,
        },
        _ => NOTHING,
    }
}

// What the answer of a port holds.
fn of_port(answer: &Answer) -> Held
    ensures { result ≡ held_by_port answer.now }
{
    match answer {
        Answer::Got(item) => of_item(item),
        Answer::NoMsg => one(u64::MAX),
        _ => NOTHING,
    }
}

// What an answer to an ask of a kind holds.
fn numbers(verb: Verb, answer: &Answer) -> Held
    ensures { result ≡ held_by verb answer.now }
{
    match verb {
        Verb::Read => of_value(answer),
        Verb::IsAborted => of_value(answer),
        Verb::TryGet => of_try(answer),
        Verb::Do => of_reply(answer),
        Verb::WaitPort => of_port(answer),
        Verb::GetPort => of_port(answer),
        _ => NOTHING,
    }
}

// Puts a number in a place, if there is one to be put.
fn put_one(vars: &mut [u64; 8], v: u8, number: Option<u64>)
    ensures { vars.new ≡ put_in v number vars.old }
{
    match number {
        None => {}
        Some(n) => put(vars, v, n),
    }
}

// Puts numbers in places.
fn store(vars: &mut [u64; 8], places: Places, held: Held)
    ensures { vars.new ≡ stored places held vars.old }
{
    match places {
        Places::Nowhere => {}
        Places::One(u) => put_one(vars, u, held.first),
        Places::Two(u, v) => {
            put_one(vars, u, held.first);
            put_one(vars, v, held.second);
        }
        Places::Three(u, v, w) => {
            put_one(vars, u, held.first);
            put_one(vars, v, held.second);
            put_one(vars, w, held.third);
        }
    }
}

// Puts what an answer to an ask of a kind holds in places.
#[inline(never)]
fn give_made(vars: &mut [u64; 8], places: Places, verb: Verb, answer: &Answer)
    ensures { vars.new ≡ stored places (held_by verb answer.now) vars.old }
{
    store(vars, places, numbers(verb, answer));
}

// Gives the answer to the ask of the step at a place to that step's variables.
#[inline(always)]
fn give(steps: &[Step], at: usize, answer: &Answer, vars: &mut [u64; 8])
    ensures { vars.new ≡ given (slice_get steps.now at) answer.now vars.old }
{
    if let Some(Step::Make(wish, places)) = steps.get(at) {
        give_made(vars, *places, wish.verb, answer);
    }
}

// The number of the refusal that an answer is, 0 if it is none.
#[inline(always)]
fn refusal(answer: &Answer) -> u32
    ensures { result ≡ refusal_of answer.now }
{
    match answer {
        Answer::Refused(fault) => u32::from(fault.number()),
        _ => 0,
    }
}

/// Gives a thread the answer to its last ask, which is that of the step before its next one.
#[inline(always)]
pub fn take(steps: &[Step], local: &mut Local, answer: &Answer)
    ensures { local.new ≡ taken steps.now local.old answer.now }
{
    local.refused = refusal(answer);
    if local.at > 0 {
        give(steps, local.at - 1, answer, &mut local.vars);
    }
}

/// Whether the answer to a thread's last ask may make an entry in its log: one that goes into variables makes none.
pub fn logs(steps: &[Step], local: &Local, answer: &Answer) -> bool
    ensures { result ≡ logs (last_step steps.now local.now) answer.now }
{
    if local.at == 0 {
        return true;
    }
    match steps.get(local.at - 1) {
        Some(Step::Make(wish, places)) => {
            matches!(places, Places::Nowhere) || numbers(wish.verb, answer).first.is_none()
        }
        _ => true,
    }
}
