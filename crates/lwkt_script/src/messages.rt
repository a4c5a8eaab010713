ghost use Rattle.std.specs.Prelude.{◌≡◌, ◌<◌, ◌≤◌, [], length, All, Err, IfOk, IfSome, OnErr};
ghost use Rattle.serde_json.specs.View.{view, items_view};
ghost use Rattle.lwkt_script.specs.Outcome.{Gives, each};
ghost use Rattle.lwkt_script.specs.Member.{thread_of, origin_in};
ghost use Rattle.lwkt_script.specs.Format.{message_at, message};
ghost use Rattle.lwkt_script.specs.Limits.{IsOrigin, IsMessage};

use crate::fields::{has_members, item_count, number, number_at};
use lwkt_base::limits::{LAST_ROUND, MESSAGE_LIMIT};
use lwkt_base::memory::push;
use lwkt_base::{CpuId, Fault, MsgSpec, ThreadId};
use serde_json::Value;
use std::alloc::Global;

// The processor and the thread that are written as a list of two numbers.
#[tactic(auto, unfolding(crate::specs::Member::thread_of))]
fn thread_of(cpus: u8, value: &Value) -> Option<ThreadId>
    requires { 0 < cpus }
    ensures exact { result ≡ thread_of cpus (view value.now) }
    ensures within { IfSome result (IsOrigin cpus) }
{
    let count = item_count(value)?;
    let cpu = number(value.get(0usize)?, 0, cpus as u64 - 1)?;
    let thread = number(value.get(1usize)?, 0, 15)?;
    if count != 2 {
        return None;
    }
    Some(ThreadId {
        cpu: CpuId(cpu as u8),
        thread: thread as u8,
    })
}

fn origin_in(cpus: u8, value: &Value) -> Option<ThreadId>
    requires { 0 < cpus }
    ensures exact { result ≡ origin_in cpus (view value.now) }
    ensures within { IfSome result (IsOrigin cpus) }
{
    thread_of(cpus, value.get("of")?)
}

/// A message, which stands at a place: the thread that it is of, and its round.
#[tactic(auto, unfolding(crate::specs::Format::message_at))]
pub fn message_at(cpus: u8, place: u32, value: &Value) -> Result<MsgSpec, Fault>
    requires { 0 < cpus }
    ensures exact { Gives (λ m. m) result (message_at cpus place (view value.now)) }
    ensures within { IfOk result (IsMessage cpus) }
    ensures only { OnErr result (result ≡ Err (Fault.Script place)) }
{
    if !has_members(value, 2) {
        return Err(Fault::Script { place });
    }
    let Some(origin) = origin_in(cpus, value) else {
        return Err(Fault::Script { place });
    };
    let round = number_at(place, value, "round", 0, LAST_ROUND)?;
    Ok(MsgSpec { round, origin })
}

// The message after those.
fn message(cpus: u8, before: &[MsgSpec], value: &Value) -> Result<MsgSpec, Fault>
    requires { 0 < cpus }
    ensures exact { Gives (λ m. m) result (message cpus before.now (view value.now)) }
    ensures within { IfOk result (λ m. IsMessage cpus m × (length before.now < MESSAGE_LIMIT)) }
{
    if before.len() >= MESSAGE_LIMIT {
        return Err(Fault::Script { place: 2064 });
    }
    message_at(cpus, 2000 + before.len() as u32, value)
}

/// The messages of a script, or the place of the first bad one.
pub fn messages_of(alloc: Global, cpus: u8, items: &[Value]) -> Result<Vec<MsgSpec>, Fault>
    requires { 0 < cpus }
    ensures exact { Gives (λ v. v.items) result (each (message cpus) [] (items_view items.now)) }
    ensures within { IfOk result (λ v. (length v.items ≤ MESSAGE_LIMIT) × All (IsMessage cpus) v.items) }
{
    let mut messages = Vec::new(alloc);
    for item in items {
        let next = message(cpus, messages.as_slice(), item)?;
        push(&mut messages, next)?;
    }
    Ok(messages)
}
