ghost use Rattle.std.specs.Prelude.{◌<◌, []};
ghost use Rattle.serde_json.specs.View.{view, items_view};
ghost use Rattle.lwkt_script.specs.Outcome.{Gives, each};
ghost use Rattle.lwkt_trace.specs.Format.{message_behind};

use lwkt_base::limits::MESSAGE_LIMIT;
use lwkt_base::memory::push;
use lwkt_base::{Fault, MsgSpec};
use lwkt_script::messages::message_at;
use serde_json::Value;
use std::alloc::Global;

// The message after those.
fn message(cpus: u8, before: &[MsgSpec], value: &Value) -> Result<MsgSpec, Fault>
    requires { 0 < cpus }
    ensures { Gives (λ m. m) result (message_behind cpus before.now (view value.now)) }
{
    if before.len() >= MESSAGE_LIMIT {
        return Err(Fault::Script { place: 2064 });
    }
    message_at(cpus, 2000 + before.len() as u32, value)
}

/// The messages of a trace with so many processors, at most 64.
///
/// Refused with `Script` and 2000 + n for message n, which is 64 where there are more than 64, and with `Memory` only where
/// an allocation was refused.
pub fn messages_of(alloc: Global, cpus: u8, items: &[Value]) -> Result<Vec<MsgSpec>, Fault>
    requires { 0 < cpus }
    ensures { Gives (λ v. v.items) result (each (message_behind cpus) [] (items_view items.now)) }
{
    let mut messages = Vec::new(alloc);
    for item in items {
        let next = message(cpus, messages.as_slice(), item)?;
        push(&mut messages, next)?;
    }
    Ok(messages)
}
