ghost use Rattle.std.specs.Prelude.{◌≡◌, ◌<◌, ◌≤◌, length, Err, IfOk};
ghost use Rattle.serde_json.specs.View.{view, items_view};
ghost use Rattle.lwkt_script.specs.Outcome.{Gives};
ghost use Rattle.lwkt_trace.specs.Format.{has_six_members, cpus_in, trace_of_parts, trace, trace_of};
ghost use Rattle.lwkt_base.specs.Fault.{no_memory};

use crate::closings::closing;
use crate::events::events_of;
use crate::guards::guarded_of;
use crate::messages::messages_of;
use crate::traces::Trace;
use lwkt_base::Fault;
use lwkt_base::limits::{MOST_CPUS, TRACE_BYTES};
use lwkt_base::memory::read_json;
use lwkt_script::Series;
use lwkt_script::fields::{has, has_members, list_at, number_at};
use serde_json::Value;
use std::alloc::Global;

// Whether the value is an object with exactly the six members.
fn is_whole(value: &Value) -> bool
    ensures { result ≡ has_six_members (view value.now) }
{
    has_members(value, 6) && has(value, "version") && has(value, "cpus") && has(value, "last")
}

// How many processors there are, in a trace of version 1.
#[tactic(auto, unfolding(crate::specs::Format::cpus_in))]
fn cpus_in(value: &Value) -> Result<u8, Fault>
    ensures exact { Gives (λ n. n) result (cpus_in (view value.now)) }
    ensures some { IfOk result (λ n. 0 < n) }
{
    number_at(2, value, "version", 1, 1)?;
    Ok(number_at(3, value, "cpus", 1, MOST_CPUS)? as u8)
}

// The trace of so many processors that has these parts.
#[tactic(auto, unfolding(crate::specs::Format::trace_of_parts))]
fn trace_of_parts(
    alloc: Global,
    cpus: u8,
    token_items: &[Value],
    message_items: &[Value],
    event_items: &[Value],
    last_part: &Value,
) -> Result<Trace, Fault>
    requires { 0 < cpus }
    ensures { Gives (λ t. t) result (trace_of_parts cpus (items_view token_items.now) (items_view message_items.now) (items_view event_items.now) (view last_part.now)) }
{
    let tokens = guarded_of(alloc, token_items)?;
    let messages = messages_of(alloc, cpus, message_items)?;
    let events = events_of(alloc, event_items)?;
    let last = closing(alloc, last_part)?;
    Ok(Trace {
        cpus,
        tokens: Series::from_vec(tokens),
        messages: Series::from_vec(messages),
        events: Series::from_vec(events),
        last,
    })
}

#[tactic(auto, unfolding(crate::specs::Format::trace))]
fn trace(alloc: Global, value: &Value) -> Result<Trace, Fault>
    ensures { Gives (λ t. t) result (trace (view value.now)) }
{
    if !is_whole(value) {
        return Err(Fault::Script { place: 1 });
    }
    let token_items = list_at(1, value, "tokens")?;
    let message_items = list_at(1, value, "messages")?;
    let event_items = list_at(1, value, "events")?;
    let Some(last_part) = value.get("last") else {
        return Err(Fault::Script { place: 1 });
    };
    trace_of_parts(
        alloc,
        cpus_in(value)?,
        token_items.as_slice(),
        message_items.as_slice(),
        event_items.as_slice(),
        last_part,
    )
}

/// Reads a trace of version 1: one JSON text of at most 268435456 bytes.
///
/// Refused with `Script` and the place of the first bad part, and with `Memory` only where an allocation was refused;
/// there is no other fault. The places, in the order in which the parts are looked at, numbers counting from 0:
///
/// - 0: the text is too long, or no JSON text (nested at most 127 deep).
/// - 1: it is no object with exactly `version`, `cpus`, `tokens`, `messages`, `events` and `last`, or one of `tokens`,
///   `messages` and `events` is no list.
/// - 2, 3: `version` isn't 1, `cpus` isn't 1 to 8.
/// - 1000 + n: token n, which is 64 where there are more than 64.
/// - 2000 + n: message n, which is 64 where there are more than 64.
/// - 1000000 + n: event n, which is 50000000 where there are more than that.
/// - 4: `last` is neither null nor an object with exactly the lists `rows`, `gens`, `tallies` and `messages`, beside which
///   `records` may stand.
/// - 3000 + n: row n; 5: `gens`; 4000 + n: the tallies of token n; 5000 + n: the end of message n;
///   6000 + n: the record of token n. With more than 64 of
///   them n is 64.
///
/// Of a member that stands twice the last one counts. A number with a fraction or an exponent, -0, and a number of
/// more than 64 bits are no whole numbers.
#[tactic(auto, unfolding(crate::specs::Format::trace_of))]
pub fn read_trace(alloc: Global, bytes: &[u8]) -> Result<Trace, Fault>
    // The trace that the bytes are, or the place of their first bad part.
    ensures exact { Gives (λ t. t) result (trace_of bytes.now) }

    // No memory is taken for no bytes or for too many.
    ensures memory { result ≡ Err no_memory → (0 < length bytes.now) × (length bytes.now ≤ TRACE_BYTES) }
{
    if bytes.len() > TRACE_BYTES {
        return Err(Fault::Script { place: 0 });
    }
    match read_json(alloc, bytes)? {
        Ok(value) => trace(alloc, &value),
        Err(_) => Err(Fault::Script { place: 0 }),
    }
}
