ghost use Rattle.std.specs.Prelude.{◌≡◌, ◌<◌, ◌≤◌, length, Err, IfOk};
ghost use Rattle.serde_json.specs.View.{view};
ghost use Rattle.lwkt_script.specs.Outcome.{Gives};
ghost use Rattle.lwkt_script.specs.Format.{is_whole, script, script_of};
ghost use Rattle.lwkt_script.specs.Limits.{IsWithinLimits};
ghost use Rattle.lwkt_base.specs.Fault.{no_memory};

use crate::fields::{has, has_members, list_at, number_at};
use crate::messages::messages_of;
use crate::scripts::Script;
use crate::threads::threads_of;
use crate::tokens::tokens_of;
use crate::versions::version_of;
use lwkt_base::Fault;
use lwkt_base::limits::{MOST_CPUS, MOST_IDLE, MOST_TURNS, SCRIPT_BYTES};
use lwkt_base::memory::read_json;
use lwkt_code::Series;
use serde_json::Value;
use std::alloc::Global;

// Whether the value is an object with exactly the seven members.
fn is_whole(value: &Value) -> bool
    ensures { result ≡ is_whole (view value.now) }
{
    has_members(value, 7)
        && has(value, "version")
        && has(value, "turns")
        && has(value, "idle")
        && has(value, "cpus")
}

#[tactic(auto, unfolding(crate::specs::Format::script))]
fn script(alloc: Global, value: &Value) -> Result<Script, Fault>
    ensures exact { Gives (λ s. s) result (script (view value.now)) }
    ensures limits { IfOk result IsWithinLimits }
{
    if !is_whole(value) {
        return Err(Fault::Script { place: 1 });
    }
    let token_items = list_at(1, value, "tokens")?;
    let message_items = list_at(1, value, "messages")?;
    let thread_items = list_at(1, value, "threads")?;
    let version = version_of(number_at(2, value, "version", 1, 3)?);
    let turns = number_at(3, value, "turns", 1, MOST_TURNS)? as u32;
    let idle = number_at(4, value, "idle", 1, MOST_IDLE)? as u32;
    let cpus = number_at(5, value, "cpus", 1, MOST_CPUS)? as u8;
    let tokens = tokens_of(alloc, version, token_items.as_slice())?;
    let messages = messages_of(alloc, cpus, message_items.as_slice())?;
    let threads = threads_of(alloc, version, cpus, thread_items.as_slice())?;
    Ok(Script {
        turns,
        idle,
        cpus,
        tokens: Series::from_vec(tokens),
        messages: Series::from_vec(messages),
        threads: Series::from_vec(threads),
    })
}

/// Reads a script of version 1, 2 or 3: one JSON text of at most 1048576 bytes.
///
/// Refused with `Script` and the place of the first bad part, and with `Memory` only where an allocation was refused;
/// there is no other fault. The places, in the order in which the parts are looked at, numbers counting from 0:
///
/// - 0: the text is too long, or no JSON text (nested at most 127 deep).
/// - 1: it is no object with exactly `version`, `turns`, `idle`, `cpus`, `tokens`, `messages` and `threads`, or one of
///   the last three is no list.
/// - 2, 3, 4, 5: `version` isn't 1 to 3, `turns` isn't 1 to 1000000, `idle` isn't 1 to 100000000, `cpus` isn't 1 to 8.
/// - 1000 + n: token n, which is 64 where there are more than 64.
/// - 2000 + n: message n, which is 64 where there are more than 64.
/// - 3000 + n: thread n: its members, more than 256 steps, or the 17th thread of its processor.
/// - 100000 + 1000 * n + j: step j of thread n. In version 3 steps stand in one another, and j counts in reading order.
///
/// In version 3 each step of a thread is read first. Then each is looked at by itself (an expression of more than 16
/// operators, more places than an answer has numbers), and then loops are looked for in which nothing is asked; such a
/// loop is told at the step that begins the innermost loop which the first of its steps stands at or in.
///
/// Of a member that stands twice the last one counts. A number with a fraction or an exponent, -0, and a number of
/// more than 64 bits are no whole numbers.
#[tactic(auto, unfolding(crate::specs::Format::script_of))]
pub fn read_script(alloc: Global, bytes: &[u8]) -> Result<Script, Fault>
    // The script that the bytes are, or the place of their first bad part.
    ensures exact { Gives (λ s. s) result (script_of bytes.now) }

    // What each script keeps.
    ensures limits { IfOk result IsWithinLimits }

    // No memory is taken for no bytes or for too many.
    ensures memory { result ≡ Err no_memory → (0 < length bytes.now) × (length bytes.now ≤ SCRIPT_BYTES) }
{
    if bytes.len() > SCRIPT_BYTES {
        return Err(Fault::Script { place: 0 });
    }
    match read_json(alloc, bytes)? {
        Ok(value) => script(alloc, &value),
        Err(_) => Err(Fault::Script { place: 0 }),
    }
}
