ghost use Rattle.std.specs.Prelude.{◌≡◌, [], None, IfOk};
ghost use Rattle.serde_json.specs.View.{view};
ghost use Rattle.lwkt_script.specs.Outcome.{Gives};
ghost use Rattle.lwkt_checker.specs.LineFormat.{is_opening, opened};

use lwkt_base::Fault;
use lwkt_base::limits::MOST_CPUS;
use lwkt_script::Series;
use lwkt_script::fields::{has, has_members, list_at, number_at};
use lwkt_trace::{Trace, guarded_of, messages_of};
use serde_json::Value;
use std::alloc::Global;

// Whether the value is an object with exactly the four members.
fn is_opening(value: &Value) -> bool
    ensures { result ≡ is_opening (view value.now) }
{
    has_members(value, 4) && has(value, "version") && has(value, "cpus")
}

/// The opening of a trace in lines: a trace in which nothing has happened yet, and which has no closing values.
///
/// Refused with `Script` and the place of the first bad part, and with `Memory` only where an allocation was refused.
#[tactic(auto, unfolding(crate::specs::LineFormat::opened))]
pub fn opened(alloc: Global, value: &Value) -> Result<Trace, Fault>
    ensures exact { Gives (λ t. t) result (opened (view value.now)) }
    ensures events { IfOk result (λ t. t.events ≡ []) }
    ensures last { IfOk result (λ t. t.last ≡ None) }
{
    if !is_opening(value) {
        return Err(Fault::Script { place: 1 });
    }
    let token_items = list_at(1, value, "tokens")?;
    let message_items = list_at(1, value, "messages")?;
    number_at(2, value, "version", 1, 1)?;
    let cpus = number_at(3, value, "cpus", 1, MOST_CPUS)? as u8;
    let tokens = guarded_of(alloc, token_items.as_slice())?;
    let messages = messages_of(alloc, cpus, message_items.as_slice())?;
    Ok(Trace {
        cpus,
        tokens: Series::from_vec(tokens),
        messages: Series::from_vec(messages),
        events: Series::from_vec(Vec::new(alloc)),
        last: None,
    })
}
