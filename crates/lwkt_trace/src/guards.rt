//! Tokens as a trace has them: those of scripts, in each of which a record may be named or left out.
ghost use Rattle.std.specs.Prelude.{◌≡◌, []};
ghost use Rattle.serde_json.specs.View.{view, items_view};
ghost use Rattle.lwkt_script.specs.Outcome.{Gives, each};
ghost use Rattle.lwkt_trace.specs.Guard.{version_in, guarded};

use lwkt_base::memory::push;
use lwkt_base::{Fault, TokSpec};
use lwkt_script::Version;
use lwkt_script::fields::has;
use lwkt_script::tokens::token;
use serde_json::Value;
use std::alloc::Global;

// The version of scripts that a token is written in.
fn version_in(value: &Value) -> Version
    ensures { result ≡ version_in (view value.now) }
{
    if has(value, "record") {
        Version::Second
    } else {
        Version::First
    }
}

// The token after those.
fn guarded(alloc: Global, before: &[TokSpec], value: &Value) -> Result<TokSpec, Fault>
    ensures { Gives (λ t. t) result (guarded before.now (view value.now)) }
{
    token(alloc, version_in(value), before, value)
}

/// Tokens that may guard a record by their numbers, at most 64.
///
/// Refused with `Script` and 1000 + n for token n, which is 64 where there are more than 64, and with `Memory` only where an
/// allocation was refused.
pub fn guarded_of(alloc: Global, items: &[Value]) -> Result<Vec<TokSpec>, Fault>
    ensures { Gives (λ v. v.items) result (each guarded [] (items_view items.now)) }
{
    let mut tokens = Vec::new(alloc);
    for item in items {
        let next = guarded(alloc, tokens.as_slice(), item)?;
        push(&mut tokens, next)?;
    }
    Ok(tokens)
}
