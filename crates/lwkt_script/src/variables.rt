//! The members that only a thread of version 3 has.
ghost use Rattle.std.specs.Prelude.{◌≡◌, ◌≤◌, length};
ghost use Rattle.serde_json.specs.View.{view, items_view};
ghost use Rattle.lwkt_script.specs.Variables.{listed_vars, vars_in, service_in};

use crate::versions::Version;
use serde_json::Value;

// The first variables by a list of at most 8 numbers.
#[tactic(auto, using(crate::proofs::Counts::items_counted))]
fn listed_vars(items: &[Value]) -> Option<[u64; 8]>
    ensures { result ≡ listed_vars (items_view items.now) }
{
    if items.len() > 8 {
        return None;
    }
    let mut vars = [0u64; 8];
    let mut at = 0;
    for item in items {
        let n = item.as_u64()?;
        vars[at] = n;
        at += 1;
    }
    Some(vars)
}

/// What the variables of a thread hold first.
pub fn vars_in(version: Version, value: &Value) -> Option<[u64; 8]>
    ensures { result ≡ vars_in version (view value.now) }
{
    match version {
        Version::First => Some([0; 8]),
        Version::Second => Some([0; 8]),
        Version::Third => listed_vars(value.get("vars")?.as_array()?.as_slice()),
    }
}

/// Whether a thread serves others.
pub fn service_in(version: Version, value: &Value) -> Option<bool>
    ensures { result ≡ service_in version (view value.now) }
{
    match version {
        Version::First => Some(false),
        Version::Second => Some(false),
        Version::Third => value.get("service")?.as_bool(),
    }
}
