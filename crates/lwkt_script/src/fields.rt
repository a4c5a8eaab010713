// The fields of a script's parts.
ghost use Rattle.std.specs.Prelude.{◌≡◌, ◌≤◌, is_some, Err, IfOk, IfSome, OnErr};
ghost use Rattle.serde_json.specs.Find.{get};
ghost use Rattle.serde_json.specs.View.{view, items_view};
ghost use Rattle.lwkt_script.specs.Field.{has_members, item_count, has_items, number, number_in, list_in};
ghost use Rattle.lwkt_script.specs.Outcome.{Gives, part};

use lwkt_base::Fault;
use serde_json::Value;

/// Whether the value is an object with so many members.
#[tactic(auto, using(crate::proofs::Counts::members_counted))]
pub fn has_members(value: &Value, count: usize) -> bool
    ensures { result ≡ has_members count (view value.now) }
{
    match value.as_object() {
        Some(members) => members.len() == count,
        None => false,
    }
}

/// How many items the value has, if it is a list.
#[tactic(auto, using(crate::proofs::Counts::items_counted))]
pub fn item_count(value: &Value) -> Option<usize>
    ensures { result ≡ item_count (view value.now) }
{
    match value.as_array() {
        Some(items) => Some(items.len()),
        None => None,
    }
}

/// Whether the value is a list of so many items.
pub fn has_items(value: &Value, count: usize) -> bool
    ensures { result ≡ has_items count (view value.now) }
{
    match item_count(value) {
        None => false,
        Some(n) => n == count,
    }
}

/// Whether the value is an object with a member of this name.
pub fn has(value: &Value, name: &str) -> bool
    ensures { result ≡ is_some (get name.now (view value.now)) }
{
    value.get(name).is_some()
}

/// The value as a whole number within these limits.
pub fn number(value: &Value, low: u64, high: u64) -> Option<u64>
    ensures exact { result ≡ number low high (view value.now) }
    ensures within { IfSome result (λ n. (low ≤ n) × (n ≤ high)) }
{
    match value.as_u64() {
        Some(n) if low <= n && n <= high => Some(n),
        _ => None,
    }
}

/// The member of this name as a whole number within these limits.
pub fn number_in(value: &Value, name: &str, low: u64, high: u64) -> Option<u64>
    ensures { result ≡ number_in name.now low high (view value.now) }
{
    number(value.get(name)?, low, high)
}

/// The member of this name as a whole number within these limits, as part of what stands at a place.
pub fn number_at(place: u32, value: &Value, name: &str, low: u64, high: u64) -> Result<u64, Fault>
    ensures exact { Gives (λ n. n) result (part place (number_in name.now low high (view value.now))) }
    ensures within { IfOk result (λ n. (low ≤ n) × (n ≤ high)) }
    ensures only { OnErr result (result ≡ Err (Fault.Script place)) }
{
    match number_in(value, name, low, high) {
        Some(n) => Ok(n),
        None => Err(Fault::Script { place }),
    }
}

/// The member of this name as a list, as part of what stands at a place.
pub fn list_at<'v>(place: u32, value: &'v Value, name: &str) -> Result<&'v Vec<Value>, Fault>
    ensures exact { Gives (λ v. items_view v.now.items) result (part place (list_in name.now (view value.now))) }
    ensures only { OnErr result (result ≡ Err (Fault.Script place)) }
{
    match value.get(name).and_then(Value::as_array) {
        Some(list) => Ok(list),
        None => Err(Fault::Script { place }),
    }
}
