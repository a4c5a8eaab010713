ghost use Rattle.std.specs.Prelude.{◌≡◌, ◌<◌, ◌≤◌, [], length, All, IfOk};
ghost use Rattle.serde_json.specs.View.{view, items_view};
ghost use Rattle.lwkt_script.specs.Outcome.{Gives, each};
ghost use Rattle.lwkt_script.specs.Member.{law_of, law_in, allows};
ghost use Rattle.lwkt_script.specs.Format.{cell, token_read, token};
ghost use Rattle.lwkt_script.specs.Limits.{IsToken};

use crate::fields::{has_members, list_at, number_at};
use crate::records::{may_guard, record_in};
use crate::versions::Version;
use lwkt_base::limits::{LAST_GENERATION, TOKEN_LIMIT};
use lwkt_base::memory::push;
use lwkt_base::{Cells, Fault, Law, TokSpec};
use serde_json::Value;
use std::alloc::Global;

// The law of a name, in any version.
fn law_of(name: &str) -> Option<Law>
    ensures { result ≡ law_of name.now }
{
    match name {
        "any" => Some(Law::Any),
        "sum" => Some(Law::Sum),
        "order" => Some(Law::Order),
        "cap" => Some(Law::Cap),
        "tally" => Some(Law::Tally),
        "len" => Some(Law::Len),
        _ => None,
    }
}

fn law_in(value: &Value) -> Option<Law>
    ensures { result ≡ law_in (view value.now) }
{
    law_of(value.get("law")?.as_str()?)
}

/// Whether a token under this law may have so many cells.
pub fn allows(law: Law, count: usize) -> bool
    ensures { result ≡ allows law count }
{
    match law {
        Law::Tally => count == 1,
        Law::Len => 0 < count && count <= 4,
        _ => count <= 4,
    }
}

/// Any whole numbers of 64 bits, as part of what stands at a place.
pub fn cells_of(alloc: Global, place: u32, items: &[Value]) -> Result<Vec<u64>, Fault>
    ensures exact { Gives (λ v. v.items) result (each (cell place) [] (items_view items.now)) }
    ensures count { IfOk result (λ v. length v.items ≡ length items.now) }
{
    let mut cells = Vec::new(alloc);
    for item in items {
        let Some(cell) = item.as_u64() else {
            return Err(Fault::Script { place });
        };
        push(&mut cells, cell)?;
    }
    Ok(cells)
}

#[tactic(auto, using(crate::proofs::Counts::items_counted), unfolding(crate::specs::Format::token_read))]
fn token_at(alloc: Global, version: Version, place: u32, value: &Value) -> Result<TokSpec, Fault>
    ensures exact { Gives (λ t. t) result (token_read version place (view value.now)) }
    ensures within { IfOk result IsToken }
{
    if !has_members(value, version.token_members()) {
        return Err(Fault::Script { place });
    }
    let items = list_at(place, value, "cells")?;
    let Some(law) = law_in(value) else {
        return Err(Fault::Script { place });
    };
    if !version.has_law(law) || !allows(law, items.len()) {
        return Err(Fault::Script { place });
    }
    let param = number_at(place, value, "param", 0, u64::MAX)?;
    let generation = number_at(place, value, "gen", 0, LAST_GENERATION)?;
    let Some(blob) = record_in(version, value) else {
        return Err(Fault::Script { place });
    };
    if !may_guard(law, &blob) {
        return Err(Fault::Script { place });
    }
    let cells = Cells::from_vec(cells_of(alloc, place, items.as_slice())?);
    Ok(TokSpec {
        cells,
        law,
        param,
        generation,
        blob,
    })
}

/// The token after those.
pub fn token(
    alloc: Global,
    version: Version,
    before: &[TokSpec],
    value: &Value,
) -> Result<TokSpec, Fault>
    ensures exact { Gives (λ t. t) result (token version before.now (view value.now)) }
    ensures within { IfOk result (λ t. IsToken t × (length before.now < TOKEN_LIMIT)) }
{
    if before.len() >= TOKEN_LIMIT {
        return Err(Fault::Script { place: 1064 });
    }
    token_at(alloc, version, 1000 + before.len() as u32, value)
}

/// Tokens by their numbers, at most 64, or the place of the first bad one.
pub fn tokens_of(alloc: Global, version: Version, items: &[Value]) -> Result<Vec<TokSpec>, Fault>
    ensures exact { Gives (λ v. v.items) result (each (token version) [] (items_view items.now)) }
    ensures within { IfOk result (λ v. (length v.items ≤ TOKEN_LIMIT) × All IsToken v.items) }
{
    let mut tokens = Vec::new(alloc);
    for item in items {
        let next = token(alloc, version, tokens.as_slice(), item)?;
        push(&mut tokens, next)?;
    }
    Ok(tokens)
}
