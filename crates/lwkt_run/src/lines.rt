//! The lines of tokens.
ghost use Rattle.std.specs.Prelude.{◌≡◌, ◌<◌, is_some, unwrap_or, [], false, length, slice_get, Some, IfOk};
ghost use Rattle.lwkt_run.specs.Values.{is_tally, AreValuesOf, ShowTokens};

use lwkt_base::memory::{push, with_capacity_for};
use lwkt_base::{Blob, Cells, Law, OutOfMemory, TokSpec};
use lwkt_core::Final;
use lwkt_report::TokenLine;
use std::alloc::Global;

// A row at a place.
fn row_at(alloc: Global, rows: &[Cells], place: usize) -> Result<Cells, OutOfMemory>
    requires { place < length rows.now }
    ensures { IfOk result (λ row. slice_get rows.now place ≡ Some row) }
{
    rows[place].try_clone(alloc)
}

// The tallies at a place that the line of a token under this law shows.
fn tallies_at(
    alloc: Global,
    law: Law,
    tallies: &[Cells],
    place: usize,
) -> Result<Option<Cells>, OutOfMemory>
    requires there { place < length tallies.now }
    requires none { is_tally law ≡ false → slice_get tallies.now place ≡ Some [] }
    ensures kind { IfOk result (λ shown. is_some shown ≡ is_tally law) }
    ensures shown { IfOk result (λ shown. slice_get tallies.now place ≡ Some (unwrap_or shown [])) }
{
    match law {
        Law::Tally => Ok(Some(row_at(alloc, tallies, place)?)),
        _ => Ok(None),
    }
}

// A generation at a place.
fn generation_at(gens: &[u64], place: usize) -> u64
    requires { place < length gens.now }
    ensures { slice_get gens.now place ≡ Some result }
{
    gens[place]
}

// A record at a place, if there is one.
fn record_at(blobs: &[Option<Blob>], place: usize) -> Option<Blob>
    requires { place < length blobs.now }
    ensures { slice_get blobs.now place ≡ Some result }
{
    blobs[place]
}

// The line of the token of this number, that is opened so.
fn token_line(
    alloc: Global,
    spec: &TokSpec,
    last: &Final,
    tok: usize,
) -> Result<TokenLine, OutOfMemory>
    requires row { tok < length last.now.rows.items }
    requires generation { tok < length last.now.gens.items }
    requires tally { tok < length last.now.tallies.items }
    requires blob { tok < length last.now.blobs.items }
    requires none { is_tally spec.now.law ≡ false → slice_get last.now.tallies.items tok ≡ Some [] }
    ensures kind { IfOk result (λ line. is_some line.tallies ≡ is_tally spec.now.law) }
    ensures cells { IfOk result (λ line. slice_get last.now.rows.items tok ≡ Some line.cells) }
    ensures generation { IfOk result (λ line. slice_get last.now.gens.items tok ≡ Some line.generation) }
    ensures tallies { IfOk result (λ line. slice_get last.now.tallies.items tok ≡ Some (unwrap_or line.tallies [])) }
    ensures blob { IfOk result (λ line. slice_get last.now.blobs.items tok ≡ Some line.blob) }
{
    Ok(TokenLine {
        generation: generation_at(&last.gens, tok),
        cells: row_at(alloc, &last.rows, tok)?,
        tallies: tallies_at(alloc, spec.law, &last.tallies, tok)?,
        blob: record_at(&last.blobs, tok),
    })
}

/// The lines of tokens that are opened so and close with these values, by number. That the values are of these tokens is the caller's
/// condition.
pub fn token_lines(
    alloc: Global,
    specs: &[TokSpec],
    last: &Final,
) -> Result<Vec<TokenLine>, OutOfMemory>
    requires { AreValuesOf specs.now last.now }
    ensures { IfOk result (λ lines. ShowTokens specs.now lines.items last.now) }
{
    let mut lines = with_capacity_for(alloc, specs)?;
    for (i, spec) in specs.iter().enumerate() {
        push(&mut lines, token_line(alloc, spec, last, i)?)?;
    }
    Ok(lines)
}
