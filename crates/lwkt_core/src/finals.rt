ghost use Rattle.std.specs.Prelude.{◌≡◌, ◌≤◌, ◌↔◌, ℕ, map, IsTrue};
ghost use Rattle.lwkt_core.specs.Trace.{end_of, shown_tallies};

use crate::messages::Message;
use crate::tokens::Token;
use lwkt_base::blobs::are_same;
use lwkt_base::limits::CPU_LIMIT;
use lwkt_base::{Blob, Cells, Law, MsgEnd};

/// The closing values of a machine.
#[derive(Drop)]
pub struct Final {
    /// Each token's cells.
    pub rows: Vec<Cells>,
    /// Each token's generation.
    pub gens: Vec<u64>,
    /// Each token's tallies: one number for each processor under `Law::Tally`, else none.
    pub tallies: Vec<Cells>,
    /// Each token's record, if it has one.
    pub blobs: Vec<Option<Blob>>,
    /// Each message's owner state and round.
    pub messages: Vec<MsgEnd>,
}

// Whether two rows have the same cells.
fn is_row(row: &Cells, tok: &Token) -> bool
    ensures { IsTrue result ↔ (row.now ≡ tok.now.row) }
{
    row.as_slice() == tok.row.as_slice()
}

/// Whether these are the tokens' rows.
pub fn are_rows(rows: &[Cells], tokens: &[Token]) -> bool
    ensures { IsTrue result ↔ (rows.now ≡ map (λ tok. tok.row) tokens.now) }
{
    if rows.len() != tokens.len() {
        return false;
    }
    for (i, tok) in tokens.iter().enumerate() {
        if !is_row(&rows[i], tok) {
            return false;
        }
    }
    true
}

/// Whether these are the tokens' generations.
pub fn are_generations(gens: &[u64], tokens: &[Token]) -> bool
    ensures { IsTrue result ↔ (gens.now ≡ map (λ tok. tok.generation) tokens.now) }
{
    if gens.len() != tokens.len() {
        return false;
    }
    for (i, tok) in tokens.iter().enumerate() {
        if gens[i] != tok.generation {
            return false;
        }
    }
    true
}

// Whether these are the tallies that the token shows.
fn shows_tallies(tok: &Token, tallies: &[u64], cpus: usize) -> bool
    requires { cpus ≤ CPU_LIMIT }
    ensures { IsTrue result ↔ (tallies.now ≡ shown_tallies tok.now.law cpus tok.now.tallies) }
{
    match tok.law {
        Law::Tally => tallies == &tok.tallies[..cpus],
        _ => tallies.is_empty(),
    }
}

/// Whether these are the tallies that the tokens show.
pub fn are_tallies(tallies: &[Cells], tokens: &[Token], cpus: usize) -> bool
    requires { cpus ≤ CPU_LIMIT }
    ensures { IsTrue result ↔ (tallies.now ≡ map (λ tok. shown_tallies tok.law cpus tok.tallies) tokens.now) }
{
    if tallies.len() != tokens.len() {
        return false;
    }
    for (i, tok) in tokens.iter().enumerate() {
        if !shows_tallies(tok, tallies[i].as_slice(), cpus) {
            return false;
        }
    }
    true
}

/// Whether these are the tokens' records.
pub fn are_blobs(blobs: &[Option<Blob>], tokens: &[Token]) -> bool
    ensures { IsTrue result ↔ (blobs.now ≡ map (λ tok. tok.blob) tokens.now) }
{
    if blobs.len() != tokens.len() {
        return false;
    }
    for (i, tok) in tokens.iter().enumerate() {
        if !are_same(&blobs[i], &tok.blob) {
            return false;
        }
    }
    true
}

// Whether this is the message's end.
fn is_end(end: &MsgEnd, msg: &Message) -> bool
    ensures { IsTrue result ↔ (end.now ≡ end_of msg.now) }
{
    end.round == msg.round && end.state == msg.owner
}

/// Whether these are the messages' ends.
pub fn are_ends(ends: &[MsgEnd], messages: &[Message]) -> bool
    ensures { IsTrue result ↔ (ends.now ≡ map end_of messages.now) }
{
    if ends.len() != messages.len() {
        return false;
    }
    for (i, msg) in messages.iter().enumerate() {
        if !is_end(&ends[i], msg) {
            return false;
        }
    }
    true
}
