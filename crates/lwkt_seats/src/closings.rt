//! The closing values of tokens, as C gets them.
ghost use Rattle.std.specs.Prelude.{◌≡◌, ◌≤◌, [], None, length, slice_index, slice_index_or};
ghost use Rattle.lwkt_core.specs.Tokens.{IsShort};
ghost use Rattle.lwkt_seats.specs.Closes.{IsSized};
ghost use Rattle.lwkt_seats.specs.Closings.{zero_padded, bytes_in, count_in, closing_of, PutsClosings};

use lwkt_bank::Closed;
use lwkt_base::Blob;
use lwkt_base::limits::{CELL_LIMIT, CPU_LIMIT, RECORD_LIMIT};

/// What a token came to, as C gets it.
#[repr(C)]
#[derive(Clone, Copy)]
pub struct LwktClosing {
    /// The cells, and 0 past their number.
    pub row: [u64; 4],
    /// The generation.
    pub generation: u64,
    /// Under tally what each seat has added, and 0 past their number.
    pub tallies: [u64; 8],
    /// How many cells there are.
    pub cells: u32,
    /// How many tallies there are: none but under tally.
    pub seats: u32,
    /// The bytes of its record, and 0 past their number.
    pub bytes: [u8; 64],
    /// How many bytes the record has.
    pub length: u32,
    /// How many records it guards, 0 or 1.
    pub records: u32,
}

// The cells of a token; none where there is no such token.
fn row_of(closed: &Closed, tok: usize) -> &[u64]
    ensures { result.now ≡ slice_index_or closed.now.rows.items tok [] }
{
    match closed.rows.get(tok) {
        Some(row) => row.as_slice(),
        None => &[],
    }
}

// Its tallies.
fn tallies_of(closed: &Closed, tok: usize) -> &[u64]
    ensures { result.now ≡ slice_index_or closed.now.tallies.items tok [] }
{
    match closed.tallies.get(tok) {
        Some(tallies) => tallies.as_slice(),
        None => &[],
    }
}

// Its generation.
fn generation_of(closed: &Closed, tok: usize) -> u64
    ensures { result ≡ slice_index closed.now.gens.items tok }
{
    closed.gens.get(tok).copied().unwrap_or(0)
}

// Its record.
fn blob_of(closed: &Closed, tok: usize) -> Option<Blob>
    ensures { result ≡ slice_index_or closed.now.blobs.items tok None }
{
    match closed.blobs.get(tok) {
        Some(blob) => *blob,
        None => None,
    }
}

fn four(values: &[u64]) -> [u64; 4]
    requires { length values.now ≤ CELL_LIMIT }
    ensures { result ≡ zero_padded CELL_LIMIT values.now }
{
    let mut all = [0; 4];
    all[..values.len()].copy_from_slice(values);
    all
}

fn eight(values: &[u64]) -> [u64; 8]
    requires { length values.now ≤ CPU_LIMIT }
    ensures { result ≡ zero_padded CPU_LIMIT values.now }
{
    let mut all = [0; 8];
    all[..values.len()].copy_from_slice(values);
    all
}

fn sixty_four(bytes: &[u8]) -> [u8; 64]
    requires { length bytes.now ≤ RECORD_LIMIT }
    ensures { result ≡ zero_padded RECORD_LIMIT bytes.now }
{
    let mut all = [0; 64];
    all[..bytes.len()].copy_from_slice(bytes);
    all
}

// The bytes of a record; none where there is no record.
fn bytes_in(blob: &Option<Blob>) -> [u8; 64]
    requires { IsShort blob.now }
    ensures { result ≡ zero_padded RECORD_LIMIT (bytes_in blob.now) }
{
    match blob {
        Some(blob) => sixty_four(blob.as_slice()),
        None => sixty_four(&[]),
    }
}

// How many they are.
fn length_in(blob: &Option<Blob>) -> u32
    ensures { result ≡ length (bytes_in blob.now) }
{
    match blob {
        Some(blob) => blob.len() as u32,
        None => 0,
    }
}

// How many records that is.
fn count_in(blob: &Option<Blob>) -> u32
    ensures { result ≡ count_in blob.now }
{
    match blob {
        Some(_) => 1,
        None => 0,
    }
}

// What a token came to.
fn closing_of(closed: &Closed, tok: usize) -> LwktClosing
    requires { IsSized closed.now }
    ensures { result ≡ closing_of closed.now tok }
{
    let row = row_of(closed, tok);
    let tallies = tallies_of(closed, tok);
    let blob = blob_of(closed, tok);
    LwktClosing {
        row: four(row),
        generation: generation_of(closed, tok),
        tallies: eight(tallies),
        cells: row.len() as u32,
        seats: tallies.len() as u32,
        bytes: bytes_in(&blob),
        length: length_in(&blob),
        records: count_in(&blob),
    }
}

/// Puts what each token came to where the caller wants it.
pub(crate) fn put_closings(closed: &Closed, closings: &mut [LwktClosing])
    requires sized { IsSized closed.now }
    requires room { length closed.now.gens.items ≤ length closings.old }
    ensures { PutsClosings closed.now closings.old closings.new }
{
    for tok in 0..closed.gens.len() {
        closings[tok] = closing_of(closed, tok);
    }
}
