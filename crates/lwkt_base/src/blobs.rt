ghost use Rattle.std.specs.Prelude.{◌≡◌, ◌↔◌, IsTrue, bytes_eq, Option, option_map, ◌==◌, length, take, replicate, ◌++◌, ◌-◌, ◌≤◌, ◌<◌};

use crate::limits::RECORD_LIMIT;
use std::marker::Model;

/// The record that a token guards, by value: 0 to 64 bytes. It takes no memory of its own.
///
/// One of a greater length, up to 255, can be named, so that it can be refused: of it the first 64 bytes are kept, and
/// the others count as 0. Bytes past the length are 0, so that two records with the same bytes are one (own).
#[derive(Clone, Copy, Debug, PartialEq, Eq)]
pub struct Blob {
    len: u8,
    bytes: [u8; 64],
}

impl Model for Blob {
    ghost use Rattle.std.specs.Prelude.{ℕ, List, take, length, ◌++◌, ◌-◌, replicate};
    ghost use Rattle.lwkt_base.specs.Blob.{IsPadded, padded, counted, blob_given_back};
    ghost use Rattle.lwkt_base.specs.declared.limits.TheConstants.{RECORD_LIMIT};

    ghost Value = { List ℕ };

    ghost view = { λ b. counted b.bytes b.len };

    ghost invariant = { λ b. IsPadded b.bytes b.len };

    ghost inverse = { λ bytes. record { len = length bytes; bytes = padded (take RECORD_LIMIT bytes) } };

    ghost inverse_ok = { λ b is. blob_given_back b.bytes b.len is };
}

impl Blob {
    ghost use Rattle.lwkt_base.specs.Blob.{kept_of};

    /// The record of these bytes.
    pub fn of(bytes: &[u8]) -> Self
        requires { length bytes.now < 256 }
        ensures kept { result ≡ kept_of bytes.now }
        ensures short { length bytes.now ≤ RECORD_LIMIT → result ≡ bytes.now }
    {
        if bytes.len() <= 64 {
            Blob::short(bytes)
        } else {
            Blob::long(&bytes[..64], bytes.len() as u8)
        }
    }

    // The record of at most 64 bytes.
    fn short(bytes: &[u8]) -> Self
        requires { length bytes.now ≤ RECORD_LIMIT }
        ensures { result ≡ bytes.now }
    {
        let mut kept = [0; 64];
        kept[..bytes.len()].copy_from_slice(bytes);
        Blob {
            bytes: kept,
            len: bytes.len() as u8,
        }
    }

    // The record of more than 64 bytes, of which these are the first.
    fn long(bytes: &[u8], len: u8) -> Self
        requires front { length bytes.now ≡ RECORD_LIMIT }
        requires long { RECORD_LIMIT < len }
        ensures { result ≡ bytes.now ++ replicate (len - RECORD_LIMIT) 0 }
    {
        let mut kept = [0; 64];
        kept.copy_from_slice(bytes);
        Blob { bytes: kept, len }
    }

    /// How many bytes it has.
    pub fn len(&self) -> u8
        ensures { result ≡ length self.now }
    {
        self.len
    }

    /// Whether it has no bytes.
    pub fn is_empty(&self) -> bool
        ensures { result ≡ (length self.now == 0) }
    {
        self.len() == 0
    }

    /// Whether the other is the same record: it has the same length and the same bytes.
    pub fn is_same(&self, other: &Blob) -> bool
        ensures { IsTrue result ↔ (self.now ≡ other.now) }
    {
        self.len == other.len && self.bytes == other.bytes
    }

    /// The bytes that are kept: all of a record of at most 64, else the first 64.
    pub fn as_slice(&self) -> &[u8]
        ensures kept { result.now ≡ take RECORD_LIMIT self.now }
        ensures short { length self.now ≤ RECORD_LIMIT → result.now ≡ self.now }
    {
        if self.len <= 64 {
            &self.bytes[..self.len as usize]
        } else {
            &self.bytes
        }
    }
}

/// Whether two tokens have the same record, or neither has one.
pub fn are_same(one: &Option<Blob>, other: &Option<Blob>) -> bool
    ensures { IsTrue result ↔ (one.now ≡ other.now) }
{
    match (one, other) {
        (None, None) => true,
        (Some(one), Some(other)) => one.is_same(other),
        _ => false,
    }
}

/// Whether two records have the same bytes, as a test.
#[tactic(auto, using(crate::proofs::BlobLemmas::tested_bytes))]
pub fn same_bytes(one: &Blob, other: &Blob) -> bool
    ensures { result ≡ bytes_eq one.now other.now }
{
    one.is_same(other)
}

/// The length of a record, if there is one.
pub fn length_of(blob: &Option<Blob>) -> Option<u64>
    ensures { result ≡ option_map length blob.now }
{
    match blob {
        None => None,
        Some(blob) => Some(blob.len() as u64),
    }
}
