// The records that tokens guard.
ghost use Rattle.std.specs.Prelude.{◌≡◌, ◌≤◌, ◌<◌, length, IfSome};
ghost use Rattle.serde_json.specs.View.{view};
ghost use Rattle.lwkt_script.specs.Record.{digit_of, byte_of, blob_of, blob_in, guard_in, record_in, may_guard};

use crate::versions::Version;
use lwkt_base::limits::RECORD_LIMIT;
use lwkt_base::{Blob, Law};
use serde_json::Value;

// The value of a hexadecimal digit, of which letters are small.
fn digit_of(c: u8) -> Option<u8>
    ensures exact { result ≡ digit_of c }
    ensures low { IfSome result (λ digit. digit < 16) }
{
    match c {
        48..=57 => Some(c - 48),
        97..=102 => Some(c - 87),
        _ => None,
    }
}

// A byte by its two digits.
fn byte_of(a: u8, b: u8) -> Option<u8>
    ensures { result ≡ byte_of a b }
{
    let high = digit_of(a)?;
    let low = digit_of(b)?;
    Some(16 * high + low)
}

/// A record of at most so many bytes, by two small hexadecimal digits for each.
pub fn blob_of(most: usize, text: &[u8]) -> Option<Blob>
    requires { most ≤ 65 }
    ensures exact { result ≡ blob_of most text.now }
    ensures short { IfSome result (λ blob. length blob ≤ most) }
{
    if text.len() > 2 * most {
        return None;
    }
    let count = text.len() / 2;
    if text.len() != 2 * count {
        return None;
    }
    let mut bytes = [0u8; 65];
    for place in 0..count {
        bytes[place] = byte_of(text[2 * place], text[2 * place + 1])?;
    }
    Some(Blob::of(&bytes[..count]))
}

/// A record of at most so many bytes that a value is.
pub fn blob_in(most: usize, value: &Value) -> Option<Blob>
    requires { most ≤ 65 }
    ensures exact { result ≡ blob_in most (view value.now) }
    ensures short { IfSome result (λ blob. length blob ≤ most) }
{
    blob_of(most, value.as_str()?.as_bytes())
}

/// A record of at most 64 bytes that a value is, or none where it is null.
pub fn guard_in(value: &Value) -> Option<Option<Blob>>
    ensures exact { result ≡ guard_in (view value.now) }
    ensures short { IfSome result (λ guard. IfSome guard (λ blob. length blob ≤ RECORD_LIMIT)) }
{
    if value.is_null() {
        return Some(None);
    }
    let blob = blob_in(64, value)?;
    Some(Some(blob))
}

/// What a token says of its record.
pub fn record_in(version: Version, value: &Value) -> Option<Option<Blob>>
    ensures exact { result ≡ record_in version (view value.now) }
    ensures short { IfSome result (λ guard. IfSome guard (λ blob. length blob ≤ RECORD_LIMIT)) }
{
    match version {
        Version::First => Some(None),
        Version::Second | Version::Third => guard_in(value.get("record")?),
    }
}

/// Whether a token under this law may have this record, or none.
pub fn may_guard(law: Law, blob: &Option<Blob>) -> bool
    ensures { result ≡ may_guard law blob.now }
{
    match law {
        Law::Len => blob.is_some(),
        Law::Tally => !blob.is_some(),
        _ => true,
    }
}
