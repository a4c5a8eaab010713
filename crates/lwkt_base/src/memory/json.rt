//! JSON that is read, and what the library says of a text that is none.
ghost use Rattle.std.specs.Prelude.{◌≡◌, ◌≤◌, ◌<◌, Some, None, IfOk, IfErr, OnErr, IsUtf8, length};
ghost use Rattle.serde_json.specs.Data.{depth as nesting};
ghost use Rattle.serde_json.specs.Read.{max_depth, read as read_text};
ghost use Rattle.serde_json.specs.View.{view};

use super::{OutOfMemory, refused};
use serde_json::{Error, Value};
use std::alloc::Global;

/// The value that bytes are as JSON, or why they are none.
pub fn read_json(alloc: Global, bytes: &[u8]) -> Result<Result<Value, Error>, OutOfMemory>
    ensures value { IfOk result (λ read. IfOk read (λ v. IsUtf8 bytes.now × (read_text bytes.now ≡ Some (view v)))) }
    ensures nests { IfOk result (λ read. IfOk read (λ v. nesting (view v) ≤ max_depth)) }
    ensures none { IfOk result (λ read. IfErr read (λ e. IsUtf8 bytes.now → read_text bytes.now ≡ None)) }
    ensures some { OnErr result (0 < length bytes.now) }
{
    match Value::from_slice(alloc, bytes) {
        Ok(value) => Ok(Ok(value)),
        Err(error) => if error.is_memory() {
            Err(refused())
        } else {
            Ok(Err(error))
        },
    }
}

/// What the library says of bytes that are no JSON.
pub fn words_of(alloc: Global, error: &Error) -> Result<String, OutOfMemory> {
    match error.to_string(alloc) {
        Ok(words) => Ok(words),
        Err(_) => Err(refused()),
    }
}
