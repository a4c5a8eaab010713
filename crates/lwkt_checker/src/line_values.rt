ghost use Rattle.std.specs.Prelude.{◌≡◌, IfOk, option_map};
ghost use Rattle.serde_json.specs.View.{view};
ghost use Rattle.lwkt_checker.specs.Line.{value_of};

use lwkt_base::OutOfMemory;
use lwkt_base::limits::LINE_BYTES;
use lwkt_base::memory::read_json;
use serde_json::Value;
use std::alloc::Global;

/// The value that a line is: one JSON text of at most 1,048,576 bytes, nested at most 127 deep. None where it is no such text.
#[tactic(auto, unfolding(crate::specs::Line::value_of))]
pub fn value_of(alloc: Global, line: &[u8]) -> Result<Option<Value>, OutOfMemory>
    ensures { IfOk result (λ value. option_map view value ≡ value_of line.now) }
{
    if line.len() > LINE_BYTES {
        return Ok(None);
    }
    match read_json(alloc, line)? {
        Ok(value) => Ok(Some(value)),
        Err(_) => Ok(None),
    }
}
