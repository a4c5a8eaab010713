//! Memory that was refused, and the calls that ask for it.
//!
//! Only this module makes an `OutOfMemory`, since the field is private to it, and each function that does so has just made a call of
//! the library that grew and was refused. What such a call asks for is bounded by what the caller has: one element more, a copy of a
//! list, or a number of elements up to `MOST_ROOM`.
ghost use Rattle.std.specs.Prelude.{◌≡◌};

use std::alloc::AllocError;
use std::error::Error;
use std::fmt;

mod arguments;
mod command_lines;
mod json;
mod lists;
mod pieces;
mod rings;
mod tables;
mod texts;
mod threads;

pub use arguments::arguments_of;
pub use command_lines::{matches_of, said_by, with_argument, with_bin_name, with_subcommand};
pub use json::{read_json, words_of};
pub use lists::{
    collect, extend_from_slice, from_array, from_slice, push, reserve, reserve_for, resize, sort,
    with_capacity, with_capacity_for,
};
pub use pieces::{Piece, put};
pub use rings::{queue, ring};
pub use tables::{boxed, shared, table};
pub use texts::{changes_between, from_str, push_char, push_number, push_str};
pub use threads::map_places;

/// The most elements that a call asks for by their number.
pub const MOST_ROOM: usize = 0x1_0000_0000;

/// An allocation was refused. Nothing else makes such a value.
#[derive(Clone, Copy, Debug, PartialEq, Eq)]
pub struct OutOfMemory {
    made: (),
}

impl fmt::Display for OutOfMemory {
    fn fmt<W: fmt::Write>(&self, f: &mut fmt::Formatter<W>) -> fmt::Result {
        f.write_str("out of memory")
    }
}

impl Error for OutOfMemory {}

/// The library's word for it, which anybody may write.
impl From<OutOfMemory> for AllocError {
    fn from(_refused: OutOfMemory) -> AllocError {
        AllocError
    }
}

// The library has just refused.
fn refused() -> OutOfMemory {
    OutOfMemory { made: () }
}
