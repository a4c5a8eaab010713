ghost use Rattle.std.specs.Prelude.{◌≡◌, ◌≤◌, [], vec_capacity};
ghost use Rattle.lwkt_base.specs.declared.limits.TheConstants.{CELL_LIMIT, CPU_LIMIT};

use lwkt_base::OutOfMemory;
use lwkt_base::memory::with_capacity;
use std::alloc::Global;

/// Room for the row and the tallies of one token, as a close shows them.
#[derive(Drop)]
pub(crate) struct Blank {
    pub(crate) row: Vec<u64>,
    pub(crate) tallies: Vec<u64>,
    ghost row_room: { (row.items ≡ []) × (CELL_LIMIT ≤ vec_capacity row) },
    ghost tallies_room: { (tallies.items ≡ []) × (CPU_LIMIT ≤ vec_capacity tallies) },
}

impl Blank {
    pub(crate) fn new(alloc: Global) -> Result<Blank, OutOfMemory> {
        let row = with_capacity(alloc, 4)?;
        let tallies = with_capacity(alloc, 8)?;
        Ok(Blank { row, tallies })
    }
}
