//! The lanes of many processors, one from each to each one.
ghost use Rattle.std.specs.Prelude.{◌≡◌, length, IfOk};
ghost use Rattle.lwkt_lane.specs.Crossed.{HasEnd, HasEnds, AreLong, AreLanes};

use crate::ins::LaneIn;
use crate::lanes::new_lane;
use crate::outs::LaneOut;
use lwkt_base::OutOfMemory;
use lwkt_base::memory::push;
use std::alloc::Global;

// The notes that a lane has room for.
const LANE_NOTES: usize = 32;

/// The ends of all lanes: by processor those of the lanes from it, and those of the lanes to it.
#[derive(Drop)]
pub struct Lanes {
    /// By the sending processor, then by the receiving one.
    pub outs: Vec<Vec<LaneOut>>,
    /// By the receiving processor, then by the sending one.
    pub ins: Vec<Vec<LaneIn>>,
}

// A list for each of so many processors, of the ends of the lanes to it.
fn no_ends(alloc: Global, cpus: usize) -> Result<Vec<Vec<LaneIn>>, OutOfMemory>
    ensures as_many { IfOk result (λ ins. length ins.items ≡ cpus) }
    ensures empty { IfOk result (λ ins. AreLong 0 ins.items) }
{
    let mut ins = Vec::new(alloc);
    for made in 0..cpus {
        push(&mut ins, Vec::new(alloc))?;
    }
    Ok(ins)
}

// A lane, whose receiving end goes to this list.
fn lane_to(alloc: Global, ends: &mut Vec<LaneIn>) -> Result<LaneOut, OutOfMemory>
    ensures { IfOk result (λ out. HasEnd ends.old.items ends.new.items out) }
{
    let (out, into) = new_lane(alloc, LANE_NOTES)?;
    push(ends, into)?;
    Ok(out)
}

// The lanes from a processor to each one.
fn lanes_to_all(alloc: Global, ins: &mut [Vec<LaneIn>]) -> Result<Vec<LaneOut>, OutOfMemory>
    ensures { IfOk result (λ outs. HasEnds ins.old ins.new outs.items) }
{
    let mut outs = Vec::new(alloc);
    for to in 0..ins.len() {
        let out = lane_to(alloc, &mut ins[to])?;
        push(&mut outs, out)?;
    }
    Ok(outs)
}

// The lanes from each processor.
fn lanes_from_all(alloc: Global, ins: &mut [Vec<LaneIn>]) -> Result<Vec<Vec<LaneOut>>, OutOfMemory>
    requires { AreLong 0 ins.old }
    ensures { IfOk result (λ outs. AreLanes (length ins.old) (length ins.old) outs.items ins.new) }
{
    let mut outs = Vec::new(alloc);
    for from in 0..ins.len() {
        let row = lanes_to_all(alloc, ins)?;
        push(&mut outs, row)?;
    }
    Ok(outs)
}

/// Makes the lanes of so many processors, one from each to each one, its own too, each for 32 notes. Nothing was sent yet.
///
/// `OutOfMemory` if an allocation was refused.
pub fn open_lanes(alloc: Global, cpus: usize) -> Result<Lanes, OutOfMemory>
    ensures { IfOk result (λ lanes. AreLanes cpus cpus lanes.outs.items lanes.ins.items) }
{
    let mut ins = no_ends(alloc, cpus)?;
    let outs = lanes_from_all(alloc, &mut ins)?;
    Ok(Lanes { outs, ins })
}
