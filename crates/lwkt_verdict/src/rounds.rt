ghost use Rattle.std.specs.Prelude.{◌≡◌, ◌<◌, ◌≤◌, ◌↔◌, IsTrue, All};
ghost use Rattle.lwkt_verdict.specs.Threads.{slot_of};
ghost use Rattle.lwkt_verdict.specs.Run.{AreListed};

use crate::plans::slot_of;
use lwkt_base::ThreadLine;
use lwkt_base::limits::THREAD_LIMIT;

// Whether a line is of a thread that can be, and comes after those before it.
fn is_listed(cpus: usize, least: usize, line: &ThreadLine) -> bool
    ensures { IsTrue result ↔ ((least ≤ slot_of line.now.id) × (line.now.id.cpu.0 < cpus) × (line.now.id.thread < THREAD_LIMIT)) }
{
    least <= slot_of(line.id) && usize::from(line.id.cpu.0) < cpus && line.id.thread < 16
}

/// Whether the lines of threads are in order, by processor, then number.
pub fn are_listed(cpus: usize, lines: &[ThreadLine]) -> bool
    ensures { IsTrue result ↔ AreListed cpus 0 lines.now }
{
    let mut least = 0;
    for line in lines {
        if !is_listed(cpus, least, line) {
            return false;
        }
        least = slot_of(line.id) + 1;
    }
    true
}

/// Whether each number of an order is that of a processor.
pub fn are_processors(cpus: usize, order: &[u8]) -> bool
    ensures { IsTrue result ↔ All (λ x. x < cpus) order.now }
{
    order.iter().all(|cpu| usize::from(*cpu) < cpus)
}
