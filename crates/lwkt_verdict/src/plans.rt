ghost use Rattle.std.specs.Prelude.{◌≡◌, ◌<◌, ◌^◌, length, slice_get, option_and_then, IfSome};
ghost use Rattle.lwkt_verdict.specs.Threads.{plan_of_thread, line_of, slot_of};

use lwkt_base::{ThreadId, ThreadLine};
use lwkt_script::ThreadSpec;

/// A thread's number among those of all processors, 16 for each.
pub fn slot_of(id: ThreadId) -> usize
    ensures slot { result ≡ slot_of id }
    ensures small { result < 2 ^ 16 }
{
    16 * usize::from(id.cpu.0) + usize::from(id.thread)
}

/// Where in a script thread number n of a processor stands.
pub fn find_thread(cpu: u8, n: u8, plans: &[ThreadSpec]) -> Option<usize>
    ensures there { option_and_then (slice_get plans.now) result ≡ plan_of_thread cpu n plans.now }
    ensures within { IfSome result (λ i. i < length plans.now) }
{
    let mut left = n;
    for (i, plan) in plans.iter().enumerate() {
        if plan.cpu.0 == cpu {
            if left == 0 {
                return Some(i);
            }
            left -= 1;
        }
    }
    None
}

/// Where the line of a thread stands.
pub fn find_line(slot: usize, lines: &[ThreadLine]) -> Option<usize>
    ensures there { option_and_then (slice_get lines.now) result ≡ line_of slot lines.now }
    ensures within { IfSome result (λ i. i < length lines.now) }
{
    for (i, line) in lines.iter().enumerate() {
        if slot_of(line.id) == slot {
            return Some(i);
        }
    }
    None
}
