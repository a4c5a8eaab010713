//! Where everything has ended.
ghost use Rattle.std.specs.Prelude.{◌≡◌, ◌==◌, filter, true, cond};
ghost use Rattle.lwkt_script.specs.declared.scripts.ThreadSpec.{ThreadSpec};
ghost use Rattle.lwkt_plain.specs.Endings.{are_over};
ghost use Rattle.lwkt_plain.specs.Intakes.{has_ended};

use crate::states::Thread;
use lwkt_script::ThreadSpec;

// Whether a thread doesn't count, or has ended.
fn is_over(spec: &ThreadSpec, thread: &Thread) -> bool
    ensures { result ≡ cond spec.now.service true (has_ended thread.now.phase) }
{
    if spec.service {
        return true;
    }
    thread.phase.has_ended()
}

/// Whether the threads of a processor have ended that are no services, of which the script says this.
pub(crate) fn are_over(specs: &[ThreadSpec], c: usize, threads: &[Thread]) -> bool
    ensures { result ≡ are_over (filter (λ (spec : ThreadSpec). spec.cpu.0 == c) specs.now) threads.now }
{
    let mut k = 0usize;
    for spec in specs {
        if usize::from(spec.cpu.0) == c {
            if k >= threads.len() {
                return true;
            }
            if !is_over(spec, &threads[k]) {
                return false;
            }
            k += 1;
        }
    }
    true
}
