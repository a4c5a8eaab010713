//! How the threads of a machine stand.
ghost use Rattle.std.specs.Prelude.{◌≡◌, ◌<◌, ◌≤◌, ◌++◌, length, IfOk, OnOk, IsSomeAnd, slice_get};
ghost use Rattle.lwkt_base.specs.Refs.{IsLawfulList};
ghost use Rattle.lwkt_cpu.specs.Processors.{is_running};

use crate::lasting::Lasting;
use crate::machines::Machine;
use lwkt_base::limits::LIST_LIMIT;
use lwkt_base::memory::push;
use lwkt_base::{CpuId, OutOfMemory, Ref, ThreadId, ThreadState, TokList};
use lwkt_cpu::Cpu;
use std::alloc::Global;

/// How a thread stands between two turns.
#[derive(Drop)]
pub struct ThreadStatus {
    /// The thread: its processor, 0 to 7, and its number there, 0 to 15.
    pub id: ThreadId,
    /// What it is doing.
    pub state: ThreadState,
    /// Its references, at most 32. They are held exactly if it is running.
    pub list: TokList,
}

// The list of these references.
fn list_of(refs: &[Ref]) -> TokList
    requires lawful { IsLawfulList refs.now }
    requires few { length refs.now ≤ LIST_LIMIT }
    ensures { result ≡ refs.now }
{
    let mut list = TokList::new();
    for r in refs {
        let _ = list.push(*r);
    }
    list
}

impl ThreadStatus {
    ghost use Rattle.lwkt_machine.specs.Statuses.{status_of, statuses_on};

    // How a thread of this processor stands.
    fn of_thread<B>(cpu: &Cpu<B>, id: ThreadId) -> ThreadStatus
        requires { id.thread < length cpu.now.threads }
        ensures { IsSomeAnd (slice_get cpu.now.threads id.thread) (λ t. result ≡ status_of id.cpu.0 id.thread (is_running cpu.now.running id.thread) t) }
    {
        let status = cpu.thread(usize::from(id.thread)).unwrap();
        ThreadStatus {
            id,
            state: status.state,
            list: list_of(status.list),
        }
    }

    // How each thread of the processor of this number stands.
    fn of_processor<B>(
        cpu: &Cpu<B>,
        number: u8,
        statuses: &mut Vec<ThreadStatus>,
    ) -> Result<(), OutOfMemory>
        ensures { OnOk result (statuses.new.items ≡ statuses.old.items ++ statuses_on number cpu.now) }
    {
        for thread in 0..cpu.threads() {
            let id = ThreadId {
                cpu: CpuId(number),
                thread: thread as u8,
            };
            push(statuses, ThreadStatus::of_thread(cpu, id))?;
        }
        Ok(())
    }
}

impl<B: Lasting> Machine<B> {
    ghost use Rattle.lwkt_machine.specs.Statuses.{statuses_of};

    /// How each thread stands, by processor, then by number: what it is doing, and its list.
    ///
    /// `OutOfMemory` if memory is refused.
    pub fn statuses(&self, alloc: Global) -> Result<Vec<ThreadStatus>, OutOfMemory>
        ensures { IfOk result (λ statuses. statuses.items ≡ statuses_of self.now.cpus) }
    {
        let mut statuses = Vec::new(alloc);
        for number in 0..self.cpus.len() {
            ThreadStatus::of_processor(&self.cpus[number].cpu, number as u8, &mut statuses)?;
        }
        Ok(statuses)
    }
}
