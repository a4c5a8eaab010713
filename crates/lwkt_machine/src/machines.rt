//! A machine, and what is seen of it between turns.
ghost use Rattle.std.specs.Prelude.{◌≡◌, ◌<◌, length, IsSomeAnd, slice_get, option_map};
ghost use Rattle.lwkt_cpu.specs.Processors.{IsAtRest};

use crate::lasting::Lasting;
use lwkt_bank::Bank;
use lwkt_base::CpuId;
use lwkt_cpu::Status;
use lwkt_drive::{Driven, Ending};
use lwkt_msg::MsgBook;
use std::marker::Model;

/// A bank, a book and the processors at them, by number, 0 to 7. All of them always belong together: the processors are of the bank and
/// the book, and joined by their lanes; and what each body keeps holds of it.
#[derive(Drop)]
pub struct Machine<B: Lasting> {
    pub(crate) bank: Bank,
    pub(crate) book: MsgBook,
    pub(crate) cpus: Vec<Driven<B>>,
}

impl<B: Lasting> Model for Machine<B> {
    ghost use Rattle.lwkt_bank.specs.Seats.{id_of, cpus_of};
    ghost use Rattle.lwkt_machine.specs.Machines.{Rig, rig_of, processors, AreOneMachine};

    ghost Value = { Rig B };

    ghost view = { λ m. rig_of (id_of m.bank) m.book m.cpus.items };

    ghost invariant = { λ m. AreOneMachine B.kept (cpus_of m.bank) (id_of m.bank) m.book (processors m.cpus.items) };
}

impl<B: Lasting> Machine<B> {
    ghost use Rattle.lwkt_machine.specs.Machines.{IsWhole, ShowsBody, ShowsThreadAt};

    /// How many processors there are, at most 8. All parts of the machine belong together.
    pub fn cpus(&self) -> usize
        ensures value { result ≡ length self.now.cpus }
        ensures whole { IsWhole B.kept self.now }
    {
        self.cpus.len()
    }

    /// How many threads a processor has, ended ones too, 0 to 16. That the processor is there is the caller's condition.
    pub fn threads(&self, cpu: usize) -> usize
        requires { cpu < length self.now.cpus }
        ensures { IsSomeAnd (slice_get self.now.cpus cpu) (λ p. (result ≡ length p.threads) × IsAtRest p) }
    {
        self.cpus[cpu].cpu.threads()
    }

    /// What a thread of a processor is doing, and its references. `None` exactly if there is no such processor or thread.
    pub fn thread(&self, cpu: usize, thread: usize) -> Option<Status<'_>>
        ensures { ShowsThreadAt self.now cpu thread result }
    {
        self.cpus.get(cpu)?.cpu.thread(thread)
    }

    /// The body of a thread of a processor, as its last poll left it. `None` exactly if there is no such processor or thread.
    pub fn body(&self, cpu: usize, thread: usize) -> Option<&B>
        ensures { ShowsBody self.now cpu thread (option_map (λ body. body.now) result) }
    {
        self.cpus.get(cpu)?.cpu.body(thread)
    }

    /// Why the processor of this number made no further turn when it was driven last, `NotDriven` before the first drive. `None`
    /// exactly if there is no such processor.
    pub fn ending(&self, cpu: CpuId) -> Option<Ending>
        ensures { result ≡ option_map (λ d. d.ending) (slice_get self.now.driven cpu.0) }
    {
        Some(self.cpus.get(cpu.0 as usize)?.ending)
    }
}
