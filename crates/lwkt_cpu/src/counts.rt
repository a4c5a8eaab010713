//! How much a processor has left to do, and how far it has come.
ghost use Rattle.std.specs.Prelude.{◌≡◌, ◌≤◌};
ghost use Rattle.lwkt_msg.specs.Desks.{cpus_of};
ghost use Rattle.lwkt_port.specs.Counts.{owed_count};
ghost use Rattle.lwkt_cpu.specs.Counts.{ended_count, Counts};

use crate::cpus::Cpu;
use crate::threads::Thread;
use lwkt_base::limits::{CPU_LIMIT, MESSAGE_LIMIT};
use lwkt_port::Notes;

/// How far a processor has come, by counts. Where they are the same before and after a turn that polled no thread, the turn moved no
/// note and ended no thread.
#[derive(Clone, Copy, PartialEq, Eq)]
pub struct Progress {
    /// The notes that were taken in so far, modulo 2^64.
    pub taken_in: u64,
    /// The notes that its ports have, counted by where they are.
    pub notes: Notes,
    /// How many threads have ended, 0 to 16.
    pub ended: usize,
}

// How many threads have ended.
fn ended(threads: &[Thread]) -> usize
    ensures { result ≡ ended_count threads.now }
{
    threads
        .iter()
        .filter(|thread| thread.phase.has_ended())
        .count()
}

impl<B> Cpu<B> {
    /// How many processors there are, with this one, 1 to 8: as many as its book has seats for.
    pub fn cpus(&self) -> usize
        ensures count { result ≡ cpus_of self.now.post.seat }
        ensures few { result ≤ CPU_LIMIT }
    {
        self.ports.cpus()
    }

    /// How many messages its ports owe a reply, 0 to 64.
    pub fn owed(&self) -> usize
        ensures count { result ≡ owed_count self.now.post.mails }
        ensures few { result ≤ MESSAGE_LIMIT }
    {
        self.ports.owed()
    }

    /// How far the processor has come. It changes nothing.
    pub fn progress(&self) -> Progress
        ensures { Counts self.now result }
    {
        Progress {
            taken_in: self.popped,
            notes: self.ports.notes(),
            ended: ended(&self.threads),
        }
    }
}
