//! Machines whose processors are driven, each on a thread of its own.
ghost use Rattle.std.specs.Prelude.{◌≡◌, ◌↔◌, All, None, OnErr, OnOk, length, true};
ghost use Rattle.lwkt_machine.specs.Drives.{IsAmple, IsDrivenMachine};

use crate::lasting::Lasting;
use crate::machines::Machine;
use lwkt_base::OutOfMemory;
use lwkt_drive::{Driven, Ending, Gate, Limits, OpenGate, drive_on_threads};
use std::thread::Threads;

/// The highest limits that a script can set: a million turns of a processor that poll a thread, and a hundred million that poll none.
pub const LIMITS: Limits = Limits {
    turns: 1_000_000,
    idle: 100_000_000,
};

// What memory was refused with, where this is an end for want of it.
fn ending_refusal(ending: Ending) -> Option<OutOfMemory>
    ensures { (result ≡ None) ↔ IsAmple ending }
{
    match ending {
        Ending::NoMemory(refused) | Ending::CalledOff(refused) => Some(refused),
        _ => None,
    }
}

// The same of the first processor whose driving ended for want of memory, its own or another's.
fn refusal_among<B>(all: &[Driven<B>]) -> Option<OutOfMemory>
    ensures { (result ≡ None) ↔ All (λ d. IsAmple d.ending) all.now }
{
    let driven = all
        .iter()
        .find(|driven| ending_refusal(driven.ending).is_some())?;
    ending_refusal(driven.ending)
}

impl<B: Lasting> Machine<B> {
    /// Drives the processors, each on a thread of its own if one can be made, as `drive_on_threads` does with a gate that never says no
    /// and a thread for each. Why a processor made no further turn `ending` says.
    pub fn drive<R: Threads + Sync>(&mut self, rt: &R, limits: &Limits)
    where
        B: Send,
        ensures driven { IsDrivenMachine B.polled (λ cpu turn answer. answer ≡ true) limits.now self.old self.new }
        ensures bank { self.new.bank ≡ self.old.bank }
        ensures book { self.new.book ≡ self.old.book }
        ensures as_many { length self.new.cpus ≡ length self.old.cpus }
    {
        let threads = self.cpus();
        let _ = self.drive_on_threads(rt, threads, &OpenGate, limits);
    }

    /// Drives the processors on at most `threads` threads, the caller's among them; 0 counts as 1. Each makes turns until the gate says
    /// no to it, every thread has ended, no turn can change anything any more, or it has made as many as the limits allow. Their events
    /// are kept for the close.
    ///
    /// Refused if memory for the events of a processor's turn was, which ends the drive for all; the turns before stand.
    pub fn drive_on_threads<R: Threads + Sync, G: Gate + Sync>(
        &mut self,
        rt: &R,
        threads: usize,
        gate: &G,
        limits: &Limits,
    ) -> Result<(), OutOfMemory>
    where
        B: Send,
        ensures driven { IsDrivenMachine B.polled (G.answers gate.now) limits.now self.old self.new }
        ensures ok { OnOk result (All (λ d. IsAmple d.ending) self.new.driven) }
        ensures err { OnErr result (¬ All (λ d. IsAmple d.ending) self.new.driven) }
        ensures bank { self.new.bank ≡ self.old.bank }
        ensures book { self.new.book ≡ self.old.book }
        ensures as_many { length self.new.cpus ≡ length self.old.cpus }
    {
        drive_on_threads(
            rt,
            threads,
            gate,
            limits,
            &self.bank,
            &self.book,
            &mut self.cpus,
        );
        match refusal_among(&self.cpus) {
            None => Ok(()),
            Some(refused) => Err(refused),
        }
    }
}
