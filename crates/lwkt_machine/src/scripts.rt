//! Machines of scripts.
ghost use Rattle.std.specs.Prelude.{◌≡◌, true, false, length, IfOk, IfErr, OnOk, Err};
ghost use Rattle.lwkt_core.specs.Opening.{AreWithin, AllOpenLawfully};
ghost use Rattle.lwkt_script.specs.Format.{threads_on};
ghost use Rattle.lwkt_machine.specs.Scripts.{bodies_on, AreBodiesOf, AreFew, DeclinesScript, IsOpenedScript};

use crate::bodies::ScriptBody;
use crate::machines::Machine;
use lwkt_base::limits::THREAD_LIMIT;
use lwkt_base::memory::push;
use lwkt_base::{Fault, OutOfMemory};
use lwkt_script::{Script, ThreadSpec};
use std::alloc::Global;

// How many of these threads are of a processor.
fn threads_on(threads: &[ThreadSpec], cpu: usize) -> usize
    ensures { result ≡ threads_on cpu threads.now }
{
    threads
        .iter()
        .filter(|spec| spec.cpu.0 as usize == cpu)
        .count()
}

// Whether no processor of a script has more threads than it may have.
fn are_few(script: &Script) -> bool
    ensures yes { result ≡ true → AreFew script.now.cpus script.now.threads }
    ensures no { result ≡ false → ¬ AreFew script.now.cpus script.now.threads }
{
    let threads = script.threads.as_slice();
    for cpu in 0..usize::from(script.cpus) {
        if threads_on(threads, cpu) > THREAD_LIMIT {
            return false;
        }
    }
    true
}

// The bodies of a processor's threads.
fn bodies_on(
    alloc: Global,
    threads: &[ThreadSpec],
    cpu: usize,
) -> Result<Vec<ScriptBody>, OutOfMemory>
    ensures { IfOk result (λ bodies. bodies.items ≡ bodies_on cpu threads.now) }
{
    let mut bodies = Vec::new(alloc);
    for spec in threads {
        if spec.cpu.0 as usize == cpu {
            let body = ScriptBody::new(alloc, &spec.code)?;
            push(&mut bodies, body)?;
        }
    }
    Ok(bodies)
}

// The bodies of each of so many processors.
fn all_bodies(
    alloc: Global,
    threads: &[ThreadSpec],
    cpus: usize,
) -> Result<Vec<Vec<ScriptBody>>, OutOfMemory>
    ensures as_many { IfOk result (λ lists. length lists.items ≡ cpus) }
    ensures are { IfOk result (λ lists. AreBodiesOf threads.now lists.items) }
{
    let mut lists = Vec::new(alloc);
    for cpu in 0..cpus {
        push(&mut lists, bodies_on(alloc, threads, cpu)?)?;
    }
    Ok(lists)
}

impl Machine<ScriptBody> {
    /// Opens the machine of a script: a bank of its tokens, a book of its messages, and its processors, with lanes for 32 notes
    /// from each to each. Each thread of the script is one of its processor, in the script's order, and was never polled.
    ///
    /// Refused with `Limits` only if a limit is passed: 8 processors, 64 tokens, 4 cells or 64 bytes of a token, 64 messages, 16
    /// threads of a processor, or another one of the model's (`AreWithin`); with `LawBroken` only if it is within the limits and an
    /// opening row, with the length of its record, breaks its law; and else with `Memory`, if memory is refused. Whether a
    /// processor has too many threads is looked at first.
    pub fn open_script(alloc: Global, script: &Script) -> Result<Self, Fault>
        ensures ok { IfOk result (λ machine. IsOpenedScript script.now machine) }
        ensures within { OnOk result (AreWithin script.now.cpus script.now.tokens script.now.messages) }
        ensures few { OnOk result (AreFew script.now.cpus script.now.threads) }
        ensures lawful { OnOk result (AllOpenLawfully script.now.tokens) }
        ensures many { ¬ AreFew script.now.cpus script.now.threads → result ≡ Err Fault.Limits }
        ensures refused { IfErr result (λ fault. DeclinesScript script.now fault) }
    {
        if !are_few(script) {
            return Err(Fault::Limits);
        }
        let bodies = all_bodies(alloc, script.threads.as_slice(), usize::from(script.cpus))?;
        Machine::open(
            alloc,
            script.tokens.as_slice(),
            script.messages.as_slice(),
            bodies,
        )
    }
}
