//! The state in which a script's machine is opened.
ghost use Rattle.std.specs.Prelude.{◌≡◌, ◌≤◌, IfOk, map, replicate};
ghost use Rattle.lwkt_core.specs.Opening.{opened_token};
ghost use Rattle.lwkt_plain.specs.Intakes.{below};
ghost use Rattle.lwkt_plain.specs.Letters.{opened_letter};
ghost use Rattle.lwkt_plain.specs.Places.{empty_lane, empty_port};
ghost use Rattle.lwkt_plain.specs.Openings.{opened_thread, threads_of, opened_mail, opened_cpu, opened, OpenedScriptsAreSound};

use crate::items::Items;
use crate::letters::{Lane, Letter, PORTS, Port};
use crate::states::{Mail, Phase, Plain, Processor, Thread};
use lwkt_base::memory::push;
use lwkt_base::{Answer, Held, MsgSpec, OutOfMemory, TokList, TokSpec};
use lwkt_core::Token;
use lwkt_script::{Script, ThreadSpec};
use std::alloc::Global;

fn opened_token(alloc: Global, spec: &TokSpec) -> Result<Token, OutOfMemory>
    ensures { IfOk result (λ token. token ≡ opened_token spec.now) }
{
    Ok(Token {
        law: spec.law,
        param: spec.param,
        generation: spec.generation,
        mark: false,
        row: spec.cells.try_clone(alloc)?,
        first: spec.cells.try_clone(alloc)?,
        blob: spec.blob,
        first_blob: spec.blob,
        holders: [Held::Nothing; 8],
        tallies: [0; 8],
    })
}

fn opened_tokens(alloc: Global, specs: &[TokSpec]) -> Result<Items<Token>, OutOfMemory>
    ensures { IfOk result (λ tokens. tokens ≡ map opened_token specs.now) }
{
    let mut tokens = Vec::new(alloc);
    for spec in specs {
        push(&mut tokens, opened_token(alloc, spec)?)?;
    }
    Ok(Items::from_vec(tokens))
}

fn opened_letters(alloc: Global, specs: &[MsgSpec]) -> Result<Items<Letter>, OutOfMemory>
    ensures { IfOk result (λ letters. letters ≡ map opened_letter specs.now) }
{
    let mut letters = Vec::new(alloc);
    for spec in specs {
        push(&mut letters, Letter::at_rest(spec.origin, spec.round))?;
    }
    Ok(Items::from_vec(letters))
}

fn empty_lane(alloc: Global) -> Lane
    ensures { result ≡ empty_lane }
{
    Lane {
        kept: None,
        queue: Items::none(alloc),
        hand: None,
    }
}

fn empty_lanes(alloc: Global, count: usize) -> Result<Items<Lane>, OutOfMemory>
    ensures { IfOk result (λ lanes. lanes ≡ replicate count empty_lane) }
{
    let mut lanes = Vec::new(alloc);
    for made in 0..count {
        push(&mut lanes, empty_lane(alloc))?;
    }
    Ok(Items::from_vec(lanes))
}

fn empty_port(alloc: Global) -> Port
    ensures { result ≡ empty_port }
{
    Port {
        urgent: Items::none(alloc),
        ordinary: Items::none(alloc),
    }
}

fn empty_ports(alloc: Global, count: usize) -> Result<Items<Port>, OutOfMemory>
    ensures { IfOk result (λ ports. ports ≡ replicate count empty_port) }
{
    let mut ports = Vec::new(alloc);
    for made in 0..count {
        push(&mut ports, empty_port(alloc))?;
    }
    Ok(Items::from_vec(ports))
}

fn opened_mail(alloc: Global, cpus: usize) -> Result<Mail, OutOfMemory>
    ensures { IfOk result (λ mail. mail ≡ opened_mail cpus) }
{
    Ok(Mail {
        lanes: empty_lanes(alloc, cpus)?,
        ports: empty_ports(alloc, PORTS)?,
    })
}

fn opened_mails(alloc: Global, cpus: usize) -> Result<Items<Mail>, OutOfMemory>
    ensures { IfOk result (λ mails. mails ≡ replicate cpus (opened_mail cpus)) }
{
    let mut mails = Vec::new(alloc);
    for made in 0..cpus {
        push(&mut mails, opened_mail(alloc, cpus)?)?;
    }
    Ok(Items::from_vec(mails))
}

fn opened_thread(alloc: Global, spec: &ThreadSpec) -> Thread
    ensures { result ≡ opened_thread spec.now }
{
    Thread {
        phase: Phase::Live,
        list: TokList::new(),
        last: Answer::Begin,
        busy: None,
        local: spec.code.start(),
        asked: None,
        log: Items::none(alloc),
    }
}

fn opened_threads(alloc: Global, script: &Script, c: usize) -> Result<Items<Thread>, OutOfMemory>
    ensures { IfOk result (λ threads. threads ≡ map opened_thread (threads_of script.now c)) }
{
    let mut threads = Vec::new(alloc);
    for spec in script.threads.as_slice() {
        if usize::from(spec.cpu.0) == c {
            push(&mut threads, opened_thread(alloc, spec))?;
        }
    }
    Ok(Items::from_vec(threads))
}

fn opened_cpu(alloc: Global, script: &Script, c: usize) -> Result<Processor, OutOfMemory>
    ensures { IfOk result (λ cpu. cpu ≡ opened_cpu script.now c) }
{
    Ok(Processor {
        threads: opened_threads(alloc, script, c)?,
        running: None,
        cursor: 0,
    })
}

#[tactic(auto, using(crate::proofs::Folds::map_more, crate::proofs::Folds::map_none))]
fn opened_cpus(alloc: Global, script: &Script) -> Result<Items<Processor>, OutOfMemory>
    ensures { IfOk result (λ cpus. cpus ≡ map (opened_cpu script.now) (below script.now.cpus)) }
{
    let mut cpus = Vec::new(alloc);
    for c in 0..usize::from(script.cpus) {
        push(&mut cpus, opened_cpu(alloc, script, c)?)?;
    }
    Ok(Items::from_vec(cpus))
}

impl Plain {
    /// The machine of a script as it is opened.
    ///
    /// `OutOfMemory` if memory is refused.
    pub fn open(alloc: Global, script: &Script) -> Result<Plain, OutOfMemory>
        ensures { IfOk result (λ plain. plain ≡ opened script.now) }
    {
        Ok(Plain {
            tokens: opened_tokens(alloc, script.tokens.as_slice())?,
            letters: opened_letters(alloc, script.messages.as_slice())?,
            mails: opened_mails(alloc, usize::from(script.cpus))?,
            cpus: opened_cpus(alloc, script)?,
        })
    }
}

/// A script within its limits whose tokens obey their laws opens in a sound state.
pub fn opened_scripts_are_sound()
    ensures { OpenedScriptsAreSound }
{}
