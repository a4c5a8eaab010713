//! Which processors a message of a script can be with, and where its notes can go.
use crate::touches::{Touch, bit, cpu_bit, has, touched_by_step};
use lwkt_base::memory::push;
use lwkt_base::{Ask, OutOfMemory, Verb};
use lwkt_code::Step;
use lwkt_script::Script;
use std::alloc::Global;

/// A message of a script.
#[derive(Clone, Copy, PartialEq, Eq)]
struct Mail {
    /// The processor that it is of, and those that a step sends it to.
    parties: u8,
    /// Whether a step drops it: a note of it can then be on its way though it is at rest.
    is_dropped: bool,
}

/// The messages of a script.
#[derive(Drop)]
pub(crate) struct Mails {
    all: Vec<Mail>,
}

// Whether a step drops a message.
fn drops(step: &Step) -> bool {
    match step {
        Step::Fixed(ask) => matches!(ask, Ask::DropMsg(_)),
        Step::Make(wish, _) => matches!(wish.verb, Verb::DropMsg),
        _ => false,
    }
}

// Notes what a step may do with a message.
fn note(mail: &mut Mail, number: usize, step: &Step) {
    let touch = touched_by_step(step);
    if touch.messages & bit(number) != 0 {
        mail.parties |= touch.targets;
        mail.is_dropped = mail.is_dropped || drops(step);
    }
}

// Notes what steps may do with a message.
fn note_all(mail: &mut Mail, number: usize, steps: &[Step]) {
    for step in steps {
        note(mail, number, step);
    }
}

// The message of a number, with the processor that it is of.
fn mail_of(script: &Script, number: usize, origin: usize) -> Mail {
    let mut mail = Mail {
        parties: cpu_bit(origin),
        is_dropped: false,
    };
    for thread in script.threads.as_slice() {
        note_all(&mut mail, number, thread.code.steps());
    }
    mail
}

impl Mails {
    /// Those of a script.
    pub(crate) fn of(alloc: Global, script: &Script) -> Result<Mails, OutOfMemory> {
        let mut all = Vec::new(alloc);
        for (number, spec) in script.messages.as_slice().iter().enumerate() {
            push(
                &mut all,
                mail_of(script, number, usize::from(spec.origin.cpu.0)),
            )?;
        }
        Ok(Mails { all })
    }

    /// Those that aren't at rest, which are given, and those of which a note may be on its way all the same.
    pub(crate) fn away(&self, unrested: u64) -> u64 {
        let mut away = unrested;
        for (number, mail) in self.all.iter().enumerate() {
            if mail.is_dropped {
                away |= bit(number);
            }
        }
        away
    }

    /// Those that can be with a processor.
    pub(crate) fn with(&self, cpu: usize) -> u64 {
        let mut messages = 0u64;
        for (number, mail) in self.all.iter().enumerate() {
            if has(mail.parties, cpu) {
                messages |= bit(number);
            }
        }
        messages
    }

    /// These messages, with the processors that notes of them can go to.
    pub(crate) fn touched(&self, touch: Touch) -> Touch {
        let mut targets = touch.targets;
        for (number, mail) in self.all.iter().enumerate() {
            if touch.messages & bit(number) != 0 {
                targets |= mail.parties;
            }
        }
        Touch { targets, ..touch }
    }
}
