//! The forms of states, and their laws.
ghost use Rattle.std.specs.Prelude.{◌≡◌};
ghost use Rattle.lwkt_plain.specs.Forms.{can_match, kept_word, thread_by, cpu_by, form, FormsAreTheirOwn, OpenedStatesAreForms, MailRespectsForms, FormsRespectTurns};

use crate::items::Items;
use crate::states::{BusyAt, Plain, Processor, Thread};
use lwkt_core::Token;

// How much of a word a generation takes one of.
const GENERATION: u64 = 262_144;

impl Thread {
    // Whether a word that refused its list can refuse it again.
    fn can_match(&self, tokens: &Items<Token>, busy: BusyAt) -> bool
        ensures { result ≡ can_match tokens.now self.now.list busy }
    {
        if busy.at == 0 {
            return false;
        }
        let Some(r) = self.list.get(busy.at) else {
            return false;
        };
        let Some(tok) = tokens.as_slice().get(usize::from(r.tok.0)) else {
            return false;
        };
        tok.generation == busy.word / GENERATION
    }

    // Forgets the word that refused its list if that can't refuse it again.
    fn forget(&mut self, tokens: &Items<Token>)
        ensures { self.new ≡ thread_by (kept_word tokens.now) self.old }
    {
        let Some(busy) = self.busy else {
            return;
        };
        if !self.can_match(tokens, busy) {
            self.busy = None;
        }
    }
}

impl Processor {
    // Forgets the words that can't refuse a list again.
    fn forget(&mut self, tokens: &Items<Token>)
        ensures { self.new ≡ cpu_by (kept_word tokens.now) self.old }
    {
        for k in 0..self.threads.len() {
            let thread = self.threads.at(k);
            thread.forget(tokens);
        }
    }
}

impl Plain {
    /// Makes the state the form of itself.
    pub fn become_form(&mut self)
        ensures { self.new ≡ form self.old }
    {
        for c in 0..self.cpus.len() {
            let cpu = self.cpus.at(c);
            cpu.forget(&self.tokens);
        }
    }
}

/// A form is its own form.
pub fn forms_are_their_own()
    ensures { FormsAreTheirOwn }
{}

/// The state in which a script is opened is a form.
pub fn opened_states_are_forms()
    ensures { OpenedStatesAreForms }
{}

/// The intake of mail, the first part of a turn, doesn't tell states of one form apart.
pub fn mail_respects_forms()
    ensures { MailRespectsForms }
{}

/// Turns don't tell apart the states of one form that a script comes to.
pub fn forms_respect_turns()
    ensures { FormsRespectTurns }
{}
