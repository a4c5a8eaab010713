ghost use Rattle.std.specs.Prelude.{◌≡◌, ◌≢◌, ◌⊎◌, ◌↔◌, ◌<◌, ◌≤◌, ℕ, length, map, Option, Some, None, Ok, Err, IsTrue, MatchOption, IfSome, OnOk, OnErr, IfOk, IfErr, option_map, slice_get};

use crate::events::{Event, Place};
use crate::finals::Final;
use crate::lacks::Lack;
use crate::messages::Message;
use crate::tokens::Token;
use crate::{finals, first_states, lacks, rules};
use lwkt_base::limits::LIST_LIMIT;
use lwkt_base::{CpuId, Fault, MsgId, MsgSpec, TokId, TokSpec};
use std::alloc::Global;
use std::marker::Model;

/// The state of the model: a machine of 1 to 8 processors with its tokens and messages. Every state is safe.
#[derive(Drop)]
pub struct State {
    cpus: usize,
    tokens: Vec<Token>,
    messages: Vec<Message>,
}

impl Model for State {
    ghost use Rattle.std.specs.Prelude.{ℕ};
    ghost use Rattle.lwkt_core.specs.Machine.{Machine, machine, IsSafe};

    ghost Value = { Machine };

    ghost view = { λ s. machine s.cpus s.tokens.items s.messages.items };

    ghost invariant = { λ s. IsSafe (machine s.cpus s.tokens.items s.messages.items) };
}

impl State {
    ghost use Rattle.lwkt_core.specs.Machine.{IsSafe, Needs, Happens, references_of};
    ghost use Rattle.lwkt_core.specs.Opening.{opening, AreWithin, AllOpenLawfully};
    ghost use Rattle.lwkt_core.specs.Lacks.{Lacks};
    ghost use Rattle.lwkt_core.specs.Trace.{Closes};
    ghost use Rattle.lwkt_core.specs.Values.{cell_at, first_at, generation_at, tally_at};
    ghost use Rattle.lwkt_base.specs.Fault.{no_memory};

    /// The opening state: nobody holds a token, and each message is at rest.
    ///
    /// Refused with `Limits` exactly if a limit is passed: 1 to 8 processors, at most 64 tokens and 64 messages, at most 4
    /// cells and exactly 1 under `Law::Tally`, a record of at most 64 bytes, which is there with a cell under `Law::Len` and
    /// isn't under `Law::Tally`, a generation or round past its last, an origin's processor that isn't there or a thread
    /// number of 16 or more; else with `LawBroken` exactly if an opening row, with the length of its record, breaks its law;
    /// else with `Memory` only if an allocation is.
    pub fn open(
        alloc: Global,
        tokens: &[TokSpec],
        messages: &[MsgSpec],
        cpus: usize,
    ) -> Result<State, Fault>
        ensures ok { IfOk result (λ s. s ≡ opening cpus tokens.now messages.now) }
        ensures within { OnOk result (AreWithin cpus tokens.now messages.now) }
        ensures lawful { OnOk result (AllOpenLawfully tokens.now) }
        ensures limits { result ≡ Err Fault.Limits → ¬ AreWithin cpus tokens.now messages.now }
        ensures each_limit { (¬ AreWithin cpus tokens.now messages.now) → result ≡ Err Fault.Limits }
        ensures broken { result ≡ Err Fault.LawBroken → AreWithin cpus tokens.now messages.now × ¬ AllOpenLawfully tokens.now }
        ensures each_law { AreWithin cpus tokens.now messages.now → (¬ AllOpenLawfully tokens.now) → result ≡ Err Fault.LawBroken }
        ensures only { IfErr result (λ f. (f ≡ no_memory) ⊎ ((f ≡ Fault.Limits) ⊎ (f ≡ Fault.LawBroken))) }
    {
        if !first_states::are_within(cpus, tokens, messages) {
            return Err(Fault::Limits);
        }
        if !first_states::all_open_lawfully(tokens) {
            return Err(Fault::LawBroken);
        }
        let opened_tokens = first_states::opened_tokens(alloc, tokens)?;
        let opened_messages = first_states::opened_messages(alloc, messages)?;
        Ok(State {
            cpus,
            tokens: opened_tokens,
            messages: opened_messages,
        })
    }

    /// How many processors there are, 1 to 8.
    pub fn cpus(&self) -> usize
        ensures value { result ≡ self.now.cpus }
        ensures safe { IsSafe self.now }
    {
        self.cpus
    }

    /// The value of a cell, if there is such a token with such a cell.
    pub fn cell(&self, tok: TokId, cell: u8) -> Option<u64>
        ensures { result ≡ cell_at self.now tok.0 cell }
    {
        let token = self.tokens.get(tok.0 as usize)?;
        token.row.as_slice().get(cell as usize).copied()
    }

    /// The value of a cell in the first row, if there is such a token with such a cell.
    pub fn first(&self, tok: TokId, cell: u8) -> Option<u64>
        ensures { result ≡ first_at self.now tok.0 cell }
    {
        let token = self.tokens.get(tok.0 as usize)?;
        token.first.as_slice().get(cell as usize).copied()
    }

    /// The generation of a token, if there is such a token.
    pub fn generation(&self, tok: TokId) -> Option<u64>
        ensures { result ≡ generation_at self.now tok.0 }
    {
        let token = self.tokens.get(tok.0 as usize)?;
        Some(token.generation)
    }

    /// What a processor has added to the cell of a Tally token, if there is such a processor and such a token.
    pub fn tally(&self, cpu: CpuId, tok: TokId) -> Option<u64>
        ensures { result ≡ tally_at self.now cpu.0 tok.0 }
    {
        if cpu.0 as usize >= self.cpus {
            return None;
        }
        self.tokens.get(tok.0 as usize)?.tally(cpu)
    }

    // Whether the processor may have a reference more.
    fn has_room(&self, cpu: CpuId) -> bool
        ensures { IsTrue result ↔ (references_of self.now.tokens cpu.0 < LIST_LIMIT) }
    {
        rules::references_of(&self.tokens, cpu) < 32
    }

    /// The token of a number, if there is one.
    pub fn token(&self, tok: TokId) -> Option<&Token>
        ensures { option_map (λ t. t.now) result ≡ slice_get self.now.tokens tok.0 }
    {
        self.tokens.get(tok.0 as usize)
    }

    /// The message of a number, if there is one.
    pub fn message(&self, msg: MsgId) -> Option<&Message>
        ensures { option_map (λ m. m.now) result ≡ slice_get self.now.messages msg.0 }
    {
        self.messages.get(msg.0 as usize)
    }

    /// Whether the event can happen.
    pub fn allows(&self, event: &Event) -> bool
        ensures { IsTrue result ↔ Needs self.now event.now }
    {
        let cpu = event.cpu();
        if cpu.0 as usize >= self.cpus {
            return false;
        }
        if event.adds_reference() && rules::references_of(&self.tokens, cpu) >= 32 {
            return false;
        }
        match event.place() {
            Place::AtToken(place) => rules::token_allows(&self.tokens, place, event),
            Place::AtMessage(place) => {
                rules::message_allows(self.cpus, &self.messages, place, event)
            }
        }
    }

    /// The first need of the event that isn't met, or none exactly if the event can happen.
    #[tactic(auto, using(crate::proofs::LackLemmas::found_exactly))]
    pub fn lack(&self, event: &Event) -> Option<Lack>
        ensures can_happen { (result ≡ None) ↔ Needs self.now event.now }
        ensures lack { IfSome result (λ lack. Lacks self.now event.now lack) }
    {
        self.finding(event)
    }

    // The need of the event that isn't met, if one isn't.
    fn finding(&self, event: &Event) -> Option<Lack>
        ensures { MatchOption result (Needs self.now event.now) (λ lack. Lacks self.now event.now lack) }
    {
        let cpu = event.cpu();
        if cpu.0 as usize >= self.cpus {
            return Some(Lack::NoProcessor);
        }
        if event.adds_reference() && !self.has_room(cpu) {
            return Some(Lack::TooManyReferences);
        }
        match event.place() {
            Place::AtToken(place) => lacks::token_lack(&self.tokens, place, event),
            Place::AtMessage(place) => {
                lacks::message_lack(self.cpus, &self.messages, place, event)
            }
        }
    }

    /// Makes the event happen.
    ///
    /// Refused with `Unlawful` and index 0 exactly if it can't, and the state stays as it is.
    pub fn step(&mut self, event: &Event) -> Result<(), Fault>
        ensures ok { OnOk result (Happens self.old event.now self.new) }
        ensures refused { OnErr result (¬ Needs self.old event.now) }
        ensures unchanged { OnErr result (self.new ≡ self.old) }
        ensures index { IfErr result (λ f. f ≡ Fault.Unlawful 0) }
    {
        if !self.allows(event) {
            return Err(Fault::Unlawful { index: 0 });
        }
        rules::apply(self.cpus, &mut self.tokens, &mut self.messages, event);
        Ok(())
    }

    /// Whether nobody holds a token, and these are the closing values.
    pub fn closes(&self, last: &Final) -> bool
        ensures { IsTrue result ↔ Closes self.now last.now }
    {
        if !self.tokens.iter().all(|tok| tok.is_free()) {
            return false;
        }
        if !finals::are_rows(&last.rows, &self.tokens) {
            return false;
        }
        if !finals::are_generations(&last.gens, &self.tokens) {
            return false;
        }
        if !finals::are_tallies(&last.tallies, &self.tokens, self.cpus) {
            return false;
        }
        if !finals::are_blobs(&last.blobs, &self.tokens) {
            return false;
        }
        finals::are_ends(&last.messages, &self.messages)
    }
}
