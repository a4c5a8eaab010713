ghost use Rattle.std.specs.Prelude.{◌≡◌, ◌↔◌, ◌<◌, ◌≤◌, ℕ, true, IsTrue, IsSomeAnd, All, slice_get};
ghost use Rattle.lwkt_core.specs.Machine.{references_of, changed, machine, Needs, IsSafe, after};
ghost use Rattle.lwkt_core.specs.Messages.{MessageNeeds, IsSafeMessage, message_after};
ghost use Rattle.lwkt_core.specs.Tokens.{TokenNeeds, IsSafeToken, token_after};
ghost use Rattle.lwkt_core.specs.Events.{cpu_of, adds_reference};

use crate::events::{Event, Place};
use crate::messages::Message;
use crate::tokens::Token;
use lwkt_base::CpuId;
use lwkt_base::limits::{CPU_LIMIT, LIST_LIMIT};

/// How many references a processor has in all.
pub fn references_of(tokens: &[Token], cpu: CpuId) -> usize
    requires { references_of tokens.now cpu.0 ≤ LIST_LIMIT }
    ensures { result ≡ references_of tokens.now cpu.0 }
{
    tokens.iter().map(|tok| tok.held_by(cpu).references()).sum()
}

/// Whether there is such a token and the event can happen to it.
pub fn token_allows(tokens: &[Token], place: usize, event: &Event) -> bool
    ensures { IsTrue result ↔ IsSomeAnd (slice_get tokens.now place) (λ tok. TokenNeeds tok event.now) }
{
    match tokens.get(place) {
        None => false,
        Some(tok) => tok.allows(event),
    }
}

/// Whether there is such a message and the event can happen to it.
pub fn message_allows(cpus: usize, messages: &[Message], place: usize, event: &Event) -> bool
    ensures { IsTrue result ↔ IsSomeAnd (slice_get messages.now place) (λ msg. MessageNeeds cpus msg event.now) }
{
    match messages.get(place) {
        None => false,
        Some(msg) => msg.allows(cpus, event),
    }
}

/// Makes the event happen to the token at a place.
pub fn apply_at_token(tokens: &mut Vec<Token>, place: usize, event: &Event)
    requires allowed { IsSomeAnd (slice_get tokens.old.items place) (λ tok. TokenNeeds tok event.now) }
    requires exists { cpu_of event.now < CPU_LIMIT }
    requires safe { (cpus : ℕ) × All (IsSafeToken cpus) tokens.old.items }
    requires few { references_of tokens.old.items (cpu_of event.now) ≤ LIST_LIMIT }
    ensures { tokens.new.items ≡ changed (λ tok. token_after tok event.now) tokens.old.items place }
{
    let tok = &mut tokens[place];
    tok.apply(event);
}

/// Makes the event happen to the message at a place.
pub fn apply_at_message(messages: &mut Vec<Message>, place: usize, event: &Event)
    requires allowed { (cpus : ℕ) × IsSomeAnd (slice_get messages.old.items place) (λ msg. MessageNeeds cpus msg event.now) }
    requires safe { (cpus : ℕ) × All (IsSafeMessage cpus) messages.old.items }
    ensures { messages.new.items ≡ changed (λ msg. message_after msg event.now) messages.old.items place }
{
    let msg = &mut messages[place];
    msg.apply(event);
}

/// Makes the event happen.
pub fn apply(cpus: usize, tokens: &mut Vec<Token>, messages: &mut Vec<Message>, event: &Event)
    requires needs { Needs (machine cpus tokens.old.items messages.old.items) event.now }
    requires safe { IsSafe (machine cpus tokens.old.items messages.old.items) }
    ensures happens { machine cpus tokens.new.items messages.new.items ≡ after (machine cpus tokens.old.items messages.old.items) event.now }
    ensures safe { IsSafe (machine cpus tokens.new.items messages.new.items) }
{
    match event.place() {
        Place::AtToken(place) => apply_at_token(tokens, place, event),
        Place::AtMessage(place) => apply_at_message(messages, place, event),
    }
}
