ghost use Rattle.std.specs.Prelude.{◌≡◌, ◌↔◌, ◌<◌, ◌≤◌, ℕ, map, length, option_map, All, IsTrue, IfOk};
ghost use Rattle.lwkt_base.specs.Law.{OpensLawfully};
ghost use Rattle.lwkt_core.specs.Tokens.{IsShort};
ghost use Rattle.lwkt_core.specs.Opening.{opened_token, opened_message, IsRecordWithin, IsTokenWithin, IsMessageWithin, AreWithin, AllOpenLawfully};

use crate::messages::Message;
use crate::tokens::Token;
use lwkt_base::blobs::length_of;
use lwkt_base::limits::{CPU_LIMIT, LAST_GENERATION, LAST_ROUND};
use lwkt_base::memory::{push, with_capacity_for};
use lwkt_base::{Blob, Held, Law, MsgSpec, OutOfMemory, Owner, TokSpec};
use std::alloc::Global;

fn opened_token(alloc: Global, spec: &TokSpec) -> Result<Token, OutOfMemory>
    ensures { IfOk result (λ tok. tok ≡ opened_token spec.now) }
{
    Ok(Token {
        law: spec.law,
        param: spec.param,
        generation: spec.generation,
        mark: false,
        row: spec.cells.try_clone(alloc)?,
        first: spec.cells.try_clone(alloc)?,
        blob: spec.blob,
        first_blob: spec.blob,
        holders: [Held::Nothing; 8],
        tallies: [0; 8],
    })
}

fn opened_message(spec: &MsgSpec) -> Message
    ensures { result ≡ opened_message spec.now }
{
    Message {
        origin: spec.origin,
        opening: spec.round,
        round: spec.round,
        owner: Owner::Rest {
            origin: spec.origin.cpu,
        },
        asked: false,
        sends: 0,
        takes: 0,
        drops: 0,
        replies: 0,
        reaps: 0,
    }
}

/// The tokens at the opening.
pub fn opened_tokens(alloc: Global, specs: &[TokSpec]) -> Result<Vec<Token>, OutOfMemory>
    ensures { IfOk result (λ v. v.items ≡ map opened_token specs.now) }
{
    let mut tokens = with_capacity_for(alloc, specs)?;
    for spec in specs {
        push(&mut tokens, opened_token(alloc, spec)?)?;
    }
    Ok(tokens)
}

/// The messages at the opening.
pub fn opened_messages(alloc: Global, specs: &[MsgSpec]) -> Result<Vec<Message>, OutOfMemory>
    ensures { IfOk result (λ v. v.items ≡ map opened_message specs.now) }
{
    let mut messages = with_capacity_for(alloc, specs)?;
    for spec in specs {
        push(&mut messages, opened_message(spec))?;
    }
    Ok(messages)
}

// Whether a record is short enough, if there is one.
fn is_short(blob: &Option<Blob>) -> bool
    ensures { IsTrue result ↔ IsShort blob.now }
{
    match blob {
        None => true,
        Some(blob) => blob.len() <= 64,
    }
}

fn is_record_within(spec: &TokSpec) -> bool
    ensures { IsTrue result ↔ IsRecordWithin spec.now }
{
    is_short(&spec.blob)
        && (spec.law != Law::Len || (!spec.cells.as_slice().is_empty() && spec.blob.is_some()))
        && (spec.law != Law::Tally || spec.blob.is_none())
}

fn is_token_within(spec: &TokSpec) -> bool
    ensures { IsTrue result ↔ IsTokenWithin spec.now }
{
    let cells = spec.cells.as_slice().len();
    cells <= 4
        && (spec.law != Law::Tally || cells == 1)
        && spec.generation <= LAST_GENERATION
        && is_record_within(spec)
}

fn is_message_within(cpus: usize, spec: &MsgSpec) -> bool
    ensures { IsTrue result ↔ IsMessageWithin cpus spec.now }
{
    (spec.origin.cpu.0 as usize) < cpus && spec.origin.thread < 16 && spec.round <= LAST_ROUND
}

fn are_tokens_within(specs: &[TokSpec]) -> bool
    ensures { IsTrue result ↔ All IsTokenWithin specs.now }
{
    specs.iter().all(|spec| is_token_within(spec))
}

fn are_messages_within(cpus: usize, specs: &[MsgSpec]) -> bool
    ensures { IsTrue result ↔ All (IsMessageWithin cpus) specs.now }
{
    specs.iter().all(|spec| is_message_within(cpus, spec))
}

/// Whether the opening keeps the limits.
pub fn are_within(cpus: usize, tokens: &[TokSpec], messages: &[MsgSpec]) -> bool
    ensures { IsTrue result ↔ AreWithin cpus tokens.now messages.now }
{
    0 < cpus
        && cpus <= CPU_LIMIT
        && tokens.len() <= 64
        && are_tokens_within(tokens)
        && messages.len() <= 64
        && are_messages_within(cpus, messages)
}

// Whether an opening row, with the length of its record, obeys its law.
fn opens_lawfully(spec: &TokSpec) -> bool
    ensures { IsTrue result ↔ OpensLawfully spec.now.law spec.now.param spec.now.cells (option_map length spec.now.blob) }
{
    spec.law
        .holds(spec.cells.as_slice(), spec.param, length_of(&spec.blob))
}

/// Whether each opening row, with the length of its record, obeys its law.
pub fn all_open_lawfully(tokens: &[TokSpec]) -> bool
    ensures { IsTrue result ↔ AllOpenLawfully tokens.now }
{
    tokens.iter().all(|spec| opens_lawfully(spec))
}
