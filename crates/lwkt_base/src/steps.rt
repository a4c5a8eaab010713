//! The table of the steps of a thread: the word of each, and what stands behind it. Whatever reads a step or shows an ask goes by it.
ghost use Rattle.std.specs.Prelude.{[], ◌∷◌, ◌≡◌, ◌≤◌, length};
ghost use Rattle.lwkt_base.specs.Step.{verb_named, verb_written, step_of, ask_of, StepsDecideAsks, AsksDecideSteps, WordsNameVerbs, PartsFit};

use crate::asks::Ask;
use crate::blobs::Blob;
use crate::names::{MsgId, ThreadId, TokId};
use crate::records::{Call, Flags};
use std::marker::Model;

/// The kind of a step. Each is that of `Ask`.
#[derive(Clone, Copy, PartialEq, Eq)]
pub enum Verb {
    Get,
    GetShared,
    TryGet,
    Rel,
    Swap,
    Read,
    Write,
    Add,
    ReadBlob,
    WriteBlob,
    Send,
    Do,
    Reply,
    Abort,
    IsAborted,
    DropMsg,
    GetPort,
    WaitPort,
    Yield,
    Exit,
    Assert,
}

/// All kinds of steps.
pub const VERBS: [Verb; 21] = [
    Verb::Get,
    Verb::GetShared,
    Verb::TryGet,
    Verb::Rel,
    Verb::Swap,
    Verb::Read,
    Verb::Write,
    Verb::Add,
    Verb::ReadBlob,
    Verb::WriteBlob,
    Verb::Send,
    Verb::Do,
    Verb::Reply,
    Verb::Abort,
    Verb::IsAborted,
    Verb::DropMsg,
    Verb::GetPort,
    Verb::WaitPort,
    Verb::Yield,
    Verb::Exit,
    Verb::Assert,
];

/// What may stand at a place behind the word of a step.
#[derive(Clone, Copy, PartialEq, Eq)]
pub enum PartKind {
    /// A token.
    Token,
    /// A token and a cell.
    Cell,
    /// A value, or what is added to one.
    Value,
    /// A record.
    Record,
    /// A message.
    Message,
    /// The thread that a message goes to.
    Target,
    /// What a message asks for.
    Call,
    /// What its origin may do with a message.
    Flags,
    /// The error of a reply.
    Code,
    /// The result of a reply.
    Outcome,
}

/// A part of a step, of each kind.
#[derive(Clone, Copy, PartialEq, Eq)]
pub enum Part {
    Token(TokId),
    Cell(TokId, u8),
    Value(u64),
    Record(Blob),
    Message(MsgId),
    Target(ThreadId),
    Call(Call),
    Flags(Flags),
    Code(u32),
    Outcome(u64),
}

/// The parts of a step in order, at most 4.
#[derive(Drop)]
pub struct StepParts {
    count: usize,
    items: [Part; 4],
}

impl Model for StepParts {
    ghost use Rattle.std.specs.Prelude.{◌≡◌, ◌≤◌, List, take, length};
    ghost use Rattle.lwkt_base.specs.declared.steps.Part.{Part as PartOf};

    ghost Value = { List PartOf };

    ghost view = { λ p. take p.count p.items };

    ghost invariant = { λ p. (p.count ≤ 4) × (length p.items ≡ 4) };
}

impl StepParts {
    ghost use Rattle.std.specs.Prelude.{[], ◌∷◌, ◌++◌, ◌<◌};

    /// These.
    pub fn of(parts: &[Part]) -> Self
        requires { length parts.now ≤ 4 }
        ensures { result ≡ parts.now }
    {
        let mut items = [Part::Value(0); 4];
        items[..parts.len()].copy_from_slice(parts);
        StepParts {
            count: parts.len(),
            items,
        }
    }

    /// Appends one.
    pub fn push(&mut self, part: Part)
        requires { length self.old < 4 }
        ensures { self.new ≡ self.old ++ part ∷ [] }
    {
        self.items[self.count] = part;
        self.count += 1;
    }

    /// All of them.
    pub fn as_slice(&self) -> &[Part]
        ensures { result.now ≡ self.now }
    {
        &self.items[..self.count]
    }
}

impl Verb {
    ghost use Rattle.lwkt_base.specs.Step.{row_of, word_of, part_kinds, is_later, is_written};

    // The row of the table.
    fn row(self) -> (&'static str, &'static [PartKind])
        ensures word { result.0.now ≡ (row_of self).0 }
        ensures kinds { result.1.now ≡ (row_of self).1 }
    {
        match self {
            Verb::Get => ("get", &[PartKind::Token]),
            Verb::GetShared => ("gets", &[PartKind::Token]),
            Verb::TryGet => ("try", &[PartKind::Token]),
            Verb::Rel => ("rel", &[PartKind::Token]),
            Verb::Swap => ("swap", &[]),
            Verb::Read => ("read", &[PartKind::Cell]),
            Verb::Write => ("write", &[PartKind::Cell, PartKind::Value]),
            Verb::Add => ("add", &[PartKind::Token, PartKind::Value]),
            Verb::ReadBlob => ("rrec", &[PartKind::Token]),
            Verb::WriteBlob => ("wrec", &[PartKind::Token, PartKind::Record]),
            Verb::Send => (
                "send",
                &[
                    PartKind::Message,
                    PartKind::Target,
                    PartKind::Call,
                    PartKind::Flags,
                ],
            ),
            Verb::Do => ("do", &[PartKind::Message, PartKind::Target, PartKind::Call]),
            Verb::Reply => (
                "reply",
                &[PartKind::Message, PartKind::Code, PartKind::Outcome],
            ),
            Verb::Abort => ("abort", &[PartKind::Message]),
            Verb::IsAborted => ("isab", &[PartKind::Message]),
            Verb::DropMsg => ("drop", &[PartKind::Message]),
            Verb::GetPort => ("getport", &[]),
            Verb::WaitPort => ("wait", &[]),
            Verb::Yield => ("yield", &[]),
            Verb::Exit => ("exit", &[]),
            Verb::Assert => ("assert", &[PartKind::Code]),
        }
    }

    /// The word.
    pub fn word(self) -> &'static str
        ensures { result.now ≡ word_of self }
    {
        self.row().0
    }

    /// What stands behind the word, at most 4 parts.
    pub fn kinds(self) -> &'static [PartKind]
        ensures value { result.now ≡ part_kinds self }
        ensures few { length result.now ≤ 4 }
    {
        self.row().1
    }

    /// Whether only scripts of the second version have such steps.
    pub fn is_later(self) -> bool
        ensures { result ≡ is_later self }
    {
        matches!(self, Verb::ReadBlob | Verb::WriteBlob)
    }

    /// Whether such a step is written as its word and its parts. An assertion isn't: it has a condition, and only a program asks for it.
    pub fn is_written(self) -> bool
        ensures { result ≡ is_written self }
    {
        !matches!(self, Verb::Assert)
    }
}

/// The kind of step that has this word.
pub fn verb_named(word: &str) -> Option<Verb>
    ensures { result ≡ verb_named word.now }
{
    VERBS.iter().copied().find(|verb| verb.word() == word)
}

/// The kind of step that has this word, if such steps are written as a word and parts.
pub fn verb_written(word: &str) -> Option<Verb>
    ensures { result ≡ verb_written word.now }
{
    let verb = verb_named(word)?;
    if verb.is_written() { Some(verb) } else { None }
}

/// The ask that a step stands for, if its parts are of its kinds.
pub fn ask_of(verb: Verb, parts: &[Part]) -> Option<Ask>
    ensures { result ≡ ask_of verb parts.now }
{
    match parts {
        [] => ask_alone(verb),
        [part] => ask_with_one(verb, *part),
        [part, other] => ask_with_two(verb, *part, *other),
        _ => ask_with_more(verb, parts),
    }
}

// The same, of a step without parts.
fn ask_alone(verb: Verb) -> Option<Ask>
    ensures { result ≡ ask_of verb [] }
{
    match verb {
        Verb::Swap => Some(Ask::Swap),
        Verb::GetPort => Some(Ask::GetPort),
        Verb::WaitPort => Some(Ask::WaitPort),
        Verb::Yield => Some(Ask::Yield),
        Verb::Exit => Some(Ask::Exit),
        _ => None,
    }
}

// The same, of a step with one part.
fn ask_with_one(verb: Verb, part: Part) -> Option<Ask>
    ensures { result ≡ ask_of verb (part ∷ []) }
{
    match (verb, part) {
        (Verb::Get, Part::Token(tok)) => Some(Ask::Get(tok)),
        (Verb::GetShared, Part::Token(tok)) => Some(Ask::GetShared(tok)),
        (Verb::TryGet, Part::Token(tok)) => Some(Ask::TryGet(tok)),
        (Verb::Rel, Part::Token(tok)) => Some(Ask::Rel(tok)),
        (Verb::Read, Part::Cell(tok, cell)) => Some(Ask::Read(tok, cell)),
        (Verb::ReadBlob, Part::Token(tok)) => Some(Ask::ReadBlob(tok)),
        (Verb::Abort, Part::Message(msg)) => Some(Ask::Abort(msg)),
        (Verb::IsAborted, Part::Message(msg)) => Some(Ask::IsAborted(msg)),
        (Verb::DropMsg, Part::Message(msg)) => Some(Ask::DropMsg(msg)),
        (Verb::Assert, Part::Code(number)) => Some(Ask::Fail(number)),
        _ => None,
    }
}

// The same, of a step with two parts.
fn ask_with_two(verb: Verb, part: Part, other: Part) -> Option<Ask>
    ensures { result ≡ ask_of verb (part ∷ other ∷ []) }
{
    match (verb, part, other) {
        (Verb::Write, Part::Cell(tok, cell), Part::Value(value)) => Some(Ask::Write(
            tok, cell, value,
        )),
        (Verb::Add, Part::Token(tok), Part::Value(value)) => Some(Ask::Add(tok, value)),
        (Verb::WriteBlob, Part::Token(tok), Part::Record(blob)) => Some(Ask::WriteBlob(tok, blob)),
        _ => None,
    }
}

// The same, of a step with more parts.
fn ask_with_more(verb: Verb, parts: &[Part]) -> Option<Ask>
    requires { 3 ≤ length parts.now }
    ensures { result ≡ ask_of verb parts.now }
{
    match (verb, parts) {
        (
            Verb::Send,
            [
                Part::Message(msg),
                Part::Target(to),
                Part::Call(call),
                Part::Flags(flags),
            ],
        ) => Some(Ask::Send(*msg, *to, *call, *flags)),
        (Verb::Do, [Part::Message(msg), Part::Target(to), Part::Call(call)]) => Some(Ask::Do(
            *msg, *to, *call,
        )),
        (
            Verb::Reply,
            [
                Part::Message(msg),
                Part::Code(error),
                Part::Outcome(outcome),
            ],
        ) => Some(Ask::Reply(*msg, *error, *outcome)),
        _ => None,
    }
}

/// The step that stands for an ask.
pub fn step_of(ask: &Ask) -> (Verb, StepParts)
    ensures { result ≡ step_of ask.now }
{
    match *ask {
        Ask::Get(tok) => (Verb::Get, StepParts::of(&[Part::Token(tok)])),
        Ask::GetShared(tok) => (Verb::GetShared, StepParts::of(&[Part::Token(tok)])),
        Ask::TryGet(tok) => (Verb::TryGet, StepParts::of(&[Part::Token(tok)])),
        Ask::Rel(tok) => (Verb::Rel, StepParts::of(&[Part::Token(tok)])),
        Ask::Swap => (Verb::Swap, StepParts::of(&[])),
        Ask::Read(tok, cell) => (Verb::Read, StepParts::of(&[Part::Cell(tok, cell)])),
        Ask::Write(tok, cell, value) => (
            Verb::Write,
            two(Part::Cell(tok, cell), Part::Value(value)),
        ),
        Ask::Add(tok, value) => (Verb::Add, two(Part::Token(tok), Part::Value(value))),
        Ask::ReadBlob(tok) => (Verb::ReadBlob, StepParts::of(&[Part::Token(tok)])),
        Ask::WriteBlob(tok, blob) => (Verb::WriteBlob, two(Part::Token(tok), Part::Record(blob))),
        Ask::Send(msg, to, call, flags) => (Verb::Send, send_parts(msg, to, call, flags)),
        Ask::Do(msg, to, call) => (
            Verb::Do,
            StepParts::of(&[Part::Message(msg), Part::Target(to), Part::Call(call)]),
        ),
        Ask::Reply(msg, code, value) => (
            Verb::Reply,
            StepParts::of(&[Part::Message(msg), Part::Code(code), Part::Outcome(value)]),
        ),
        Ask::Abort(msg) => (Verb::Abort, StepParts::of(&[Part::Message(msg)])),
        Ask::IsAborted(msg) => (Verb::IsAborted, StepParts::of(&[Part::Message(msg)])),
        Ask::DropMsg(msg) => (Verb::DropMsg, StepParts::of(&[Part::Message(msg)])),
        Ask::GetPort => (Verb::GetPort, StepParts::of(&[])),
        Ask::WaitPort => (Verb::WaitPort, StepParts::of(&[])),
        Ask::Yield => (Verb::Yield, StepParts::of(&[])),
        Ask::Exit => (Verb::Exit, StepParts::of(&[])),
        Ask::Fail(number) => (Verb::Assert, StepParts::of(&[Part::Code(number)])),
    }
}

// Two parts.
fn two(part: Part, other: Part) -> StepParts
    ensures { result ≡ part ∷ other ∷ [] }
{
    StepParts::of(&[part, other])
}

// The parts of a send.
fn send_parts(msg: MsgId, to: ThreadId, call: Call, flags: Flags) -> StepParts
    ensures { result ≡ Part.Message msg ∷ Part.Target to ∷ Part.Call call ∷ Part.Flags flags ∷ [] }
{
    StepParts::of(&[
        Part::Message(msg),
        Part::Target(to),
        Part::Call(call),
        Part::Flags(flags),
    ])
}

/// The theorem that the step of an ask stands for that ask.
pub fn steps_decide_asks()
    ensures { StepsDecideAsks }
{}

/// The theorem that the ask of a step has that step.
pub fn asks_decide_steps()
    ensures { AsksDecideSteps }
{}

/// The theorem that each kind of step has a word of its own.
pub fn words_name_verbs()
    ensures { WordsNameVerbs }
{}

/// The theorem that parts of the kinds of a step make one, and no others.
pub fn parts_fit()
    ensures { PartsFit }
{}
