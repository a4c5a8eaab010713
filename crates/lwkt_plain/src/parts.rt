//! Whether two parts of states are the same.
ghost use Rattle.std.specs.Prelude.{◌≡◌, ◌↔◌, ℕ, IsTrue, IfOk, length, map};
ghost use Rattle.lwkt_plain.specs.Faults.{carried};
ghost use Rattle.lwkt_plain.specs.Others.{wordless_thread, mail_but, CpuFollows, LetterFollows, MailFollows, TokenFollows};
ghost use Rattle.lwkt_plain.specs.Hashes.{letter_key, mail_key, processor_key, token_key};

use crate::hashes::{letter_key, mail_key, processor_key, token_key};
use crate::items::Items;
use crate::letters::{Lane, Letter, Note, Port};
use crate::states::{BusyAt, Mail, Phase, Plain, Processor, Thread};
use lwkt_base::blobs::are_same;
use lwkt_base::memory::with_capacity_for;
use lwkt_base::{Answer, Ask, Entry, Fault, Held, MsgWord, OutOfMemory, TokList};
use lwkt_code::Local;
use lwkt_core::Token;
use std::alloc::Global;

/// Parts of states that can be compared.
pub trait Same {
    /// Whether two are the same.
    fn is_same(&self, other: &Self) -> bool
        ensures { IsTrue result ↔ (self.now ≡ other.now) };
}

/// A part of a state that is kept once.
pub trait Part: Drop {
    ghost hash_of: { Self → ℕ };

    /// What may have become of a part by a turn of a processor, by its place among the parts of its kind.
    ghost follows: { ℕ → ℕ → Self → Self → Type 0 };

    /// A number by which it is found again: the fewer parts share one, the faster.
    fn hash(&self) -> u64
        ensures { result ≡ hash_of self.now };

    /// Whether the other is the same part.
    fn is_same(&self, other: &Self) -> bool
        ensures { IsTrue result ↔ (self.now ≡ other.now) };

    /// Whether a part is what it was before a turn of a processor.
    fn is_still(&self, old: &Self, cpu: usize, place: usize) -> bool
        requires { follows cpu place old.now self.now }
        ensures { IsTrue result ↔ (self.now ≡ old.now) };

    /// The same part, in memory of its own.
    fn copied(&self, alloc: Global) -> Result<Self, OutOfMemory>
        ensures { IfOk result (λ part. part ≡ self.now) };
}

/// A part that can be had once more.
pub trait Copied: Drop {
    /// The same part, in memory of its own.
    fn copied(&self, alloc: Global) -> Result<Self, OutOfMemory>
        ensures { IfOk result (λ part. part ≡ self.now) };
}

// The same parts.
fn copied_all<T: Copied>(alloc: Global, parts: &[T]) -> Result<Items<T>, OutOfMemory>
    ensures { IfOk result (λ copies. copies ≡ parts.now) }
{
    let room = with_capacity_for(alloc, parts)?;
    let mut copies = Items::from_vec(room);
    for part in parts {
        let copy = part.copied(alloc)?;
        copies.push(copy)?;
    }
    Ok(copies)
}

// Whether parts are the same, where there are as many.
fn same_below<T: Same>(parts: &[T], other: &[T]) -> bool
    requires long { length parts.now ≡ length other.now }
    ensures { IsTrue result ↔ (parts.now ≡ other.now) }
{
    for at in 0..parts.len() {
        if !parts[at].is_same(&other[at]) {
            return false;
        }
    }
    true
}

// Whether parts are the same.
fn same_all<T: Same>(parts: &[T], other: &[T]) -> bool
    ensures { IsTrue result ↔ (parts.now ≡ other.now) }
{
    parts.len() == other.len() && same_below(parts, other)
}

impl Same for Entry {
    fn is_same(&self, other: &Entry) -> bool {
        Entry::is_same(self, other)
    }
}

impl Same for Lane {
    fn is_same(&self, other: &Lane) -> bool {
        same_lane(self, other)
    }
}

impl Same for Port {
    fn is_same(&self, other: &Port) -> bool {
        are_bare(self, other) || same_port(self, other)
    }
}

impl Same for Token {
    fn is_same(&self, other: &Token) -> bool {
        same_token(self, other)
    }
}

impl Same for Letter {
    fn is_same(&self, other: &Letter) -> bool {
        same_letter(self, other)
    }
}

impl Same for Mail {
    fn is_same(&self, other: &Mail) -> bool {
        same_mail(self, other)
    }
}

impl Same for Processor {
    fn is_same(&self, other: &Processor) -> bool {
        same_processor(self, other)
    }
}

impl Same for Plain {
    fn is_same(&self, other: &Plain) -> bool {
        same_all(self.tokens.as_slice(), other.tokens.as_slice())
            && same_all(self.letters.as_slice(), other.letters.as_slice())
            && same_all(self.mails.as_slice(), other.mails.as_slice())
            && same_all(self.cpus.as_slice(), other.cpus.as_slice())
    }
}

impl Same for Thread {
    fn is_same(&self, other: &Thread) -> bool {
        same_thread(self, other)
    }
}

// The number that a fault carries beside its own, or 0.
fn carried(fault: &Fault) -> u64
    ensures { result ≡ carried fault.now }
{
    match fault {
        Fault::Script { place } => u64::from(*place),
        Fault::Unlawful { index } => *index as u64,
        _ => 0,
    }
}

#[tactic(auto, using(crate::proofs::OneFault::one_fault))]
fn same_fault(one: &Fault, other: &Fault) -> bool
    ensures { IsTrue result ↔ (one.now ≡ other.now) }
{
    one.number() == other.number() && carried(one) == carried(other)
}

fn same_answer(one: &Answer, other: &Answer) -> bool
    ensures { IsTrue result ↔ (one.now ≡ other.now) }
{
    match (one, other) {
        (Answer::Begin, Answer::Begin) => true,
        (Answer::Done, Answer::Done) => true,
        (Answer::NoMsg, Answer::NoMsg) => true,
        (Answer::Value(m), Answer::Value(n)) => *m == *n,
        (Answer::Bytes(a), Answer::Bytes(b)) => a.is_same(b),
        (Answer::Dropped(m, a), Answer::Dropped(n, b)) => *m == *n && *a == *b,
        (Answer::Got(i), Answer::Got(j)) => *i == *j,
        (Answer::Refused(f), Answer::Refused(g)) => same_fault(f, g),
        _ => false,
    }
}

fn same_asked(one: &Option<Ask>, other: &Option<Ask>) -> bool
    ensures { IsTrue result ↔ (one.now ≡ other.now) }
{
    match (one, other) {
        (None, None) => true,
        (Some(a), Some(b)) => a.is_same(b),
        _ => false,
    }
}

fn same_busy(one: &Option<BusyAt>, other: &Option<BusyAt>) -> bool
    ensures { IsTrue result ↔ (one.now ≡ other.now) }
{
    match (one, other) {
        (None, None) => true,
        (Some(a), Some(b)) => a.word == b.word && a.at == b.at,
        _ => false,
    }
}

// Where messages with two words are.
fn same_ways(one: &MsgWord, other: &MsgWord) -> bool
    ensures { IsTrue result ↔ ((one.now.round ≡ other.now.round) × (one.now.state ≡ other.now.state) × (one.now.origin ≡ other.now.origin) × (one.now.target ≡ other.now.target)) }
{
    one.round == other.round
        && one.state == other.state
        && one.origin == other.origin
        && one.target == other.target
}

// What was asked of them.
fn same_flags(one: &MsgWord, other: &MsgWord) -> bool
    ensures { IsTrue result ↔ ((one.now.aborted ≡ other.now.aborted) × (one.now.sync ≡ other.now.sync) × (one.now.dropable ≡ other.now.dropable) × (one.now.abortable ≡ other.now.abortable) × (one.now.priority ≡ other.now.priority)) }
{
    one.aborted == other.aborted
        && one.sync == other.sync
        && one.dropable == other.dropable
        && one.abortable == other.abortable
        && one.priority == other.priority
}

fn same_word(one: &MsgWord, other: &MsgWord) -> bool
    ensures { IsTrue result ↔ (one.now ≡ other.now) }
{
    same_ways(one, other) && same_flags(one, other)
}

// Whose messages two are, and their words.
fn same_covers(one: &Letter, other: &Letter) -> bool
    ensures { IsTrue result ↔ ((one.now.origin ≡ other.now.origin) × (one.now.word ≡ other.now.word)) }
{
    one.origin == other.origin && same_word(&one.word, &other.word)
}

// Their records, and in whose hands they are.
fn same_contents(one: &Letter, other: &Letter) -> bool
    ensures { IsTrue result ↔ ((one.now.rec ≡ other.now.rec) × (one.now.hands ≡ other.now.hands)) }
{
    one.rec == other.rec && one.hands == other.hands
}

fn same_letter(one: &Letter, other: &Letter) -> bool
    ensures { IsTrue result ↔ (one.now ≡ other.now) }
{
    same_covers(one, other) && same_contents(one, other)
}

fn same_phase(one: &Phase, other: &Phase) -> bool
    ensures { IsTrue result ↔ (one.now ≡ other.now) }
{
    match (one, other) {
        (Phase::Live, Phase::Live) => true,
        (Phase::AwaitsItem, Phase::AwaitsItem) => true,
        (Phase::AwaitsReply(m), Phase::AwaitsReply(n)) => *m == *n,
        (Phase::Exited, Phase::Exited) => true,
        (Phase::Faulted(f), Phase::Faulted(g)) => same_fault(f, g),
        _ => false,
    }
}

fn same_list(one: &TokList, other: &TokList) -> bool
    ensures { IsTrue result ↔ (one.now ≡ other.now) }
{
    one.refs() == other.refs()
}

fn same_some(one: &[Note], other: &[Note]) -> bool
    ensures { IsTrue result ↔ (one.now ≡ other.now) }
{
    *one == *other
}

// Most often there are none.
fn same_notes(one: &Items<Note>, other: &Items<Note>) -> bool
    ensures { IsTrue result ↔ (one.now ≡ other.now) }
{
    if one.len() == 0 {
        return other.len() == 0;
    }
    same_some(one.as_slice(), other.as_slice())
}

// What two threads do, and where they stand.
fn same_stands(one: &Thread, other: &Thread) -> bool
    ensures { IsTrue result ↔ ((one.now.phase ≡ other.now.phase) × (one.now.busy ≡ other.now.busy) × (one.now.local ≡ other.now.local)) }
{
    same_phase(&one.phase, &other.phase)
        && same_busy(&one.busy, &other.busy)
        && same_local(&one.local, &other.local)
}

// What they have of their asks.
fn same_pasts(one: &Thread, other: &Thread) -> bool
    ensures { IsTrue result ↔ ((one.now.list ≡ other.now.list) × (one.now.last ≡ other.now.last) × (one.now.asked ≡ other.now.asked) × (one.now.log ≡ other.now.log)) }
{
    same_list(&one.list, &other.list)
        && same_answer(&one.last, &other.last)
        && same_asked(&one.asked, &other.asked)
        && same_all(one.log.as_slice(), other.log.as_slice())
}

fn same_thread(one: &Thread, other: &Thread) -> bool
    ensures { IsTrue result ↔ (one.now ≡ other.now) }
{
    same_stands(one, other) && same_pasts(one, other)
}

fn same_local(one: &Local, other: &Local) -> bool
    ensures { IsTrue result ↔ (one.now ≡ other.now) }
{
    one.at == other.at
        && one.left == other.left
        && one.refused == other.refused
        && one.asked == other.asked
        && one.vars == other.vars
        && one.counts == other.counts
}

fn same_lane(one: &Lane, other: &Lane) -> bool
    ensures { IsTrue result ↔ (one.now ≡ other.now) }
{
    one.kept == other.kept && one.hand == other.hand && same_notes(&one.queue, &other.queue)
}

// Whether two have no notes: most often so.
fn are_bare(one: &Port, other: &Port) -> bool
    ensures { IsTrue result → one.now ≡ other.now }
{
    one.urgent.len() == 0
        && one.ordinary.len() == 0
        && other.urgent.len() == 0
        && other.ordinary.len() == 0
}

fn same_port(one: &Port, other: &Port) -> bool
    ensures { IsTrue result ↔ (one.now ≡ other.now) }
{
    same_notes(&one.urgent, &other.urgent) && same_notes(&one.ordinary, &other.ordinary)
}

// What is declared of two tokens, their generations and their marks.
fn same_heads(one: &Token, other: &Token) -> bool
    ensures { IsTrue result ↔ ((one.now.law ≡ other.now.law) × (one.now.param ≡ other.now.param) × (one.now.generation ≡ other.now.generation) × (one.now.mark ≡ other.now.mark)) }
{
    one.law == other.law
        && one.param == other.param
        && one.generation == other.generation
        && one.mark == other.mark
}

// Their rows and records.
fn same_rows(one: &Token, other: &Token) -> bool
    ensures { IsTrue result ↔ ((one.now.row ≡ other.now.row) × (one.now.first ≡ other.now.first) × (one.now.blob ≡ other.now.blob) × (one.now.first_blob ≡ other.now.first_blob)) }
{
    one.row.as_slice() == other.row.as_slice()
        && one.first.as_slice() == other.first.as_slice()
        && are_same(&one.blob, &other.blob)
        && are_same(&one.first_blob, &other.first_blob)
}

fn same_holdings(one: &[Held; 8], other: &[Held; 8]) -> bool
    ensures { IsTrue result ↔ (one.now ≡ other.now) }
{
    *one == *other
}

// What processors hold of them, and have added.
fn same_holders(one: &Token, other: &Token) -> bool
    ensures { IsTrue result ↔ ((one.now.holders ≡ other.now.holders) × (one.now.tallies ≡ other.now.tallies)) }
{
    same_holdings(&one.holders, &other.holders) && one.tallies == other.tallies
}

fn same_token(one: &Token, other: &Token) -> bool
    ensures { IsTrue result ↔ (one.now ≡ other.now) }
{
    same_heads(one, other) && same_rows(one, other) && same_holders(one, other)
}

fn same_mail(one: &Mail, other: &Mail) -> bool
    ensures { IsTrue result ↔ (one.now ≡ other.now) }
{
    same_all(one.lanes.as_slice(), other.lanes.as_slice())
        && same_all(one.ports.as_slice(), other.ports.as_slice())
}

fn same_processor(one: &Processor, other: &Processor) -> bool
    ensures { IsTrue result ↔ (one.now ≡ other.now) }
{
    same_all(one.threads.as_slice(), other.threads.as_slice())
        && one.running == other.running
        && one.cursor == other.cursor
}

// Whether two mails are the same that are so but for the lane from a processor.
fn same_from(one: &Mail, other: &Mail, cpu: usize) -> bool
    requires { mail_but cpu one.now ≡ mail_but cpu other.now }
    ensures { IsTrue result ↔ (one.now ≡ other.now) }
{
    let lanes = (
        one.lanes.as_slice().get(cpu),
        other.lanes.as_slice().get(cpu),
    );
    match lanes {
        (Some(lane), Some(another)) => same_lane(lane, another),
        _ => true,
    }
}

// Whether two threads are the same that are so but for the words that refused their lists.
fn same_word_of(one: &Thread, other: &Thread) -> bool
    requires { wordless_thread one.now ≡ wordless_thread other.now }
    ensures { IsTrue result ↔ (one.now ≡ other.now) }
{
    same_busy(&one.busy, &other.busy)
}

// The same of the threads of two processors.
fn same_words(threads: &[Thread], other: &[Thread]) -> bool
    requires { map wordless_thread threads.now ≡ map wordless_thread other.now }
    ensures { IsTrue result ↔ (threads.now ≡ other.now) }
{
    for k in 0..threads.len() {
        if !same_word_of(&threads[k], &other[k]) {
            return false;
        }
    }
    true
}

impl Copied for Note {
    fn copied(&self, _alloc: Global) -> Result<Note, OutOfMemory> {
        Ok(*self)
    }
}

impl Copied for Entry {
    fn copied(&self, _alloc: Global) -> Result<Entry, OutOfMemory> {
        Ok(*self)
    }
}

impl Copied for Letter {
    fn copied(&self, _alloc: Global) -> Result<Letter, OutOfMemory> {
        Ok(*self)
    }
}

impl Copied for Lane {
    fn copied(&self, alloc: Global) -> Result<Lane, OutOfMemory> {
        let queue = copied_all(alloc, self.queue.as_slice())?;
        Ok(Lane {
            kept: self.kept,
            queue,
            hand: self.hand,
        })
    }
}

impl Copied for Port {
    fn copied(&self, alloc: Global) -> Result<Port, OutOfMemory> {
        let urgent = copied_all(alloc, self.urgent.as_slice())?;
        let ordinary = copied_all(alloc, self.ordinary.as_slice())?;
        Ok(Port { urgent, ordinary })
    }
}

impl Copied for Token {
    fn copied(&self, alloc: Global) -> Result<Token, OutOfMemory> {
        let row = self.row.try_clone(alloc)?;
        let first = self.first.try_clone(alloc)?;
        Ok(Token {
            law: self.law,
            param: self.param,
            generation: self.generation,
            mark: self.mark,
            row,
            first,
            blob: self.blob,
            first_blob: self.first_blob,
            holders: self.holders,
            tallies: self.tallies,
        })
    }
}

impl Copied for Thread {
    fn copied(&self, alloc: Global) -> Result<Thread, OutOfMemory> {
        let log = copied_all(alloc, self.log.as_slice())?;
        Ok(Thread {
            phase: self.phase,
            list: self.list.copied(),
            last: self.last,
            busy: self.busy,
            local: self.local,
            asked: self.asked,
            log,
        })
    }
}

impl Copied for Mail {
    fn copied(&self, alloc: Global) -> Result<Mail, OutOfMemory> {
        let lanes = copied_all(alloc, self.lanes.as_slice())?;
        let ports = copied_all(alloc, self.ports.as_slice())?;
        Ok(Mail { lanes, ports })
    }
}

impl Copied for Processor {
    fn copied(&self, alloc: Global) -> Result<Processor, OutOfMemory> {
        let threads = copied_all(alloc, self.threads.as_slice())?;
        Ok(Processor {
            threads,
            running: self.running,
            cursor: self.cursor,
        })
    }
}

impl Copied for Plain {
    fn copied(&self, alloc: Global) -> Result<Plain, OutOfMemory> {
        let tokens = copied_all(alloc, self.tokens.as_slice())?;
        let letters = copied_all(alloc, self.letters.as_slice())?;
        let mails = copied_all(alloc, self.mails.as_slice())?;
        let cpus = copied_all(alloc, self.cpus.as_slice())?;
        Ok(Plain {
            tokens,
            letters,
            mails,
            cpus,
        })
    }
}

impl Part for Token {
    ghost hash_of = { token_key };

    ghost follows = { TokenFollows };

    fn hash(&self) -> u64 {
        token_key(self)
    }

    fn is_same(&self, other: &Token) -> bool {
        Same::is_same(self, other)
    }

    fn is_still(&self, old: &Token, _cpu: usize, _place: usize) -> bool {
        Same::is_same(self, old)
    }

    fn copied(&self, alloc: Global) -> Result<Token, OutOfMemory> {
        Copied::copied(self, alloc)
    }
}

impl Part for Letter {
    ghost hash_of = { letter_key };

    ghost follows = { LetterFollows };

    fn hash(&self) -> u64 {
        letter_key(self)
    }

    fn is_same(&self, other: &Letter) -> bool {
        Same::is_same(self, other)
    }

    fn is_still(&self, old: &Letter, _cpu: usize, _place: usize) -> bool {
        Same::is_same(self, old)
    }

    fn copied(&self, alloc: Global) -> Result<Letter, OutOfMemory> {
        Copied::copied(self, alloc)
    }
}

impl Part for Mail {
    ghost hash_of = { mail_key };

    ghost follows = { MailFollows };

    fn hash(&self) -> u64 {
        mail_key(self)
    }

    fn is_same(&self, other: &Mail) -> bool {
        Same::is_same(self, other)
    }

    fn is_still(&self, old: &Mail, cpu: usize, place: usize) -> bool {
        if place == cpu {
            return Same::is_same(self, old);
        }
        same_from(self, old, cpu)
    }

    fn copied(&self, alloc: Global) -> Result<Mail, OutOfMemory> {
        Copied::copied(self, alloc)
    }
}

impl Part for Processor {
    ghost hash_of = { processor_key };

    ghost follows = { CpuFollows };

    fn hash(&self) -> u64 {
        processor_key(self)
    }

    fn is_same(&self, other: &Processor) -> bool {
        Same::is_same(self, other)
    }

    fn is_still(&self, old: &Processor, cpu: usize, place: usize) -> bool {
        if place == cpu {
            return Same::is_same(self, old);
        }
        same_words(self.threads.as_slice(), old.threads.as_slice())
    }

    fn copied(&self, alloc: Global) -> Result<Processor, OutOfMemory> {
        Copied::copied(self, alloc)
    }
}
