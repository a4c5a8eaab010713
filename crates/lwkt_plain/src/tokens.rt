//! The tokens of a state: references of lists, taken and given back.
ghost use Rattle.std.specs.Prelude.{◌≡◌, ◌<◌, ◌≤◌, ◌++◌, ◌∷◌, [], ◌↔◌, IsTrue, false, Option, Some, None, List, length, true, slice_get, sum_by, ◌^◌};
ghost use Rattle.std.specs.List.{list_any};
ghost use Rattle.std.specs.Option.{option_map_or};
ghost use Rattle.lwkt_base.specs.declared.limits.TheConstants.{CPU_LIMIT, CELL_LIMIT};
ghost use Rattle.lwkt_base.specs.declared.names.Ref.{Ref};
ghost use Rattle.lwkt_base.specs.Holding.{is_held, is_exclusive};
ghost use Rattle.lwkt_base.specs.Refs.{names, is_alone};
ghost use Rattle.lwkt_base.specs.TokenWord.{Fits, word_of, in_word};
ghost use Rattle.lwkt_base.specs.declared.words.TokWord.{TokWord};
ghost use Rattle.lwkt_base.specs.declared.words.Decision.{Decision};
ghost use Rattle.lwkt_core.specs.Machine.{Needs, machine, changed};
ghost use Rattle.lwkt_core.specs.Picture.{picture_of, count_of_held};
ghost use Rattle.lwkt_core.specs.Takings.{taking_event};
ghost use Rattle.lwkt_core.specs.Tokens.{held_by, length_of, section_at, IsSafeToken, IsShort};
ghost use Rattle.lwkt_plain.specs.Sound.{AreSoundTokens, AreHeld, IsSoundList, holding_in};
ghost use Rattle.lwkt_plain.specs.Tokens.{obeys, stepped, refusal, miss_of, ends_section, is_broken, mended, is_clean, giving_event, given, gives, gave, tried, takes, resume};

use crate::items::Items;
use crate::nexts::{Miss, Missed};
use lwkt_base::blobs::{are_same, length_of};
use lwkt_base::{CpuId, Decision, Held, Mode, Ref, Row, Section, TokId, TokWord};
use lwkt_core::events::Place;
use lwkt_core::{Event, Token};

// What a processor's holding adds to the count of the word.
fn count_of(held: Held) -> u16
    ensures { result ≡ count_of_held held }
{
    match held {
        Held::Nothing => 0,
        Held::Holds(Mode::Shared, further) => u16::from(further) + 1,
        Held::Holds(Mode::Exclusive, further) => u16::from(further),
    }
}

// The count of a token's word.
fn count_in(token: &Token) -> u16
    requires { sum_by count_of_held token.now.holders < 2 ^ 16 }
    ensures { result ≡ sum_by count_of_held token.now.holders }
{
    token.holders.iter().map(|held| count_of(*held)).sum()
}

// Whether somebody holds a token exclusively.
fn is_taken(token: &Token) -> bool
    ensures { result ≡ list_any is_exclusive token.now.holders }
{
    token.holders.iter().any(|held| held.is_exclusive())
}

// The parts of a token's word.
fn parts_of(token: &Token) -> TokWord
    requires { Fits (picture_of token.now) }
    ensures { result ≡ picture_of token.now }
{
    TokWord {
        generation: token.generation,
        count: count_in(token),
        exclusive: is_taken(token),
        mark: token.mark,
    }
}

/// A token's word.
pub fn word_of(token: &Token) -> u64
    requires { Fits (picture_of token.now) }
    ensures { result ≡ word_of (picture_of token.now) }
{
    let parts = parts_of(token);
    TokWord::make(parts.exclusive, parts.mark, parts.count, parts.generation)
}

/// Makes an event happen to the tokens.
pub(crate) fn step(tokens: &mut Items<Token>, event: &Event)
    requires sound { AreSoundTokens tokens.old }
    requires needs { Needs (machine CPU_LIMIT tokens.old []) event.now }
    ensures { tokens.new ≡ stepped tokens.old event.now }
{
    if let Place::AtToken(at) = event.place() {
        if at < tokens.len() {
            let token = tokens.at(at);
            token.apply(event);
        }
    }
}

/// Whether references name a token.
pub(crate) fn have(refs: &[Ref], tok: TokId) -> bool
    ensures { result ≡ names refs.now tok.0 }
{
    refs.iter().any(|r| r.tok.0 == tok.0)
}

/// Whether references name no other token.
pub(crate) fn are_alone(refs: &[Ref], tok: TokId) -> bool
    ensures { result ≡ is_alone refs.now tok.0 }
{
    refs.iter().all(|r| r.tok.0 == tok.0)
}

// Why a word lets no reference be had, if it doesn't.
fn refusal(word: u64, decision: Decision) -> Option<Miss>
    ensures { (w : TokWord) (d : Decision) → word_of w ≡ word → decision ≡ in_word d → result ≡ refusal w d }
{
    match decision {
        Decision::Take(_) => None,
        Decision::Held | Decision::Marked => Some(Miss::Busy(word)),
        Decision::Worn => Some(Miss::Worn),
    }
}

/// Why a reference of a list isn't had, those in front of it being held; `alone` says that the list has no reference to another token.
pub(crate) fn miss(tokens: &Items<Token>, front: &[Ref], r: Ref, alone: bool) -> Option<Miss>
    requires { AreSoundTokens tokens.now }
    ensures { (refs : List Ref) → is_alone refs r.tok.0 ≡ alone → result ≡ miss_of tokens.now refs front.now r }
{
    if have(front, r.tok) {
        return None;
    }
    let at = usize::from(r.tok.0);
    if at >= tokens.len() {
        return None;
    }
    let token = tokens.part(at);
    let word = word_of(token);
    refusal(word, TokWord::decide(word, r.mode, alone))
}

// The event of taking a reference, those in front of it being held.
fn taking_event(cpu: CpuId, front: &[Ref], r: Ref) -> Event
    ensures { result ≡ taking_event cpu front.now r }
{
    let tok = r.tok;
    if have(front, tok) {
        return Event::Again { cpu, tok };
    }
    match r.mode {
        Mode::Exclusive => Event::Take { cpu, tok },
        Mode::Shared => Event::Share { cpu, tok },
    }
}

/// Takes a reference that isn't missed, those in front of it being held.
pub(crate) fn take(cpu: CpuId, tokens: &mut Items<Token>, front: &[Ref], r: Ref)
    requires here { cpu.0 < CPU_LIMIT }
    requires sound { AreSoundTokens tokens.old }
    requires held { AreHeld cpu.0 front.now tokens.old }
    requires fits { IsSoundList (length tokens.old) (front.now ++ r ∷ []) }
    requires may { (refs : List Ref) × (miss_of tokens.old refs front.now r ≡ None) }
    ensures { tokens.new ≡ stepped tokens.old (taking_event cpu front.now r) }
{
    step(tokens, &taking_event(cpu, front, r));
}

// The section of a token that would end now.
fn section_at(tok: TokId, token: &Token) -> Section
    requires before { length token.now.first ≤ CELL_LIMIT }
    requires after { length token.now.row ≤ CELL_LIMIT }
    ensures { result ≡ section_at tok token.now }
{
    Section {
        before: Row::of(token.first.as_slice()),
        after: Row::of(token.row.as_slice()),
        generation: token.generation,
        tok,
    }
}

// Whether the row is that of the beginning of the section.
fn has_first_row(token: &Token) -> bool
    ensures { IsTrue result ↔ (token.now.row ≡ token.now.first) }
{
    token.row.as_slice() == token.first.as_slice()
}

// Whether nothing is written.
#[tactic(auto, using(lwkt_base::proofs::BlobLemmas::tested_bytes, crate::proofs::LawTests::tested_blobs))]
fn is_clean(token: &Token) -> bool
    ensures { result ≡ is_clean token.now }
{
    let row = has_first_row(token);
    let record = are_same(&token.blob, &token.first_blob);
    row && record
}

// Whether the row, with the length of the record, obeys the law.
#[tactic(auto, using(crate::proofs::LawTests::lawful_test))]
fn is_lawful(token: &Token) -> bool
    ensures { result ≡ obeys token.now.law token.now.param token.now.row (length_of token.now.blob) }
{
    token
        .law
        .holds_of_section(token.row.as_slice(), token.param, length_of(&token.blob))
}

// Whether giving back a reference of what is held ends a section.
fn ends_section(held: Held) -> bool
    ensures { result ≡ ends_section held }
{
    match held {
        Held::Holds(Mode::Exclusive, further) => further == 0,
        _ => false,
    }
}

// Whether a reference that is given back ends a section that has broken its law.
fn is_broken(cpu: CpuId, token: &Token) -> bool
    ensures { result ≡ is_broken cpu token.now }
{
    ends_section(token.held_by(cpu)) && !is_lawful(token)
}

// Puts the first row and record of a section back that has broken its law.
fn mend(cpu: CpuId, token: &mut Token)
    requires { length token.old.row ≡ length token.old.first }
    ensures { token.new ≡ mended cpu token.old }
{
    if is_broken(cpu, token) {
        token.row.copy_from(&token.first);
        token.blob = token.first_blob;
    }
}

// The event of giving a reference back.
fn giving_event(cpu: CpuId, tok: TokId, token: &Token) -> Event
    requires before { length token.now.first ≤ CELL_LIMIT }
    requires after { length token.now.row ≤ CELL_LIMIT }
    ensures { result ≡ giving_event cpu tok token.now }
{
    if !ends_section(token.held_by(cpu)) {
        return Event::GiveOne { cpu, tok };
    }
    if is_clean(token) {
        return Event::GiveClean { cpu, tok };
    }
    Event::GiveWritten {
        cpu,
        tok,
        section: section_at(tok, token),
    }
}

// Gives a reference to a token back.
fn give_back(cpu: CpuId, tok: TokId, token: &mut Token)
    requires here { cpu.0 < CPU_LIMIT }
    requires safe { IsSafeToken CPU_LIMIT token.old }
    requires short { IsShort token.old.first_blob }
    requires holds { is_held (held_by token.old cpu.0) ≡ true }
    ensures { token.new ≡ given cpu tok token.old }
{
    mend(cpu, token);
    let event = giving_event(cpu, tok, token);
    token.apply(&event);
}

/// Gives a reference back. Says whether it ended a section that had broken its law.
#[tactic(auto, using(crate::proofs::Changes::changed_in, crate::proofs::Changes::changed_out))]
pub(crate) fn give(cpu: CpuId, tok: TokId, tokens: &mut Items<Token>) -> bool
    requires here { cpu.0 < CPU_LIMIT }
    requires sound { AreSoundTokens tokens.old }
    requires holds { is_held (holding_in tokens.old cpu.0 tok.0) ≡ true }
    ensures tokens { tokens.new ≡ changed (given cpu tok) tokens.old tok.0 }
    ensures broken { result ≡ option_map_or (is_broken cpu) (slice_get tokens.old tok.0) false }
{
    let at = usize::from(tok.0);
    if at >= tokens.len() {
        return false;
    }
    let token = tokens.at(at);
    let broken = is_broken(cpu, token);
    give_back(cpu, tok, token);
    broken
}

/// Gives references back, the last one first. Says whether one ended a section that had broken its law.
pub(crate) fn give_all(cpu: CpuId, tokens: &mut Items<Token>, refs: &[Ref]) -> bool
    requires here { cpu.0 < CPU_LIMIT }
    requires sound { AreSoundTokens tokens.old }
    requires held { AreHeld cpu.0 refs.now tokens.old }
    ensures { gave tokens.new result ≡ gives cpu tokens.old refs.now }
{
    let mut broken = false;
    let mut left = refs.len();
    while left > 0 {
        left -= 1;
        let ended = give(cpu, refs[left].tok, tokens);
        broken = broken || ended;
    }
    broken
}

/// Takes a whole list, or nothing of it: then the place of the reference that isn't had, and why.
pub(crate) fn resume(cpu: CpuId, tokens: &mut Items<Token>, refs: &[Ref]) -> Option<Missed>
    requires here { cpu.0 < CPU_LIMIT }
    requires sound { AreSoundTokens tokens.old }
    requires empty { AreHeld cpu.0 [] tokens.old }
    requires fits { IsSoundList (length tokens.old) refs.now }
    ensures { tried tokens.new result ≡ resume cpu tokens.old refs.now }
{
    for at in 0..refs.len() {
        let front = &refs[..at];
        let r = refs[at];
        if let Some(why) = miss(tokens, front, r, are_alone(refs, r.tok)) {
            give_all(cpu, tokens, front);
            return Some(Missed { at, why });
        }
        take(cpu, tokens, front, r);
    }
    None
}
