//! The asks of a running thread about tokens.
ghost use Rattle.std.specs.Prelude.{◌≡◌, ◌<◌, ◌≤◌, ◌++◌, ◌∷◌, [], Option, Some, None, List, All, length, ℕ, ◌+◌, ◌^◌, nat_lt, false, true, if◌then◌else◌};
ghost use Rattle.lwkt_base.specs.declared.limits.TheConstants.{CPU_LIMIT, LIST_LIMIT, RECORD_LIMIT};
ghost use Rattle.lwkt_base.specs.declared.names.Ref.{Ref};
ghost use Rattle.lwkt_base.specs.Refs.{names, first_mode};
ghost use Rattle.lwkt_plain.specs.Sound.{AreSoundTokens, AreHeld, IsSoundList};
ghost use Rattle.lwkt_plain.specs.Tokens.{miss_of};
ghost use Rattle.lwkt_core.specs.declared.tokens.Token.{Token};
ghost use Rattle.lwkt_plain.specs.TokenAsks.{asked, is_upgrade, get_refusal, had, marked_for, must_switch, get, try_missed, try_get, rel, swapped, unless_exclusive, is_tally, has_tally, value_of, unless_cell, read, write, IsSumOf, add_refusal, add, record_of, record_refusal, read_blob, write_blob};

use crate::items::Items;
use crate::nexts::{Miss, Next};
use crate::states::Phase;
use crate::tokens::{are_alone, give, have, miss, step, take};
use lwkt_base::limits::LIST_LIMIT;
use lwkt_base::{Answer, Blob, CpuId, Fault, Law, Mode, Ref, TokId, TokList};
use lwkt_core::{Event, Token};

/// The ask is refused.
pub(crate) fn refused(fault: Fault) -> Next
    ensures { result ≡ Next.Runs (Answer.Refused fault) }
{
    Next::Runs(Answer::Refused(fault))
}

// The ask is done.
fn done() -> Next
    ensures { result ≡ Next.Runs Answer.Done }
{
    Next::Runs(Answer::Done)
}

// Whether an exclusive reference would stand behind a shared first one.
fn is_upgrade(mode: Mode, first: Option<Mode>) -> bool
    ensures { result ≡ is_upgrade mode first }
{
    match mode {
        Mode::Shared => false,
        Mode::Exclusive => matches!(first, Some(Mode::Shared)),
    }
}

// Why a reference isn't asked for.
fn get_refusal(tokens: &Items<Token>, list: &TokList, r: Ref) -> Option<Fault>
    ensures { result ≡ get_refusal tokens.now list.now r }
{
    if tokens.len() <= usize::from(r.tok.0) {
        return Some(Fault::NoToken);
    }
    if list.len() == LIST_LIMIT {
        return Some(Fault::ListFull);
    }
    if is_upgrade(r.mode, list.mode(r.tok)) {
        Some(Fault::Upgrade)
    } else {
        None
    }
}

// Puts a reference at the end of a list that takes it.
fn push_new(list: &mut TokList, r: Ref)
    requires room { length list.old < LIST_LIMIT }
    requires no_upgrade { is_upgrade r.mode (first_mode list.old r.tok.0) ≡ false }
    ensures { list.new ≡ list.old ++ r ∷ [] }
{
    let _pushed = list.push(r);
}

// Takes a reference that isn't missed, and puts it at the end of the list.
fn had(cpu: CpuId, tokens: &mut Items<Token>, list: &mut TokList, r: Ref) -> Next
    requires here { cpu.0 < CPU_LIMIT }
    requires sound { AreSoundTokens tokens.old }
    requires held { AreHeld cpu.0 list.old tokens.old }
    requires fits { IsSoundList (length tokens.old) (list.old ++ r ∷ []) }
    requires no_upgrade { is_upgrade r.mode (first_mode list.old r.tok.0) ≡ false }
    requires may { (refs : List Ref) × (miss_of tokens.old refs list.old r ≡ None) }
    ensures { asked tokens.new list.new result ≡ had cpu tokens.old list.old r }
{
    take(cpu, tokens, list.refs(), r);
    push_new(list, r);
    done()
}

// Marks a token for an exclusive request.
fn mark_for(cpu: CpuId, tokens: &mut Items<Token>, r: Ref)
    requires here { cpu.0 < CPU_LIMIT }
    requires sound { AreSoundTokens tokens.old }
    requires there { r.tok.0 < length tokens.old }
    ensures { tokens.new ≡ marked_for r.mode cpu r.tok tokens.old }
{
    match r.mode {
        Mode::Shared => {}
        Mode::Exclusive => step(tokens, &Event::Mark { cpu, tok: r.tok }),
    }
}

// A reference that is missed blocks its thread, or is refused at the last generation.
fn must_switch(cpu: CpuId, tokens: &mut Items<Token>, list: &mut TokList, r: Ref, why: Miss) -> Next
    requires here { cpu.0 < CPU_LIMIT }
    requires sound { AreSoundTokens tokens.old }
    requires fits { IsSoundList (length tokens.old) (list.old ++ r ∷ []) }
    requires no_upgrade { is_upgrade r.mode (first_mode list.old r.tok.0) ≡ false }
    ensures { asked tokens.new list.new result ≡ must_switch cpu tokens.old list.old r why }
{
    match why {
        Miss::Worn => refused(Fault::Worn),
        Miss::Busy(_) => {
            let held = list.len();
            mark_for(cpu, tokens, r);
            push_new(list, r);
            Next::Leaves(held, Phase::Live)
        }
    }
}

// Why a reference isn't had behind those of a list, which are held.
fn miss_new(tokens: &Items<Token>, list: &TokList, r: Ref) -> Option<Miss>
    requires { AreSoundTokens tokens.now }
    ensures { result ≡ miss_of tokens.now (list.now ++ r ∷ []) list.now r }
{
    let front = list.refs();
    miss(tokens, front, r, are_alone(front, r.tok))
}

/// A reference that blocks its thread where it isn't had.
pub(crate) fn get(cpu: CpuId, tokens: &mut Items<Token>, list: &mut TokList, r: Ref) -> Next
    requires here { cpu.0 < CPU_LIMIT }
    requires sound { AreSoundTokens tokens.old }
    requires held { AreHeld cpu.0 list.old tokens.old }
    requires fits { IsSoundList (length tokens.old) list.old }
    ensures { asked tokens.new list.new result ≡ get cpu tokens.old list.old r }
{
    if let Some(fault) = get_refusal(tokens, list, r) {
        return refused(fault);
    }
    match miss_new(tokens, list, r) {
        None => had(cpu, tokens, list, r),
        Some(why) => must_switch(cpu, tokens, list, r, why),
    }
}

// What a try that is missed is refused with.
fn missed(why: Miss) -> Next
    ensures { (tokens : List Token) (refs : List Ref) → asked tokens refs result ≡ try_missed tokens refs why }
{
    match why {
        Miss::Worn => refused(Fault::Worn),
        Miss::Busy(_) => refused(Fault::Busy),
    }
}

/// A reference that is refused where it isn't had.
pub(crate) fn try_get(cpu: CpuId, tokens: &mut Items<Token>, list: &mut TokList, r: Ref) -> Next
    requires here { cpu.0 < CPU_LIMIT }
    requires sound { AreSoundTokens tokens.old }
    requires held { AreHeld cpu.0 list.old tokens.old }
    requires fits { IsSoundList (length tokens.old) list.old }
    ensures { asked tokens.new list.new result ≡ try_get cpu tokens.old list.old r }
{
    if let Some(fault) = get_refusal(tokens, list, r) {
        return refused(fault);
    }
    match miss_new(tokens, list, r) {
        None => had(cpu, tokens, list, r),
        Some(why) => missed(why),
    }
}

// What a release comes to that ended a section which had broken its law, or not.
fn released(broken: bool) -> Next
    ensures { result ≡ Next.Runs (if broken then Answer.Refused Fault.Broken else Answer.Done) }
{
    if broken {
        refused(Fault::Broken)
    } else {
        done()
    }
}

/// The last reference given back.
pub(crate) fn rel(cpu: CpuId, tokens: &mut Items<Token>, list: &mut TokList, tok: TokId) -> Next
    requires here { cpu.0 < CPU_LIMIT }
    requires sound { AreSoundTokens tokens.old }
    requires held { AreHeld cpu.0 list.old tokens.old }
    ensures { asked tokens.new list.new result ≡ rel cpu tokens.old list.old tok }
{
    match list.pop(tok) {
        Err(fault) => refused(fault),
        Ok(last) => released(give(cpu, last.tok, tokens)),
    }
}

/// The two last references exchanged.
pub(crate) fn swap(list: &mut TokList) -> Next
    ensures { (tokens : List Token) → asked tokens list.new result ≡ swapped tokens list.old }
{
    match list.swap() {
        Err(fault) => refused(fault),
        Ok(()) => done(),
    }
}

// The value of a cell, if there is such one.
fn value_of(tokens: &Items<Token>, tok: TokId, cell: u8) -> Option<u64>
    ensures { result ≡ value_of tokens.now tok cell }
{
    let token = tokens.as_slice().get(usize::from(tok.0))?;
    token.row.as_slice().get(usize::from(cell)).copied()
}

// The first refusal of use of a cell that there isn't, or what comes next.
fn unless_cell(tokens: &Items<Token>, tok: TokId, cell: u8, next: Option<Fault>) -> Option<Fault>
    ensures { result ≡ unless_cell tokens.now tok cell next }
{
    if tokens.len() <= usize::from(tok.0) {
        return Some(Fault::NoToken);
    }
    match value_of(tokens, tok, cell) {
        Some(_) => next,
        None => Some(Fault::NoCell),
    }
}

// The fault of a token that isn't on the list, or of one that is there shared first, or what comes next.
fn unless_exclusive(first: Option<Mode>, shared: Fault, next: Option<Fault>) -> Option<Fault>
    ensures { result ≡ unless_exclusive first shared next }
{
    match first {
        None => Some(Fault::NotHeld),
        Some(Mode::Shared) => Some(shared),
        Some(Mode::Exclusive) => next,
    }
}

// What a token that isn't on the list is refused with.
fn unless_held(list: &TokList, tok: TokId) -> Option<Fault>
    ensures { result ≡ (if names list.now tok.0 then None else Some Fault.NotHeld) }
{
    if have(list.refs(), tok) {
        None
    } else {
        Some(Fault::NotHeld)
    }
}

/// A cell read.
pub(crate) fn read(tokens: &Items<Token>, list: &TokList, tok: TokId, cell: u8) -> Next
    ensures { asked tokens.now list.now result ≡ read tokens.now list.now tok cell }
{
    match unless_cell(tokens, tok, cell, unless_held(list, tok)) {
        Some(fault) => refused(fault),
        None => Next::Runs(Answer::Value(value_of(tokens, tok, cell).unwrap_or(0))),
    }
}

fn is_tally(law: Law) -> bool
    ensures { result ≡ is_tally law }
{
    matches!(law, Law::Tally)
}

// Whether a token's law is Tally.
fn has_tally(tokens: &Items<Token>, tok: TokId) -> bool
    ensures { result ≡ has_tally tokens.now tok }
{
    match tokens.as_slice().get(usize::from(tok.0)) {
        Some(token) => is_tally(token.law),
        None => false,
    }
}

// Why a cell isn't written.
fn write_refusal(tokens: &Items<Token>, list: &TokList, tok: TokId, cell: u8) -> Option<Fault>
    ensures { result ≡ unless_cell tokens.now tok cell (unless_exclusive (first_mode list.now tok.0) Fault.SharedWrite (if has_tally tokens.now tok then Some Fault.TallyOnly else None)) }
{
    let tally = if has_tally(tokens, tok) {
        Some(Fault::TallyOnly)
    } else {
        None
    };
    let next = unless_exclusive(list.mode(tok), Fault::SharedWrite, tally);
    unless_cell(tokens, tok, cell, next)
}

/// A cell written.
pub(crate) fn write(
    cpu: CpuId,
    tokens: &mut Items<Token>,
    list: &TokList,
    tok: TokId,
    cell: u8,
    value: u64,
) -> Next
    requires here { cpu.0 < CPU_LIMIT }
    requires sound { AreSoundTokens tokens.old }
    requires held { AreHeld cpu.0 list.now tokens.old }
    ensures { asked tokens.new list.now result ≡ write cpu tokens.old list.now tok cell value }
{
    if let Some(fault) = write_refusal(tokens, list, tok, cell) {
        return refused(fault);
    }
    step(
        tokens,
        &Event::Write {
            cpu,
            tok,
            cell,
            value,
        },
    );
    done()
}

// Why nothing is added, where this is the sum, if it fits.
fn add_refusal(tokens: &Items<Token>, list: &TokList, tok: TokId, sum: Option<u64>) -> Option<Fault>
    ensures { (n : ℕ) → IsSumOf sum n → result ≡ add_refusal tokens.now list.now tok n }
{
    if tokens.len() <= usize::from(tok.0) {
        return Some(Fault::NoToken);
    }
    let next = if !has_tally(tokens, tok) {
        Some(Fault::TallyOnly)
    } else if sum.is_none() {
        Some(Fault::Overflow)
    } else {
        None
    };
    unless_exclusive(list.mode(tok), Fault::SharedWrite, next)
}

// A sum, if it fits.
fn sum_of(value: u64, more: u64) -> Option<u64>
    ensures { IsSumOf result (value + more) }
{
    value.checked_add(more)
}

/// An addition to the cell of a Tally token.
pub(crate) fn add(
    cpu: CpuId,
    tokens: &mut Items<Token>,
    list: &TokList,
    tok: TokId,
    more: u64,
) -> Next
    requires here { cpu.0 < CPU_LIMIT }
    requires sound { AreSoundTokens tokens.old }
    requires held { AreHeld cpu.0 list.now tokens.old }
    ensures { asked tokens.new list.now result ≡ add cpu tokens.old list.now tok more }
{
    let value = value_of(tokens, tok, 0).unwrap_or(0);
    let sum = sum_of(value, more);
    if let Some(fault) = add_refusal(tokens, list, tok, sum) {
        return refused(fault);
    }
    match sum {
        None => refused(Fault::Overflow),
        Some(value) => {
            step(
                tokens,
                &Event::Write {
                    cpu,
                    tok,
                    cell: 0,
                    value,
                },
            );
            done()
        }
    }
}

// The record of a token, if it has one.
fn record_of(tokens: &Items<Token>, tok: TokId) -> Option<Blob>
    ensures { result ≡ record_of tokens.now tok }
{
    tokens.as_slice().get(usize::from(tok.0))?.blob
}

// Why a record isn't used, or what comes next.
fn record_refusal(
    tokens: &Items<Token>,
    list: &TokList,
    tok: TokId,
    next: Option<Fault>,
) -> Option<Fault>
    ensures { result ≡ record_refusal tokens.now list.now tok next }
{
    if tokens.len() <= usize::from(tok.0) {
        return Some(Fault::NoToken);
    }
    if record_of(tokens, tok).is_none() {
        return Some(Fault::NoCell);
    }
    unless_exclusive(list.mode(tok), Fault::SharedRecord, next)
}

/// A record read.
pub(crate) fn read_blob(tokens: &Items<Token>, list: &TokList, tok: TokId) -> Next
    ensures { asked tokens.now list.now result ≡ read_blob tokens.now list.now tok }
{
    if let Some(fault) = record_refusal(tokens, list, tok, None) {
        return refused(fault);
    }
    match record_of(tokens, tok) {
        Some(blob) => Next::Runs(Answer::Bytes(blob)),
        None => refused(Fault::NoCell),
    }
}

// What a record is refused with that is too long.
fn unless_short(blob: &Blob) -> Option<Fault>
    ensures { result ≡ (if nat_lt RECORD_LIMIT (length blob.now) then Some Fault.RecordLong else None) }
{
    if blob.len() > 64 {
        Some(Fault::RecordLong)
    } else {
        None
    }
}

/// A record written.
pub(crate) fn write_blob(
    cpu: CpuId,
    tokens: &mut Items<Token>,
    list: &TokList,
    tok: TokId,
    blob: Blob,
) -> Next
    requires here { cpu.0 < CPU_LIMIT }
    requires sound { AreSoundTokens tokens.old }
    requires held { AreHeld cpu.0 list.now tokens.old }
    ensures { asked tokens.new list.now result ≡ write_blob cpu tokens.old list.now tok blob }
{
    if let Some(fault) = record_refusal(tokens, list, tok, unless_short(&blob)) {
        return refused(fault);
    }
    step(tokens, &Event::WriteBlob { cpu, tok, blob });
    done()
}
