//! The calls of a seat, over the bare seat of a processor and a message that exists.
ghost use Rattle.std.specs.Prelude.{◌≡◌, ◌⊎◌, ◌↔◌, ℕ, ◌<◌, length, IsTrue, MatchResult};
ghost use Rattle.lwkt_base.specs.declared.message_words.MsgState.TheVariants as state;
ghost use Rattle.lwkt_base.specs.MessageWord.{message_word};
ghost use Rattle.lwkt_base.specs.declared.names.CpuId.{CpuId};
ghost use Rattle.lwkt_msg.specs.Steps.{sent_word, rest_word};
ghost use Rattle.lwkt_msg.specs.Calls.{IsForTaking, IsForReaping, IsForDropping, ForbidsDrop, IsForAborting, ForbidsAbort, sent_rec, HasSent, IsUnsent, TakeMeans, HasReplied, IsUnreplied, ReapMeans, HasDropped, IsUndropped, HasLostDrop, HasRequested, IsUnrequested, ReadsRequest};
ghost use Rattle.lwkt_msg.specs.Plays.{IsLooked, IsSat, IsSameSeat};

use crate::answers::{Reaped, Taken};
use crate::rules::{Place, Top};
use crate::steps::{answer, fetch, look, put, recall, request, win};
use lwkt_base::limits::LAST_ROUND;
use lwkt_base::{Call, CpuId, Fault, Flags, MsgState, MsgWord, Rec};

/// What a sender asks for.
#[derive(Clone, Copy)]
pub(crate) struct Sending {
    /// The processor that the message is for.
    pub target: CpuId,
    /// What the message asks for.
    pub call: Call,
    /// What the sender may still do with it.
    pub flags: Flags,
    /// Whether the sender waits for the reply.
    pub sync: bool,
}

// Whether a word shows a message at rest with this processor.
fn is_home(word: &MsgWord, cpu: CpuId) -> bool
    ensures { IsTrue result ↔ ((word.now.state ≡ state.Rest) × (word.now.origin ≡ cpu)) }
{
    word.state == MsgState::Rest && word.origin == cpu
}

// Whether a word shows a message of this round on its way to this processor.
fn is_for_taking(word: &MsgWord, cpu: CpuId, round: u64) -> bool
    ensures { IsTrue result ↔ IsForTaking cpu round word.now }
{
    word.state == MsgState::Out && word.target == cpu && word.round == round
}

// Whether a word shows a message that this processor has taken.
fn is_taken(word: &MsgWord, cpu: CpuId) -> bool
    ensures { IsTrue result ↔ ((word.now.state ≡ state.With) × (word.now.target ≡ cpu)) }
{
    word.state == MsgState::With && word.target == cpu
}

// Whether a word shows a message of this round that came back to this processor.
fn is_for_reaping(word: &MsgWord, cpu: CpuId, round: u64) -> bool
    ensures { IsTrue result ↔ IsForReaping cpu round word.now }
{
    word.state == MsgState::Back && word.origin == cpu && word.round == round
}

// Whether a word shows a message that this processor may drop, or what forbids it.
fn may_drop(word: &MsgWord, cpu: CpuId) -> Result<(), Fault>
    ensures { MatchResult result (λ _. IsForDropping cpu word.now) (λ fault. ForbidsDrop cpu word.now fault) }
{
    if word.origin != cpu {
        return Err(Fault::NotOwner);
    }
    if word.state != MsgState::Out {
        return Err(Fault::NotOut);
    }
    if !word.dropable {
        return Err(Fault::NotDropable);
    }
    Ok(())
}

// Whether a word shows a message that this processor may ask to be aborted, or what forbids it.
fn may_abort(word: &MsgWord, cpu: CpuId) -> Result<(), Fault>
    ensures { MatchResult result (λ _. IsForAborting cpu word.now) (λ fault. ForbidsAbort cpu word.now fault) }
{
    if word.origin != cpu {
        return Err(Fault::NotOwner);
    }
    match word.state {
        MsgState::Out | MsgState::With => {}
        MsgState::Rest | MsgState::Back => return Err(Fault::NotOut),
    }
    if !word.abortable {
        return Err(Fault::NotAbortable);
    }
    Ok(())
}

// The word of a message at rest.
pub(crate) fn rest(cpu: CpuId, round: u64) -> MsgWord
    ensures { result ≡ rest_word cpu round }
{
    MsgWord {
        round,
        state: MsgState::Rest,
        origin: cpu,
        target: CpuId(0),
        aborted: false,
        sync: false,
        dropable: false,
        abortable: false,
        priority: false,
    }
}

// The word of a message that is sent.
fn outgoing(cpu: CpuId, round: u64, sending: &Sending) -> MsgWord
    ensures { result ≡ sent_word cpu sending.now.target round sending.now.sync sending.now.flags }
{
    MsgWord {
        round,
        state: MsgState::Out,
        origin: cpu,
        target: sending.target,
        aborted: false,
        sync: sending.sync,
        dropable: sending.flags.dropable,
        abortable: sending.flags.abortable,
        priority: sending.flags.priority,
    }
}

// The record of a message that is sent.
fn written(call: Call) -> Rec
    ensures clean { (result.error ≡ 0) × (result.result ≡ 0) }
    ensures is { result ≡ sent_rec call }
{
    Rec {
        arg: call.arg,
        result: 0,
        op: call.op,
        error: 0,
    }
}

// Loads a message's word, and gives its parts.
fn parts(top: &Top, place: &mut Place, m: usize) -> (u64, MsgWord)
    requires table { place.old.table_id ≡ top.now.table_id }
    requires sat { (cpu : CpuId) × IsSat cpu place.old }
    requires exists { m < length place.old.me.0.specs }
    ensures seat { IsSameSeat place.old place.new }
    ensures sat { (cpu : CpuId) → IsSat cpu place.old → IsSat cpu place.new }
    ensures word { result.0 ≡ message_word result.1 }
    ensures looked { IsLooked m place.old.me result.1 place.new.me }
{
    let word = look(top, place, m);
    (word, MsgWord::parts(word))
}

// Sends a message.
pub(crate) fn send(
    top: &Top,
    place: &mut Place,
    cpu: CpuId,
    m: usize,
    sending: &Sending,
) -> Result<u64, Fault>
    requires table { place.old.table_id ≡ top.now.table_id }
    requires sat { IsSat cpu place.old }
    requires exists { m < length place.old.me.0.specs }
    requires target { sending.now.target.0 < place.old.me.0.cpus }
    ensures seat { IsSameSeat place.old place.new }
    ensures sat { IsSat cpu place.new }
    ensures answer { MatchResult result (λ round. HasSent cpu place.old.me.0 place.new.me.0 m sending.now.target sending.now.call sending.now.flags sending.now.sync round) (λ fault. IsUnsent cpu place.old.me.0 place.new.me.0 m fault) }
{
    let (_, word) = parts(top, place, m);
    if !is_home(&word, cpu) {
        return Err(Fault::NotOwner);
    }
    if word.round == LAST_ROUND {
        return Err(Fault::RoundsOut);
    }
    let round = word.round + 1;
    put(
        top,
        place,
        m,
        written(sending.call),
        outgoing(cpu, round, sending),
    );
    Ok(round)
}

// Takes a message of a round.
pub(crate) fn take(top: &Top, place: &mut Place, cpu: CpuId, m: usize, round: u64) -> Taken
    requires table { place.old.table_id ≡ top.now.table_id }
    requires sat { IsSat cpu place.old }
    requires exists { m < length place.old.me.0.specs }
    ensures seat { IsSameSeat place.old place.new }
    ensures sat { IsSat cpu place.new }
    ensures answer { TakeMeans cpu place.old.me.0 place.new.me.0 m round result }
{
    let (found, word) = parts(top, place, m);
    if !is_for_taking(&word, cpu, round) {
        return Taken::Stale;
    }
    match win(top, place, m, found, word) {
        Some(rec) => Taken::Took {
            rec,
            aborted: word.aborted,
            priority: word.priority,
        },
        None => Taken::Again,
    }
}

// Replies to a message.
pub(crate) fn reply(
    top: &Top,
    place: &mut Place,
    cpu: CpuId,
    m: usize,
    error: u32,
    outcome: u64,
) -> Result<(), Fault>
    requires table { place.old.table_id ≡ top.now.table_id }
    requires sat { IsSat cpu place.old }
    requires exists { m < length place.old.me.0.specs }
    ensures seat { IsSameSeat place.old place.new }
    ensures sat { IsSat cpu place.new }
    ensures answer { MatchResult result (λ _. HasReplied place.old.me.0 place.new.me.0 m error outcome) (λ fault. IsUnreplied place.old.me.0 place.new.me.0 m fault) }
{
    let (_, word) = parts(top, place, m);
    if !is_taken(&word, cpu) {
        return Err(Fault::NotTaken);
    }
    answer(top, place, m, cpu, error, outcome);
    Ok(())
}

// Takes the reply to a message of a round back.
pub(crate) fn reap(top: &Top, place: &mut Place, cpu: CpuId, m: usize, round: u64) -> Reaped
    requires table { place.old.table_id ≡ top.now.table_id }
    requires sat { IsSat cpu place.old }
    requires exists { m < length place.old.me.0.specs }
    ensures seat { IsSameSeat place.old place.new }
    ensures sat { IsSat cpu place.new }
    ensures answer { ReapMeans cpu place.old.me.0 place.new.me.0 m round result }
{
    let (_, word) = parts(top, place, m);
    if !is_for_reaping(&word, cpu, round) {
        return Reaped::Stale;
    }
    Reaped::Done {
        rec: fetch(top, place, m, rest(cpu, round)),
    }
}

// Takes an own message back that its target hasn't taken.
pub(crate) fn drop_msg(top: &Top, place: &mut Place, cpu: CpuId, m: usize) -> Result<Rec, Fault>
    requires table { place.old.table_id ≡ top.now.table_id }
    requires sat { IsSat cpu place.old }
    requires exists { m < length place.old.me.0.specs }
    ensures seat { IsSameSeat place.old place.new }
    ensures sat { IsSat cpu place.new }
    ensures answer { MatchResult result (λ rec. HasDropped cpu place.old.me.0 place.new.me.0 m rec) (λ fault. IsUndropped cpu place.old.me.0 place.new.me.0 m fault ⊎ HasLostDrop cpu place.old.me.0 place.new.me.0 m fault) }
{
    let (found, word) = parts(top, place, m);
    may_drop(&word, cpu)?;
    match recall(top, place, m, found, word, rest(cpu, word.round)) {
        Some(rec) => Ok(rec),
        // Only the target takes a message that is on its way.
        None => Err(Fault::NotOut),
    }
}

// Asks for an own message to be aborted.
pub(crate) fn abort(top: &Top, place: &mut Place, cpu: CpuId, m: usize) -> Result<(), Fault>
    requires table { place.old.table_id ≡ top.now.table_id }
    requires sat { IsSat cpu place.old }
    requires exists { m < length place.old.me.0.specs }
    ensures seat { IsSameSeat place.old place.new }
    ensures sat { IsSat cpu place.new }
    ensures answer { MatchResult result (λ _. HasRequested cpu place.old.me.0 place.new.me.0 m) (λ fault. IsUnrequested cpu place.old.me.0 place.new.me.0 m fault) }
{
    let (_, word) = parts(top, place, m);
    may_abort(&word, cpu)?;
    request(top, place, m, cpu);
    Ok(())
}

// Whether the origin of a message has asked for it to be aborted, which this processor has taken.
pub(crate) fn is_aborted(top: &Top, place: &mut Place, cpu: CpuId, m: usize) -> Result<bool, Fault>
    requires table { place.old.table_id ≡ top.now.table_id }
    requires sat { IsSat cpu place.old }
    requires exists { m < length place.old.me.0.specs }
    ensures seat { IsSameSeat place.old place.new }
    ensures sat { IsSat cpu place.new }
    ensures answer { MatchResult result (λ aborted. ReadsRequest place.old.me.0 place.new.me.0 m aborted) (λ fault. IsUnreplied place.old.me.0 place.new.me.0 m fault) }
{
    let (_, word) = parts(top, place, m);
    if !is_taken(&word, cpu) {
        return Err(Fault::NotTaken);
    }
    Ok(word.aborted)
}
