//! The opening of a bank for C.
ghost use Rattle.std.specs.Prelude.{◌≡◌, ◌≢◌, ◌⊎◌, ◌↔◌, ℕ, ◌<◌, ◌≤◌, [], length, option_map, All, IsTrue, IfOk, IfErr, IfSome, Err};
ghost use Rattle.std.specs.Arc.{arc_value};
ghost use Rattle.lwkt_base.specs.Law.{OpensLawfully};
ghost use Rattle.lwkt_core.specs.Opening.{AreWithin, AllOpenLawfully, IsTokenWithin};
ghost use Rattle.lwkt_bank.specs.Seats.{id_of, bank_of, cpus_of};
ghost use Rattle.lwkt_bank.specs.Gathered.{IsNew, AreHandedOut};
ghost use Rattle.lwkt_seats.specs.Seated.{IsSeated};
ghost use Rattle.lwkt_seats.specs.Desks.{seats_of};
ghost use Rattle.lwkt_seats.specs.Endings.{IsEndingOf};
ghost use Rattle.lwkt_seats.specs.FirstPlaces.{AreSlotsOf, words_of_place, words_of_places};
ghost use Rattle.lwkt_seats.specs.BankOpens.{AreTokens, spec_of, specs_of};
ghost use Rattle.lwkt_base.specs.Fault.{no_memory};

use crate::asks::count;
use crate::desks::{AT_REST, AWAY, Desk};
use crate::endings::{Chest, Ending};
use crate::handles::hand_out;
use crate::raw_boxes::RawBox;
use crate::sitters::Sitter;
use crate::tokens::LwktToken;
use counted_slot::Counted;
use lwkt_bank::{Bank, CpuSeat};
use lwkt_base::limits::{CPU_LIMIT, TOKEN_LIMIT};
use lwkt_base::memory::{
    boxed, extend_from_slice, push, shared, table, with_capacity, with_capacity_for,
};
use lwkt_base::{Fault, OutOfMemory, TokSpec};
use std::alloc::Global;
use std::sync::Arc;
use std::sync::atomic::AtomicU64;

fn are_tokens(tokens: &[LwktToken]) -> bool
    ensures { IsTrue result ↔ AreTokens tokens.now }
{
    tokens.iter().all(|token| token.is_token())
}

fn each_is_within(tokens: &[LwktToken]) -> bool
    requires { AreTokens tokens.now }
    ensures { IsTrue result ↔ All (λ token. IsTokenWithin (spec_of token)) tokens.now }
{
    tokens.iter().all(|token| token.is_within())
}

// Whether neither the seats nor the tokens are too many, and there is a seat.
fn are_few(tokens: &[LwktToken], seats: usize) -> bool
    ensures { IsTrue result ↔ ((0 < seats) × (seats ≤ CPU_LIMIT) × (length tokens.now ≤ TOKEN_LIMIT)) }
{
    0 < seats && seats <= 8 && tokens.len() <= 64
}

// Whether so many seats of these tokens keep the limits of an opening.
#[tactic(auto, using(crate::proofs::OpeningMoves::within_of_each, crate::proofs::OpeningMoves::few_of_within, crate::proofs::OpeningMoves::each_of_within))]
fn are_within(tokens: &[LwktToken], seats: usize) -> bool
    requires { AreTokens tokens.now }
    ensures { IsTrue result ↔ AreWithin seats (specs_of tokens.now) [] }
{
    are_few(tokens, seats) && each_is_within(tokens)
}

fn each_opens_lawfully(tokens: &[LwktToken]) -> bool
    requires { AreTokens tokens.now }
    ensures { IsTrue result ↔ All (λ token. OpensLawfully (spec_of token).law (spec_of token).param (spec_of token).cells (option_map length (spec_of token).blob)) tokens.now }
{
    tokens.iter().all(|token| token.opens_lawfully())
}

// Whether each row, with the length of its record, obeys its law.
#[tactic(auto, using(crate::proofs::OpeningMoves::lawful_of_each, crate::proofs::OpeningMoves::each_of_lawful))]
fn all_open_lawfully(tokens: &[LwktToken]) -> bool
    requires { AreTokens tokens.now }
    ensures { IsTrue result ↔ AllOpenLawfully (specs_of tokens.now) }
{
    each_opens_lawfully(tokens)
}

// What is declared of all tokens.
fn specs_of(alloc: Global, tokens: &[LwktToken]) -> Result<Vec<TokSpec>, OutOfMemory>
    requires { AreTokens tokens.now }
    ensures { IfOk result (λ specs. specs.items ≡ specs_of tokens.now) }
{
    let mut specs = with_capacity_for(alloc, tokens)?;
    for token in tokens {
        push(&mut specs, token.spec(alloc)?)?;
    }
    Ok(specs)
}

// A seat with its bank, as it rests in its place. Where no further share of the bank is to be had, which has as many as can be counted,
// there is none: the seat is away, as if a call had it that never came back.
fn slot_for(
    alloc: Global,
    bank: &Arc<Bank>,
    seat: CpuSeat,
) -> Result<Option<Box<Sitter>>, OutOfMemory>
    requires of { bank_of seat ≡ id_of (arc_value bank.now) }
    requires new { IsNew seat }
    ensures { IfOk result (λ slot. IfSome slot (λ x. IsSeated (arc_value bank.now) seat.cpu.0 x.value)) }
{
    let Ok(bank) = Arc::try_clone(bank) else {
        return Ok(None);
    };
    let count = count(&seat, &bank);
    let sitter = Sitter { seat, bank, count };
    Ok(Some(boxed(alloc, sitter)?))
}

// The slots of all seats.
fn slots_for(
    alloc: Global,
    bank: &Arc<Bank>,
    seats: Vec<CpuSeat>,
) -> Result<Vec<Option<Box<Sitter>>>, OutOfMemory>
    requires { AreHandedOut (id_of (arc_value bank.now)) seats.items }
    ensures seated { IfOk result (λ slots. AreSlotsOf (arc_value bank.now) slots.items) }
    ensures many { IfOk result (λ slots. length slots.items ≡ length seats.items) }
{
    let mut slots = with_capacity_for(alloc, &seats)?;
    for seat in seats {
        push(&mut slots, slot_for(alloc, bank, seat)?)?;
    }
    Ok(slots)
}

// The words of a place, so many that no other place's are near it: the one in the middle says where the seat is.
fn words_of(slot: &Option<Box<Sitter>>) -> [u64; 16]
    ensures { result ≡ words_of_place slot.now }
{
    let mut words = [0; 16];
    words[8] = if slot.is_some() { AT_REST } else { AWAY };
    words
}

// The words of all places.
fn all_words(alloc: Global, slots: &[Option<Box<Sitter>>]) -> Result<Vec<u64>, OutOfMemory>
    ensures { IfOk result (λ words. words.items ≡ words_of_places slots.now) }
{
    let mut words = Vec::new(alloc);
    for slot in slots {
        extend_from_slice(&mut words, &words_of(slot))?;
    }
    Ok(words)
}

// What the close of a bank of so many processors needs. Where no further share of the bank is to be had there is none, as if a close
// were at work.
fn chest_for(alloc: Global, bank: &Arc<Bank>, cpus: usize) -> Result<Option<Chest>, OutOfMemory>
    requires all { cpus ≡ cpus_of (arc_value bank.now) }
    requires few { cpus ≤ CPU_LIMIT }
    ensures { IfOk result (λ chest. IfSome chest (λ x. IsEndingOf (arc_value bank.now) x.parts.value)) }
{
    let Ok(share) = Arc::try_clone(bank) else {
        return Ok(None);
    };
    let ending = Ending {
        bank: share,
        sitters: with_capacity(alloc, cpus)?,
        seats: with_capacity(alloc, cpus)?,
        room: bank.room(alloc)?,
    };
    Ok(Some(Chest::of(boxed(alloc, ending)?)))
}

// The desk of a bank with its seats.
fn desk_of(alloc: Global, bank: Bank, seats: Vec<CpuSeat>) -> Result<Box<Desk>, OutOfMemory>
    requires out { AreHandedOut (id_of bank) seats.items }
    requires all { length seats.items ≡ cpus_of bank }
    requires few { length seats.items ≤ CPU_LIMIT }
    ensures { IfOk result (λ desk. seats_of desk.value ≡ length seats.items) }
{
    let bank = shared(alloc, bank)?;
    let chest = chest_for(alloc, &bank, seats.len())?;
    let drawer = Counted::new(chest, &bank);
    let slots = slots_for(alloc, &bank, seats)?;
    let words = all_words(alloc, &slots)?;
    let (places, _) = table(alloc, &words, slots, &bank)?;
    let desk = Desk {
        places,
        drawer,
        lost: AtomicU64::new(0),
    };
    boxed(alloc, desk)
}

// Opens a bank with its desk.
fn open(alloc: Global, tokens: &[LwktToken], seats: usize) -> Result<Box<Desk>, Fault>
    ensures opened { IfOk result (λ desk. AreTokens tokens.now × AreWithin seats (specs_of tokens.now) [] × AllOpenLawfully (specs_of tokens.now) × (seats_of desk.value ≡ seats)) }
    ensures limits { result ≡ Err Fault.Limits → ¬ (AreTokens tokens.now × AreWithin seats (specs_of tokens.now) []) }
    ensures each_limit { (¬ (AreTokens tokens.now × AreWithin seats (specs_of tokens.now) [])) → result ≡ Err Fault.Limits }
    ensures broken { result ≡ Err Fault.LawBroken → AreTokens tokens.now × AreWithin seats (specs_of tokens.now) [] × ¬ AllOpenLawfully (specs_of tokens.now) }
    ensures each_law { AreTokens tokens.now → AreWithin seats (specs_of tokens.now) [] → (¬ AllOpenLawfully (specs_of tokens.now)) → result ≡ Err Fault.LawBroken }
    ensures only { IfErr result (λ fault. (fault ≡ no_memory) ⊎ (fault ≡ Fault.Limits) ⊎ (fault ≡ Fault.LawBroken)) }
{
    if !are_tokens(tokens) || !are_within(tokens, seats) {
        return Err(Fault::Limits);
    }
    if !all_open_lawfully(tokens) {
        return Err(Fault::LawBroken);
    }
    let specs = specs_of(alloc, tokens)?;
    let (bank, seats) = Bank::open(alloc, &specs, seats)?;
    Ok(desk_of(alloc, bank, seats)?)
}

/// Opens a bank of these tokens with so many seats, which are numbered from 0. `out` gets where it is; it stays as it was but
/// with 0.
///
/// 0; or 39 exactly if a limit is passed: 1 to 8 seats, at most 64 tokens, at most 4 cells and exactly 1 under tally, a law above 5,
/// a generation past the last, a record of more than 64 bytes, more than one record, one under tally, none or no cell under len;
/// else 40 exactly if an opening row, with its record's length, breaks its law; else 32 for want of memory.
#[unsafe(no_mangle)]
pub extern "C" fn lwkt_bank_open(
    alloc: Global,
    tokens: &[LwktToken],
    seats: u32,
    out: &mut *mut u8,
) -> u32
    ensures opened { result ≡ 0 → AreTokens tokens.now × AreWithin seats (specs_of tokens.now) [] × AllOpenLawfully (specs_of tokens.now) }
    ensures limits { result ≡ 39 → ¬ (AreTokens tokens.now × AreWithin seats (specs_of tokens.now) []) }
    ensures each_limit { (¬ (AreTokens tokens.now × AreWithin seats (specs_of tokens.now) [])) → result ≡ 39 }
    ensures broken { result ≡ 40 → AreTokens tokens.now × AreWithin seats (specs_of tokens.now) [] × ¬ AllOpenLawfully (specs_of tokens.now) }
    ensures each_law { AreTokens tokens.now → AreWithin seats (specs_of tokens.now) [] → (¬ AllOpenLawfully (specs_of tokens.now)) → result ≡ 40 }
    ensures only { (result ≡ 0) ⊎ (result ≡ 32) ⊎ (result ≡ 39) ⊎ (result ≡ 40) }
    ensures kept { result ≢ 0 → out.new ≡ out.old }
{
    match open(alloc, tokens, seats as usize) {
        Ok(desk) => {
            *out = hand_out(RawBox::of(desk));
            0
        }
        Err(Fault::Memory(_)) => 32,
        Err(Fault::LawBroken) => 40,
        Err(_) => 39,
    }
}
