//! One reference of a list: given back.
ghost use Rattle.std.specs.Prelude.{◌≡◌, ◌≢◌, ◌⊎◌, ℕ, ◌+◌, ◌<◌, ◌≤◌, true, false, List, [], ◌∷◌, ◌++◌, length, take, vec_len, vec_capacity};
ghost use Rattle.lwkt_base.specs.Holding.{holding_of, holds_nothing, is_held, removed};
ghost use Rattle.lwkt_base.specs.declared.holdings.Held.TheVariants.{Holds};
ghost use Rattle.lwkt_base.specs.declared.names.Mode.TheVariants.{Exclusive};
ghost use Rattle.lwkt_bank.specs.Seats.{id_of, bank_of, tokens_of, holding};
ghost use Rattle.lwkt_hold.specs.Fronts.{IsFront};
ghost use Rattle.lwkt_hold.specs.Runs.{Ran};
ghost use Rattle.lwkt_hold.specs.Rows.{row, first_row, blob, first_blob, IsUnwritten, MeetsItsLaw, IsBroken, SameSection, Mends, GivesBack, IsAllClean};
ghost use Rattle.lwkt_hold.specs.Givings.{gives_all, GivesBy, RestoresBy, Releases};
ghost use Rattle.lwkt_core.specs.declared.events.Event.{Event};

use crate::traces::{note_cells, note_clean, note_one, note_record, note_written};
use lwkt_bank::{Bank, CpuSeat, Given};
use lwkt_base::{CpuId, Held, Mode, Ref, TokId};
use lwkt_core::Event;

/// Stores the first row and record of a section again, which has broken its law.
#[cold]
#[inline(never)]
fn restore(seat: &mut CpuSeat, bank: &Bank, cpu: CpuId, tok: TokId, trace: &mut Vec<Event>)
    requires of { bank_of seat.old ≡ id_of bank.now }
    requires there { tok.0 < tokens_of (bank_of seat.old) }
    requires mine { cpu ≡ seat.old.cpu }
    requires broken { IsBroken seat.old tok.0 }
    requires room { vec_len trace.old + 5 ≤ vec_capacity trace.old }
    ensures ran { Ran (λ h. h ≡ holding seat.old) 5 seat.old seat.new trace.old trace.new }
    ensures kept { holding seat.new ≡ holding seat.old }
    ensures restored { row seat.new tok.0 ≡ first_row seat.old tok.0 }
    ensures first { first_row seat.new tok.0 ≡ first_row seat.old tok.0 }
    ensures blob { blob seat.new tok.0 ≡ first_blob seat.old tok.0 }
    ensures first_blob { first_blob seat.new tok.0 ≡ first_blob seat.old tok.0 }
    ensures others { (other : ℕ) → other ≢ tok.0 → SameSection seat.old seat.new other }
    ensures stored { (done : List Event) × ((trace.new.items ≡ trace.old.items ++ done) × RestoresBy seat.old tok [] done) }
{
    let stored = seat.restore(bank, tok);
    note_cells(trace, cpu, tok, &stored.cells);
    note_record(trace, cpu, tok, stored.blob);
}

/// Whether this is one exclusive reference, which ends its section when it is given back.
#[inline]
fn ends_section(held: Held) -> bool
    ensures yes { result ≡ true → held ≡ Holds Exclusive 0 }
    ensures no { result ≡ false → held ≢ Holds Exclusive 0 }
{
    matches!(held, Held::Holds(Mode::Exclusive, 0))
}

/// Before a reference is given back: a section that it ends, and that has broken its law, gets its first row and record again.
#[inline(always)]
fn mend(seat: &mut CpuSeat, bank: &Bank, tok: TokId, trace: &mut Vec<Event>) -> bool
    requires of { bank_of seat.old ≡ id_of bank.now }
    requires held { is_held (holding seat.old tok.0) ≡ true }
    requires room { vec_len trace.old + 5 ≤ vec_capacity trace.old }
    ensures ran { Ran (λ h. h ≡ holding seat.old) 5 seat.old seat.new trace.old trace.new }
    ensures kept { holding seat.new ≡ holding seat.old }
    ensures mends { Mends seat.old seat.new tok.0 result }
    ensures silent { result ≡ false → trace.new ≡ trace.old }
    ensures stored { result ≡ true → (done : List Event) × ((trace.new.items ≡ trace.old.items ++ done) × RestoresBy seat.old tok [] done) }
{
    let cpu = seat.cpu();
    if !ends_section(seat.held(bank, tok)) {
        return false;
    }
    if seat.lawful(bank, tok) {
        return false;
    }
    restore(seat, bank, cpu, tok, trace);
    true
}

/// Gives a reference to a token back, and says so in the trace.
#[inline(always)]
fn give_traced(seat: &mut CpuSeat, bank: &Bank, cpu: CpuId, tok: TokId, trace: &mut Vec<Event>)
    requires of { bank_of seat.old ≡ id_of bank.now }
    requires mine { cpu ≡ seat.old.cpu }
    requires there { tok.0 < tokens_of (bank_of seat.old) }
    requires held { is_held (holding seat.old tok.0) ≡ true }
    requires ready { holding seat.old tok.0 ≡ Holds Exclusive 0 → IsUnwritten seat.old tok.0 ⊎ MeetsItsLaw seat.old tok.0 }
    requires room { vec_len trace.old < vec_capacity trace.old }
    ensures ran { Ran (λ h. h ≡ removed (holding seat.old) tok.0) 1 seat.old seat.new trace.old trace.new }
    ensures given { holding seat.new ≡ removed (holding seat.old) tok.0 }
    ensures others { (other : ℕ) → other ≢ tok.0 → SameSection seat.old seat.new other }
    ensures row { row seat.new tok.0 ≡ row seat.old tok.0 }
    ensures blob { blob seat.new tok.0 ≡ blob seat.old tok.0 }
    ensures still { is_held (holding seat.new tok.0) ≡ true → SameSection seat.old seat.new tok.0 }
    ensures traced { (event : Event) × ((trace.new.items ≡ trace.old.items ++ event ∷ []) × GivesBy seat.old tok event) }
{
    match seat.give(bank, tok) {
        Given::One => note_one(trace, cpu, tok),
        Given::Clean => note_clean(trace, cpu, tok),
        Given::Written(section) => note_written(trace, cpu, tok, section),
    }
}

/// The same for a token with any number of cells, whose section is traced by a loop.
#[inline(never)]
fn give_whole(seat: &mut CpuSeat, bank: &Bank, cpu: CpuId, tok: TokId, trace: &mut Vec<Event>)
    requires of { bank_of seat.old ≡ id_of bank.now }
    requires mine { cpu ≡ seat.old.cpu }
    requires there { tok.0 < tokens_of (bank_of seat.old) }
    requires held { is_held (holding seat.old tok.0) ≡ true }
    requires ready { holding seat.old tok.0 ≡ Holds Exclusive 0 → IsUnwritten seat.old tok.0 ⊎ MeetsItsLaw seat.old tok.0 }
    requires room { vec_len trace.old < vec_capacity trace.old }
    ensures ran { Ran (λ h. h ≡ removed (holding seat.old) tok.0) 1 seat.old seat.new trace.old trace.new }
    ensures given { holding seat.new ≡ removed (holding seat.old) tok.0 }
    ensures others { (other : ℕ) → other ≢ tok.0 → SameSection seat.old seat.new other }
    ensures row { row seat.new tok.0 ≡ row seat.old tok.0 }
    ensures blob { blob seat.new tok.0 ≡ blob seat.old tok.0 }
    ensures still { is_held (holding seat.new tok.0) ≡ true → SameSection seat.old seat.new tok.0 }
    ensures traced { (event : Event) × ((trace.new.items ≡ trace.old.items ++ event ∷ []) × GivesBy seat.old tok event) }
{
    give_traced(seat, bank, cpu, tok, trace);
}

/// The same for any token. One with one cell has its section traced without a loop, straight into the trace.
#[inline]
fn give(seat: &mut CpuSeat, bank: &Bank, tok: TokId, trace: &mut Vec<Event>)
    requires of { bank_of seat.old ≡ id_of bank.now }
    requires held { is_held (holding seat.old tok.0) ≡ true }
    requires ready { holding seat.old tok.0 ≡ Holds Exclusive 0 → IsUnwritten seat.old tok.0 ⊎ MeetsItsLaw seat.old tok.0 }
    requires room { vec_len trace.old < vec_capacity trace.old }
    ensures ran { Ran (λ h. h ≡ removed (holding seat.old) tok.0) 1 seat.old seat.new trace.old trace.new }
    ensures given { holding seat.new ≡ removed (holding seat.old) tok.0 }
    ensures others { (other : ℕ) → other ≢ tok.0 → SameSection seat.old seat.new other }
    ensures row { row seat.new tok.0 ≡ row seat.old tok.0 }
    ensures blob { blob seat.new tok.0 ≡ blob seat.old tok.0 }
    ensures still { is_held (holding seat.new tok.0) ≡ true → SameSection seat.old seat.new tok.0 }
    ensures traced { (event : Event) × ((trace.new.items ≡ trace.old.items ++ event ∷ []) × GivesBy seat.old tok event) }
{
    let cpu = seat.cpu();
    if bank.cells(tok) == 1 {
        give_traced(seat, bank, cpu, tok, trace);
    } else {
        give_whole(seat, bank, cpu, tok, trace);
    }
}

/// Gives a reference back, a section that it ends being mended before; says whether the section's row and record were restored.
#[inline(always)]
pub(crate) fn give_last(seat: &mut CpuSeat, bank: &Bank, tok: TokId, trace: &mut Vec<Event>) -> bool
    requires of { bank_of seat.old ≡ id_of bank.now }
    requires held { is_held (holding seat.old tok.0) ≡ true }
    requires room { vec_len trace.old + 6 ≤ vec_capacity trace.old }
    ensures ran { Ran (λ h. (h ≡ holding seat.old) ⊎ (h ≡ removed (holding seat.old) tok.0)) 6 seat.old seat.new trace.old trace.new }
    ensures given { holding seat.new ≡ removed (holding seat.old) tok.0 }
    ensures rows { GivesBack seat.old seat.new tok.0 result }
    ensures events { (done : List Event) × ((trace.new.items ≡ trace.old.items ++ done) × Releases seat.old (holding seat.old tok.0) tok done) }
{
    let restored = mend(seat, bank, tok, trace);
    give(seat, bank, tok, trace);
    restored
}

/// Gives so many first references of a list back, in reverse order, where no held token was written.
pub(crate) fn give_clean(
    seat: &mut CpuSeat,
    bank: &Bank,
    refs: &[Ref],
    count: usize,
    trace: &mut Vec<Event>,
)
    requires of { bank_of seat.old ≡ id_of bank.now }
    requires within { count ≤ length refs.now }
    requires front { holding seat.old ≡ holding_of (take count refs.now) }
    requires clean { IsAllClean seat.old }
    requires room { vec_len trace.old + count ≤ vec_capacity trace.old }
    ensures ran { Ran (IsFront refs.now) count seat.old seat.new trace.old trace.new }
    ensures empty { holding seat.new ≡ holds_nothing }
    ensures traced { trace.new.items ≡ trace.old.items ++ gives_all seat.old.cpu [] (take count refs.now) }
{
    for given in 0..count {
        let tok = refs[count - 1 - given].tok;
        give(seat, bank, tok, trace);
    }
}
