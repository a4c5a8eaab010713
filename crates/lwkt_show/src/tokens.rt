use crate::words::{fill, mode_word, show_thread};
use lwkt_base::limits::LAST_GENERATION;
use lwkt_base::{CpuId, Held, Mode, Ref, ThreadId};
use lwkt_core::Token;
use lwkt_refusals::Page;
use lwkt_text::Names;

/// Of each processor the thread that it runs between two turns, which holds what the processor holds.
pub(crate) type Runners = [Option<ThreadId>; 8];

// What a holding adds to the count of a token's word: a shared one all its references, an exclusive one its further ones.
fn counted(held: Held) -> u64 {
    match held {
        Held::Nothing => 0,
        Held::Holds(Mode::Exclusive, further) => u64::from(further),
        Held::Holds(Mode::Shared, further) => u64::from(further) + 1,
    }
}

// The count of a token's word.
fn count_of(token: &Token) -> u64 {
    let mut count = 0u64;
    for held in &token.holders {
        count = count.saturating_add(counted(*held));
    }
    count
}

/// The word that shows a token: the exclusive bit, the mark, the count and the generation.
pub(crate) fn word_of(token: &Token) -> u64 {
    let low = u64::from(!token.is_open()) + 2 * u64::from(token.mark);
    let high = token.generation.saturating_mul(262_144);
    high.saturating_add(count_of(token).saturating_mul(4))
        .saturating_add(low)
}

/// Appends the parts of a token's word: `word 1 (exclusive bit 1, mark 0, count 0, generation 0)`.
pub(crate) fn show_word(out: &mut Page, token: &Token) {
    let bits = [u64::from(!token.is_open()), u64::from(token.mark)];
    fill(out, "word @ (exclusive bit ", &[word_of(token)]);
    fill(out, "@, mark @", &bits);
    fill(
        out,
        ", count @, generation @)",
        &[count_of(token), token.generation],
    );
}

// Appends who holds for a processor: the thread that it runs, if that is known.
fn show_runner(out: &mut Page, names: Option<&Names>, cpu: u8, runners: &Runners) {
    match runners.get(usize::from(cpu)) {
        Some(Some(id)) => show_thread(out, names, *id),
        _ => out.number("processor ", u64::from(cpu)),
    }
}

/// Appends who holds a token: `held shared by 0.0, 1.2`, or `free`.
pub(crate) fn show_holders(
    out: &mut Page,
    names: Option<&Names>,
    token: &Token,
    runners: &Runners,
) {
    let mut some = false;
    for cpu in 0..8u8 {
        if let Held::Holds(mode, _) = token.held_by(CpuId(cpu)) {
            if some {
                out.add(", ");
            } else {
                out.add("held ");
                out.add(mode_word(mode));
                out.add(" by ");
            }
            show_runner(out, names, cpu, runners);
            some = true;
        }
    }
    if !some {
        out.add("free");
    }
}

/// Whether a processor that holds nothing of a token can't have a reference to it now; `alone` says that its thread's list
/// has none to another token.
pub(crate) fn excludes(token: &Token, wanted: Ref, alone: bool) -> bool {
    match wanted.mode {
        Mode::Exclusive => !token.is_free() || token.generation >= LAST_GENERATION,
        Mode::Shared => !token.is_open() || (token.mark && alone),
    }
}
