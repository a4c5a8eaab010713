//! Taking tokens.
ghost use Rattle.std.specs.Prelude.{◌≡◌, ℕ, ◌+◌, ◌%◌, ◌^◌, ◌<◌, Bool, true, false, [], ◌∷◌};
ghost use Rattle.lwkt_base.specs.Holding.{is_held};
ghost use Rattle.lwkt_bank.specs.Views.{more};
ghost use Rattle.lwkt_bank.specs.Deeds.{adds_one, marks};
ghost use Rattle.lwkt_bank.specs.Seats.{id_of, bank_of, tokens_of, entry, holding, references, Looked, Tried, Decides, Hit, Miss, Stepped, IsGuarded};

use crate::answers::Try;
use crate::banks::Bank;
use crate::places::{GENERATION, LAST_WORD, generation_in};
use crate::seats::CpuSeat;
use crate::steps;
use lwkt_base::limits::LIST_LIMIT;
use lwkt_base::{CpuId, Decision, Held, Mode, TokId, TokWord};

// Whether a word shows neither holders nor a mark.
#[inline(always)]
fn is_free(word: u64) -> bool
    ensures { result ≡ true → word % GENERATION ≡ 0 }
{
    word % GENERATION == 0
}

// What an exclusive request is answered at a word that nobody holds or marks. Most takes find such a word.
#[inline(always)]
fn decide_free(word: u64) -> Decision
    requires free { word % GENERATION ≡ 0 }
    requires room { word + 4 < 2 ^ 64 }
    ensures { (alone : Bool) → Decides word Mode.Exclusive alone result }
{
    if word < LAST_WORD {
        Decision::Take(word + 1)
    } else {
        Decision::Worn
    }
}

// What a word answers, as `TokWord::decide`.
#[inline(always)]
fn decide(word: u64, mode: Mode, alone: bool) -> Decision
    requires { word + 4 < 2 ^ 64 }
    ensures { Decides word mode alone result }
{
    if matches!(mode, Mode::Exclusive) && is_free(word) {
        return decide_free(word);
    }
    TokWord::decide(word, mode, alone)
}

impl CpuSeat {
    /// The processor whose seat this is. A seat holds no token that its bank doesn't have, and of one that it holds it has record
    /// and first record exactly if a record was declared.
    pub fn cpu(&self) -> CpuId
        ensures is { result ≡ self.now.cpu }
        ensures within { (tok : ℕ) → is_held (holding self.now tok) ≡ true → tok < tokens_of (bank_of self.now) }
        ensures guarded { (tok : ℕ) → is_held (holding self.now tok) ≡ true → IsGuarded self.now tok }
    {
        self.cpu
    }

    /// What the seat holds of a token, without a step.
    #[inline]
    pub fn held(&self, bank: &Bank, tok: TokId) -> Held
        requires of { bank_of self.now ≡ id_of bank.now }
        requires there { tok.0 < tokens_of (bank_of self.now) }
        ensures { result ≡ holding self.now tok.0 }
    {
        self.notes[tok.0 as usize].held()
    }

    /// Loads the word of a token.
    #[inline]
    pub fn word(&mut self, bank: &Bank, tok: TokId) -> u64
        requires of { bank_of self.old ≡ id_of bank.now }
        requires there { tok.0 < tokens_of (bank_of self.old) }
        ensures { Looked self.old self.new tok.0 result }
    {
        steps::look(bank, &mut self.seat, tok)
    }

    #[inline]
    fn take_at(&mut self, bank: &Bank, tok: TokId, mode: Mode, word: u64, next: u64) -> bool
        requires of { bank_of self.old ≡ id_of bank.now }
        requires there { tok.0 < tokens_of (bank_of self.old) }
        requires decided { (alone : Bool) × Decides word mode alone (Decision.Take next) }
        requires free { holding self.old tok.0 ≡ Held.Nothing }
        requires few { references self.old < LIST_LIMIT }
        ensures hit { result ≡ true → Hit self.old self.new tok.0 mode word next }
        ensures miss { result ≡ false → Miss self.old self.new tok.0 word next }
    {
        // Noted before the exchange, where the write overlaps with the load; a write between two atomic steps delays the second.
        let note = &mut self.notes[tok.0 as usize];
        note.take(mode);
        let found = steps::swing(bank, &mut self.seat, tok, mode, word, next);
        if found != word {
            note.end();
            return false;
        }
        true
    }

    /// Tries to take the token in this mode. `alone` says that the asking list has no reference to another token. One load,
    /// and at most one compare-exchange. That the seat doesn't hold the token and has fewer than 32 references is the
    /// caller's condition.
    #[inline(always)]
    pub fn try_take(&mut self, bank: &Bank, tok: TokId, mode: Mode, alone: bool) -> Try
        requires of { bank_of self.old ≡ id_of bank.now }
        requires there { tok.0 < tokens_of (bank_of self.old) }
        requires free { holding self.old tok.0 ≡ Held.Nothing }
        requires few { references self.old < LIST_LIMIT }
        ensures { Tried self.old self.new tok.0 mode alone result }
    {
        let word = self.word(bank, tok);
        match decide(word, mode, alone) {
            Decision::Held | Decision::Marked => Try::Busy { word },
            Decision::Worn => Try::Worn,
            Decision::Take(next) => {
                if self.take_at(bank, tok, mode, word, next) {
                    Try::Got {
                        generation: generation_in(word),
                    }
                } else {
                    Try::Again
                }
            }
        }
    }

    /// One reference more. That the seat holds the token and has fewer than 32 references is the caller's condition.
    pub fn again(&mut self, bank: &Bank, tok: TokId)
        requires of { bank_of self.old ≡ id_of bank.now }
        requires there { tok.0 < tokens_of (bank_of self.old) }
        requires held { is_held (holding self.old tok.0) ≡ true }
        requires few { references self.old < LIST_LIMIT }
        ensures { Stepped self.old self.new tok.0 (more (entry self.old tok.0)) adds_one }
    {
        let note = &mut self.notes[tok.0 as usize];
        steps::add_one(bank, &mut self.seat, tok);
        note.one_more();
    }

    /// Marks the token for an exclusive request.
    pub fn mark(&mut self, bank: &Bank, tok: TokId)
        requires of { bank_of self.old ≡ id_of bank.now }
        requires there { tok.0 < tokens_of (bank_of self.old) }
        ensures { Stepped self.old self.new tok.0 (entry self.old tok.0) marks }
    {
        steps::set_mark(bank, &mut self.seat, tok);
    }
}
