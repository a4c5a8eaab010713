ghost use Rattle.std.specs.Prelude.{◌≡◌, ℕ, ◌+◌, ◌<◌, ◌^◌, false};

use crate::limits::LAST_GENERATION;
use crate::names::Mode;

/// The parts of a token's count word (lwkt_token.c; the generation is own). From the lowest bit: the exclusive bit, the
/// mark, 16 bits of count, 46 bits of generation.
#[derive(Clone, Copy, PartialEq, Eq)]
pub struct TokWord {
    /// The written sections, from the opening generation on: 0 to `LAST_GENERATION`.
    pub generation: u64,
    /// Held shared, the number of all references; held exclusively, the references beyond the first.
    pub count: u16,
    /// Whether somebody holds the token exclusively.
    pub exclusive: bool,
    /// The exclusive-request bit.
    pub mark: bool,
}

/// What a token word answers a processor that doesn't hold the token and asks for a reference.
#[derive(Clone, Copy, PartialEq, Eq)]
pub enum Decision {
    /// It can be taken; the word that it then has.
    Take(u64),
    /// It is held in a way that excludes the request.
    Held,
    /// It is marked for an exclusive request, and the asking list has no reference to another token.
    Marked,
    /// An exclusive request at the last generation.
    Worn,
}

impl TokWord {
    ghost use Rattle.lwkt_base.specs.TokenWord.{word_of, decision, in_word, Fits};

    /// The parts of a word. Each word has parts, and they are the only ones that fit.
    pub fn parts(word: u64) -> TokWord
        ensures undone { word_of result ≡ word }
        ensures fits { Fits result }
        ensures only { (w : TokWord) → Fits w → word_of w ≡ word → result ≡ w }
    {
        TokWord {
            generation: word / 262144,
            count: (word / 4 % 65536) as u16,
            exclusive: word % 2 == 1,
            mark: word / 2 % 2 == 1,
        }
    }

    /// The word of these parts; the generation is at most `LAST_GENERATION`.
    pub fn make(exclusive: bool, mark: bool, count: u16, generation: u64) -> u64
        requires { generation < 2 ^ 46 }
        ensures { result ≡ word_of (record { generation = generation; count = count; exclusive = exclusive; mark = mark }) }
    {
        u64::from(exclusive) + 2 * u64::from(mark) + 4 * u64::from(count) + 262144 * generation
    }

    /// What a word answers a processor that doesn't hold the token. `alone` says that the asking list has no reference
    /// to another token. A shared request at a word with every bit of its count and generation set wraps, as a fetch_add
    /// does: no bank has such a word.
    pub fn decide(word: u64, mode: Mode, alone: bool) -> Decision
        ensures { (w : TokWord) → Fits w → word_of w ≡ word → result ≡ in_word (decision w mode alone) }
    {
        let w = TokWord::parts(word);
        match mode {
            Mode::Exclusive => w.decide_exclusive(word),
            Mode::Shared => w.decide_shared(word, alone),
        }
    }

    fn decide_exclusive(&self, word: u64) -> Decision
        requires { word_of self.now ≡ word }
        ensures { result ≡ in_word (decision self.now Mode.Exclusive false) }
    {
        if self.generation == LAST_GENERATION {
            Decision::Worn
        } else if self.exclusive || self.count > 0 {
            Decision::Held
        } else {
            Decision::Take(word - 2 * u64::from(self.mark) + 1)
        }
    }

    fn decide_shared(&self, word: u64, alone: bool) -> Decision
        requires { word_of self.now ≡ word }
        ensures { result ≡ in_word (decision self.now Mode.Shared alone) }
    {
        if self.exclusive {
            Decision::Held
        } else if self.mark && alone {
            Decision::Marked
        } else {
            Decision::Take(word.wrapping_add(4))
        }
    }
}
