//! The steps on a token's word as functions for C; include/lwkt.h declares them. They take no memory, and call nothing.
ghost use Rattle.std.specs.Prelude.{◌≡◌, ℕ};
ghost use Rattle.lwkt_base.specs.declared.words.TokWord.{TokWord};
ghost use Rattle.lwkt_base.specs.TokenWord.{word_of, Fits};
ghost use Rattle.lwkt_core.specs.WordSteps.{exclusive_taken, shared_taken, gained, marked, one_given, clean_given, written_given};
ghost use Rattle.lwkt_seats.specs.Words.{AnswersStep};

use lwkt_base::Fault;
use lwkt_core::word_steps::{again, give_clean, give_one, give_written, mark, share, take};

// Answers a step: 0 and the next word, or the number of its fault.
fn answer(step: Result<u64, Fault>, next: &mut u64) -> u32
    ensures { AnswersStep step next.old next.new result }
{
    match step {
        Ok(word) => {
            *next = word;
            0
        }
        Err(fault) => u32::from(fault.number()),
    }
}

/// `lwkt_core::word_steps::take`. 0, and the word to store; or 20 at the last generation, or else 23 where anyone holds the token, and
/// `next` stays as it was.
#[unsafe(no_mangle)]
pub extern "C" fn lwkt_word_take(word: u64, next: &mut u64) -> u32
    ensures { (w : TokWord) → Fits w → word_of w ≡ word → AnswersStep (exclusive_taken w) next.old next.new result }
{
    answer(take(word), next)
}

/// `lwkt_core::word_steps::share`. 0, and the word to store; or 23 where the token is held exclusively or the mark holds the request off,
/// or else 39 where the word counts 65535 references, and `next` stays as it was.
#[unsafe(no_mangle)]
pub extern "C" fn lwkt_word_share(word: u64, alone: bool, next: &mut u64) -> u32
    ensures { (w : TokWord) → Fits w → word_of w ≡ word → AnswersStep (shared_taken alone w) next.old next.new result }
{
    answer(share(word, alone), next)
}

/// `lwkt_core::word_steps::again`. 0, and the word to store; or 13 where nobody holds the token, or 39 where the word counts 65535
/// references, and `next` stays as it was.
#[unsafe(no_mangle)]
pub extern "C" fn lwkt_word_again(word: u64, next: &mut u64) -> u32
    ensures { (w : TokWord) → Fits w → word_of w ≡ word → AnswersStep (gained w) next.old next.new result }
{
    answer(again(word), next)
}

/// `lwkt_core::word_steps::mark`: the word to store. It is never refused.
#[unsafe(no_mangle)]
pub extern "C" fn lwkt_word_mark(word: u64) -> u64
    ensures { (w : TokWord) → Fits w → word_of w ≡ word → result ≡ marked w }
{
    mark(word)
}

/// `lwkt_core::word_steps::give_one`. 0, and the word to store; or 13 where the word counts no reference, and `next` stays as it was.
#[unsafe(no_mangle)]
pub extern "C" fn lwkt_word_give_one(word: u64, next: &mut u64) -> u32
    ensures { (w : TokWord) → Fits w → word_of w ≡ word → AnswersStep (one_given w) next.old next.new result }
{
    answer(give_one(word), next)
}

/// `lwkt_core::word_steps::give_clean`. 0, and the word to store; or 13 where nobody holds the token exclusively, or 12 where its holder
/// has references beyond the first, and `next` stays as it was.
#[unsafe(no_mangle)]
pub extern "C" fn lwkt_word_give_clean(word: u64, next: &mut u64) -> u32
    ensures { (w : TokWord) → Fits w → word_of w ≡ word → AnswersStep (clean_given w) next.old next.new result }
{
    answer(give_clean(word), next)
}

/// `lwkt_core::word_steps::give_written`. 0, and the word to store; or 20 at the last generation, or else 13 and 12 as
/// `lwkt_word_give_clean`, and `next` stays as it was.
#[unsafe(no_mangle)]
pub extern "C" fn lwkt_word_give_written(word: u64, next: &mut u64) -> u32
    ensures { (w : TokWord) → Fits w → word_of w ≡ word → AnswersStep (written_given w) next.old next.new result }
{
    answer(give_written(word), next)
}
