//! The steps on a token's word, for those who bring an atomic exchange of their own: each gives the word to store in place of the one that
//! was read, or why the step can't be made. They touch no memory.
ghost use Rattle.std.specs.Prelude.{◌≡◌, ℕ};
ghost use Rattle.lwkt_base.specs.TokenWord.{word_of, Fits};
ghost use Rattle.lwkt_core.specs.WordSteps.{exclusive_taken, shared_taken, gained, marked, one_given, exclusive_ended, clean_given, written_given};

use lwkt_base::limits::LAST_GENERATION;
use lwkt_base::{Fault, TokWord};

// The most references that a word can count.
const COUNT_LIMIT: u16 = 65_535;

/// The word after its token is taken exclusively, by a processor that holds nothing of it. It clears the mark (token(9) and
/// lwkt_token.c; the last generation is own).
///
/// Refused with `Worn` at the last generation, and else with `Busy` where anyone holds the token.
pub fn take(word: u64) -> Result<u64, Fault>
    ensures { (w : TokWord) → Fits w → word_of w ≡ word → result ≡ exclusive_taken w }
{
    let w = TokWord::parts(word);
    if w.generation == LAST_GENERATION {
        return Err(Fault::Worn);
    }
    if w.exclusive || w.count > 0 {
        return Err(Fault::Busy);
    }
    Ok(TokWord::make(true, false, w.count, w.generation))
}

/// The word after its token is taken shared, by a processor that holds nothing of it. `alone` says that the asking thread has no
/// reference to another token: the mark then holds it off (token(9) and lwkt_token.c; `alone` is own).
///
/// Refused with `Busy` where the token is held exclusively or the mark holds the request off, and else with `Limits` where the
/// word counts 65535 references.
pub fn share(word: u64, alone: bool) -> Result<u64, Fault>
    ensures { (w : TokWord) → Fits w → word_of w ≡ word → result ≡ shared_taken alone w }
{
    let w = TokWord::parts(word);
    if w.exclusive || (w.mark && alone) {
        return Err(Fault::Busy);
    }
    if w.count == COUNT_LIMIT {
        return Err(Fault::Limits);
    }
    Ok(TokWord::make(w.exclusive, w.mark, w.count + 1, w.generation))
}

/// The word after a processor that holds the token gets a further reference to it, in the mode of its first (token(9) and
/// lwkt_token.c). That the processor holds the token is the caller's to know.
///
/// Refused with `NotHeld` where nobody holds the token, and with `Limits` where the word counts 65535 references.
pub fn again(word: u64) -> Result<u64, Fault>
    ensures { (w : TokWord) → Fits w → word_of w ≡ word → result ≡ gained w }
{
    let w = TokWord::parts(word);
    if !w.exclusive && w.count == 0 {
        return Err(Fault::NotHeld);
    }
    if w.count == COUNT_LIMIT {
        return Err(Fault::Limits);
    }
    Ok(TokWord::make(w.exclusive, w.mark, w.count + 1, w.generation))
}

/// The word after its token is marked for an exclusive request (token(9) and lwkt_token.c). Any processor may mark it, and a mark
/// stays until the token is taken exclusively.
pub fn mark(word: u64) -> u64
    ensures { (w : TokWord) → Fits w → word_of w ≡ word → result ≡ marked w }
{
    let w = TokWord::parts(word);
    TokWord::make(w.exclusive, true, w.count, w.generation)
}

/// The word after a reference is given back that doesn't end an exclusive holding: a shared one, or one beyond the first of an
/// exclusive holder (lwkt_token.c). That the processor has such a reference is the caller's to know.
///
/// Refused with `NotHeld` where the word counts no reference.
pub fn give_one(word: u64) -> Result<u64, Fault>
    ensures { (w : TokWord) → Fits w → word_of w ≡ word → result ≡ one_given w }
{
    let w = TokWord::parts(word);
    if w.count == 0 {
        return Err(Fault::NotHeld);
    }
    Ok(TokWord::make(w.exclusive, w.mark, w.count - 1, w.generation))
}

// The next word, if an exclusive holding can end with the holder's next reference.
fn ended(w: &TokWord, next: u64) -> Result<u64, Fault>
    ensures { result ≡ exclusive_ended w.now next }
{
    if !w.exclusive {
        return Err(Fault::NotHeld);
    }
    if w.count > 0 {
        return Err(Fault::NotLast);
    }
    Ok(next)
}

/// The word after an exclusive holder gives back its last reference, and has written nothing (lwkt_token.c). That the processor is
/// that holder is the caller's to know.
///
/// Refused with `NotHeld` where nobody holds the token exclusively, and with `NotLast` where its holder has references beyond the
/// first.
pub fn give_clean(word: u64) -> Result<u64, Fault>
    ensures { (w : TokWord) → Fits w → word_of w ≡ word → result ≡ clean_given w }
{
    let w = TokWord::parts(word);
    let next = TokWord::make(false, w.mark, w.count, w.generation);
    ended(&w, next)
}

/// The word after an exclusive holder gives back its last reference, and has written the token's cells: the generation is one more
/// (lwkt_token.c; the generation is own). That the processor is that holder is the caller's to know.
///
/// Refused with `Worn` at the last generation, and else as `give_clean` is.
pub fn give_written(word: u64) -> Result<u64, Fault>
    ensures { (w : TokWord) → Fits w → word_of w ≡ word → result ≡ written_given w }
{
    let w = TokWord::parts(word);
    if w.generation == LAST_GENERATION {
        return Err(Fault::Worn);
    }
    let next = TokWord::make(false, w.mark, w.count, w.generation + 1);
    ended(&w, next)
}
