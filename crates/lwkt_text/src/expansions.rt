//! Constants, members of names, and sentences that stand for others: what sentences stand for, before anything else is read.
ghost use Rattle.std.specs.Prelude.{◌≡◌, ◌≤◌, ◌<◌, ◌++◌, ◌+◌, ◌-◌, [], decimal, length, map, take, OnOk, IfOk, IfSome};
ghost use Rattle.lwkt_text.specs.Outcome.{IsAsRead};
ghost use Rattle.lwkt_text.specs.Expanding.{value_named, valued, constant_at, member_word, member_closed, member_at, found_at, members_from, with_members, filled, const_of, range_of, begins, is_end, level, inside, blamed, with_constant, with_round, with_first, is_full, put_sentence, plain_put, rounds, ranged, own, for_put, spread_for, spread, no_spread, spread_of};

use crate::listings::new_name;
use crate::looks::{demand_at, ends_at, is_at, is_name, text_at, wrong_at};
use crate::many::Many;
use crate::names::Name;
use crate::phrases::expr_at;
use crate::slips::checked;
use crate::tables::position;
use crate::words::{Sentence, Word};
use crate::wrongs::{Slip, Wanted, What, Wrong};
use lwkt_base::OutOfMemory;
use lwkt_code::values::value;
use std::alloc::Global;

/// A number, and the place of the first word behind it.
#[derive(Clone, Copy)]
pub struct FoundNumber {
    pub value: u64,
    pub end: usize,
}

/// A word, and the place of the first word behind it.
#[derive(Drop)]
pub struct FoundWord {
    pub word: Word,
    pub end: usize,
}

/// Numbers from one up to another.
#[derive(Clone, Copy)]
pub struct Range {
    pub from: u64,
    /// The number behind the last.
    pub to: u64,
}

/// What sentences stand for so far.
#[derive(Drop)]
pub struct Spread {
    /// The names of the constants.
    pub names: Many<Name>,
    /// Their values.
    pub values: Many<u64>,
    /// The values of the `for`s that go on, the outermost first.
    pub rounds: Many<u64>,
    /// The sentences, with their numbers put in.
    pub sentences: Many<Sentence>,
    /// What is wrong with those that stand for others.
    pub faults: Many<Wrong>,
}

// So many sentences are said when no `for` goes on.
const MOST_SENTENCES: usize = 65_536;

// The same numbers.
fn numbers_of(alloc: Global, numbers: &[u64]) -> Result<Many<u64>, OutOfMemory>
    ensures { IfOk result (λ list. list ≡ numbers.now) }
{
    let mut list = Many::new(alloc);
    for n in numbers {
        list.push(*n)?;
    }
    Ok(list)
}

// A word with other characters.
fn word_of(alloc: Global, word: &Word) -> Result<Word, OutOfMemory>
    ensures { IfOk result (λ w. w ≡ word.now) }
{
    Ok(Word {
        at: word.at,
        end: word.end,
        text: Name::of(alloc, word.text.as_str())?,
    })
}

// The value of a constant's name.
fn value_named(s: &Spread, text: &str) -> Option<u64>
    ensures { result ≡ value_named s.now text.now }
{
    let k = position(s.names.as_slice(), text)?;
    s.values.as_slice().get(k).copied()
}

// A word; where it names a constant, the number that this is.
fn valued(alloc: Global, s: &Spread, word: &Word) -> Result<Word, OutOfMemory>
    ensures { IfOk result (λ w. w ≡ valued s.now word.now) }
{
    let Some(n) = value_named(s, word.text.as_str()) else {
        return word_of(alloc, word);
    };
    let mut text = Name::new(alloc);
    text.push_number(n)?;
    Ok(Word {
        at: word.at,
        end: word.end,
        text,
    })
}

// Words with the values of the constants that they name.
fn valued_words(alloc: Global, s: &Spread, words: &[Word]) -> Result<Many<Word>, OutOfMemory>
    ensures { IfOk result (λ ws. ws ≡ map (valued s.now) words.now) }
{
    let mut list = Many::new(alloc);
    for word in words {
        list.push(valued(alloc, s, word)?)?;
    }
    Ok(list)
}

/// An expression of numbers from word i on.
pub fn constant_at(alloc: Global, words: &[Word], i: usize) -> Result<FoundNumber, Slip>
    requires few { length words.now ≤ 1000 }
    requires start { i ≤ 100000 }
    ensures exact { IsAsRead result (constant_at words.now i) }
    ensures most { IfOk result (λ f. f.end ≤ i + (1000 - i)) }
{
    let found = expr_at(alloc, &[], words, 5, i)?;
    Ok(FoundNumber {
        value: value(&found.expr, &[0; 8]),
        end: found.end,
    })
}

// The word of a member, as `fork[2]`, that goes from one word to another.
fn member_word(alloc: Global, name: &Word, n: u64, last: &Word) -> Result<Word, OutOfMemory>
    ensures { IfOk result (λ w. w ≡ member_word name.now n last.now) }
{
    let mut text = Name::of(alloc, name.text.as_str())?;
    text.push(b'[')?;
    text.push_number(n)?;
    text.push(b']')?;
    Ok(Word {
        at: name.at,
        end: last.end,
        text,
    })
}

// `NAME [ EXPR ]` from word i on, of numbers alone, as one word.
fn member_at(
    alloc: Global,
    words: &[Word],
    i: usize,
    name: &Word,
) -> Result<Option<FoundWord>, OutOfMemory>
    requires few { length words.now ≤ 1000 }
    requires start { i < length words.now }
    ensures exact { IfOk result (λ f. f ≡ member_at words.now i name.now) }
{
    if !is_name(name.text.as_str()) || !is_at(words, i + 1, "[") {
        return Ok(None);
    }
    let found = match constant_at(alloc, words, i + 2) {
        Ok(found) => found,
        Err(Slip::Memory(refused)) => return Err(refused),
        Err(Slip::Wrong(_)) => return Ok(None),
    };
    if !is_at(words, found.end, "]") {
        return Ok(None);
    }
    let Some(last) = words.get(found.end) else {
        return Ok(None);
    };
    let word = member_word(alloc, name, found.value, last)?;
    Ok(Some(FoundWord {
        word,
        end: found.end + 1,
    }))
}

// Word i, or the member that it begins.
fn found_at(alloc: Global, words: &[Word], i: usize, word: &Word) -> Result<FoundWord, OutOfMemory>
    requires few { length words.now ≤ 1000 }
    requires start { i < length words.now }
    ensures { IfOk result (λ f. f ≡ found_at words.now i word.now) }
{
    if let Some(found) = member_at(alloc, words, i, word)? {
        return Ok(found);
    }
    Ok(FoundWord {
        word: word_of(alloc, word)?,
        end: i + 1,
    })
}

// Words of which those of a member are one.
fn members_in(alloc: Global, words: &[Word]) -> Result<Many<Word>, OutOfMemory>
    requires { length words.now ≤ 1000 }
    ensures { IfOk result (λ ws. ws ≡ members_from words.now 0 words.now) }
{
    let mut list = Many::new(alloc);
    let mut i = 0;
    for _word in words {
        match words.get(i) {
            Some(word) => {
                let found = found_at(alloc, words, i, word)?;
                list.push(found.word)?;
                i = found.end;
            }
            None => return Ok(list),
        }
    }
    Ok(list)
}

// Words with their members; those of a sentence that is too long stay as they are.
fn with_members(alloc: Global, words: Many<Word>) -> Result<Many<Word>, OutOfMemory>
    ensures { IfOk result (λ ws. ws ≡ with_members words) }
{
    if words.len() > 1000 {
        return Ok(words);
    }
    members_in(alloc, words.as_slice())
}

// A sentence with its numbers put in.
fn filled(alloc: Global, s: &Spread, words: &[Word]) -> Result<Many<Word>, OutOfMemory>
    ensures { IfOk result (λ ws. ws ≡ filled s.now words.now) }
{
    with_members(alloc, valued_words(alloc, s, words)?)
}

// `const NAME = EXPR`
#[tactic(auto, unfolding(crate::specs::Expanding::const_of))]
fn const_of(alloc: Global, s: &Spread, words: &[Word]) -> Result<u64, Slip>
    ensures { IsAsRead result (const_of s.now words.now) }
{
    checked(demand_at(words, 1000, What::Long, words.len() <= 1000))?;
    let numbers = valued_words(alloc, s, words)?;
    checked(new_name(s.names.as_slice(), words))?;
    checked(demand_at(words, 2, What::Word(Wanted::Equals), is_at(words, 2, "=")))?;
    let found = constant_at(alloc, numbers.as_slice(), 3)?;
    checked(ends_at(words, found.end))?;
    Ok(found.value)
}

// `for NAME in A..B`
#[tactic(auto, unfolding(crate::specs::Expanding::range_of))]
fn range_of(alloc: Global, s: &Spread, words: &[Word]) -> Result<Range, Slip>
    ensures { IsAsRead result (range_of s.now words.now) }
{
    checked(demand_at(words, 1000, What::Long, words.len() <= 1000))?;
    let numbers = valued_words(alloc, s, words)?;
    checked(new_name(s.names.as_slice(), words))?;
    checked(demand_at(words, 2, What::Word(Wanted::In), is_at(words, 2, "in")))?;
    let from = constant_at(alloc, numbers.as_slice(), 3)?;
    let end = from.end;
    let point = What::Word(Wanted::Point);
    checked(demand_at(words, end, point, is_at(words, end, ".")))?;
    checked(demand_at(words, end + 1, point, is_at(words, end + 1, ".")))?;
    let to = constant_at(alloc, numbers.as_slice(), end + 2)?;
    checked(ends_at(words, to.end))?;
    let what = What::Number { low: 0, high: 256 };
    checked(demand_at(words, end + 2, what, to.value <= 256))?;
    Ok(Range {
        from: from.value,
        to: to.value,
    })
}

/// Whether a sentence holds others.
pub fn begins(words: &[Word]) -> bool
    ensures { result ≡ begins words.now }
{
    is_at(words, 0, "for")
        || is_at(words, 0, "if")
        || is_at(words, 0, "while")
        || is_at(words, 0, "times")
        || is_at(words, 0, "loop")
}

/// Whether a sentence ends one that holds it.
pub fn is_end(words: &[Word]) -> bool
    ensures { result ≡ is_end words.now }
{
    is_at(words, 0, "end")
}

// How many sentences are open behind a sentence.
fn level(words: &[Word], depth: usize) -> usize
    requires { depth < 18446744073709551615 }
    ensures exact { result ≡ level words.now depth }
    ensures most { result ≤ depth + 1 }
{
    if begins(words) {
        return depth + 1;
    }
    if is_end(words) {
        depth.saturating_sub(1)
    } else {
        depth
    }
}

// How many sentences stand before the end of what holds them.
fn inside(sentences: &[Sentence]) -> Option<usize>
    ensures exact { result ≡ inside 0 0 sentences.now }
    ensures there { IfSome result (λ n. n < length sentences.now) }
{
    let mut depth = 0usize;
    for (n, sentence) in sentences.iter().enumerate() {
        let words = sentence.words.as_slice();
        if depth == 0 && is_end(words) {
            return Some(n);
        }
        depth = level(words, depth);
    }
    None
}

impl Spread {
    fn new(alloc: Global) -> Self
        ensures { result ≡ no_spread }
    {
        Spread {
            names: Many::new(alloc),
            values: Many::new(alloc),
            rounds: Many::new(alloc),
            sentences: Many::new(alloc),
            faults: Many::new(alloc),
        }
    }

    fn is_full(&self) -> bool
        ensures { result ≡ is_full self.now }
    {
        self.sentences.len() >= MOST_SENTENCES
    }

    // One more constant.
    fn add_constant(&mut self, alloc: Global, name: &str, value: u64) -> Result<(), OutOfMemory>
        ensures { OnOk result (self.new ≡ with_constant name.now value self.old) }
    {
        self.names.push(Name::of(alloc, name)?)?;
        self.values.push(value)
    }

    // Begins a round of a `for`, whose name has this value in it.
    fn begin_round(&mut self, alloc: Global, name: &str, value: u64) -> Result<(), OutOfMemory>
        ensures { OnOk result (self.new ≡ with_round name.now value self.old) }
    {
        self.add_constant(alloc, name, value)?;
        self.rounds.push(value)
    }

    // Ends a round: leaves out the constants behind so many, and the rounds.
    fn end_round(&mut self, count: usize, depth: usize)
        ensures { self.new ≡ with_first count depth self.old }
    {
        self.names.keep(count);
        self.values.keep(count);
        self.rounds.keep(depth);
    }

    fn put_sentence(&mut self, alloc: Global, words: &[Word]) -> Result<(), OutOfMemory>
        ensures { OnOk result (self.new ≡ put_sentence words.now self.old) }
    {
        let words = filled(alloc, self, words)?;
        let rounds = numbers_of(alloc, self.rounds.as_slice())?;
        self.sentences.push(Sentence { words, rounds })
    }

    // A sentence that is no `for`.
    fn put_plain(&mut self, alloc: Global, words: &[Word]) -> Result<(), OutOfMemory>
        ensures { OnOk result (self.new ≡ plain_put words.now self.old) }
    {
        if !is_at(words, 0, "const") {
            return self.put_sentence(alloc, words);
        }
        match const_of(alloc, self, words) {
            Ok(value) => self.add_constant(alloc, text_at(words, 1), value),
            Err(Slip::Memory(refused)) => Err(refused),
            Err(Slip::Wrong(wrong)) => self.faults.push(wrong),
        }
    }

    // What sentences say for each value of a name.
    #[cycle(spreads)]
    #[tactic(auto, using(crate::proofs::Spreading::rounds_on, crate::proofs::Spreading::rounds_done, crate::proofs::Spreading::rounds_full))]
    fn put_rounds(
        &mut self,
        alloc: Global,
        deep: u8,
        name: &str,
        range: Range,
        body: &[Sentence],
    ) -> Result<(), OutOfMemory>
        ensures { OnOk result (self.new ≡ rounds (spread deep body.now) (length self.old.names) (length self.old.rounds) name.now (range.to - range.from) range.from self.old) }
    {
        let (count, depth) = (self.names.len(), self.rounds.len());
        for value in range.from..range.to {
            if self.is_full() {
                return Ok(());
            }
            self.begin_round(alloc, name, value)?;
            self.put_all(alloc, deep, body)?;
            self.end_round(count, depth);
        }
        Ok(())
    }

    // A `for` with these sentences in it.
    #[cycle(spreads)]
    fn put_range(
        &mut self,
        alloc: Global,
        deep: u8,
        words: &[Word],
        body: &[Sentence],
    ) -> Result<(), OutOfMemory>
        ensures { OnOk result (self.new ≡ ranged (spread deep body.now) (range_of self.old words.now) words.now self.old) }
    {
        let range = match range_of(alloc, self, words) {
            Ok(range) => range,
            Err(Slip::Memory(refused)) => return Err(refused),
            Err(Slip::Wrong(wrong)) => return self.faults.push(wrong),
        };
        self.put_rounds(alloc, deep, text_at(words, 1), range, body)?;
        if self.is_full() {
            return self.faults.push(wrong_at(words, 0, What::Crowd));
        }
        Ok(())
    }

    // A `for` before these sentences; says how many of them are its own, with its end.
    #[cycle(spreads)]
    #[tactic(auto, using(crate::proofs::Spreading::for_later))]
    fn put_for(
        &mut self,
        alloc: Global,
        deep: u8,
        words: &[Word],
        behind: &[Sentence],
    ) -> Result<usize, OutOfMemory>
        ensures ok { OnOk result (self.new ≡ spread_for deep words.now behind.now self.old) }
        ensures own { IfOk result (λ n. n ≡ own (inside 0 0 behind.now)) }
    {
        let Some(n) = inside(behind) else {
            self.faults.push(wrong_at(words, 0, What::Unended))?;
            return Ok(0);
        };
        if deep == 0 {
            self.faults.push(wrong_at(words, 0, What::Deep))?;
        } else {
            self.put_range(alloc, deep - 1, words, &behind[..n])?;
        }
        Ok(n + 1)
    }

    // What sentences stand for.
    #[cycle(spreads)]
    #[tactic(auto, using(crate::proofs::Spreading::spread_begun, crate::proofs::Spreading::rest_none, crate::proofs::Spreading::skip_on, crate::proofs::Spreading::for_on, crate::proofs::Spreading::plain_on))]
    fn put_all(
        &mut self,
        alloc: Global,
        deep: u8,
        sentences: &[Sentence],
    ) -> Result<(), OutOfMemory>
        ensures { OnOk result (self.new ≡ spread deep sentences.now self.old) }
    {
        let mut skip = 0usize;
        for (at, sentence) in sentences.iter().enumerate() {
            let words = sentence.words.as_slice();
            if skip > 0 {
                skip -= 1;
            } else if is_at(words, 0, "for") {
                skip = self.put_for(alloc, deep, words, &sentences[at + 1..])?;
            } else {
                self.put_plain(alloc, words)?;
            }
        }
        Ok(())
    }
}

/// What the sentences of a text stand for.
pub fn spread_of(alloc: Global, sentences: &[Sentence]) -> Result<Spread, OutOfMemory>
    ensures { IfOk result (λ s. s ≡ spread_of sentences.now) }
{
    let mut spread = Spread::new(alloc);
    spread.put_all(alloc, 2, sentences)?;
    Ok(spread)
}
