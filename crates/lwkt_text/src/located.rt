//! In which round of a `for` something is wrong with a text.
//!
//! What is wrong has the place of a word as it is written, and a word inside a `for` stands for one in each round. So the sentences that a
//! text stands for are read once more, each word with a place of its own.

use crate::expansions::{Spread, begins, is_end, spread_of};
use crate::looks::{is_at, place_of_word, text_at};
use crate::many::Many;
use crate::names::Name;
use crate::readers::{Refusal, read_spread};
use crate::scans::sentences_of;
use crate::words::{Sentence, Word};
use crate::wrongs::Wrong;
use lwkt_base::OutOfMemory;
use std::alloc::Global;

/// The value of a name in a round of a `for`.
#[derive(Drop)]
pub struct Round {
    pub name: Name,
    pub value: u64,
}

/// What is wrong with a text, and in which rounds of the `for`s round it, the outermost first.
#[derive(Drop)]
pub struct Located {
    pub wrong: Wrong,
    pub rounds: Many<Round>,
}

// Where a place of a sentence that was numbered stands in the text, and which sentence it is.
#[derive(Clone, Copy)]
struct Place {
    at: usize,
    sentence: usize,
}

// Sentences in which each word has places of its own, and what these stand for.
#[derive(Drop)]
struct Numbered {
    sentences: Many<Sentence>,
    places: Many<Place>,
}

impl Numbered {
    // A word of a sentence, with the next two places.
    fn word(&mut self, alloc: Global, sentence: usize, word: &Word) -> Result<Word, OutOfMemory> {
        let first = self.places.len();
        for at in [word.at, word.end] {
            self.places.push(Place { at, sentence })?;
        }
        Ok(Word {
            at: first,
            end: first.saturating_add(1),
            text: Name::of(alloc, word.text.as_str())?,
        })
    }

    fn put(&mut self, alloc: Global, n: usize, sentence: &Sentence) -> Result<(), OutOfMemory> {
        let mut words = Many::new(alloc);
        for word in sentence.words.as_slice() {
            words.push(self.word(alloc, n, word)?)?;
        }
        let rounds = Many::new(alloc);
        self.sentences.push(Sentence { words, rounds })
    }
}

fn with_places(alloc: Global, sentences: &[Sentence]) -> Result<Numbered, OutOfMemory> {
    let mut all = Numbered {
        sentences: Many::new(alloc),
        places: Many::new(alloc),
    };
    for (n, sentence) in sentences.iter().enumerate() {
        all.put(alloc, n, sentence)?;
    }
    Ok(all)
}

// What is wrong with sentences that stand for themselves.
fn wrongs_of(alloc: Global, sentences: Many<Sentence>) -> Result<Many<Wrong>, OutOfMemory> {
    let spread = Spread {
        names: Many::new(alloc),
        values: Many::new(alloc),
        rounds: Many::new(alloc),
        sentences,
        faults: Many::new(alloc),
    };
    match read_spread(alloc, spread) {
        Ok(_) => Ok(Many::new(alloc)),
        Err(Refusal::Wrongs(wrongs)) => Ok(wrongs),
        Err(Refusal::Memory(refused)) => Err(refused),
    }
}

// The sentences that hold others and are open before the one at a place: of each `for` its name.
fn open_at(
    alloc: Global,
    sentences: &[Sentence],
    at: usize,
) -> Result<Many<Option<Name>>, OutOfMemory> {
    let mut open = Many::new(alloc);
    for sentence in sentences {
        let words = sentence.words.as_slice();
        if place_of_word(words, 0) >= at {
            return Ok(open);
        }
        if is_at(words, 0, "for") {
            open.push(Some(Name::of(alloc, text_at(words, 1))?))?;
        } else if begins(words) {
            open.push(None)?;
        } else if is_end(words) {
            open.keep(open.len().saturating_sub(1));
        }
    }
    Ok(open)
}

// The rounds with these values of the `for`s round a sentence that is written at a place.
fn rounds_at(
    alloc: Global,
    sentences: &[Sentence],
    at: usize,
    values: &[u64],
) -> Result<Many<Round>, OutOfMemory> {
    let mut rounds = Many::new(alloc);
    for name in open_at(alloc, sentences, at)?.into_vec() {
        let value = values.get(rounds.len()).copied();
        if let (Some(name), Some(value)) = (name, value) {
            rounds.push(Round { name, value })?;
        }
    }
    Ok(rounds)
}

// What is wrong at a place of a sentence that was numbered.
fn located_in(
    alloc: Global,
    written: &[Sentence],
    meant: &[Sentence],
    places: &[Place],
    wrong: &Wrong,
) -> Result<Located, OutOfMemory> {
    let Some(place) = places.get(wrong.at) else {
        return Ok(Located {
            wrong: *wrong,
            rounds: Many::new(alloc),
        });
    };
    let rounds = match meant.get(place.sentence) {
        None => Many::new(alloc),
        Some(sentence) => {
            let first = place_of_word(sentence.words.as_slice(), 0);
            rounds_at(alloc, written, first, sentence.rounds.as_slice())?
        }
    };
    Ok(Located {
        wrong: Wrong {
            at: place.at,
            what: wrong.what,
        },
        rounds,
    })
}

/// What is wrong with a text, in the order of [`Refusal`], with the rounds in which it is. What is wrong with a `for` or a `const` itself
/// comes first, with no rounds.
pub fn locate(alloc: Global, bytes: &[u8]) -> Result<Many<Located>, OutOfMemory> {
    let written = sentences_of(alloc, bytes)?;
    let spread = spread_of(alloc, written.as_slice())?;
    let Numbered { sentences, places } = with_places(alloc, spread.sentences.as_slice())?;
    let mut list = Many::new(alloc);
    for wrong in spread.faults.as_slice() {
        let rounds = Many::new(alloc);
        list.push(Located {
            wrong: *wrong,
            rounds,
        })?;
    }
    let wrongs = wrongs_of(alloc, sentences)?;
    for wrong in wrongs.as_slice() {
        list.push(located_in(
            alloc,
            written.as_slice(),
            spread.sentences.as_slice(),
            places.as_slice(),
            wrong,
        )?)?;
    }
    Ok(list)
}
