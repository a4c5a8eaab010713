//! Names that are nearly those that were written.
use crate::pages::Page;
use crate::sentences::{NAME_LIMIT, place_in_sentence, word_in_sentence};
use lwkt_base::VERBS;
use lwkt_base::memory::changes_between;
use lwkt_base::steps::verb_written;
use lwkt_text::{Name, Names, What};
use std::alloc::Global;

// The words that sentences begin with, but for those of asks.
const KEYWORDS: [&str; 20] = [
    "turns",
    "idle",
    "cpus",
    "token",
    "message",
    "thread",
    "always",
    "sometimes",
    "never",
    "var",
    "const",
    "for",
    "if",
    "else",
    "while",
    "times",
    "loop",
    "break",
    "end",
    "assert",
];

/// How many words sentences begin with.
pub(crate) const KEYWORD_COUNT: usize = 40;

// Among how many words of a sentence a cell is looked for.
const WORD_LIMIT: usize = 64;

// How many names of a kind are looked at: as many as a text has threads at most, of which it can have more than of other parts.
const COUNT_LIMIT: usize = 128;

/// A name, and how many changes lead to it.
#[derive(Clone, Copy)]
pub(crate) struct Near<'n> {
    /// The name, or the empty one.
    pub(crate) name: &'n str,
    // As many as are too many, where there is no name.
    changes: usize,
}

/// No name.
pub(crate) const NO_NAME: Near<'static> = Near {
    name: "",
    changes: 3,
};

/// The nearer one of a name and the nearest so far, if it is near at all. The page is lost if memory is refused.
pub(crate) fn nearer<'n>(
    page: &mut Page,
    alloc: Global,
    text: &str,
    best: Near<'n>,
    name: &'n str,
) -> Near<'n> {
    if name.len() > NAME_LIMIT || text.len() > NAME_LIMIT {
        return best;
    }
    match changes_between(alloc, text, name) {
        Ok(changes) if changes < best.changes && changes < name.len() => Near { name, changes },
        Ok(_) => best,
        Err(refused) => {
            page.lose(refused);
            best
        }
    }
}

// The nearest of some names and the nearest so far.
fn nearest<'n>(
    page: &mut Page,
    alloc: Global,
    text: &str,
    so_far: Near<'n>,
    names: &'n [Name],
) -> Near<'n> {
    let mut best = so_far;
    for name in names {
        best = nearer(page, alloc, text, best, name.as_str());
    }
    best
}

/// A word that sentences begin with, or none behind the last.
pub(crate) fn keyword(i: usize) -> &'static str {
    if i < KEYWORDS.len() {
        return KEYWORDS[i];
    }
    match VERBS.get(i.saturating_sub(KEYWORDS.len())) {
        Some(verb) if verb.is_written() => verb.word(),
        _ => "",
    }
}

// The nearest of the words that sentences begin with.
fn nearest_keyword(page: &mut Page, alloc: Global, text: &str) -> &'static str {
    let mut best = NO_NAME;
    for i in 0..KEYWORD_COUNT {
        best = nearer(page, alloc, text, best, keyword(i));
    }
    best.name
}

/// Whether a sentence may begin with this word.
pub(crate) fn is_keyword(text: &str) -> bool {
    KEYWORDS.contains(&text) || verb_written(text).is_some()
}

// The names of the parts that are wanted.
fn names_of<'n>(names: &'n Names, what: What) -> &'n [Name] {
    match what {
        What::Token | What::Quantity => names.tokens.as_slice(),
        What::Message => names.messages.as_slice(),
        What::Thread => names.threads.as_slice(),
        _ => &[],
    }
}

/// A name that is nearly what was written where another part was wanted, or the empty one. None for a word of more than 64 characters.
pub(crate) fn proposal<'n>(
    page: &mut Page,
    alloc: Global,
    names: &'n Names,
    what: What,
    text: &str,
) -> &'n str {
    if matches!(what, What::Keyword | What::Variable) {
        return nearest_keyword(page, alloc, text);
    }
    let names = names_of(names, what);
    let names = names.get(..COUNT_LIMIT).unwrap_or(names);
    nearest(page, alloc, text, NO_NAME, names).name
}

/// The word before the full stop before a place, which is that of a word of its sentence.
pub(crate) fn token_before(bytes: &[u8], at: usize) -> &str {
    for number in 2..WORD_LIMIT {
        if place_in_sentence(bytes, at, number) == at {
            return word_in_sentence(bytes, at, number - 2);
        }
    }
    ""
}

/// The name that is most like a word, among those of the cells of the token before it, or the empty one.
pub(crate) fn near_cell<'n>(
    page: &mut Page,
    alloc: Global,
    names: &'n Names,
    before: &str,
    word: &str,
) -> &'n str {
    let mut best = NO_NAME;
    let tokens = names.tokens.as_slice().iter();
    for (token, cells) in tokens.zip(names.cells.as_slice()) {
        if token.as_str() == before {
            best = nearest(page, alloc, word, best, cells.as_slice());
        }
    }
    best.name
}
