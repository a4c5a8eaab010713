//! Releases that are refused if another token was taken later, as a text has them.
use crate::messages::{Source, add_end, add_start};
use crate::pages::Page;
use crate::places::{Place, place_from};
use crate::sentence_forms::kinds_of;
use crate::sentences::{NAME_LIMIT, starts_of, word_in_sentence};
use lwkt_base::PartKind;
use lwkt_base::limits::LIST_LIMIT;
use lwkt_base::memory::push;
use std::alloc::Global;

// Of how many releases it is said.
const REMARK_LIMIT: usize = 100;

// Among how many words of a sentence the claim is looked for.
const WORD_LIMIT: usize = 64;

// The tokens that a thread has taken, if it was given them, and not released, the first first, as its steps name them.
#[derive(Drop)]
struct Held<'t> {
    words: Vec<&'t str>,
    // Whether the thread's steps so far say which tokens these are.
    is_known: bool,
}

// Whether a word is a name that is followed: no number, and not long.
fn is_name(word: &str) -> bool {
    word.len() <= NAME_LIMIT && matches!(word.as_bytes(), [b'A'..=b'Z' | b'a'..=b'z' | b'_', ..])
}

// Whether a word is that of a step that isn't followed and may take tokens: one that goes with tokens alone.
fn may_take(word: &str) -> bool {
    let kinds = kinds_of(word);
    !kinds.is_empty() && kinds.iter().all(|kind| *kind == PartKind::Token)
}

impl<'t> Held<'t> {
    fn new(alloc: Global) -> Held<'t> {
        Held {
            words: Vec::new(alloc),
            is_known: false,
        }
    }

    // A thread begins, or nothing more is known of it.
    fn begin(&mut self, is_known: bool) {
        self.words.clear();
        self.is_known = is_known;
    }

    // A token is taken, or is tried to be. One that is named by its number isn't followed.
    fn take(&mut self, page: &mut Page, word: &'t str) {
        if !is_name(word) || self.words.len() >= LIST_LIMIT {
            return self.begin(false);
        }
        if let Err(refused) = push(&mut self.words, word) {
            page.lose(refused);
        }
    }

    // A token is released; the one that has to be released before it, if there is one.
    fn release(&mut self, word: &str) -> Option<&'t str> {
        let last = *self.words.as_slice().last()?;
        if last == word {
            let _ = self.words.pop();
            return None;
        }
        let has_it = self.words.iter().any(|held| *held == word);
        if has_it { Some(last) } else { None }
    }

    // The last two change places.
    fn swap(&mut self) {
        let count = self.words.len();
        if count >= 2 {
            self.words.swap(count - 2, count - 1);
        }
    }

    // What the sentence that begins with these two words does; the token that has to be released before the one that it releases.
    fn follow(&mut self, page: &mut Page, first: &str, second: &'t str) -> Option<&'t str> {
        match first {
            "thread" => self.begin(true),
            _ if !self.is_known => {}
            "get" | "gets" | "try" => self.take(page, second),
            "rel" => return self.release(second),
            "swap" => self.swap(),
            "exit" => self.begin(false),
            "rrec" => {}
            _ if may_take(first) => self.begin(false),
            _ => {}
        }
        None
    }
}

// Appends when a release is refused, and what to do.
fn add_release(page: &mut Page, source: Source<'_>, place: Place, word: &str, before: &str) {
    add_start(page, source.name, place);
    page.say((
        "`rel ",
        word,
        "` is refused with fault 12 if the thread has ",
        before,
    ));
    page.say(", which it takes later: release that first");
    add_end(page, source.bytes, place, "");
}

// Whether a claim of the sentence that begins at a place names such a refusal.
fn names_refusal(bytes: &[u8], start: usize) -> bool {
    for number in 2..WORD_LIMIT {
        if word_in_sentence(bytes, start, number) == "refused"
            && word_in_sentence(bytes, start, number.saturating_add(1)) == "12"
        {
            return true;
        }
    }
    false
}

// Whether the sentence that begins at a place expects such a refusal.
fn expects_refusal(bytes: &[u8], start: usize) -> bool {
    matches!(
        word_in_sentence(bytes, start, 0),
        "always" | "sometimes" | "forall" | "exists" | "in"
    ) && names_refusal(bytes, start)
}

// Appends what is said of the releases of a text whose sentences begin at these places.
fn add_releases(page: &mut Page, source: Source<'_>, starts: &[usize]) {
    let bytes = source.bytes;
    let mut held = Held::new(source.alloc);
    let mut place = Place::FIRST;
    let mut left = REMARK_LIMIT;
    for start in starts {
        let second = word_in_sentence(bytes, *start, 1);
        let first = word_in_sentence(bytes, *start, 0);
        if let Some(before) = held.follow(page, first, second) {
            if left > 0 {
                place = place_from(bytes, place, *start);
                add_release(page, source, place, second, before);
                left -= 1;
            }
        }
    }
}

/// What is said of the releases of a text: nothing if it expects that one is refused.
pub(crate) fn releases_said(source: Source<'_>) -> Page {
    let mut page = Page::new(source.alloc);
    match starts_of(source.alloc, source.bytes) {
        Ok(starts) => {
            if !starts
                .iter()
                .any(|start| expects_refusal(source.bytes, *start))
            {
                add_releases(&mut page, source, starts.as_slice());
            }
        }
        Err(refused) => page.lose(refused),
    }
    page
}
