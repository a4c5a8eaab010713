//! Why arguments ask for no run, in the words of the program of its own.

use crate::refusals::say_memory;
use lwkt_base::OutOfMemory;
use lwkt_base::memory::{changes_between, from_str, push_str, put};
use lwkt_report::{Page, push_escaped, write_whole};
use std::alloc::Global;

// What may stand behind `turns`, but for the values of options.
const OPTIONS: [&str; 7] = [
    "--names", "--order", "--turns", "--rounds", "--svg", "--trace", "--chains",
];

// The most bytes of a word for which an option is proposed.
const WORD_LIMIT: usize = 64;

// What is said of words that are known, and ask for no run all the same.
const APART: &str = "these arguments don't go together, or a value isn't as its option wants it\n";

// What to try.
const FORM: &str =
    "try: turns, and behind it --names, then --order ORDER, then --turns A..B or --rounds A..B, and --svg, --trace or --chains\n";

// Whether an option has a value behind it.
fn has_value(word: &str) -> bool {
    matches!(word, "--order" | "--turns" | "--rounds")
}

// The first of some words that is neither an option nor the value of one.
fn unknown(words: &[String]) -> Option<&str> {
    let mut is_value = false;
    for word in words {
        let word = word.as_str();
        if !is_value && !OPTIONS.contains(&word) {
            return Some(word);
        }
        is_value = !is_value && has_value(word);
    }
    None
}

// The option that a word is most like, if it is like one.
fn near(alloc: Global, word: &str) -> Result<Option<&'static str>, OutOfMemory> {
    if word.len() > WORD_LIMIT {
        return Ok(None);
    }
    let mut best = None;
    let mut limit = 3;
    for option in OPTIONS {
        let changes = changes_between(alloc, word, option)?;
        if changes < limit {
            best = Some(option);
            limit = changes;
        }
    }
    Ok(best)
}

// Appends what is wrong with the words behind `turns`.
fn add_cause(alloc: Global, text: &mut String, words: &[String]) -> Result<(), OutOfMemory> {
    let Some(word) = unknown(words) else {
        return push_str(text, APART);
    };
    push_str(text, "unexpected argument '")?;
    push_escaped(text, word)?;
    push_str(text, "' found\n")?;
    match near(alloc, word)? {
        Some(option) => put(text, ("    did you mean `", option, "`?\n")),
        None => Ok(()),
    }
}

// Appends what is wrong with the words of arguments, or with arguments that aren't UTF-8.
fn add_whole(
    alloc: Global,
    text: &mut String,
    words: Option<&[String]>,
) -> Result<(), OutOfMemory> {
    let Some(words) = words else {
        return push_str(text, "the arguments aren't UTF-8\n");
    };
    match words.split_first() {
        Some((mode, rest)) if mode.as_str() == "turns" => add_cause(alloc, text, rest),
        _ => push_str(text, "the arguments begin with `turns`\n"),
    }
}

// What is wrong with arguments, and what to try.
fn message_of(alloc: Global, words: Option<&[String]>) -> Result<String, OutOfMemory> {
    let mut text = from_str(alloc, "lwkt: ")?;
    add_whole(alloc, &mut text, words)?;
    push_str(&mut text, FORM)?;
    Ok(text)
}

/// Says why arguments, with these words if they are UTF-8, ask for no run: what is wrong with them, an option that is near, and what
/// to try.
pub fn say_misused(alloc: Global, page: &mut Page, words: Option<&[String]>) {
    match message_of(alloc, words) {
        Ok(text) => {
            let _ = write_whole(page, text.as_bytes());
        }
        Err(_) => say_memory(page),
    }
}
