//! What is wrong with options that a parse lets through.
use lwkt_base::OutOfMemory;
use lwkt_base::memory::{from_str, push_str, put};
use std::alloc::Global;

/// Why the options of a subcommand ask for nothing. An option stands with its dashes, a value beside it.
#[derive(Clone, Copy)]
pub(crate) enum Wrong<'a> {
    /// The value is no whole number below 2^64.
    Number(&'static str, &'a str),
    /// The value is no number of bytes.
    Size(&'static str, &'a str),
    /// The value is no range.
    Range(&'static str, &'a str),
    /// The range begins behind its end.
    Falls(&'static str, &'a str),
    /// The value is no order.
    Order(&'a str),
    /// The value is no format.
    Format(&'a str),
    /// Two options that don't go together.
    Apart(&'static str, &'static str),
    /// An option that wants something else beside it.
    Beside(&'static str, &'static str),
    /// None of the options that `lwkt text` wants one of.
    NoForm,
    /// None of the subcommands.
    NoCommand,
}

// Four texts in turn.
fn joined(
    alloc: Global,
    one: &str,
    two: &str,
    three: &str,
    four: &str,
) -> Result<String, OutOfMemory> {
    let mut text = String::new(alloc);
    put(&mut text, (one, two, three, four))?;
    Ok(text)
}

// That an option has a value which it can't have, and how it is given.
fn unfit(
    alloc: Global,
    name: &str,
    value: &str,
    wanted: &str,
    example: &str,
) -> Result<String, OutOfMemory> {
    let mut text = joined(alloc, name, " ", value, ": give ")?;
    put(&mut text, (wanted, ", such as ", name, example))?;
    Ok(text)
}

// The sentence, without a full stop.
fn sentence_of(alloc: Global, wrong: Wrong<'_>) -> Result<String, OutOfMemory> {
    match wrong {
        Wrong::Number(name, value) => {
            unfit(alloc, name, value, "a whole number below 2^64", " 10")
        }
        Wrong::Size(name, value) => {
            unfit(alloc, name, value, "a number of bytes below 2^64", " 500M")
        }
        Wrong::Range(name, value) => unfit(alloc, name, value, "a range", " 1..5"),
        Wrong::Falls(name, value) => {
            joined(
                alloc,
                name,
                " ",
                value,
                ": the first number is greater than the last",
            )
        }
        Wrong::Order(value) => {
            unfit(
                alloc,
                "--order",
                value,
                "a digit for the processor of each turn",
                " 0,1,0",
            )
        }
        Wrong::Format(value) => joined(
            alloc,
            "--format ",
            value,
            ": give svg, html or perfetto",
            "",
        ),
        Wrong::Apart(one, other) => joined(alloc, one, " and ", other, " don't go together"),
        Wrong::Beside(one, other) => joined(alloc, one, " wants ", other, " beside it"),
        Wrong::NoCommand => from_str(alloc, "a command is wanted"),
        Wrong::NoForm => from_str(alloc, "one of --json, --text and --run is wanted"),
    }
}

// A message: the cause, a near word, and what to try.
fn message_of(
    alloc: Global,
    cause: &str,
    near: Option<&str>,
    name: Option<&str>,
) -> Result<String, OutOfMemory> {
    let mut text = from_str(alloc, "lwkt: ")?;
    put(&mut text, (cause, "\n"))?;
    if let Some(near) = near {
        put(&mut text, ("    did you mean `", near, "`?\n"))?;
    }
    match name {
        Some(name) => put(&mut text, ("try: lwkt ", name, " --help\n"))?,
        None => push_str(&mut text, "try: lwkt --help\n")?,
    }
    Ok(text)
}

/// What is written of words of the subcommand `name` that ask for nothing.
pub(crate) fn misuse_of(
    alloc: Global,
    name: &str,
    wrong: Wrong<'_>,
) -> Result<String, OutOfMemory> {
    let sentence = sentence_of(alloc, wrong)?;
    message_of(alloc, sentence.as_str(), None, Some(name))
}

// The first line of what a parse says of its error: the cause.
fn cause_in(said: &str) -> &str {
    let line = match said.split_once("\n") {
        Some((line, _)) => line,
        None => said,
    };
    match line.split_once("error: ") {
        Some((before, cause)) if before.is_empty() => cause,
        _ => line,
    }
}

// The word that a parse proposes.
fn near_in(said: &str) -> Option<&str> {
    let (_, behind) = said.split_once("exists: '")?;
    let (word, _) = behind.split_once("'")?;
    Some(word)
}

// The subcommand that words begin with.
fn name_in<'a>(words: &[&'a str]) -> Option<&'a str> {
    match words.first() {
        Some(word) if matches!(*word, "run" | "show" | "check" | "text" | "explore") => Some(*word),
        _ => None,
    }
}

// Whether a word is digits and commas, as an order.
fn is_order(word: &str) -> bool {
    !word.is_empty()
        && word
            .as_bytes()
            .iter()
            .all(|byte| matches!(*byte, b'0'..=b'9' | b','))
}

// The words of an order behind `--order`, with commas between them, if there are several.
fn order_in(alloc: Global, words: &[&str]) -> Result<Option<String>, OutOfMemory> {
    let mut order = from_str(alloc, "--order ")?;
    let mut count = 0usize;
    let mut is_behind = false;
    for word in words {
        if is_behind && is_order(word) {
            push_str(&mut order, if count > 0 { "," } else { "" })?;
            push_str(&mut order, word)?;
            count = count.saturating_add(1);
        } else {
            is_behind = *word == "--order";
        }
    }
    Ok(if count > 1 { Some(order) } else { None })
}

/// What is written of words at which a parse failed, by what the parse says of them.
pub(crate) fn failure_of(alloc: Global, said: &str, words: &[&str]) -> Result<String, OutOfMemory> {
    let name = name_in(words);
    if let Some(order) = order_in(alloc, words)? {
        return message_of(alloc, "an order is one word", Some(order.as_str()), name);
    }
    message_of(alloc, cause_in(said), near_in(said), name)
}
