//! What programs read.
ghost use Rattle.std.specs.Prelude.{◌≡◌, ◌≤◌, ◌&&◌, ◌∷◌, nat_le, [], Err, IfErr, IfOk, IfSome, IfNone, None, Ok, true, false, length};
ghost use Rattle.std.specs.Option.{option_copied};
ghost use Rattle.lwkt_script.specs.Format.{script_of};
ghost use Rattle.lwkt_script.specs.Limits.{IsWithinLimits};
ghost use Rattle.lwkt_text.specs.Absence.{NamesWhatIsThere};
ghost use Rattle.lwkt_text.specs.Inputs.{IsUnread, declares, input_of, is_text, long_wrong, names_text, one_declares, read_as, reading_within, text_input};
ghost use Rattle.lwkt_text.specs.Scanning.{sentences_of};

use crate::claims::Expectation;
use crate::looks::is_at;
use crate::many::Many;
use crate::readers::{Reading, Refusal, read_sentences, read_text};
use crate::scans::sentences_of;
use crate::tables::Names;
use crate::words::{Sentence, Word};
use crate::wrongs::{What, Wrong};
use lwkt_base::limits::SCRIPT_BYTES;
use lwkt_base::{Fault, OutOfMemory};
use lwkt_script::{Script, read_script};
use std::alloc::Global;

/// A script that was read, in JSON or as a text.
#[derive(Drop)]
pub struct Input {
    /// The script that the bytes mean.
    pub script: Script,
    /// The names that a text gives; JSON gives none.
    pub names: Option<Names>,
    /// What a text says of the outcomes of its script; JSON says nothing.
    pub expectations: Many<Expectation>,
}

/// Why input isn't read.
#[derive(Drop)]
pub enum Unread {
    /// Memory was refused.
    Memory(OutOfMemory),
    /// It is JSON, or taken for it, and this is the place of its first bad part (0 where it is no JSON at all).
    Json { place: u32 },
    /// It is a text, and this is all that is wrong with it: first with its names, then with its sentences. There is some.
    Wrongs(Many<Wrong>),
}

/// Whether a file of this name holds a text: it ends in `.lwkt`.
pub fn is_named_text(name: Option<&str>) -> bool
    ensures { result ≡ names_text (option_copied name.entry) }
{
    match name {
        Some(name) => name.as_bytes().ends_with(b".lwkt"),
        None => false,
    }
}

// Whether a sentence declares a token, a message or a thread.
fn declares(words: &[Word]) -> bool
    ensures { result ≡ declares words.now }
{
    is_at(words, 0, "token") || is_at(words, 0, "message") || is_at(words, 0, "thread")
}

// Whether a sentence of these declares something.
fn one_declares(sentences: &[Sentence]) -> bool
    ensures { result ≡ one_declares sentences.now }
{
    sentences
        .iter()
        .any(|sentence| declares(sentence.words.as_slice()))
}

// The sentences of bytes that are no JSON, if these are taken for a text.
fn sentences_within(alloc: Global, bytes: &[u8]) -> Result<Option<Many<Sentence>>, OutOfMemory>
    ensures some { IfOk result (λ read. IfSome read (λ sentences. (length bytes.now ≤ SCRIPT_BYTES) × (sentences ≡ sentences_of bytes.now) × (one_declares sentences ≡ true))) }
    ensures none { IfOk result (λ read. IfNone read ((nat_le (length bytes.now) SCRIPT_BYTES && one_declares (sentences_of bytes.now)) ≡ false)) }
{
    if bytes.len() > SCRIPT_BYTES {
        return Ok(None);
    }
    let sentences = sentences_of(alloc, bytes)?;
    if one_declares(sentences.as_slice()) {
        Ok(Some(sentences))
    } else {
        Ok(None)
    }
}

/// Whether bytes of no known file are taken for a text: they are no JSON, at most 1048576, and a sentence of them declares a token,
/// a message or a thread. All other bytes are left to those who read JSON.
///
/// Refused where an allocation was.
pub fn is_text(alloc: Global, bytes: &[u8]) -> Result<bool, OutOfMemory>
    ensures { IfOk result (λ is. is ≡ is_text bytes.now) }
{
    match read_script(alloc, bytes) {
        Err(Fault::Memory(refused)) => Err(refused),
        Err(Fault::Script { place: 0 }) => Ok(sentences_within(alloc, bytes)?.is_some()),
        _ => Ok(false),
    }
}

// What was read of a text.
fn text_input(read: Result<Reading, Refusal>) -> Result<Input, Unread>
    ensures { result ≡ read_as read }
{
    match read {
        Ok(
            Reading {
                script,
                names,
                expectations,
            },
        ) => Ok(Input {
            script,
            names: Some(names),
            expectations,
        }),
        Err(Refusal::Memory(refused)) => Err(Unread::Memory(refused)),
        Err(Refusal::Wrongs(wrongs)) => Err(Unread::Wrongs(wrongs)),
    }
}

// All that is wrong with a text of too many bytes.
fn too_long(alloc: Global) -> Unread
    ensures { IsUnread result (text_input (Err (long_wrong ∷ []))) }
{
    let mut wrongs = Many::new(alloc);
    let wrong = Wrong {
        at: SCRIPT_BYTES,
        what: What::Length,
    };
    match wrongs.push(wrong) {
        Ok(()) => Unread::Wrongs(wrongs),
        Err(refused) => Unread::Memory(refused),
    }
}

// Reads bytes that are a text by their file's name.
fn read_named(alloc: Global, bytes: &[u8]) -> Result<Input, Unread>
    ensures ok { IfOk result (λ input. text_input (reading_within bytes.now) ≡ Ok input) }
    ensures limits { IfOk result (λ input. IsWithinLimits input.script) }
    ensures there { IfOk result (λ input. NamesWhatIsThere input.script input.expectations) }
    ensures err { IfErr result (λ unread. IsUnread unread (text_input (reading_within bytes.now))) }
{
    if bytes.len() > SCRIPT_BYTES {
        return Err(too_long(alloc));
    }
    text_input(read_text(alloc, bytes))
}

// Reads bytes that are no JSON: a text if one of its sentences declares something.
fn read_no_json(alloc: Global, bytes: &[u8]) -> Result<Input, Unread>
    requires { script_of bytes.now ≡ Err 0 }
    ensures ok { IfOk result (λ input. input_of None bytes.now ≡ Ok input) }
    ensures limits { IfOk result (λ input. IsWithinLimits input.script) }
    ensures there { IfOk result (λ input. NamesWhatIsThere input.script input.expectations) }
    ensures err { IfErr result (λ unread. IsUnread unread (input_of None bytes.now)) }
{
    match sentences_within(alloc, bytes) {
        Ok(Some(sentences)) => text_input(read_sentences(alloc, sentences.as_slice())),
        Ok(None) => Err(Unread::Json { place: 0 }),
        Err(refused) => Err(Unread::Memory(refused)),
    }
}

/// Reads a script, in JSON or as a text, with the names and the expectations of a text. Bytes are a text if they come from a file whose
/// name ends in `.lwkt`, or if they are taken for one (`is_text`); all others are JSON. No byte is read twice in the same form.
///
/// Refused with all that is wrong with a text, each with its place; with the place of the first bad part of JSON; and with
/// `Memory` only where an allocation was refused.
pub fn read_input(alloc: Global, name: Option<&str>, bytes: &[u8]) -> Result<Input, Unread>
    // What the bytes mean.
    ensures ok { IfOk result (λ input. input_of (option_copied name.entry) bytes.now ≡ Ok input) }

    // Each script that is read keeps the limits of the format.
    ensures limits { IfOk result (λ input. IsWithinLimits input.script) }

    // Each claim names only what its script has.
    ensures there { IfOk result (λ input. NamesWhatIsThere input.script input.expectations) }

    // What is wrong with them.
    ensures err { IfErr result (λ unread. IsUnread unread (input_of (option_copied name.entry) bytes.now)) }
{
    if is_named_text(name) {
        return read_named(alloc, bytes);
    }
    match read_script(alloc, bytes) {
        Ok(script) => Ok(Input {
            script,
            names: None,
            expectations: Many::new(alloc),
        }),
        Err(Fault::Script { place: 0 }) => read_no_json(alloc, bytes),
        Err(Fault::Script { place }) => Err(Unread::Json { place }),
        Err(Fault::Memory(refused)) => Err(Unread::Memory(refused)),
        Err(_) => unreachable!(),
    }
}
