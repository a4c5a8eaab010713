//! Parts of JSON: lists of numbers, and what tokens, messages and threads are called.
ghost use Rattle.std.specs.Prelude.{◌≡◌, ◌++◌, if◌then◌else◌, OnOk, string_bytes};
ghost use Rattle.std.specs.List.{list_all};
ghost use Rattle.std.specs.Option.{option_copied};
ghost use Rattle.lwkt_told.specs.Called.{thread_number};
ghost use Rattle.lwkt_explore.specs.Jsons.{comma_at, items_json, list_json, number_json, bool_json, is_plain, plain_or, named_json, token_named, message_named, thread_named};

use crate::forms::Telling;
use lwkt_base::memory::{push_str, put};
use lwkt_base::{OutOfMemory, ThreadId};
use lwkt_text::Name;
use lwkt_told::{ThreadCalled, show_called};
use std::alloc::Global;

/// Appends what stands before the item of a number in a list.
pub(crate) fn add_comma(out: &mut String, n: usize) -> Result<(), OutOfMemory>
    ensures { OnOk result (string_bytes out.new ≡ string_bytes out.old ++ comma_at n) }
{
    if n == 0 { Ok(()) } else { push_str(out, ",") }
}

// Appends numbers, with commas between.
fn add_items(out: &mut String, numbers: &[u64]) -> Result<(), OutOfMemory>
    ensures { OnOk result (string_bytes out.new ≡ string_bytes out.old ++ items_json number_json numbers.now) }
{
    for (n, number) in numbers.iter().enumerate() {
        add_comma(out, n)?;
        put(out, *number)?;
    }
    Ok(())
}

/// Appends a list of numbers.
pub(crate) fn add_numbers(out: &mut String, numbers: &[u64]) -> Result<(), OutOfMemory>
    ensures { OnOk result (string_bytes out.new ≡ string_bytes out.old ++ list_json number_json numbers.now) }
{
    push_str(out, "[")?;
    add_items(out, numbers)?;
    push_str(out, "]")
}

// Appends processors, with commas between.
fn add_cpus(out: &mut String, order: &[u8]) -> Result<(), OutOfMemory>
    ensures { OnOk result (string_bytes out.new ≡ string_bytes out.old ++ items_json number_json order.now) }
{
    for (n, cpu) in order.iter().enumerate() {
        add_comma(out, n)?;
        put(out, *cpu)?;
    }
    Ok(())
}

/// Appends an order, as a list.
pub(crate) fn add_turns(out: &mut String, order: &[u8]) -> Result<(), OutOfMemory>
    ensures { OnOk result (string_bytes out.new ≡ string_bytes out.old ++ list_json number_json order.now) }
{
    push_str(out, "[")?;
    add_cpus(out, order)?;
    push_str(out, "]")
}

/// Whether something is so.
pub(crate) fn bool_word(is_so: bool) -> &'static str
    ensures { result.now ≡ bool_json is_so }
{
    if is_so { "true" } else { "false" }
}

// Whether a byte may stand between quotation marks.
fn is_plain(byte: u8) -> bool
    ensures { result ≡ is_plain byte }
{
    b' ' <= byte && byte <= b'~' && byte != b'"' && byte != b'\\'
}

// Whether a text may stand between quotation marks.
fn are_plain(text: &str) -> bool
    ensures { result ≡ list_all is_plain text.now }
{
    text.as_bytes().iter().all(|byte| is_plain(*byte))
}

// Appends a name, or the number where the name can't stand between quotation marks.
fn add_plain(out: &mut String, name: &str, n: usize) -> Result<(), OutOfMemory>
    ensures { OnOk result (string_bytes out.new ≡ string_bytes out.old ++ plain_or n name.now) }
{
    if are_plain(name) {
        push_str(out, name)
    } else {
        put(out, n)
    }
}

/// Appends what the thing of a number is called in a list of names, as a string.
pub(crate) fn add_named(
    alloc: Global,
    out: &mut String,
    names: &[Name],
    n: usize,
) -> Result<(), OutOfMemory>
    ensures { OnOk result (string_bytes out.new ≡ string_bytes out.old ++ named_json names.now n) }
{
    let mut name = String::new(alloc);
    show_called(names, n, &mut name)?;
    push_str(out, "\"")?;
    add_plain(out, name.as_str(), n)?;
    push_str(out, "\"")
}

/// Appends what a token is called.
pub(crate) fn add_token_named(
    alloc: Global,
    out: &mut String,
    telling: Option<&Telling<'_>>,
    n: usize,
) -> Result<(), OutOfMemory>
    ensures { OnOk result (string_bytes out.new ≡ string_bytes out.old ++ token_named (option_copied telling.entry) n) }
{
    match telling {
        None => put(out, n),
        Some(telling) => add_named(alloc, out, telling.names.tokens.as_slice(), n),
    }
}

/// Appends what a message is called.
pub(crate) fn add_message_named(
    alloc: Global,
    out: &mut String,
    telling: Option<&Telling<'_>>,
    n: usize,
) -> Result<(), OutOfMemory>
    ensures { OnOk result (string_bytes out.new ≡ string_bytes out.old ++ message_named (option_copied telling.entry) n) }
{
    match telling {
        None => put(out, n),
        Some(telling) => add_named(alloc, out, telling.names.messages.as_slice(), n),
    }
}

// Appends the name of a thread, or its number where the name can't stand between quotation marks.
fn add_thread_name(out: &mut String, name: &str, id: ThreadId) -> Result<(), OutOfMemory>
    ensures { OnOk result (string_bytes out.new ≡ string_bytes out.old ++ (if list_all is_plain name.now then name.now else thread_number id)) }
{
    if are_plain(name) {
        push_str(out, name)
    } else {
        put(out, (id.cpu.0, ".", id.thread))
    }
}

/// Appends what a thread is called.
pub(crate) fn add_thread_named(
    alloc: Global,
    out: &mut String,
    telling: Option<&Telling<'_>>,
    id: ThreadId,
) -> Result<(), OutOfMemory>
    ensures { OnOk result (string_bytes out.new ≡ string_bytes out.old ++ thread_named (option_copied telling.entry) id) }
{
    let Some(telling) = telling else {
        return put(out, ("\"", id.cpu.0, ".", id.thread, "\""));
    };
    let mut name = String::new(alloc);
    let names = telling.names;
    put(&mut name, ThreadCalled { names, id })?;
    push_str(out, "\"")?;
    add_thread_name(out, name.as_str(), id)?;
    push_str(out, "\"")
}
