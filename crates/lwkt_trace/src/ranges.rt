//! That all numbers of an opening and of closing values have 64 bits, and the bytes of a record 8, as their types say. Nothing is
//! done for it when a program runs but to look at each number.
ghost use Rattle.lwkt_trace.specs.Printed.{HasWords, ItemsHaveWords};
ghost use Rattle.lwkt_trace.specs.Readback.{number_data, message_data, ends_data, end_data, messages_data, items_as, AreBytes};
ghost use Rattle.lwkt_trace.specs.Values.{token_data, row_data, generation_data, tally_data, tallies_data, record_data, closing_data, last_data};

use crate::traces::Trace;
use lwkt_base::{Cells, MsgEnd, MsgSpec, Owner, TokSpec};
use lwkt_report::{Closing, TokenLine};

// Numbers.
fn words_of_numbers(numbers: &[u64])
    ensures { ItemsHaveWords (items_as number_data numbers.now) }
{
    for number in numbers {
        let _number = *number;
    }
}

/// Bytes.
pub fn words_of_bytes(bytes: &[u8])
    ensures { AreBytes bytes.now }
{
    for byte in bytes {
        let _byte = *byte;
    }
}

// A token of the opening.
fn words_of_token(token: &TokSpec)
    ensures { HasWords (token_data token.now) }
{
    words_of_numbers(token.cells.as_slice());
    let _param = token.param;
    let _generation = token.generation;
}

// The tokens of the opening.
fn words_of_tokens(tokens: &[TokSpec])
    ensures { ItemsHaveWords (items_as token_data tokens.now) }
{
    for token in tokens {
        words_of_token(token);
    }
}

// A message of the opening.
fn words_of_message(message: MsgSpec)
    ensures { HasWords (message_data message) }
{}

// The messages of the opening.
fn words_of_messages(messages: &[MsgSpec])
    ensures { ItemsHaveWords (messages_data messages.now) }
{
    for message in messages {
        words_of_message(*message);
    }
}

/// How many processors there are, and the tokens and messages of the opening.
pub fn words_of_opening(trace: &Trace)
    ensures cpus { HasWords (number_data trace.now.cpus) }
    ensures tokens { ItemsHaveWords (items_as token_data trace.now.tokens) }
    ensures messages { ItemsHaveWords (messages_data trace.now.messages) }
{
    let _cpus = trace.cpus;
    words_of_tokens(trace.tokens.as_slice());
    words_of_messages(trace.messages.as_slice());
}

// Where a message is at the close.
fn words_of_end(end: MsgEnd)
    ensures { HasWords (end_data end.state end.round) }
{
    match end.state {
        Owner::Rest { .. } | Owner::Out { .. } | Owner::With { .. } | Owner::Back { .. } => {}
    }
}

// Where the messages are at the close.
fn words_of_ends(ends: &[MsgEnd])
    ensures { ItemsHaveWords (ends_data ends.now) }
{
    for end in ends {
        words_of_end(*end);
    }
}

// The tallies of a token at the close.
fn words_of_tallies(tallies: &Option<Cells>)
    ensures { HasWords (tallies_data tallies.now) }
{
    if let Some(tallies) = tallies {
        words_of_numbers(tallies.as_slice());
    }
}

// A token at the close.
fn words_of_line(line: &TokenLine)
    ensures row { HasWords (row_data line.now) }
    ensures generation { HasWords (generation_data line.now) }
    ensures tallies { HasWords (tally_data line.now) }
    ensures blob { HasWords (record_data line.now) }
{
    words_of_numbers(line.cells.as_slice());
    let _generation = line.generation;
    words_of_tallies(&line.tallies);
    let _is_some = line.blob.is_some();
}

// The tokens at the close.
fn words_of_lines(lines: &[TokenLine])
    ensures rows { ItemsHaveWords (items_as row_data lines.now) }
    ensures generations { ItemsHaveWords (items_as generation_data lines.now) }
    ensures tallies { ItemsHaveWords (items_as tally_data lines.now) }
    ensures blobs { ItemsHaveWords (items_as record_data lines.now) }
{
    for line in lines {
        words_of_line(line);
    }
}

// The closing values.
fn words_of_closing(closing: &Closing)
    ensures { HasWords (closing_data closing.now) }
{
    words_of_lines(closing.tokens.as_slice());
    words_of_ends(closing.messages.as_slice());
}

/// The closing values, or none.
pub fn words_of_last(last: &Option<Closing>)
    ensures { HasWords (last_data last.now) }
{
    if let Some(closing) = last {
        words_of_closing(closing);
    }
}
