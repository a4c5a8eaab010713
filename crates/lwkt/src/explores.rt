//! Orders of a script's turns, tried.
ghost use Rattle.std.specs.Prelude.{◌≡◌, IfErr, IfOk, string_bytes};
ghost use Rattle.std.specs.Option.{option_copied};
ghost use Rattle.lwkt_explore.specs.Outcomes.{RefusesSearch};
ghost use Rattle.lwkt.specs.Failing.{IsFault};
ghost use Rattle.lwkt.specs.Making.{IsFinding, IsFindingIn, IsFindingOf, IsFound, IsNamedFinding, IsToldFinding, text_in_layout};

use crate::failures::Failure;
use crate::tickers::Ticker;
use crate::written::Made;
use lwkt_base::{Fault, OutOfMemory};
use lwkt_explore::{
    Found, Telling, explore, json_of, quoted_verdicts_of, rounds_of, sample, status_of_text,
    text_in, verdicts_of,
};
use lwkt_report::{Closing, Sink};
use lwkt_request::{Layout, Search};
use lwkt_script::Script;
use lwkt_text::claims::Expectation;
use lwkt_text::{Input, Names};
use std::alloc::Global;
use std::time::Clock;

// What is found of a script.
fn found_of<R: Clock, E: Sink>(
    rt: &R,
    alloc: Global,
    search: Search,
    script: &Script,
    errors: &mut E,
) -> Result<Found, Fault>
    ensures found { IfOk result (λ found. IsFound search script.now found) }
    ensures refused { IfErr result (RefusesSearch script.now) }
{
    let mut ticker = Ticker::new(rt, alloc, errors, search);
    match search.random {
        Some(count) => sample(
            alloc,
            script,
            search.bounds,
            count,
            search.seed,
            &mut ticker,
        ),
        None => explore(alloc, script, search.bounds, search.method, &mut ticker),
    }
}

// The text of what is found of an input with these bytes, in a layout.
fn text_in_layout(
    alloc: Global,
    layout: Layout,
    telling: Option<&Telling<'_>>,
    bytes: &[u8],
    input: &Input,
    rounds: &Option<Closing>,
    found: &Found,
) -> Result<String, OutOfMemory>
    ensures { IfOk result (λ text. string_bytes text ≡ text_in_layout layout (option_copied telling.entry) bytes.now input.now rounds.now found.now) }
{
    match layout {
        Layout::Lines => text_in(alloc, telling, found),
        Layout::Json => json_of(
            alloc,
            telling,
            bytes,
            input.expectations.as_slice(),
            rounds,
            found,
        ),
    }
}

// The same in these names.
fn told_text(
    alloc: Global,
    layout: Layout,
    names: &Names,
    bytes: &[u8],
    input: &Input,
    rounds: &Option<Closing>,
    found: &Found,
) -> Result<String, OutOfMemory>
    ensures { IfOk result (λ text. IsToldFinding layout names.now bytes.now input.now rounds.now found.now (string_bytes text)) }
{
    let script = &input.script;
    let telling = Telling { names, script };
    text_in_layout(alloc, layout, Some(&telling), bytes, input, rounds, found)
}

// The same in the names of a text, if it has some.
fn named_text(
    alloc: Global,
    layout: Layout,
    bytes: &[u8],
    input: &Input,
    rounds: &Option<Closing>,
    found: &Found,
) -> Result<String, OutOfMemory>
    ensures { IfOk result (λ text. IsNamedFinding layout input.now.names bytes.now input.now rounds.now found.now (string_bytes text)) }
{
    match &input.names {
        Some(names) => told_text(alloc, layout, names, bytes, input, rounds, found),
        None => text_in_layout(alloc, layout, None, bytes, input, rounds, found),
    }
}

// The same in numbers, if that is asked for, or else in names.
fn text_by(
    alloc: Global,
    search: Search,
    bytes: &[u8],
    input: &Input,
    rounds: &Option<Closing>,
    found: &Found,
) -> Result<String, OutOfMemory>
    ensures { IfOk result (λ text. IsFindingIn search.in_numbers search.layout bytes.now input.now rounds.now found.now (string_bytes text)) }
{
    if search.in_numbers {
        text_in_layout(alloc, search.layout, None, bytes, input, rounds, found)
    } else {
        named_text(alloc, search.layout, bytes, input, rounds, found)
    }
}

// What is said of each expectation, in numbers, if that is asked for, or else as it stands in the text; nothing where JSON has it.
fn verdicts_in(
    alloc: Global,
    search: Search,
    paints: bool,
    bytes: &[u8],
    expectations: &[Expectation],
    rounds: &Option<Closing>,
    found: &Found,
) -> Result<String, OutOfMemory> {
    if search.layout == Layout::Json {
        return Ok(String::new(alloc));
    }
    if search.in_numbers {
        verdicts_of(alloc, bytes, expectations, rounds, found)
    } else {
        quoted_verdicts_of(alloc, paints, bytes, expectations, rounds, found)
    }
}

/// Tries orders of a script's turns, to the text of what is found. `errors` gets how far the search is, if that is asked for.
pub fn finding_of<R: Clock, E: Sink>(
    rt: &R,
    alloc: Global,
    search: Search,
    paints: bool,
    bytes: &[u8],
    input: &Input,
    errors: &mut E,
) -> Result<Made, Failure>
    ensures exact { IfOk result (λ made. IsFindingOf search bytes.now input.now (string_bytes made.text) made.status) }
    ensures made { IfOk result (λ made. IsFinding search input.now (string_bytes made.text) made.status) }
    ensures declined { IfErr result (IsFault (RefusesSearch input.now.script)) }
{
    let found = found_of(rt, alloc, search, &input.script, errors)?;
    let expectations = input.expectations.as_slice();
    let rounds = rounds_of(alloc, &input.script, expectations)?;
    let text = text_by(alloc, search, bytes, input, &rounds, &found)?;
    let verdicts = verdicts_in(alloc, search, paints, bytes, expectations, &rounds, &found)?;
    let status = status_of_text(expectations, &rounds, &found);
    Ok(Made {
        text,
        status,
        verdicts,
    })
}
