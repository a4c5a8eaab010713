//! What the options of a subcommand ask for.
ghost use Rattle.std.specs.Prelude.{◌≡◌, is_ok};
ghost use Rattle.std.specs.Option.{option_copied};
ghost use Rattle.std.specs.Result.{result_ok};
ghost use Rattle.lwkt_request.specs.Tasks.{explore_in, explored, fits, fits_order, fits_threads, form_of, format_named, has_range, is_chains, is_whole, layout_of, options_of, rows_in, show_in, shown, task_in, text_in, rendering_of, states_by, view_of, wording_of};

use crate::matched::{is_on, value_in};
use crate::ranges::{
    Range, are_parts, bytes_or, number_named, number_or, path_of, range_named, size_or,
};
use crate::requests::{Form, Layout, Search, Task, Wording};
use crate::wrongs::Wrong;
use clap::ArgMatches;
use lwkt_explore::{Bounds, Method};
use lwkt_show::{Counted, Options, Rendering};

// What the words of `lwkt show` name.
#[derive(Clone, Copy)]
struct ShowWords<'a> {
    on_threads: bool,
    order: Option<&'a str>,
    turns: Option<&'a str>,
    rounds: Option<&'a str>,
    svg: bool,
    trace: bool,
    chains: bool,
    format: Option<&'a str>,
    in_numbers: bool,
}

// The view that three flags ask for.
fn rendering_of<'a>(trace: bool, svg: bool, chains: bool) -> Result<Rendering, Wrong<'a>>
    ensures { result_ok result ≡ rendering_of trace svg chains }
{
    match (trace, svg, chains) {
        (false, false, false) => Ok(Rendering::Lines),
        (true, false, false) => Ok(Rendering::Trace),
        (false, true, false) => Ok(Rendering::Picture),
        (false, false, true) => Ok(Rendering::Chains),
        (true, true, _) => Err(Wrong::Apart("--svg", "--trace")),
        (true, false, true) => Err(Wrong::Apart("--trace", "--chains")),
        (false, true, true) => Err(Wrong::Apart("--svg", "--chains")),
    }
}

// The view that `--format` names.
fn format_named<'a>(format: &'a str) -> Result<Rendering, Wrong<'a>>
    ensures { result_ok result ≡ format_named format.entry.now }
{
    match format {
        "svg" => Ok(Rendering::Picture),
        "html" => Ok(Rendering::Player),
        "perfetto" => Ok(Rendering::Timeline),
        _ => Err(Wrong::Format(format)),
    }
}

// The view that three flags ask for, or a format in place of them.
fn view_of<'a>(
    trace: bool,
    svg: bool,
    chains: bool,
    format: Option<&'a str>,
) -> Result<Rendering, Wrong<'a>>
    ensures { result_ok result ≡ view_of trace svg chains (option_copied format.entry) }
{
    let Some(format) = format else {
        return rendering_of(trace, svg, chains);
    };
    if trace {
        return Err(Wrong::Apart("--format", "--trace"));
    }
    if svg {
        return Err(Wrong::Apart("--format", "--svg"));
    }
    if chains {
        return Err(Wrong::Apart("--format", "--chains"));
    }
    format_named(format)
}

// Whether a view is of turns that are chosen, and not of the whole run.
fn has_range(rendering: Rendering) -> bool
    ensures { result ≡ has_range rendering }
{
    matches!(
        rendering,
        Rendering::Lines | Rendering::Picture | Rendering::Player | Rendering::Timeline
    )
}

fn is_chains(rendering: Rendering) -> bool
    ensures { result ≡ is_chains rendering }
{
    matches!(rendering, Rendering::Chains)
}

fn is_whole(range: Range) -> bool
    ensures { result ≡ is_whole range }
{
    range.first == 0 && range.last == usize::MAX
}

// The option that a range has.
fn range_word(counted: Counted) -> &'static str {
    match counted {
        Counted::Turns => "--turns A..B",
        Counted::Rounds => "--rounds A..B",
    }
}

// The options of a view and a range.
fn options_of<'a>(rendering: Rendering, range: Range) -> Result<Options, Wrong<'a>>
    ensures { result_ok result ≡ options_of rendering range }
{
    if has_range(rendering) || is_whole(range) {
        return Ok(Options {
            rendering,
            counted: range.counted,
            first: range.first,
            last: range.last,
        });
    }
    let whole = if is_chains(rendering) {
        "--chains"
    } else {
        "--trace"
    };
    Err(Wrong::Apart(range_word(range.counted), whole))
}

// That nothing stands beside `--threads` but `--chains`.
fn fits_threads<'a>(
    rendering: Rendering,
    order: Option<&'a str>,
    turns: Option<&'a str>,
    rounds: Option<&'a str>,
) -> Result<(), Wrong<'a>>
    ensures { is_ok result ≡ fits_threads rendering (option_copied order.entry) (option_copied turns.entry) (option_copied rounds.entry) }
{
    if !is_chains(rendering) {
        return Err(Wrong::Beside("--threads", "--chains"));
    }
    if order.is_some() {
        return Err(Wrong::Apart("--threads", "--order"));
    }
    if turns.is_some() {
        return Err(Wrong::Apart("--threads", "--turns"));
    }
    if rounds.is_some() {
        return Err(Wrong::Apart("--threads", "--rounds"));
    }
    Ok(())
}

// That an order is one, and no rounds stand beside it.
fn fits_order<'a>(order: Option<&'a str>, rounds: Option<&'a str>) -> Result<(), Wrong<'a>>
    ensures { is_ok result ≡ fits_order (option_copied order.entry) (option_copied rounds.entry) }
{
    let Some(text) = order else {
        return Ok(());
    };
    if !are_parts(text) {
        return Err(Wrong::Order(text));
    }
    if rounds.is_some() {
        return Err(Wrong::Apart("--order", "--rounds"));
    }
    Ok(())
}

// That the words for a view go together.
fn fits<'a>(words: ShowWords<'a>, rendering: Rendering) -> Result<(), Wrong<'a>>
    ensures { is_ok result ≡ fits words.entry.on_threads rendering (option_copied words.entry.order) (option_copied words.entry.turns) (option_copied words.entry.rounds) }
{
    if words.on_threads {
        fits_threads(rendering, words.order, words.turns, words.rounds)
    } else {
        fits_order(words.order, words.rounds)
    }
}

fn shown<'a>(words: ShowWords<'a>) -> Result<Task, Wrong<'a>>
    ensures { result_ok result ≡ shown words.entry.on_threads (option_copied words.entry.order) (option_copied words.entry.turns) (option_copied words.entry.rounds) words.entry.svg words.entry.trace words.entry.chains (option_copied words.entry.format) words.entry.in_numbers }
{
    let rendering = view_of(words.trace, words.svg, words.chains, words.format)?;
    let range = range_named(words.turns, words.rounds)?;
    let options = options_of(rendering, range)?;
    fits(words, rendering)?;
    Ok(Task::Show {
        on_threads: words.on_threads,
        in_numbers: words.in_numbers,
        options,
    })
}

fn show_in<'a>(matches: &ArgMatches<'a>) -> Result<Task, Wrong<'a>>
    ensures { result_ok result ≡ show_in (rows_in matches.now) }
{
    shown(ShowWords {
        on_threads: is_on(matches, "threads"),
        order: value_in(matches, "order"),
        turns: value_in(matches, "turns"),
        rounds: value_in(matches, "rounds"),
        svg: is_on(matches, "svg"),
        trace: is_on(matches, "trace"),
        chains: is_on(matches, "chains"),
        format: value_in(matches, "format"),
        in_numbers: is_on(matches, "numbers"),
    })
}

// The form that three flags ask for.
fn form_of<'a>(json: bool, text: bool, run: bool) -> Result<Form, Wrong<'a>>
    ensures { result_ok result ≡ form_of json text run }
{
    match (json, text, run) {
        (true, false, false) => Ok(Form::Json),
        (false, true, false) => Ok(Form::Text),
        (false, false, true) => Ok(Form::Run),
        (false, false, false) => Err(Wrong::NoForm),
        (true, true, _) => Err(Wrong::Apart("--json", "--text")),
        (true, false, true) => Err(Wrong::Apart("--json", "--run")),
        (false, true, true) => Err(Wrong::Apart("--text", "--run")),
    }
}

fn text_in<'a>(matches: &ArgMatches<'a>) -> Result<Task, Wrong<'a>>
    ensures { result_ok result ≡ text_in (rows_in matches.now) }
{
    let form = form_of(
        is_on(matches, "json"),
        is_on(matches, "text"),
        is_on(matches, "run"),
    )?;
    Ok(Task::Text(form))
}

// What the words of `lwkt explore` name.
#[derive(Clone, Copy)]
struct ExploreWords<'a> {
    plain: bool,
    careful: bool,
    states: Option<&'a str>,
    turns: Option<&'a str>,
    memory: Option<&'a str>,
    random: Option<&'a str>,
    seed: Option<&'a str>,
    seconds: Option<&'a str>,
    progress: bool,
    in_numbers: bool,
    json: bool,
    all: bool,
    has_path: bool,
}

// The bound on states where none is named: if memory is bounded, as many as there are numbers.
fn states_by(memory: Option<&str>) -> usize
    ensures { result ≡ states_by (option_copied memory.entry) }
{
    if memory.is_some() {
        4_294_967_295
    } else {
        1_000_000
    }
}

// The layout, by whether `--json` is named.
fn layout_of(json: bool) -> Layout
    ensures { result ≡ layout_of json }
{
    if json { Layout::Json } else { Layout::Lines }
}

fn explored<'a>(words: ExploreWords<'a>) -> Result<Task, Wrong<'a>>
    ensures { result_ok result ≡ explored words.entry.plain words.entry.careful (option_copied words.entry.states) (option_copied words.entry.turns) (option_copied words.entry.memory) (option_copied words.entry.random) (option_copied words.entry.seed) (option_copied words.entry.seconds) words.entry.progress words.entry.in_numbers words.entry.json words.entry.all words.entry.has_path }
{
    let states = size_or("--states", words.states, states_by(words.memory))?;
    let turns = size_or("--turns", words.turns, 100_000)?;
    let bytes = bytes_or("--memory", words.memory, u64::MAX)?;
    let random = number_named("--random", words.random)?;
    let seed = number_or("--seed", words.seed, 0)?;
    let seconds = number_named("--seconds", words.seconds)?;
    if words.all && !words.has_path {
        return Err(Wrong::Beside("--all", "a folder"));
    }
    Ok(Task::Explore(Search {
        bounds: Bounds {
            states,
            turns,
            bytes,
            compared: if words.careful { 1 } else { 1000 },
        },
        method: if words.plain {
            Method::Plain
        } else {
            Method::Reduced
        },
        random,
        seed,
        seconds,
        progress: words.progress,
        in_numbers: words.in_numbers,
        layout: layout_of(words.json),
        all: words.all,
    }))
}

fn explore_in<'a>(matches: &ArgMatches<'a>) -> Result<Task, Wrong<'a>>
    ensures { result_ok result ≡ explore_in (rows_in matches.now) }
{
    explored(ExploreWords {
        plain: is_on(matches, "plain"),
        careful: is_on(matches, "careful"),
        states: value_in(matches, "states"),
        turns: value_in(matches, "turns"),
        memory: value_in(matches, "memory"),
        random: value_in(matches, "random"),
        seed: value_in(matches, "seed"),
        seconds: value_in(matches, "seconds"),
        progress: is_on(matches, "progress"),
        in_numbers: is_on(matches, "numbers"),
        json: is_on(matches, "json"),
        all: is_on(matches, "all"),
        has_path: path_of(value_in(matches, "FILE")).is_some(),
    })
}

// The words in which a run is reported, by whether `--numbers` is named.
fn wording_of(in_numbers: bool) -> Wording
    ensures { result ≡ wording_of in_numbers }
{
    if in_numbers {
        Wording::Numbers
    } else {
        Wording::Names
    }
}

/// What the subcommand `name` asks for, by what a parse found for its arguments.
pub(crate) fn task_in<'a>(name: &str, matches: &ArgMatches<'a>) -> Result<Task, Wrong<'a>>
    ensures { result_ok result ≡ task_in name.now (rows_in matches.now) }
{
    match name {
        "run" => Ok(Task::Run {
            on_threads: is_on(matches, "threads"),
            wording: wording_of(is_on(matches, "numbers")),
        }),
        "show" => show_in(matches),
        "check" => Ok(Task::Check {
            by_lines: is_on(matches, "lines"),
        }),
        "text" => text_in(matches),
        "explore" => explore_in(matches),
        _ => Err(Wrong::NoCommand),
    }
}
