//! The command line, as `clap` takes it.
ghost use Rattle.std.specs.Prelude.{◌≡◌, false, IfOk};
ghost use Rattle.clap.specs.Words.{App, Rule, rule_of, with_rule, with_subcommand};
ghost use Rattle.clap.specs.Simple.{on_top};
ghost use Rattle.lwkt_request.specs.CommandLine.{IsBuilt, check, command_line, explore, file, flag, named, run, show, text, top, valued, with_bounds, with_layouts, with_random, with_settings, with_turns, with_views, with_ways};

use crate::pages::{
    CHECK, EXPLORE, EXPLORE_FILE, LWKT, Page, RUN, SCRIPT_FILE, SHOW, TEXT, TRACE_FILE, VERSION,
};
use clap::{Arg, ArgAction, Command};
use lwkt_base::OutOfMemory;
use lwkt_base::memory::{with_argument, with_bin_name, with_subcommand};
use std::alloc::Global;

// A command, if memory was there for it. Those that add to one pass this on, so that no other command lives where it is asked.
type Built<'a> = Result<Command<'a>, OutOfMemory>;

// An argument of this name, behind `--` too.
fn named<'a>(alloc: Global, name: &'a str, help: &'a str) -> Arg<'a>
    ensures rule { rule_of result ≡ named name.entry.now }
    ensures local { result.global ≡ false }
{
    Arg::new(alloc, name).long(name).help(help)
}

// `--NAME`.
fn flag<'a>(alloc: Global, name: &'a str, help: &'a str) -> Arg<'a>
    ensures rule { rule_of result ≡ flag name.entry.now }
    ensures local { result.global ≡ false }
{
    named(alloc, name, help).action(ArgAction::SetTrue)
}

// `--NAME VALUE`.
fn valued<'a>(alloc: Global, name: &'a str, value: &'a str, help: &'a str) -> Arg<'a>
    ensures rule { rule_of result ≡ valued name.entry.now }
    ensures local { result.global ≡ false }
{
    named(alloc, name, help).value_name(value)
}

// `FILE`.
fn file<'a>(alloc: Global, help: &'a str) -> Arg<'a>
    ensures rule { rule_of result ≡ file }
    ensures local { result.global ≡ false }
{
    Arg::new(alloc, "FILE").help(help)
}

// The command with one more argument.
fn with<'a>(command: Built<'a>, arg: Arg<'a>) -> Built<'a>
    requires { arg.global ≡ false }
    ensures { (app : App) (rule : Rule) → IfOk command.entry (IsBuilt app) → rule_of arg.entry ≡ rule → IfOk result (IsBuilt (with_rule app rule)) }
{
    let command = command?;
    with_argument(command, arg)
}

// The command with `--NAME`.
fn with_flag<'a>(alloc: Global, command: Built<'a>, name: &'a str, help: &'a str) -> Built<'a>
    ensures { (app : App) → IfOk command.entry (IsBuilt app) → IfOk result (IsBuilt (with_rule app (flag name.entry.now))) }
{
    with(command, flag(alloc, name, help))
}

// The command with `--NAME VALUE`.
fn with_value<'a>(
    alloc: Global,
    command: Built<'a>,
    name: &'a str,
    value: &'a str,
    help: &'a str,
) -> Built<'a>
    ensures { (app : App) → IfOk command.entry (IsBuilt app) → IfOk result (IsBuilt (with_rule app (valued name.entry.now))) }
{
    with(command, valued(alloc, name, value, help))
}

// The command with `FILE`.
fn with_file<'a>(alloc: Global, command: Built<'a>, help: &'a str) -> Built<'a>
    ensures { (app : App) → IfOk command.entry (IsBuilt app) → IfOk result (IsBuilt (with_rule app file)) }
{
    with(command, file(alloc, help))
}

// The command with what `-h` says it does.
fn with_about<'a>(command: Command<'a>, text: &'static str) -> Command<'a>
    ensures { (app : App) → IsBuilt app command.entry → IsBuilt app result }
{
    command.about(text)
}

// The command with what `--help` says it does.
fn with_long_about<'a>(command: Command<'a>, text: &'static str) -> Command<'a>
    ensures { (app : App) → IsBuilt app command.entry → IsBuilt app result }
{
    command.long_about(text)
}

// The command with the end of `-h`.
fn with_end<'a>(command: Command<'a>, text: &'static str) -> Command<'a>
    ensures { (app : App) → IsBuilt app command.entry → IsBuilt app result }
{
    command.after_help(text)
}

// The command with the end of `--help`.
fn with_long_end<'a>(command: Command<'a>, text: &'static str) -> Command<'a>
    ensures { (app : App) → IsBuilt app command.entry → IsBuilt app result }
{
    command.after_long_help(text)
}

// The command with its texts for `-h` and `--help`.
fn described<'a>(command: Command<'a>, page: Page) -> Command<'a>
    ensures { (app : App) → IsBuilt app command.entry → IsBuilt app result }
{
    let command = with_about(command, page.about);
    let command = with_long_about(command, page.long_about);
    let command = with_end(command, page.after);
    with_long_end(command, page.long_after)
}

fn run_command<'a>(alloc: Global) -> Built<'a>
    ensures { IfOk result (IsBuilt run) }
{
    let command = Ok(described(Command::new(alloc, "run"), RUN));
    let command = with_flag(
        alloc,
        command,
        "threads",
        "Run each processor on an OS thread of its own",
    );
    let command = with_flag(
        alloc,
        command,
        "numbers",
        "Report a text in numbers, as JSON is reported",
    );
    with_file(alloc, command, SCRIPT_FILE)
}

// The command with the options that choose the order of a run, and which turns of it are shown.
fn with_turns<'a>(alloc: Global, command: Built<'a>) -> Built<'a>
    ensures { (app : App) → IfOk command.entry (IsBuilt app) → IfOk result (IsBuilt (with_turns app)) }
{
    let command = with_value(
        alloc,
        command,
        "order",
        "ORDER",
        "Run in this order of turns, such as 0,1,0",
    );
    let command = with_value(
        alloc,
        command,
        "turns",
        "A..B",
        "Show only turns A to B, counted from 0",
    );
    with_value(
        alloc,
        command,
        "rounds",
        "A..B",
        "Show only rounds A to B, counted from 0",
    )
}

// The command with the options that choose a view.
fn with_views<'a>(alloc: Global, command: Built<'a>) -> Built<'a>
    ensures { (app : App) → IfOk command.entry (IsBuilt app) → IfOk result (IsBuilt (with_views app)) }
{
    let command = with_flag(alloc, command, "svg", "Draw the turns as a picture, in SVG");
    let command = with_flag(
        alloc,
        command,
        "trace",
        "Write the run as a trace, for lwkt check",
    );
    let command = with_flag(
        alloc,
        command,
        "chains",
        "List the written sections of each token",
    );
    with_value(
        alloc,
        command,
        "format",
        "FORMAT",
        "Write a picture svg, a page html or a timeline perfetto",
    )
}

fn show_command<'a>(alloc: Global) -> Built<'a>
    ensures { IfOk result (IsBuilt show) }
{
    let command = Ok(described(Command::new(alloc, "show"), SHOW));
    let command = with_flag(
        alloc,
        command,
        "threads",
        "Run each processor on an OS thread; wants --chains",
    );
    let command = with_turns(alloc, command);
    let command = with_views(alloc, command);
    let command = with_flag(
        alloc,
        command,
        "numbers",
        "Show a text in numbers, as JSON is shown",
    );
    with_file(alloc, command, SCRIPT_FILE)
}

fn check_command<'a>(alloc: Global) -> Built<'a>
    ensures { IfOk result (IsBuilt check) }
{
    let command = Ok(described(Command::new(alloc, "check"), CHECK));
    let command = with_flag(
        alloc,
        command,
        "lines",
        "Read a trace with an event a line, of any length",
    );
    with_file(alloc, command, TRACE_FILE)
}

fn text_command<'a>(alloc: Global) -> Built<'a>
    ensures { IfOk result (IsBuilt text) }
{
    let command = Ok(described(Command::new(alloc, "text"), TEXT));
    let command = with_flag(alloc, command, "json", "Write the script as JSON");
    let command = with_flag(alloc, command, "text", "Write the script as a text");
    let command = with_flag(
        alloc,
        command,
        "run",
        "Run the script in rounds, and judge its expectations",
    );
    with_file(alloc, command, SCRIPT_FILE)
}

// The command with the options that choose how each state is gone on from, and compared.
fn with_ways<'a>(alloc: Global, command: Built<'a>) -> Built<'a>
    ensures { (app : App) → IfOk command.entry (IsBuilt app) → IfOk result (IsBuilt (with_ways app)) }
{
    let command = with_flag(
        alloc,
        command,
        "plain",
        "Try the turns of every processor from each state",
    );
    with_flag(
        alloc,
        command,
        "careful",
        "Compare each state with the real machine's",
    )
}

// The command with the options that bound a search.
fn with_bounds<'a>(alloc: Global, command: Built<'a>) -> Built<'a>
    ensures { (app : App) → IfOk command.entry (IsBuilt app) → IfOk result (IsBuilt (with_bounds app)) }
{
    let command = with_value(
        alloc,
        command,
        "states",
        "N",
        "Store at most N states, by default 1000000",
    );
    let command = with_value(
        alloc,
        command,
        "turns",
        "N",
        "Try orders of at most N turns, by default 100000",
    );
    let command = with_value(
        alloc,
        command,
        "memory",
        "SIZE",
        "Store at most SIZE bytes, such as 500M or 2G",
    );
    with_value(
        alloc,
        command,
        "seconds",
        "N",
        "Stop after N seconds, and print what was found",
    )
}

// The command with the options of random orders.
fn with_random<'a>(alloc: Global, command: Built<'a>) -> Built<'a>
    ensures { (app : App) → IfOk command.entry (IsBuilt app) → IfOk result (IsBuilt (with_random app)) }
{
    let command = with_value(
        alloc,
        command,
        "random",
        "N",
        "Try N random orders in place of all",
    );
    with_value(
        alloc,
        command,
        "seed",
        "S",
        "Choose the random orders by S, by default 0",
    )
}

// The command with the options that choose how it is written what is found.
fn with_layouts<'a>(alloc: Global, command: Built<'a>) -> Built<'a>
    ensures { (app : App) → IfOk command.entry (IsBuilt app) → IfOk result (IsBuilt (with_layouts app)) }
{
    let command = with_flag(
        alloc,
        command,
        "numbers",
        "Write outcomes of a text in numbers, as those of JSON",
    );
    with_flag(
        alloc,
        command,
        "json",
        "Write what is found as one JSON object",
    )
}

fn explore_command<'a>(alloc: Global) -> Built<'a>
    ensures { IfOk result (IsBuilt explore) }
{
    let command = Ok(described(Command::new(alloc, "explore"), EXPLORE));
    let command = with_ways(alloc, command);
    let command = with_bounds(alloc, command);
    let command = with_random(alloc, command);
    let command = with_flag(
        alloc,
        command,
        "progress",
        "Report each second how far the search is",
    );
    let command = with_layouts(alloc, command);
    let command = with_flag(alloc, command, "all", "Try each script of the folder FILE");
    with_file(alloc, command, EXPLORE_FILE)
}

// The command with one more subcommand.
fn above<'a>(command: Built<'a>, sub: Built<'a>) -> Built<'a>
    ensures { (app sub_app : App) → IfOk command.entry (IsBuilt app) → IfOk sub.entry (IsBuilt sub_app) → IfOk result (IsBuilt (with_subcommand app sub_app.top)) }
{
    let command = command?;
    let sub = sub?;
    with_subcommand(command, sub)
}

// The settings of the program.
fn settled<'a>(command: Command<'a>) -> Command<'a>
    ensures { (app : App) → IsBuilt app command.entry → IsBuilt (on_top with_settings app) result }
{
    command
        .version(VERSION)
        .no_binary_name(true)
        .disable_help_subcommand(true)
        .subcommand_required(true)
        .arg_required_else_help(true)
}

// The program without its subcommands.
fn top<'a>(alloc: Global) -> Built<'a>
    ensures { IfOk result (IsBuilt top) }
{
    let command = settled(described(Command::new(alloc, "lwkt"), LWKT));
    with_bin_name(command, "lwkt")
}

/// The command line of the program.
pub(crate) fn command_line<'a>(alloc: Global) -> Built<'a>
    ensures { IfOk result (IsBuilt command_line) }
{
    let command = above(top(alloc), run_command(alloc));
    let command = above(command, show_command(alloc));
    let command = above(command, check_command(alloc));
    let command = above(command, text_command(alloc));
    above(command, explore_command(alloc))
}
