//! The texts of the command line: what `-h` and `--help` write beside the options.

/// The version of the program, which `lwkt --version` writes behind its name.
pub const VERSION: &str = "1.0.0";

/// What help writes of a command beside its options: `-h` the short texts, `--help` the long ones.
#[derive(Clone, Copy)]
pub(crate) struct Page {
    pub(crate) about: &'static str,
    pub(crate) long_about: &'static str,
    pub(crate) after: &'static str,
    pub(crate) long_after: &'static str,
}

pub(crate) const SCRIPT_FILE: &str = "The script; standard input if FILE is - or is left out";

pub(crate) const TRACE_FILE: &str = "The trace; standard input if FILE is - or is left out";

pub(crate) const EXPLORE_FILE: &str =
    "The script, or the folder of --all; standard input if left out";

pub(crate) const LWKT: Page = Page {
    about: "Run, show, check and explore scripts of threads, tokens and messages",
    long_about: "\
Run, show, check and explore scripts of threads, tokens and messages.

A script describes threads on a modelled machine of several processors. They
share data under tokens (locks that a thread holds only while it runs), and send
each other messages. A script is JSON, or a text with names: a file FILE.lwkt.",
    after: "\
Examples:
  lwkt run examples/tally_add.json
  lwkt explore examples/crossed_lists.json

More: lwkt --help, lwkt COMMAND --help, and lwkt(7).",
    long_after: "\
Examples:
  lwkt run examples/tally_add.json
      prints the tokens' final values, how each thread ended, and `lawful`
  lwkt explore examples/crossed_lists.json
      prints each outcome that some order of turns has, and how many there are

Options stand after the command, before or after FILE. After -- a word is a FILE
even if it begins with a dash.

Environment: with NO_COLOR verdicts on a terminal have no colour.
Limits: a script has at most 1048576 bytes.
Exit status: 1 for wrong arguments, 3 for a file or stream that fails; lwkt(7)
lists them all.",
};

pub(crate) const RUN: Page = Page {
    about: "Run a script and print its report",
    long_about: "\
Run a script and print its report: the final values of the tokens, how each
thread ended, its log, and whether the run is lawful. A text is reported in its
names, JSON in numbers. `lwkt_run turns` and `lwkt_run threads` are older names
for lwkt run --numbers, without and with --threads.

The processors take their turns in rounds, so a script's report is the same each
time. With --threads the run is closed, not lawful, and reports may differ.

If a text has expectations, standard error quotes each, and says whether it
holds. One is `not decided` if a full log leaves it open; a log has a thread's
first 32 entries. If a script is rejected, standard error says where and why.",
    after: "More: lwkt run --help, and lwkt(7).",
    long_after: "\
Examples:
  lwkt run examples/tally_add.json
      prints `token 0 gen 1 cells 15`, a line for the thread, and `lawful`
  lwkt run --threads examples/four_processors_tally.json
      prints a line for each token and thread, and `closed`

Environment: with NO_COLOR verdicts on a terminal have no colour.
Limits: a script has at most 1048576 bytes.
Exit status: 0 if every thread ended and every expectation holds; lwkt(7) lists
the others.",
};

pub(crate) const SHOW: Page = Page {
    about: "Show a run turn by turn",
    long_about: "\
Run a script and show the run: a line for each turn, why threads haven't ended,
each log beside its steps, and the report. A text is shown in its names, unless
--numbers is given.

In place of this, --svg draws the turns, --trace writes the run as a trace, and
--chains lists the written sections of each token. --format html writes a page
that plays the run, --format perfetto a timeline for Perfetto or Chrome, and
--format svg is --svg. Name at most one of these.

All but --trace and --chains can be cut down to some turns with --turns A..B or
to some rounds with --rounds A..B; A or B may be left out. Lines show at most
the first 10000 of these turns, the others the first 2000.

An ORDER is a digit for the processor of each turn. Blanks, commas and dashes
may stand between digits: 0,1,1 is 011, and - is the order without a turn. It
goes with --turns, but not with --rounds.",
    after: "More: lwkt show --help, and lwkt(7).",
    long_after: "\
Examples:
  lwkt show --rounds 0..1 examples/crossed_lists.json
      prints turns 0 to 3, which are the first two rounds, and the report
  lwkt show --trace examples/crossed_lists.json | lwkt check
      prints `lawful`

Environment: no variable is read.
Limits: a script has at most 1048576 bytes.
Exit status: 0 if every thread ended, 2 if one didn't; lwkt(7) lists the others.",
};

pub(crate) const CHECK: Page = Page {
    about: "Check whether a trace can happen",
    long_about: "\
Check whether the events of a trace can happen in the model. It prints `lawful`,
or `unlawful INDEX` and a line with the failed precondition of that event, or
with the final value that differs.

With --lines the trace has an event a line: the initial state, the events, and
then the final values, if they are known.",
    after: "More: lwkt check --help, and lwkt(7).",
    long_after: "\
Examples:
  lwkt check examples/traces/take_under_readers.json
      prints `unlawful 4`, because the token is held shared by 0 and 2
  lwkt check --lines examples/traces/lines/take_under_readers.jsonl
      prints the same of the same trace, an event a line

Environment: no variable is read.
Limits: a trace has at most 268435456 bytes; with --lines it has any length.
Exit status: 0 if the trace is lawful, 4 if it isn't; lwkt(7) lists the others.",
};

pub(crate) const TEXT: Page = Page {
    about: "Translate a script between text and JSON, or run it",
    long_about: "\
Translate a script: --json writes it as JSON, --text as a text, without the
comments and expectations that it had. With --run it is run in rounds and
reported as by lwkt run --numbers. Name exactly one of the three.",
    after: "More: lwkt text --help, and lwkt(7).",
    long_after: "\
Examples:
  lwkt text --json examples/litmus/14_a_sum.lwkt > a_sum.json
      writes the script as JSON
  lwkt text --run examples/litmus/14_a_sum.lwkt
      prints the report, and on standard error that each expectation holds

Environment: no variable is read.
Limits: a script has at most 1048576 bytes, in either form.
Exit status: 0 if it is done, 5 if an expectation doesn't hold or isn't decided;
lwkt(7) lists the others.",
};

pub(crate) const EXPLORE: Page = Page {
    about: "Try every order of a script's turns",
    long_about: "\
Try every order in which the processors can take their turns, and print each
outcome once, with a shortest order that leads to it. Those of a text are in its
names, unless --numbers is given. Outcomes that end come
first, then deadlocks with what each thread waits for, then those that a bound
cut off. The last lines say from how many states no end can be reached, and how
much was tried.

Outcomes that differ only in their message lines share a number. A line that
begins with `or` gives the message lines in which another of them differs from
the first, and a shortest order to it.

The last line ends with `complete` if every order was tried. Else it ends with
`a part` and what ended the search: (states), (turns) or (memory) for the bound
that --states, --turns or --memory sets, (memory) also for a failed allocation,
(stopped) for --seconds, and (differs) if the real machine differs from the
plain one. A line before it says which option gives more.

A SIZE is a number of bytes, which K, M or G may follow. They are counted by how
many states there are, and how many parts they have. Without --states the bound
is 1000000 states, but with --memory there is none.

If a text has expectations, standard error quotes each, and says whether it
holds in all orders, with a shortest order that breaks it or shows it. An expectation is
`not decided` if no outcome decides it and not every order was tried, or if a
full log leaves it open. A log has a thread's first 32 entries.

Turns that can be exchanged aren't tried in each order; the outcomes are the
same as with --plain. With --random the outcomes have counts, the last line ends
with `a part` alone, and --states, --memory and --plain do nothing. A seed gives
the same orders on every machine.

With --json one object has all of it: outcomes with their orders and closing
values, by names for a text and else by numbers, and the verdicts. Standard
error then has none.

With --all FILE is a folder: each .lwkt and .json file in it is tried, and a
line says how many passed.",
    after: "More: lwkt explore --help, and lwkt(7).",
    long_after: "\
Examples:
  lwkt explore examples/crossed_lists.json
      prints three outcomes, and `3 outcomes; 95 states, 165 turns; complete`
  lwkt explore --random 1000 --seed 7 examples/dining_philosophers.json
      prints the one outcome that 1000 random orders have

Environment: with NO_COLOR verdicts on a terminal have no colour.
Limits: a script has at most 1048576 bytes; --states and --turns bound a search.
Exit status: 0 if every order was tried and all of it is well, 5 if some orders
weren't tried, or an expectation doesn't hold or isn't decided; lwkt(7) lists
the others.",
};
