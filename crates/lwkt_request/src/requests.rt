//! What the words of the command line ask for.
use lwkt_explore::{Bounds, Method};
use lwkt_show::Options;

/// In which form it is written what a search finds.
#[derive(Clone, Copy, PartialEq, Eq)]
pub enum Layout {
    /// As lines, with each outcome's report.
    Lines,
    /// `--json`: as one JSON object.
    Json,
}

/// Which orders of a script's turns are tried, and how.
#[derive(Clone, Copy)]
pub struct Search {
    /// `--states`, `--turns` and `--memory`: 1000000 states and 100000 turns if they aren't named; with `--memory` as many states as there
    /// are numbers.
    pub bounds: Bounds,
    /// `Plain` with `--plain`, else `Reduced`.
    pub method: Method,
    /// `--random`: how many random orders are tried in place of all.
    pub random: Option<u64>,
    /// `--seed`: by what the random orders are chosen; 0 if it isn't named.
    pub seed: u64,
    /// `--seconds`: after how many seconds the search stops with what it found.
    pub seconds: Option<u64>,
    /// `--progress`: whether a line on standard error reports each second how far the search is.
    pub progress: bool,
    /// `--numbers`: whether outcomes of a text are written in numbers, and not in its names.
    pub in_numbers: bool,
    /// `--json`: in which form it is written what is found.
    pub layout: Layout,
    /// `--all`: whether the path is that of a folder, each script of which is tried.
    pub all: bool,
}

/// What `lwkt text` makes of a script.
#[derive(Clone, Copy)]
pub enum Form {
    /// The script as JSON.
    Json,
    /// The script as a text.
    Text,
    /// The report of its run in rounds, with its expectations judged.
    Run,
}

/// In which words a run is reported.
#[derive(Clone, Copy, PartialEq, Eq)]
pub enum Wording {
    /// A text in its names; JSON, which has none, in numbers.
    Names,
    /// `--numbers`: in numbers.
    Numbers,
    /// As `lwkt_run` reports: in numbers, with the line of a fault in place of a missing report.
    OldName,
}

/// What is to be done with what is read.
#[derive(Clone, Copy)]
pub enum Task {
    /// A script is run and reported.
    Run {
        /// `--threads`: whether each processor runs on an OS thread of its own, and not in rounds on one.
        on_threads: bool,
        /// In which words it is reported. By those of `lwkt_run`, if the path is `turns` or `threads` and no such file is there, the words
        /// of the command line are misuse, as those of `OldUsage` are.
        wording: Wording,
    },
    /// A run is shown.
    Show {
        /// `--threads`, as for `Run`. Only chains are shown of such a run.
        on_threads: bool,
        /// `--numbers`: whether the run of a text is shown in numbers, and not in its names.
        in_numbers: bool,
        /// How the run is shown.
        options: Options,
    },
    /// A trace is checked.
    Check {
        /// `--lines`: whether it is a trace with an event a line.
        by_lines: bool,
    },
    /// A script is translated, or run in rounds.
    Text(Form),
    /// Orders of a script's turns are tried.
    Explore(Search),
}

/// A request.
#[derive(Drop)]
pub struct Request {
    /// What is to be done.
    pub task: Task,
    /// `show --order`: the processor of each turn, 0 to 9, whether it is there or not; `None` for rounds, and for every other task.
    pub order: Option<Vec<u8>>,
    /// The file, or folder, to be read; `None` for standard input.
    pub path: Option<String>,
}

/// What the words of a command line ask for.
#[derive(Drop)]
pub enum Asked {
    /// This request.
    Do(Request),
    /// A help page or the version: this text, on standard output, with status 0.
    Print(String),
    /// Nothing that `lwkt` does: this text, on standard error, with status 1.
    Misuse(String),
    /// Nothing that `lwkt_run` does: its usage line `lwkt_run: turns or threads`, on standard output, with status 1.
    OldUsage,
}
