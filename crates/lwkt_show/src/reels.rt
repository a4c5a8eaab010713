//! What was kept of a run, and its turns one by one.
ghost use Rattle.std.specs.Prelude.{◌≡◌};
ghost use Rattle.std.specs.Option.{option_copied};
ghost use Rattle.lwkt_verdict.specs.Run.{poll_of};
ghost use Rattle.lwkt_show.specs.Lines.{round_length, round_of, processor_of_turn};

use lwkt_core::Event;
use lwkt_report::Closing;
use lwkt_script::Script;
use lwkt_verdict::turns::poll_of;
use lwkt_verdict::{Poll, Turn};

/// A run of a script, in rounds or along an order of its processors: what was kept of it, and what its report shows.
#[derive(Clone, Copy)]
pub struct Reel<'a> {
    /// The script that was run.
    pub script: &'a Script,
    /// The events of all turns in order, and after them those of the stop.
    pub trace: &'a [Event],
    /// The polls of all turns, in order.
    pub polls: &'a [Poll],
    /// The turns in order.
    pub turns: &'a [Turn],
    /// Of a run along an order the processor of each turn, 0 to 7; of a run in rounds nothing.
    pub order: Option<&'a [u8]>,
    /// What the report shows.
    pub closing: &'a Closing,
}

/// One turn of a run: its number, its processor, what it asked, and its events.
#[derive(Clone, Copy)]
pub(crate) struct Scene<'a> {
    /// Its number, counted from 0.
    pub number: usize,
    /// Its round, counted from 0; along an order its number.
    pub round: usize,
    /// Its processor, 0 to 7.
    pub cpu: u8,
    /// What it asked, if it polled a thread.
    pub poll: Option<Poll>,
    /// Its events, in order.
    pub part: &'a [Event],
}

/// At most so many events from a place on.
pub(crate) fn part_of(events: &[Event], from: usize, count: usize) -> &[Event] {
    if from > events.len() {
        return &[];
    }
    let rest = &events[from..];
    if count > rest.len() {
        return rest;
    }
    &rest[..count]
}

/// How many turns a round has; one if there is no processor.
pub(crate) fn round_length(cpus: u8) -> usize
    ensures { result ≡ round_length cpus }
{
    if cpus == 0 { 1 } else { usize::from(cpus) }
}

// The round of the turn of a number. Along an order each turn is a round of its own.
fn round_of(run: &Reel, number: usize) -> usize
    ensures { result ≡ round_of (option_copied run.now.order) run.now.script.now.cpus number }
{
    match run.order {
        Some(_) => number,
        None => number / round_length(run.script.cpus),
    }
}

// The processor of the turn of a number.
fn processor_of_turn(run: &Reel, number: usize) -> u8
    ensures { result ≡ processor_of_turn (option_copied run.now.order) run.now.script.now.cpus number }
{
    match run.order {
        Some(order) => {
            if number < order.len() {
                order[number]
            } else {
                0
            }
        }
        None => (number % round_length(run.script.cpus)) as u8,
    }
}

/// The turn of a number, whose events begin at a place of the trace.
pub(crate) fn scene_of<'a>(run: &Reel<'a>, number: usize, turn: &Turn, from: usize) -> Scene<'a>
    ensures number { result.number ≡ number }
    ensures round { result.round ≡ round_of (option_copied run.now.order) run.now.script.now.cpus number }
    ensures cpu { result.cpu ≡ processor_of_turn (option_copied run.now.order) run.now.script.now.cpus number }
    ensures poll { result.poll ≡ poll_of run.now.polls.now turn.now }
{
    Scene {
        number,
        round: round_of(run, number),
        cpu: processor_of_turn(run, number),
        poll: poll_of(run.polls, turn),
        part: part_of(run.trace, from, turn.events),
    }
}
