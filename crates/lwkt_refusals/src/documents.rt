//! What is bad at a place of a script or a trace.
use crate::checks::{Check, show_checks, show_list, show_number, show_numbers, show_truth};
use crate::json_parts::Part;
use crate::programs::{show_spot, spot_of};
use crate::rows::{Kind, show_row};
use crate::tokens::{Guarding, show_message, show_no_record, show_token};
use crate::words::Words;
use lwkt_base::limits::{STEP_LIMIT, THREAD_LIMIT};

/// What a text that was refused had to be.
#[derive(Clone, Copy, PartialEq, Eq)]
pub(crate) enum Document {
    /// A script.
    Script,
    /// A trace of one text.
    Trace,
    /// The line of this number of a trace in lines, counted from 1.
    Line(usize),
}

impl Document {
    /// What it is called.
    pub(crate) fn name(self) -> &'static str {
        match self {
            Document::Script => "the script",
            _ => "the trace",
        }
    }

    /// The most bytes that it may have.
    pub(crate) fn limit(self) -> usize {
        match self {
            Document::Trace => 268_435_456,
            _ => 1_048_576,
        }
    }
}

// The most events.
const EVENT_LIMIT: usize = 50_000_000;

// The most tokens, messages, rows, lists of tallies and ends of messages.
const LIMIT: usize = 64;

// What a script has to be.
const SCRIPT: [Check; 2] = [
    Check::Members(
        &[
            "version", "turns", "idle", "cpus", "tokens", "messages", "threads",
        ],
        7,
    ),
    Check::Lists(&["tokens", "messages", "threads"]),
];

// The members of a thread, the last two of them in version 3 alone.
const THREAD: [&str; 5] = ["cpu", "repeat", "steps", "vars", "service"];

// What a trace of one text has to be.
const TRACE: [Check; 2] = [
    Check::Members(
        &["version", "cpus", "tokens", "messages", "events", "last"],
        6,
    ),
    Check::Lists(&["tokens", "messages", "events"]),
];

// What the first line of a trace in lines has to be.
const OPENING: [Check; 2] = [
    Check::Members(&["version", "cpus", "tokens", "messages"], 4),
    Check::Lists(&["tokens", "messages"]),
];

// What the closing values have to be, but for their records.
const CLOSING: [Check; 2] = [
    Check::Members(&["rows", "gens", "tallies", "messages", "records"], 4),
    Check::Lists(&["rows", "gens", "tallies", "messages"]),
];

// The item at a place of a list of the whole.
fn item_of<'a>(whole: Part<'a>, name: &str, place: usize) -> Option<Part<'a>> {
    whole.member(name)?.item(place)
}

// Points at the item at a place of a list of the whole, and appends which it is: `item 3 of tokens: `.
fn show_item<'a>(out: &mut Words, whole: Part<'a>, name: &str, place: usize) -> Option<Part<'a>> {
    let item = item_of(whole, name, place)?;
    out.point(item);
    out.page.say(("item ", place, " of ", name, ": "));
    Some(item)
}

// Appends what is bad of a token or a message, by its place; says whether something is.
fn show_listed(out: &mut Words, whole: Part<'_>, place: usize, guarding: Guarding) -> bool {
    let name = if place < 2000 { "tokens" } else { "messages" };
    let at = place % 1000;
    if at >= LIMIT {
        if let Some(item) = item_of(whole, name, LIMIT) {
            out.point(item);
        }
        out.page.say(("there are more than ", LIMIT, " ", name));
        return true;
    }
    let cpus = whole.number_of("cpus").unwrap_or(0);
    match show_item(out, whole, name, at) {
        Some(token) if place < 2000 => show_token(out, token, guarding),
        Some(message) => show_message(out, message, cpus),
        None => false,
    }
}

// Appends what is bad of what a thread has in version 3 alone, but for its steps; says whether something is.
fn show_third(out: &mut Words, thread: Part<'_>) -> bool {
    if show_truth(out, thread, "service") || show_list(out, thread, "vars", 8) {
        return true;
    }
    matches!(thread.member("vars"), Some(vars) if show_numbers(out, vars, "a first value"))
}

// Appends what is bad of the members of a thread of a script with so many processors; says whether something is.
fn show_members_of(out: &mut Words, thread: Part<'_>, cpus: u64, kind: Kind) -> bool {
    let is_third = kind == Kind::ThirdStep;
    let checks = [
        if is_third {
            Check::Members(&THREAD, 5)
        } else {
            Check::Members(&THREAD[..3], 3)
        },
        Check::Number("cpu", 0, cpus.saturating_sub(1)),
        Check::Number("repeat", 1, 1_000_000),
    ];
    show_checks(out, thread, &checks)
        || (is_third && show_third(out, thread))
        || show_list(out, thread, "steps", STEP_LIMIT)
}

// Appends what is bad of a thread at a place of the list but for its steps; says whether something is.
fn show_thread_at(out: &mut Words, script: Part<'_>, at: usize, kind: Kind) -> bool {
    let cpus = script.number_of("cpus").unwrap_or(0);
    let Some(thread) = show_item(out, script, "threads", at) else {
        return false;
    };
    if show_members_of(out, thread, cpus, kind) {
        return true;
    }
    out.point(thread);
    if is_crowded(script, at, thread) {
        out.page.say("its processor has 16 threads before it, and may have no more");
    } else {
        out.page.say((
            "it has more than ",
            STEP_LIMIT,
            " steps, those in others among them",
        ));
    }
    true
}

// How many threads of the list before a place are on a processor.
fn threads_before(threads: Part<'_>, place: usize, cpu: u64) -> usize {
    let mut count = 0usize;
    let mut next = threads.item(0);
    for _before in 0..place {
        let Some(thread) = next else {
            break;
        };
        if thread.number_of("cpu") == Some(cpu) {
            count = count.saturating_add(1);
        }
        next = threads.behind(thread);
    }
    count
}

// Whether a thread at a place of the list is one too many of its processor.
fn is_crowded(script: Part<'_>, at: usize, thread: Part<'_>) -> bool {
    let (Some(threads), Some(cpu)) = (script.member("threads"), thread.number_of("cpu")) else {
        return false;
    };
    threads_before(threads, at, cpu) >= THREAD_LIMIT
}

// Appends a thread of the list by its processor and its number there: `thread 1.0`.
fn show_name(out: &mut Words, threads: Part<'_>, place: usize, thread: Part<'_>) {
    match thread.number_of("cpu") {
        Some(cpu) => out
            .page
            .say(("thread ", cpu, ".", threads_before(threads, place, cpu))),
        None => out.page.say(("thread number ", place)),
    }
}

// Appends what is bad of step j of thread n; says whether something is.
fn show_step(out: &mut Words, script: Part<'_>, n: usize, j: usize, kind: Kind) -> Option<()> {
    let threads = script.member("threads")?;
    let thread = threads.item(n)?;
    let spot = spot_of(thread.member("steps")?, j)?;
    out.page.say(("step ", j, " of "));
    show_name(out, threads, n, thread);
    out.page.say(": ");
    match kind {
        Kind::ThirdStep => show_spot(out, spot),
        _ => show_row(out, spot.step, kind),
    }
    Some(())
}

// What the version of a script says of its tokens and of its steps.
fn forms_of(script: Part<'_>) -> (Guarding, Kind) {
    match script.number_of("version") {
        Some(3) => (Guarding::Always, Kind::ThirdStep),
        Some(2) => (Guarding::Always, Kind::SecondStep),
        _ => (Guarding::Never, Kind::Step),
    }
}

// Appends what is bad at a place, if the place is one of a script.
fn show_in_script(out: &mut Words, script: Part<'_>, place: usize) -> bool {
    let (guarding, kind) = forms_of(script);
    match place {
        1 => show_checks(out, script, &SCRIPT),
        2 => show_number(out, script, "version", 1, 3),
        3 => show_number(out, script, "turns", 1, 1_000_000),
        4 => show_number(out, script, "idle", 1, 100_000_000),
        5 => show_number(out, script, "cpus", 1, 8),
        1000..=2999 => show_listed(out, script, place, guarding),
        3000..=3999 => show_thread_at(out, script, place - 3000, kind),
        100_000.. => {
            let at = place - 100_000;
            show_step(out, script, at / 1000, at % 1000, kind).is_some()
        }
        _ => false,
    }
}

// Appends what is bad of an event of the list; says whether something is.
fn show_event(out: &mut Words, trace: Part<'_>, place: usize) -> Option<()> {
    let event = item_of(trace, "events", place)?;
    out.point(event);
    if place >= EVENT_LIMIT {
        out.page
            .say(("there are more than ", EVENT_LIMIT, " events"));
        return Some(());
    }
    out.page.say(("event ", place, ": "));
    show_row(out, event, Kind::Event);
    Some(())
}

// The closing values, and what they are called: a member of a trace of one text, or the last line of one in lines.
#[derive(Clone, Copy)]
struct Closing<'a> {
    part: Part<'a>,
    name: &'static str,
    have: &'static str,
}

// Appends what is bad of the closing values but for the items of their lists; says whether something is.
fn show_last(out: &mut Words, last: Closing<'_>) -> bool {
    out.page.say((last.name, ": "));
    show_checks(out, last.part, &CLOSING)
        || (last.part.member("records").is_some()
            && show_list(out, last.part, "records", usize::MAX))
}

// Appends what is bad of the generations; says whether something is.
fn show_gens(out: &mut Words, last: Closing<'_>) -> bool {
    let Some(gens) = last.part.member("gens") else {
        return false;
    };
    out.page.say(("gens of ", last.name, ": "));
    show_numbers(out, gens, "a generation")
}

// Points at the item at a place of a list of the closing values, and appends which it is; none where it is one too many.
fn show_last_item<'a>(
    out: &mut Words,
    last: Closing<'a>,
    list: &str,
    at: usize,
) -> Option<Part<'a>> {
    let item = item_of(last.part, list, at)?;
    out.point(item);
    if at >= LIMIT {
        out.page.say((last.name, last.have, " more than 64 ", list));
        return None;
    }
    out.page
        .say((("item ", at, " of "), list, " of ", last.name, ": "));
    Some(item)
}

// Appends what is bad of an item of a list of the closing values, by its place; says whether something is.
fn show_in_last(out: &mut Words, last: Closing<'_>, place: usize) -> bool {
    let list = match place {
        4000..=4999 => "tallies",
        5000..=5999 => "messages",
        6000.. => "records",
        _ => "rows",
    };
    let at = place % 1000;
    let Some(item) = show_last_item(out, last, list, at) else {
        return at >= LIMIT;
    };
    match place {
        5000..=5999 => show_row(out, item, Kind::End),
        6000.. => {
            out.quote("", item, " is neither null nor a text: this is ");
            show_no_record(out, 64);
        }
        _ if item.first() == b'[' => return show_numbers(out, item, "a number"),
        _ => out.quote("", item, " is no list"),
    }
    true
}

// Appends what is bad at a place of the closing values, if the place is one of them; says whether something is.
fn show_closing(out: &mut Words, last: Closing<'_>, place: usize) -> bool {
    match place {
        4 => show_last(out, last),
        5 => show_gens(out, last),
        _ => show_in_last(out, last, place),
    }
}

// Appends what is bad at a place of an opening but for its shape, if the place is one of it; says whether something is.
fn show_opening(out: &mut Words, whole: Part<'_>, place: usize) -> bool {
    match place {
        2 => show_number(out, whole, "version", 1, 1),
        3 => show_number(out, whole, "cpus", 1, 8),
        1000..=2999 => show_listed(out, whole, place, Guarding::Maybe),
        _ => false,
    }
}

// The closing values of a trace of one text.
fn last_of<'a>(trace: Part<'a>) -> Option<Closing<'a>> {
    let part = trace.member("last")?;
    Some(Closing {
        part,
        name: "last",
        have: " has",
    })
}

// Appends what is bad at a place, if the place is one of a trace of one text.
fn show_in_trace(out: &mut Words, trace: Part<'_>, place: usize) -> bool {
    match place {
        1 => show_checks(out, trace, &TRACE),
        4..=5 | 3000..=6999 => match last_of(trace) {
            Some(last) => show_closing(out, last, place),
            None => false,
        },
        1_000_000.. => show_event(out, trace, place - 1_000_000).is_some(),
        _ => show_opening(out, trace, place),
    }
}

// Appends what is bad of a line that is an event.
fn show_event_line(out: &mut Words, line: Part<'_>, number: usize) -> bool {
    out.page.say(("event ", number.saturating_sub(2), ": "));
    show_row(out, line, Kind::Event);
    true
}

// Appends what is bad at a place, if the place is one of a line of a trace that has this number.
fn show_in_line(out: &mut Words, line: Part<'_>, number: usize, place: usize) -> bool {
    let last = Closing {
        part: line,
        name: "the closing values",
        have: " have",
    };
    match place {
        1 => show_checks(out, line, &OPENING),
        4..=5 | 3000..=6999 => show_closing(out, last, place),
        6 => {
            out.page
                .say("it stands behind the closing values, and no line may");
            true
        }
        1_000_000.. => show_event_line(out, line, number),
        _ => show_opening(out, line, place),
    }
}

/// Appends what is bad at a place.
pub(crate) fn show_place(out: &mut Words, document: Document, whole: Part<'_>, place: u32) {
    let place = place as usize;
    let is_stated = match document {
        Document::Script => show_in_script(out, whole, place),
        Document::Trace => show_in_trace(out, whole, place),
        Document::Line(number) => show_in_line(out, whole, number, place),
    };
    if !is_stated {
        out.page.say("this part is refused");
    }
}
