//! A run as a timeline in the trace event format, which Perfetto and Chrome read: a track for each processor, and for each token that a
//! processor held; a slice for each turn and each holding; a flow for each message. A turn is a microsecond long.
ghost use Rattle.std.specs.Prelude.{IfErr};
ghost use Rattle.lwkt_show.specs.Shown.{MayBeRefused};
ghost use Rattle.lwkt_refusals.specs.Pages.{GrowsBy};
ghost use Rattle.lwkt_show.specs.Timelines.{place_text, track_text};

use crate::boxes::Kind;
use crate::columns::{Need, Span};
use crate::layouts::{slot_of, zeros};
use crate::marked::show_quoted;
use crate::options::Options;
use crate::pictures::sketch_of;
use crate::reels::{Reel, round_length};
use crate::replays::Replay;
use crate::sketches::{Bar, Sketch, TurnBox, Way};
use crate::words::{mode_word, show_message, show_token_at};
use lwkt_base::limits::{CPU_LIMIT, TOKEN_LIMIT};
use lwkt_base::{Fault, OutOfMemory};
use lwkt_refusals::Page;
use lwkt_text::Names;
use std::alloc::Global;

// The number of the group of tracks of processors, and that of tokens.
const CPUS: usize = 1;

const TOKENS: usize = 2;

/// Where an event stands: on which track of which group, and from when on.
#[derive(Clone, Copy)]
pub struct Site {
    /// The group: 1 for processors, 2 for tokens.
    pub group: usize,
    /// The track in it, from 1.
    pub track: usize,
    /// The turn.
    pub turn: usize,
}

// Appends where an event stands.
fn show_place(out: &mut Page, site: Site)
    ensures { GrowsBy out.old out.new (place_text site) }
{
    out.size(",\"pid\":", site.group);
    out.size(",\"tid\":", site.track);
    out.size(",\"ts\":", site.turn)
}

// Appends the beginning of what names a group, or a track of it.
fn begin_name(out: &mut Page, what: &str, group: usize, track: usize)
    ensures { GrowsBy out.old out.new (track_text what.now group track) }
{
    out.add("{\"ph\":\"M\",\"name\":\"");
    out.add(what);
    out.size("\",\"pid\":", group);
    out.size(",\"tid\":", track);
    out.add(",\"args\":{\"name\":\"")
}

// Appends what names a group of tracks, and the first event of all.
fn show_groups(out: &mut Page) {
    begin_name(out, "process_name", CPUS, 0);
    out.add("processors\"}},\n");
    begin_name(out, "process_name", TOKENS, 0);
    out.add("tokens\"}}");
}

// Appends the name of a processor's track.
fn show_cpu_track(out: &mut Page, cpu: usize) {
    out.add(",\n");
    begin_name(out, "thread_name", CPUS, cpu.saturating_add(1));
    out.size("processor ", cpu);
    out.add("\"}}");
}

// Appends what a token is called.
fn show_token_name(out: &mut Page, names: Option<&Names>, tok: usize) {
    if names.is_none() {
        out.add("token ");
    }
    show_token_at(out, names, tok)
}

// The track of a token that a processor held.
fn track_of(cpu: usize, tok: usize) -> usize {
    tok.saturating_mul(CPU_LIMIT)
        .saturating_add(cpu)
        .saturating_add(1)
}

// Appends the name of the track of a token that a processor held.
fn show_token_track(out: &mut Page, names: Option<&Names>, cpu: usize, tok: usize) {
    out.add(",\n");
    begin_name(out, "thread_name", TOKENS, track_of(cpu, tok));
    show_token_name(out, names, tok);
    out.size(" on processor ", cpu);
    out.add("\"}}");
}

// Which tokens processors held: 1 in the place of each such token of a processor.
fn held_of(alloc: Global, bars: &[Bar]) -> Result<Vec<usize>, OutOfMemory> {
    let mut held = zeros(alloc, CPU_LIMIT * TOKEN_LIMIT)?;
    for bar in bars {
        if let Some(slot) = held.get_mut(slot_of(bar.spot.cpu, bar.spot.tok)) {
            *slot = 1;
        }
    }
    Ok(held)
}

// Appends the names of the tracks of tokens that a processor held.
fn show_tracks_of(out: &mut Page, names: Option<&Names>, held: &[usize], cpu: usize) {
    for tok in 0..TOKEN_LIMIT {
        if held.get(slot_of(cpu, tok)).copied().unwrap_or(0) > 0 {
            show_token_track(out, names, cpu, tok);
        }
    }
}

// Appends the names of all tracks.
fn show_tracks(
    alloc: Global,
    out: &mut Page,
    names: Option<&Names>,
    run: &Reel,
    sketch: &Sketch,
) -> Result<(), OutOfMemory> {
    show_groups(out);
    let held = held_of(alloc, &sketch.bars)?;
    for cpu in 0..round_length(run.script.cpus) {
        show_cpu_track(out, cpu);
        show_tracks_of(out, names, &held, cpu);
    }
    Ok(())
}

// Appends what a turn is called: the thread and what it does, or for what one waits.
fn show_turn_name(out: &mut Page, turn: &TurnBox) {
    match turn.content.kind {
        Kind::Thread | Kind::Ready => {}
        Kind::Empty => out.add("no thread"),
        Kind::Token | Kind::Reply | Kind::Port => out.add("waits: "),
    }
    show_quoted(out, turn.label.as_str());
    if !turn.deed.is_empty() {
        out.add(" ");
        show_quoted(out, turn.deed.as_str());
    }
}

// Appends a turn.
fn show_turn_slice(out: &mut Page, turn: &TurnBox) {
    let is_idle = turn.content.kind != Kind::Thread;
    out.add(",\n{\"ph\":\"X\",\"name\":\"");
    show_turn_name(out, turn);
    out.add(if is_idle {
        "\",\"cat\":\"idle\""
    } else {
        "\",\"cat\":\"turn\""
    });
    let site = Site {
        group: CPUS,
        track: turn.cpu.saturating_add(1),
        turn: turn.turn,
    };
    show_place(out, site);
    out.add(",\"dur\":1,\"args\":{\"line\":\"");
    show_quoted(out, turn.line.as_str().trim_end());
    out.add("\"}}");
}

// Appends the turns, but for those of processors without a thread that is left in which nothing changes.
fn show_turns(out: &mut Page, boxes: &[TurnBox], needs: &[Need]) {
    for (turn, need) in boxes.iter().zip(needs.iter()) {
        if turn.content.kind != Kind::Empty || !need.is_idle {
            show_turn_slice(out, turn);
        }
    }
}

// Appends a token that a processor held, from the turn that took it up to the turn that gave it back.
fn show_holding(out: &mut Page, names: Option<&Names>, bar: &Bar) {
    out.add(",\n{\"ph\":\"X\",\"name\":\"");
    show_token_name(out, names, bar.spot.tok);
    out.add(" ");
    out.add(mode_word(bar.mode));
    out.add("\",\"cat\":\"token\"");
    let site = Site {
        group: TOKENS,
        track: track_of(bar.spot.cpu, bar.spot.tok),
        turn: bar.spot.turn,
    };
    show_place(out, site);
    out.size(",\"dur\":", bar.until.saturating_sub(bar.spot.turn));
    out.size(",\"args\":{\"processor\":", bar.spot.cpu);
    out.add("}}");
}

// Appends an end of a message's way: `s` where it leaves, `f` where it arrives.
fn show_end(
    out: &mut Page,
    names: Option<&Names>,
    way: &Way,
    number: usize,
    phase: &str,
    site: Site,
) {
    out.add(",\n{\"ph\":\"");
    out.add(phase);
    out.add("\",\"name\":\"");
    out.add(if way.look.is_reply { "reply to " } else { "" });
    if names.is_none() {
        out.add("message ");
    }
    show_message(out, names, way.msg);
    out.size("\",\"cat\":\"message\",\"id\":", number);
    show_place(out, site);
    out.add("}");
}

// Appends the way of a message of which both ends are shown.
fn show_flow(out: &mut Page, names: Option<&Names>, span: Span, way: &Way, number: usize) {
    let Some((cpu, until)) = way.end else {
        return;
    };
    if way.since < span.first || until > span.last {
        return;
    }
    let from = Site {
        group: CPUS,
        track: way.cpu.saturating_add(1),
        turn: way.since,
    };
    let to = Site {
        group: CPUS,
        track: cpu.saturating_add(1),
        turn: until,
    };
    show_end(out, names, way, number, "s", from);
    show_end(out, names, way, number, "f\",\"bp\":\"e", to);
}

// Appends the tokens that were held.
fn show_holdings(out: &mut Page, names: Option<&Names>, bars: &[Bar]) {
    for bar in bars {
        show_holding(out, names, bar);
    }
}

// Appends the ways of messages.
fn show_flows(out: &mut Page, names: Option<&Names>, span: Span, ways: &[Way]) {
    for (number, way) in ways.iter().enumerate() {
        show_flow(out, names, span, way, number.saturating_add(1));
    }
}

// Appends what stands before the events: which turns are shown, of so many.
fn show_front(out: &mut Page, span: Span, turns: usize) {
    out.size(
        "{\"displayTimeUnit\":\"ns\",\"otherData\":{\"first\":",
        span.first,
    );
    out.size(",\"last\":", span.last);
    out.size(",\"turns\":", turns);
    out.add("},\"traceEvents\":[\n");
}

// The timeline of a run that is made again.
fn timeline(
    alloc: Global,
    names: Option<&Names>,
    run: &Reel,
    replay: &mut Replay,
    chosen: Options,
) -> Result<String, OutOfMemory> {
    let sketch = sketch_of(alloc, names, run, replay, chosen)?;
    let mut out = Page::new(alloc);
    show_front(&mut out, sketch.span, run.turns.len());
    show_tracks(alloc, &mut out, names, run, &sketch)?;
    show_turns(&mut out, &sketch.boxes, &sketch.needs);
    show_holdings(&mut out, names, &sketch.bars);
    show_flows(&mut out, names, sketch.span, &sketch.ways);
    out.add("\n]}\n");
    out.whole()
}

/// The timeline of a run, in JSON of the trace event format, in names if some are given: of the turns that are chosen, but of at most the
/// first 2000 of them.
///
/// Refused with `Memory` if memory is refused, and with `Limits` or `LawBroken` as `State::open` is for the script's opening.
pub(crate) fn timeline_of(
    alloc: Global,
    names: Option<&Names>,
    run: &Reel,
    chosen: Options,
) -> Result<String, Fault>
    ensures refused { IfErr result (MayBeRefused run.now.script.now) }
{
    let mut replay = Replay::open(alloc, run.script, &run.closing.threads, true)?;
    Ok(timeline(alloc, names, run, &mut replay, chosen)?)
}
