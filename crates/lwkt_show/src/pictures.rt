//! A picture of a run.
ghost use Rattle.std.specs.Prelude.{◌≡◌, None, IfErr, IsTrue, length};
ghost use Rattle.lwkt_show.specs.Shown.{MayBeRefused};

use crate::boxes::{below_of, content_of, deed_of, is_alone, label_of, width_for as box_width};
use crate::columns::{Columns, Need, Span};
use crate::drawings::draw_sketch;
use crate::labels::{Labels, Tag};
use crate::layouts::{BOX, LEFT_LETTERS, Layout, left_for, width_for};
use crate::legends::legend_of;
use crate::options::Options;
use crate::reels::{Reel, Scene, round_length, scene_of};
use crate::replays::Replay;
use crate::shapes::{
    BOLD, Point, digits, draw, show_cut, show_label, show_rect, show_rule, show_text_at, show_word,
    text_width,
};
use crate::sketches::{Sketch, TurnBox};
use crate::turns::{pass_turn, show_turn};
use crate::verdicts::{Told, show_told, told_of};
use crate::words::{show_thread, show_token_at};
use lwkt_base::{Answer, Fault, OutOfMemory, ThreadId, ThreadState};
use lwkt_refusals::Page;
use lwkt_text::Names;
use std::alloc::Global;

// The most turns that a picture shows.
const PICTURE_LIMIT: usize = 2_000;

// How high the lines are in which the run's end is told.
const VERDICT: usize = 36;

// How wide a picture may be.
const WIDEST: usize = 1_280;

// How the parts are drawn, and what hatches and arrow heads are.
const STYLE: &str =
    "<style>text{font:12px monospace;paint-order:stroke;stroke:#fff;stroke-width:2px}.band{fill:none}.round{stroke:#ccc}.under{stroke:#fff;stroke-width:5}.bar{stroke:#000}.t0{fill:#0072b2}.t1{fill:#e69f00}.t2{fill:#009e73}.t3{fill:#d55e00}.t4{fill:#56b4e9}.t5{fill:#cc79a7}.t6{fill:#f0e442}.t7{fill:#000}.shared{fill:url(#lines)}.turn{fill:#fff;stroke:#000}.idle{fill:#fff;stroke:#666;stroke-dasharray:2 2}.way{stroke:#000;fill:none}.flag{stroke:#000;stroke-width:1.5}.cross{stroke:#000;stroke-width:2;fill:none}.bold{font-weight:bold}.bad{fill:#b00000}.light{fill:#fff;stroke:none}.dark{stroke:none}</style>\n<defs><pattern id=\"lines\" width=\"6\" height=\"6\" patternUnits=\"userSpaceOnUse\" patternTransform=\"rotate(45)\"><path d=\"M2 0v6\" stroke=\"#fff\" stroke-width=\"3\"/></pattern><marker id=\"head\" viewBox=\"0 0 8 8\" refX=\"8\" refY=\"4\" markerUnits=\"userSpaceOnUse\" markerWidth=\"9\" markerHeight=\"9\" orient=\"auto\"><path d=\"M0 0L8 4L0 8z\"/></marker></defs>\n";

// Appends the beginning of a picture: its size, and how its parts are drawn.
fn draw_head(out: &mut Page, width: usize, height: usize) {
    let size =
        "<svg xmlns=\"http://www.w3.org/2000/svg\" width=\"@\" height=\"@\" viewBox=\"0 0 @ @\">\n";
    draw(out, size, &[width, height, width, height]);
    out.add(
        "<title>a run of a script: processors from top to bottom, turns from left to right</title>\n",
    );
    out.add(STYLE);
    draw(
        out,
        "<rect width=\"@\" height=\"@\" fill=\"#fff\"/>\n",
        &[width, height],
    );
}

// Whether a column begins a round, or rounds.
fn begins_round(before: Option<usize>, round: usize) -> bool {
    before != Some(round)
}

// Appends a faint line where a round begins.
fn draw_round_line(out: &mut Page, layout: &Layout, band: usize, x: usize) {
    let from = Point {
        x,
        y: layout.head(band).saturating_sub(10),
    };
    let to = Point {
        x,
        y: layout.foot(band),
    };
    show_rule(out, from, to, "round");
}

// Appends the numbers of a band's rounds, as many as have room, with a line where each begins; along an order those of its turns.
fn draw_rounds(out: &mut Page, layout: &Layout, band: usize, along: bool) {
    let y = layout.head(band);
    let word = if along { "turn" } else { "round" };
    show_word(out, Point { x: 4, y }, word);
    let mut before = None;
    let mut free = 0usize;
    for column in &layout.columns.list {
        if column.band == band && begins_round(before, column.round) {
            before = Some(column.round);
            if !along {
                draw_round_line(out, layout, band, column.x);
            }
            if column.x >= free {
                let x = column.x.saturating_add(4);
                show_label(out, Point { x, y }, "", "", column.round);
                let letters = digits(column.round as u64).saturating_add(1);
                free = x.saturating_add(text_width(letters));
            }
        }
    }
    out.add("\n");
}

// Appends what stands on a page, at a place at the left; of a long text the front.
fn draw_left(out: &mut Page, at: Point, page: Page) -> Result<(), OutOfMemory> {
    let text = page.whole()?;
    show_text_at(out, at, "");
    show_cut(out, text.as_str(), LEFT_LETTERS);
    out.add("</text>");
    Ok(())
}

// Appends what a token is called, at a place.
fn draw_token(
    alloc: Global,
    out: &mut Page,
    names: Option<&Names>,
    at: Point,
    tok: usize,
) -> Result<(), OutOfMemory> {
    let mut page = Page::new(alloc);
    if names.is_none() {
        page.add("token ");
    }
    show_token_at(&mut page, names, tok);
    draw_left(out, at, page)
}

// Appends what a processor is called, and below that its thread if it has no other.
fn draw_processor(
    alloc: Global,
    out: &mut Page,
    names: Option<&Names>,
    at: Point,
    cpu: usize,
    alone: Option<ThreadId>,
) -> Result<(), OutOfMemory> {
    let Some(id) = alone else {
        show_label(out, at.by(0, BOX / 2 + 4), BOLD, "processor ", cpu);
        return Ok(());
    };
    show_label(out, at.by(0, BOX / 2 - 3), BOLD, "processor ", cpu);
    let mut page = Page::new(alloc);
    if names.is_none() {
        page.add("thread ");
    }
    show_thread(&mut page, names, id);
    draw_left(out, at.by(12, BOX - 5), page)
}

// The one thread of a processor, if it has no other.
fn alone_on(run: &Reel, cpu: usize) -> Option<ThreadId> {
    let mut found = None;
    for line in &run.closing.threads {
        if usize::from(line.id.cpu.0) == cpu {
            if found.is_some() {
                return None;
            }
            found = Some(line.id);
        }
    }
    found
}

// Appends what a processor and its tokens are called in a band.
fn draw_names(
    alloc: Global,
    out: &mut Page,
    names: Option<&Names>,
    run: &Reel,
    layout: &Layout,
    band: usize,
    cpu: usize,
) -> Result<(), OutOfMemory> {
    let at = Point {
        x: 4,
        y: layout.top(band, cpu),
    };
    draw_processor(alloc, out, names, at, cpu, alone_on(run, cpu))?;
    for tok in 0..64usize {
        if let Some(row) = layout.row(band, cpu, tok) {
            let y = row.saturating_add(11);
            draw_token(alloc, out, names, Point { x: 16, y }, tok)?;
        }
    }
    out.add("\n");
    Ok(())
}

// Appends the names and the numbers of rounds of a band.
fn draw_band(
    alloc: Global,
    out: &mut Page,
    names: Option<&Names>,
    run: &Reel,
    layout: &Layout,
    band: usize,
) -> Result<(), OutOfMemory> {
    let x = layout.columns.x(layout.columns.begin(band));
    let y = layout.head(band).saturating_add(4);
    let width = layout.columns.edge(band).saturating_sub(x);
    let height = layout.foot(band).saturating_sub(y);
    show_rect(out, Point { x, y }, width, height, "band");
    out.add("/>");
    draw_rounds(out, layout, band, run.order.is_some());
    for cpu in 0..round_length(run.script.cpus) {
        draw_names(alloc, out, names, run, layout, band, cpu)?;
    }
    Ok(())
}

// The fault with which a thread ended in a turn.
fn ended_by(replay: &Replay, scene: &Scene) -> Option<Fault> {
    for story in &replay.stories {
        if story.ended_in == Some(scene.number) {
            if let ThreadState::Faulted(fault) = story.end {
                return Some(fault);
            }
        }
    }
    None
}

// The fault that stands above a turn: with which a thread ended, or by which what was asked was refused.
fn fault_of(replay: &Replay, scene: &Scene) -> Option<(Fault, bool)> {
    if let Some(fault) = ended_by(replay, scene) {
        return Some((fault, true));
    }
    match &scene.poll?.answer {
        Some(Answer::Refused(fault)) => Some((*fault, false)),
        _ => None,
    }
}

// Whether nothing changes in a turn: no thread runs or ends, and nothing happens to a token or a message.
fn is_idle(replay: &Replay, scene: &Scene) -> bool
    ensures { IsTrue result → (scene.now.poll ≡ None) × (length scene.now.part.now ≡ 0) }
{
    match scene.poll {
        Some(_) => false,
        None => scene.part.is_empty() && ended_by(replay, scene).is_none(),
    }
}

// What the box of a turn says, and what below that: the thread and what it does, or only that where its processor has no other thread.
fn words_of(
    alloc: Global,
    names: Option<&Names>,
    replay: &Replay,
    scene: &Scene,
) -> Result<(String, String), OutOfMemory> {
    let content = content_of(replay, scene);
    let nothing = String::new(alloc);
    match &scene.poll {
        Some(poll) if is_alone(replay, scene.cpu) => { Ok((deed_of(alloc, names, poll)?, nothing)) }
        Some(poll) => {
            let label = label_of(alloc, names, scene.cpu, content)?;
            Ok((label, deed_of(alloc, names, poll)?))
        }
        None => Ok((label_of(alloc, names, scene.cpu, content)?, nothing)),
    }
}

// Notes the box of a turn, which has been made, with its line.
fn note_box(
    alloc: Global,
    names: Option<&Names>,
    sketch: &mut Sketch,
    replay: &Replay,
    scene: &Scene,
    line: Page,
) -> Result<(), OutOfMemory> {
    let cpu = usize::from(scene.cpu);
    let mut crossed = false;
    if let Some((fault, ends)) = fault_of(replay, scene) {
        crossed = ends;
        sketch.tag(scene.number, cpu, Tag::Fault(fault, ends))?;
    }
    let content = content_of(replay, scene);
    let (label, deed) = words_of(alloc, names, replay, scene)?;
    let below = below_of(1, deed.as_str());
    let need = Need {
        round: scene.round,
        width: box_width(content, label.as_str(), below, crossed),
        is_idle: is_idle(replay, scene),
    };
    let turn = TurnBox {
        turn: scene.number,
        cpu,
        content,
        label,
        deed,
        crossed,
        line: line.whole()?,
    };
    sketch.add_box(turn, need)
}

// Notes a turn, which is before the first that is shown, or is shown.
fn note_turn(
    alloc: Global,
    names: Option<&Names>,
    sketch: &mut Sketch,
    replay: &mut Replay,
    scene: &Scene,
    is_shown: bool,
) -> Result<(), OutOfMemory> {
    if is_shown {
        let mut line = Page::new(alloc);
        show_turn(alloc, names, replay, &mut line, scene);
        note_box(alloc, names, sketch, replay, scene, line)?;
    } else {
        pass_turn(alloc, names, replay, scene);
    }
    for event in scene.part {
        sketch.note(replay, event, scene.number)?;
    }
    Ok(())
}

// Notes the turns up to the last that is shown.
fn note_turns(
    alloc: Global,
    names: Option<&Names>,
    run: &Reel,
    sketch: &mut Sketch,
    replay: &mut Replay,
    shown: Span,
) -> Result<(), OutOfMemory> {
    let mut from = 0usize;
    for (number, turn) in run.turns.iter().enumerate() {
        if number > shown.last {
            break;
        }
        let scene = scene_of(run, number, turn, from);
        note_turn(alloc, names, sketch, replay, &scene, number >= shown.first)?;
        from = from.saturating_add(turn.events);
    }
    sketch.finish()
}

// The turns of a run that these options show.
fn shown_of(run: &Reel, chosen: Options) -> Span {
    let end = run.turns.len().saturating_sub(1);
    let chosen = chosen.in_turns(run.script.cpus);
    let first = chosen.first.min(end);
    let most = first.saturating_add(PICTURE_LIMIT - 1);
    let last = chosen.last.min(most).min(end).max(first);
    Span { first, last }
}

// Appends which turns are shown, if not all are.
fn draw_choice(out: &mut Page, y: usize, turns: usize, shown: Span) {
    if shown.first == 0 && shown.last >= turns.saturating_sub(1) {
        return;
    }
    show_text_at(out, Point { x: 4, y }, "");
    let numbers = [shown.first, shown.last, turns, PICTURE_LIMIT];
    draw(out, "turns @ to @ of @ in all; at most @", &numbers);
    out.add(" are shown, chosen by --turns A..B or --rounds A..B</text>\n");
}

// Appends a picture.
fn draw_picture(
    alloc: Global,
    out: &mut Page,
    names: Option<&Names>,
    run: &Reel,
    layout: &Layout,
    sketch: &Sketch,
    labels: &Labels,
) -> Result<(), OutOfMemory> {
    for band in 0..layout.columns.bands() {
        draw_band(alloc, out, names, run, layout, band)?;
    }
    draw_sketch(out, names, layout, sketch, &labels.list);
    Ok(())
}

// Refused where memory was refused for what a thread computed on its way.
fn ways_whole(replay: &Replay) -> Result<(), OutOfMemory> {
    for story in &replay.stories {
        if let Some(refused) = story.lost() {
            return Err(refused);
        }
    }
    Ok(())
}

/// What the picture of a run has that is made again up to the last turn that is shown.
pub(crate) fn sketch_of(
    alloc: Global,
    names: Option<&Names>,
    run: &Reel,
    replay: &mut Replay,
    chosen: Options,
) -> Result<Sketch, OutOfMemory> {
    let shown = shown_of(run, chosen);
    let mut sketch = Sketch::new(alloc, shown)?;
    note_turns(alloc, names, run, &mut sketch, replay, shown)?;
    ways_whole(replay)?;
    Ok(sketch)
}

// What is told of the run's end, if its last turn is shown.
fn told_in(
    alloc: Global,
    names: Option<&Names>,
    run: &Reel,
    replay: &Replay,
    shown: Span,
) -> Result<Option<Told>, OutOfMemory> {
    if shown.last < run.turns.len().saturating_sub(1) {
        return Ok(None);
    }
    Ok(Some(told_of(alloc, names, run, replay)?))
}

// How wide a picture with these columns is, in which this is told of the run's end.
fn width_with(columns: &Columns, told: &Option<Told>) -> usize {
    let letters = match told {
        Some(told) => told.first.len(),
        None => 0,
    };
    let line = text_width(letters).saturating_add(12).min(WIDEST);
    width_for(columns).max(line)
}

/// The picture that has this, of a run that was made again up to the last turn that is shown.
pub(crate) fn drawn(
    alloc: Global,
    names: Option<&Names>,
    run: &Reel,
    replay: &Replay,
    sketch: &Sketch,
) -> Result<String, OutOfMemory> {
    let shown = sketch.span;
    let columns = Columns::new(alloc, shown, left_for(names), &sketch.needs)?;
    let labels = Labels::new(alloc, names, &columns, &sketch.tags)?;
    let told = told_in(alloc, names, run, replay, shown)?;
    let width = width_with(&columns, &told);
    let cpus = round_length(run.script.cpus);
    let layout = Layout::new(alloc, cpus, columns, run.trace, &labels.lines)?;
    let top = match &told {
        Some(_) => layout.height.saturating_add(VERDICT),
        None => layout.height,
    };
    let (legend, end) = legend_of(
        alloc,
        names,
        sketch,
        &layout.columns.list,
        &labels.list,
        top,
        width,
    );
    let mut out = Page::new(alloc);
    draw_head(&mut out, width, end.saturating_add(20));
    draw_picture(alloc, &mut out, names, run, &layout, sketch, &labels)?;
    if let Some(told) = &told {
        show_told(&mut out, told, layout.height);
    }
    out.add_page(&legend);
    draw_choice(&mut out, end.saturating_add(10), run.turns.len(), shown);
    out.add("</svg>\n");
    out.whole()
}

/// A picture of a run, in SVG, in names if some are given: of the turns that are chosen, but of at most the first 2000 of them. If not all turns of the run are
/// shown, a line below says which are.
///
/// Refused with `Memory` if memory is refused, and with `Limits` or `LawBroken` as `State::open` is for the script's opening.
pub(crate) fn picture_of(
    alloc: Global,
    names: Option<&Names>,
    run: &Reel,
    chosen: Options,
) -> Result<String, Fault>
    ensures refused { IfErr result (MayBeRefused run.now.script.now) }
{
    let mut replay = Replay::open(alloc, run.script, &run.closing.threads, true)?;
    let sketch = sketch_of(alloc, names, run, &mut replay, chosen)?;
    Ok(drawn(alloc, names, run, &replay, &sketch)?)
}
