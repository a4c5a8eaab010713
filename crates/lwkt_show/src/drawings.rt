//! How the parts of a picture are drawn.
use crate::boxes::{Labelled, below_of, show_box};
use crate::columns::Column;
use crate::labels::{Label, Tag};
use crate::layouts::{BOX, Layout, ROW, Spot};
use crate::marked::show_marked;
use crate::shapes::{
    BOLD, Point, digits, draw, letters_in, show_bar, show_flag, show_line, show_ring, show_text_at,
    value_class,
};
use crate::sketches::{Bar, Sketch, Stored, TurnBox, Way};
use crate::words::{mode_word, show_cell, show_fault, show_message, show_token_at};
use lwkt_base::Fault;
use lwkt_base::limits::CPU_LIMIT;
use lwkt_refusals::Page;
use lwkt_text::Names;
use lwkt_told::{Called, cells_of};

// The fewest letters of a value that are worth their room.
const VALUE_LETTERS: usize = 4;

// Appends what a bar says.
fn show_bar_title(out: &mut Page, names: Option<&Names>, bar: &Bar) {
    out.add("<title>token ");
    show_token_at(out, names, bar.spot.tok);
    out.add(" held ");
    out.add(mode_word(bar.mode));
    let numbers = [bar.spot.cpu, bar.spot.turn, bar.until];
    draw(out, " by processor @, turns @ to @</title>", &numbers);
}

// Where a bar begins in a band: at the band's edge if it goes on from before.
fn bar_begin(layout: &Layout, bar: &Bar, band: usize) -> usize {
    let begin = layout.columns.begin(band);
    if bar.spot.turn < begin {
        return layout.columns.x(begin);
    }
    layout.columns.x(bar.spot.turn).saturating_add(2)
}

// Where a bar ends in a band: at the band's edge if it goes on behind it.
fn bar_end(layout: &Layout, bar: &Bar, band: usize) -> usize {
    if bar.until > layout.columns.end(band) {
        return layout.columns.edge(band);
    }
    layout.columns.right(bar.until).saturating_sub(2)
}

// Appends a bar in each band in which it stands.
fn draw_bar(out: &mut Page, names: Option<&Names>, layout: &Layout, bar: &Bar) {
    let last = layout.columns.band(bar.until);
    for band in layout.columns.band(bar.spot.turn)..last.saturating_add(1) {
        if let Some(y) = layout.row(band, bar.spot.cpu, bar.spot.tok) {
            let x = bar_begin(layout, bar, band);
            let width = bar_end(layout, bar, band).saturating_sub(x);
            out.add("<g>");
            show_bar_title(out, names, bar);
            let at = Point { x, y };
            show_bar(out, at, width, ROW - 3, bar.spot.tok, bar.mode);
            out.add("</g>\n");
        }
    }
}

// The first digits of a number, so many.
fn front_of(number: u64, count: usize) -> u64 {
    let mut rest = number;
    for _place in 0..digits(number).saturating_sub(count) {
        rest /= 10;
    }
    rest
}

// Appends a value in so many letters: all of it, or its first digits where it is longer.
fn show_digits(out: &mut Page, stored: &Stored, room: usize) {
    let behind = if stored.more { 2 } else { 0 };
    let all = digits(stored.value).saturating_add(behind);
    let left = room.saturating_sub(2);
    if all <= room {
        out.number("", stored.value);
    } else if left > 0 {
        out.number("", front_of(stored.value, left));
    }
    if all > room || stored.more {
        out.add("..");
    }
}

// Appends a value in so many letters behind the number of its cell.
fn show_numbered(out: &mut Page, stored: &Stored, room: usize) {
    let before = digits(u64::from(stored.cell)).saturating_add(1);
    out.number("", u64::from(stored.cell));
    out.add(":");
    show_digits(out, stored, room.saturating_sub(before))
}

// How many letters the name of a cell has; of one without a name its number.
fn name_letters(names: &Names, stored: &Stored) -> usize {
    match cells_of(names, stored.spot.tok).get(usize::from(stored.cell)) {
        Some(name) if !name.as_str().is_empty() => name.as_str().len(),
        _ => digits(u64::from(stored.cell)),
    }
}

// Appends a value in so many letters behind the name of its cell, if there is room for that.
fn show_named(out: &mut Page, names: &Names, stored: &Stored, room: usize) {
    let behind = if stored.more { 2 } else { 0 };
    let value = digits(stored.value).saturating_add(behind);
    let before = name_letters(names, stored).saturating_add(1);
    let fits = before.saturating_add(value) <= room;
    if fits {
        out.say(Called {
            names: cells_of(names, stored.spot.tok),
            number: usize::from(stored.cell),
        });
    }
    out.add("=");
    let taken = if fits { before } else { 1 };
    show_digits(out, stored, room.saturating_sub(taken))
}

/// Appends a value in so many letters, behind what its cell is called.
pub(crate) fn show_stored(
    out: &mut Page,
    names: Option<&Names>,
    at: Point,
    stored: &Stored,
    room: usize,
) {
    show_text_at(out, at, value_class(stored.spot.tok, stored.mode));
    out.add("<title>");
    show_cell(out, names, stored.tok, stored.cell);
    out.number(
        if stored.is_read { " is " } else { " is now " },
        stored.value,
    );
    if stored.more {
        out.add("; further cells are read or stored in the same turn");
    }
    out.add("</title>");
    match names {
        Some(names) => show_named(out, names, stored, room),
        None => show_numbered(out, stored, room),
    }
    out.add("</text>\n");
}

// Appends a value on its token's bar.
fn draw_value(out: &mut Page, names: Option<&Names>, layout: &Layout, stored: &Stored) {
    let Some(at) = layout.spot(stored.spot) else {
        return;
    };
    let columns = &layout.columns;
    let band = columns.band(stored.spot.turn);
    let end = if stored.until > columns.end(band) {
        columns.edge(band)
    } else {
        columns.x(stored.until)
    };
    let end = end.max(columns.right(stored.spot.turn));
    let room = letters_in(end.saturating_sub(at.x).saturating_sub(6));
    if room < VALUE_LETTERS {
        return;
    }
    show_stored(out, names, at.by(4, 11), stored, room);
}

// Appends a mark in the row of the processor that set it.
fn draw_mark(out: &mut Page, names: Option<&Names>, layout: &Layout, mark: Spot) {
    let Some(at) = layout.spot(mark) else {
        return;
    };
    let x = layout.columns.middle(mark.turn);
    show_flag(out, Point { x, y: at.y });
    out.add("><title>token ");
    show_token_at(out, names, mark.tok);
    let behind = " marked by processor @ in turn @</title></path>\n";
    draw(out, behind, &[mark.cpu, mark.turn]);
}

// How far below two processors' turns a line from the one to the other begins and ends.
fn sides(cpu: usize, to: usize) -> (usize, usize) {
    if to > cpu {
        (BOX, 0)
    } else if to < cpu {
        (0, BOX)
    } else {
        (BOX + 3, BOX + 3)
    }
}

// Where a line between two processors leaves a band or comes into it.
fn halfway(layout: &Layout, band: usize, cpu: usize, to: usize, x: usize) -> Point {
    let (down, up) = sides(cpu, to);
    let from = layout.top(band, cpu).saturating_add(down);
    let until = layout.top(band, to).saturating_add(up);
    Point {
        x,
        y: from.saturating_add(until) / 2,
    }
}

// The middle of a processor's turn, so far below its top.
fn stalk(layout: &Layout, turn: usize, cpu: usize, below: usize) -> Point {
    Point {
        x: layout.columns.middle(turn),
        y: layout.turn(turn, cpu).y.saturating_add(below),
    }
}

// Appends the lines of a message that arrives at a processor in a turn: one, or where it arrives in another band two.
fn draw_arrow(out: &mut Page, layout: &Layout, way: &Way, cpu: usize, until: usize) {
    let columns = &layout.columns;
    let (down, up) = sides(way.cpu, cpu);
    let from = stalk(layout, way.since, way.cpu, down);
    let to = stalk(layout, until, cpu, up);
    let (band, to_band) = (columns.band(way.since), columns.band(until));
    let begins = way.since >= columns.span.first;
    if begins && band == to_band {
        return show_line(out, from, to, way.look, true);
    }
    if begins {
        let edge = halfway(layout, band, way.cpu, cpu, columns.edge(band));
        show_line(out, from, edge, way.look, false);
    }
    let x = columns.x(columns.begin(to_band));
    let edge = halfway(layout, to_band, way.cpu, cpu, x);
    show_line(out, edge, to, way.look, true);
}

// Appends the title of a message on its way.
fn show_way(out: &mut Page, names: Option<&Names>, way: &Way) {
    out.add("<g><title>");
    out.add(if way.look.is_urgent { "urgent " } else { "" });
    out.add(if way.look.is_reply { "reply to " } else { "" });
    out.add("message ");
    show_message(out, names, way.msg);
    out.number(", round ", way.round);
    draw(out, ": from processor @ in turn @", &[way.cpu, way.since]);
    match way.end {
        Some((cpu, until)) => draw(out, " to processor @ in turn @", &[cpu, until]),
        None => out.add(", not taken"),
    }
    out.add("</title>");
}

// Appends a message on its way.
fn draw_way(out: &mut Page, names: Option<&Names>, layout: &Layout, way: &Way) {
    show_way(out, names, way);
    match way.end {
        Some((cpu, until)) => draw_arrow(out, layout, way, cpu, until),
        None => show_ring(out, stalk(layout, way.since, way.cpu, BOX)),
    }
    out.add("</g>\n");
}

// Appends the rounds that share a column, after the words of their first turn.
fn show_rounds(out: &mut Page, column: Column) {
    let last = column.round.saturating_add(column.rounds.saturating_sub(1));
    draw(
        out,
        "; nothing changes in rounds @ to @",
        &[column.round, last],
    );
}

// Appends the box of a turn in its column.
fn draw_box(out: &mut Page, layout: &Layout, column: Column, turn: &TurnBox) {
    let at = layout.turn(turn.turn, turn.cpu);
    draw(out, "<g data-turn=\"@\"", &[turn.turn]);
    if column.rounds > 1 {
        let last = layout.columns.span.first.saturating_add(column.first);
        let last = last.saturating_add(column.turns.saturating_sub(1));
        let every = column.turns / column.rounds;
        draw(out, " data-until=\"@\" data-every=\"@\"", &[last, every]);
    }
    out.add("><title>");
    show_marked(out, turn.line.as_str().trim_end());
    if column.rounds > 1 {
        show_rounds(out, column);
    }
    out.add("</title>");
    let shown = Labelled {
        content: turn.content,
        label: turn.label.as_str(),
        below: below_of(column.rounds, turn.deed.as_str()),
        width: column.width,
        height: BOX,
    };
    show_box(out, at, shown, turn.crossed);
    out.add("</g>\n");
}

// Appends the boxes of turns, of those that share a column one for each processor.
fn draw_boxes(out: &mut Page, layout: &Layout, boxes: &[TurnBox]) {
    let mut drawn = [None; CPU_LIMIT];
    for turn in boxes {
        let Some(column) = layout.columns.column(turn.turn) else {
            return;
        };
        if let Some(last) = drawn.get_mut(turn.cpu) {
            if *last != Some(column.first) {
                draw_box(out, layout, column, turn);
            }
            *last = Some(column.first);
        }
    }
}

// Appends a fault in bold, and in words where the pointer rests on it.
fn show_fault_label(out: &mut Page, at: Point, fault: Fault, ends: bool) {
    show_text_at(out, at, BOLD);
    out.add("<title>");
    out.add(if ends {
        "a thread ended faulted "
    } else {
        "refused "
    });
    show_fault(out, fault);
    out.add("</title>");
}

// Appends a label above a turn.
fn draw_label(out: &mut Page, layout: &Layout, label: &Label) {
    let at = Point {
        x: label.x,
        y: layout.label(label.turn, label.cpu, label.line),
    };
    match label.tag {
        Tag::Fault(fault, ends) => show_fault_label(out, at, fault, ends),
        Tag::Mail(_, _) | Tag::Abort(_) => show_text_at(out, at, ""),
    }
    out.add(label.text.as_str());
    out.add("</text>\n");
}

// Appends the bars of tokens, and over them messages and replies: what lies behind the boxes.
fn draw_behind(out: &mut Page, names: Option<&Names>, layout: &Layout, ways: &[Way], bars: &[Bar]) {
    for bar in bars {
        draw_bar(out, names, layout, bar);
    }
    for way in ways {
        draw_way(out, names, layout, way);
    }
}

// Appends marks and values, which lie over the boxes of turns.
fn draw_over(
    out: &mut Page,
    names: Option<&Names>,
    layout: &Layout,
    marks: &[Spot],
    values: &[Stored],
) {
    for mark in marks {
        draw_mark(out, names, layout, *mark);
    }
    for stored in values {
        draw_value(out, names, layout, stored);
    }
}

/// Appends what a picture has, in names if some are given: what lies behind first.
pub(crate) fn draw_sketch(
    out: &mut Page,
    names: Option<&Names>,
    layout: &Layout,
    sketch: &Sketch,
    labels: &[Label],
) {
    draw_behind(out, names, layout, &sketch.ways, &sketch.bars);
    draw_boxes(out, layout, &sketch.boxes);
    draw_over(out, names, layout, &sketch.marks, &sketch.values);
    for label in labels {
        draw_label(out, layout, label);
    }
}
