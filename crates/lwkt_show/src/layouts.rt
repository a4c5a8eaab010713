//! Where the parts of a picture stand.
use crate::columns::Columns;
use crate::shapes::{Point, text_width};
use lwkt_base::OutOfMemory;
use lwkt_base::limits::{CPU_LIMIT, TOKEN_LIMIT};
use lwkt_base::memory::push;
use lwkt_core::Event;
use lwkt_text::Names;
use lwkt_told::width_of;
use std::alloc::Global;

/// The most letters of a name that a box shows.
pub(crate) const NAME_LETTERS: usize = 12;

/// The height of a turn's box, and that of a token's row, in pixels.
pub(crate) const BOX: usize = 32;

pub(crate) const ROW: usize = 17;

// The height of a line of labels.
const LINE: usize = 14;

// How far above a box its lowest label stands: an arrow's head fits between them.
const LIFT: usize = 9;

// How far below a box its processor's rows begin.
const DROP: usize = 7;

// What stands left of a band's first turn at least and right of its last, how wide a picture is at least, and what stands above all
// bands and between two processors.
const LEFT: usize = 100;

const RIGHT: usize = 12;

const NARROWEST: usize = 720;

const HEAD: usize = 16;

const GAP: usize = 8;

/// The most letters of a name that stand at the left.
pub(crate) const LEFT_LETTERS: usize = 20;

/// What stands left of a band's first turn, with some names or else with numbers.
pub(crate) fn left_for(names: Option<&Names>) -> usize {
    match names {
        Some(names) => {
            let letters = width_of(names).min(LEFT_LETTERS);
            text_width(letters).saturating_add(24).max(LEFT)
        }
        None => LEFT,
    }
}

/// A token of a processor in a turn.
#[derive(Clone, Copy)]
pub(crate) struct Spot {
    /// The processor, 0 to 7.
    pub cpu: usize,
    /// The token, 0 to 63.
    pub tok: usize,
    /// The turn.
    pub turn: usize,
}

/// Where the parts of a picture stand.
#[derive(Drop)]
pub(crate) struct Layout {
    /// The turns that are shown.
    pub columns: Columns,
    // Of each band where its numbers of rounds stand, and where the turns of each of 8 processors do.
    heads: Vec<usize>,
    tops: Vec<usize>,
    // Of each processor's tokens how far below its turns they stand, 64 for each processor; 0 for one without a row.
    rows: Vec<usize>,
    /// How high all bands are together, in pixels.
    pub height: usize,
}

/// The place of a token of a processor in a table.
pub(crate) fn slot_of(cpu: usize, tok: usize) -> usize {
    cpu.saturating_mul(TOKEN_LIMIT).saturating_add(tok)
}

/// The place of a processor in a band in a table.
pub(crate) fn seat_of(band: usize, cpu: usize) -> usize {
    band.saturating_mul(CPU_LIMIT).saturating_add(cpu)
}

// The number in a table's place, 0 where it has none.
fn number_at(table: &[usize], place: usize) -> usize {
    table.get(place).copied().unwrap_or(0)
}

// The table of rows, with those noted of tokens that a trace lets processors hold or mark.
fn used_rows(alloc: Global, trace: &[Event]) -> Result<Vec<usize>, OutOfMemory> {
    let mut rows = zeros(alloc, CPU_LIMIT * TOKEN_LIMIT)?;
    for event in trace {
        if let Event::Take { cpu, tok }
        | Event::Share { cpu, tok }
        | Event::Mark { cpu, tok } = *event
        {
            let slot = slot_of(usize::from(cpu.0), usize::from(tok.0));
            if let Some(row) = rows.get_mut(slot) {
                *row = 1;
            }
        }
    }
    Ok(rows)
}

/// So many zeros.
pub(crate) fn zeros(alloc: Global, count: usize) -> Result<Vec<usize>, OutOfMemory> {
    let mut table = Vec::new(alloc);
    for _place in 0..count {
        push(&mut table, 0usize)?;
    }
    Ok(table)
}

// Puts the rows of a processor below its turns, and says how high turns and rows are together.
fn place_rows(rows: &mut [usize], cpu: usize) -> usize {
    let mut at = BOX + DROP;
    for tok in 0..TOKEN_LIMIT {
        if let Some(row) = rows.get_mut(slot_of(cpu, tok)) {
            if *row > 0 {
                *row = at;
                at = at.saturating_add(ROW);
            }
        }
    }
    at
}

// How high each of so many processors is with its rows, which are put in their places; 0 for one that isn't there.
fn depths_of(rows: &mut [usize], cpus: usize) -> [usize; CPU_LIMIT] {
    let mut depths = [0usize; CPU_LIMIT];
    for (cpu, depth) in depths.iter_mut().enumerate() {
        if cpu < cpus {
            *depth = place_rows(rows, cpu);
        }
    }
    depths
}

// Puts the processors of a band below each other from this height on, each below its lines of labels; says where they end.
fn place_band(
    tops: &mut Vec<usize>,
    band: usize,
    depths: &[usize],
    lines: &[usize],
    from: usize,
) -> Result<usize, OutOfMemory> {
    let mut at = from;
    for (cpu, depth) in depths.iter().enumerate() {
        let count = number_at(lines, seat_of(band, cpu));
        let above = count.max(1).saturating_mul(LINE).saturating_add(LIFT + 2);
        let top = at.saturating_add(above);
        push(tops, top)?;
        if *depth > 0 {
            at = top.saturating_add(*depth);
        }
    }
    Ok(at.saturating_add(3 * GAP))
}

impl Layout {
    /// The layout of so many processors over these columns of a run with this trace, with so many lines of labels above each processor
    /// of each band.
    pub(crate) fn new(
        alloc: Global,
        cpus: usize,
        columns: Columns,
        trace: &[Event],
        lines: &[usize],
    ) -> Result<Self, OutOfMemory> {
        let mut rows = used_rows(alloc, trace)?;
        let depths = depths_of(&mut rows, cpus);
        let mut heads = Vec::new(alloc);
        let mut tops = Vec::new(alloc);
        let mut at = HEAD;
        for band in 0..columns.bands() {
            push(&mut heads, at)?;
            at = place_band(&mut tops, band, &depths, lines, at)?;
        }
        Ok(Layout {
            columns,
            heads,
            tops,
            rows,
            height: at,
        })
    }

    /// Where the numbers of a band's rounds stand.
    pub(crate) fn head(&self, band: usize) -> usize {
        number_at(&self.heads, band)
    }

    /// Where a band ends below.
    pub(crate) fn foot(&self, band: usize) -> usize {
        match self.heads.get(band.saturating_add(1)) {
            Some(head) => head.saturating_sub(3 * GAP),
            None => self.height.saturating_sub(3 * GAP),
        }
    }

    /// Where a processor's turns stand in a band.
    pub(crate) fn top(&self, band: usize, cpu: usize) -> usize {
        number_at(&self.tops, seat_of(band, cpu))
    }

    /// Where a token of a processor stands in a band, if it has a row.
    pub(crate) fn row(&self, band: usize, cpu: usize, tok: usize) -> Option<usize> {
        let below = number_at(&self.rows, slot_of(cpu, tok));
        if below == 0 {
            return None;
        }
        Some(self.top(band, cpu).saturating_add(below))
    }

    /// Where a processor's turn stands.
    pub(crate) fn turn(&self, turn: usize, cpu: usize) -> Point {
        Point {
            x: self.columns.x(turn),
            y: self.top(self.columns.band(turn), cpu),
        }
    }

    /// Where a turn of a token of a processor stands, if the token has a row.
    pub(crate) fn spot(&self, spot: Spot) -> Option<Point> {
        let y = self.row(self.columns.band(spot.turn), spot.cpu, spot.tok)?;
        Some(Point {
            x: self.columns.x(spot.turn),
            y,
        })
    }

    /// How high a line of labels stands above a processor's turn.
    pub(crate) fn label(&self, turn: usize, cpu: usize, line: usize) -> usize {
        let lift = line.saturating_mul(LINE).saturating_add(LIFT);
        self.turn(turn, cpu).y.saturating_sub(lift)
    }
}

/// How wide a picture with these columns is.
pub(crate) fn width_for(columns: &Columns) -> usize {
    columns.widest().saturating_add(RIGHT).max(NARROWEST)
}
