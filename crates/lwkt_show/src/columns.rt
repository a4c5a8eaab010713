//! The columns of a picture: one for each turn, in bands below each other. Rounds in which nothing changes share one.
use crate::shapes::{digits, text_width};
use lwkt_base::OutOfMemory;
use lwkt_base::memory::push;
use std::alloc::Global;

// How far a band reaches to the right at most, in pixels: a picture is then no wider than 1280, and its letters need not be made smaller.
const RIGHTMOST: usize = 1_268;

/// The turns that a picture shows, from the first to the last.
#[derive(Clone, Copy)]
pub(crate) struct Span {
    /// The first one, counted from 0.
    pub first: usize,
    /// The last one.
    pub last: usize,
}

impl Span {
    /// Whether something that goes on from a turn to another is in the picture.
    pub(crate) fn is_shown(self, since: usize, until: usize) -> bool {
        until >= self.first && since <= self.last
    }
}

/// What a turn needs of its column.
#[derive(Clone, Copy)]
pub(crate) struct Need {
    /// The turn's round, counted from 0.
    pub round: usize,
    /// How wide it has to be, in pixels.
    pub width: usize,
    /// Whether nothing changes in the turn.
    pub is_idle: bool,
}

/// A column.
#[derive(Clone, Copy)]
pub(crate) struct Column {
    /// The band in which it stands, from 0.
    pub band: usize,
    /// Where it begins, in pixels from the left.
    pub x: usize,
    /// How wide it is, in pixels.
    pub width: usize,
    /// Its first turn, by its place among those that are shown.
    pub first: usize,
    /// How many turns share it.
    pub turns: usize,
    /// The round of its first turn.
    pub round: usize,
    /// How many rounds share it; 1 for that of a turn.
    pub rounds: usize,
}

// Rounds beside each other: one, or all of those next to each other in which nothing changes.
#[derive(Clone, Copy)]
struct Group {
    round: usize,
    rounds: usize,
    // Its first turn by its place, and how many it has.
    first: usize,
    turns: usize,
    is_idle: bool,
}

impl Group {
    // How wide the number of its rounds is, in a box.
    fn width(&self) -> usize {
        text_width(digits(self.rounds as u64).saturating_add(1)).saturating_add(11)
    }

    // Whether its turns share a column.
    fn is_folded(&self) -> bool {
        self.is_idle && self.rounds > 1
    }
}

// Adds a turn to the last round, if it is of that one; or else begins another one.
fn add_need(rounds: &mut Vec<Group>, place: usize, need: Need) -> Result<(), OutOfMemory> {
    if let Some(last) = rounds.last_mut() {
        if last.round == need.round {
            last.turns = last.turns.saturating_add(1);
            last.is_idle = last.is_idle && need.is_idle;
            return Ok(());
        }
    }
    let round = Group {
        round: need.round,
        rounds: 1,
        first: place,
        turns: 1,
        is_idle: need.is_idle,
    };
    push(rounds, round)
}

// The rounds of turns.
fn rounds_of(alloc: Global, needs: &[Need]) -> Result<Vec<Group>, OutOfMemory> {
    let mut rounds = Vec::new(alloc);
    for (place, need) in needs.iter().enumerate() {
        add_need(&mut rounds, place, *need)?;
    }
    Ok(rounds)
}

// Adds a round to the last group, if nothing changes in both; or else begins another one.
fn add_round(groups: &mut Vec<Group>, round: Group) -> Result<(), OutOfMemory> {
    if let Some(last) = groups.last_mut() {
        if last.is_idle && round.is_idle {
            last.turns = last.turns.saturating_add(round.turns);
            last.rounds = last.rounds.saturating_add(round.rounds);
            return Ok(());
        }
    }
    push(groups, round)
}

// The groups of rounds.
fn groups_of(alloc: Global, needs: &[Need]) -> Result<Vec<Group>, OutOfMemory> {
    let rounds = rounds_of(alloc, needs)?;
    let mut groups = Vec::new(alloc);
    for round in &rounds {
        add_round(&mut groups, *round)?;
    }
    Ok(groups)
}

// How wide the widest of some turns has to be, and how wide all are together.
fn widths_of(needs: &[Need], group: Group) -> (usize, usize) {
    let mut widest = 0usize;
    let mut all = 0usize;
    for place in group.first..group.first.saturating_add(group.turns) {
        if let Some(need) = needs.get(place) {
            widest = widest.max(need.width);
            all = all.saturating_add(need.width);
        }
    }
    (widest, all)
}

/// Where the next column stands.
#[derive(Clone, Copy)]
pub(crate) struct Next {
    /// Where each band begins, in pixels from the left.
    pub left: usize,
    /// The band, from 0.
    pub band: usize,
    /// How far from the left.
    pub x: usize,
}

impl Next {
    ghost use Rattle.std.specs.Prelude.{◌≡◌};
    ghost use Rattle.lwkt_show.specs.Columns.{has_room, with_room, behind};

    // Whether so much has room in this band. In each there is room for one column.
    fn has_room(self, width: usize) -> bool
        ensures { result ≡ has_room self width }
    {
        self.x <= self.left || width <= RIGHTMOST.saturating_sub(self.x)
    }

    // The same, in the next band if so much has no room in this one.
    fn with_room(self, width: usize) -> Next
        ensures { result ≡ with_room self width }
    {
        if self.has_room(width) {
            return self;
        }
        Next {
            left: self.left,
            band: self.band.saturating_add(1),
            x: self.left,
        }
    }

    // Where the one behind a column stands.
    fn behind(self, column: Column) -> Next
        ensures { result ≡ behind self column }
    {
        Next {
            left: self.left,
            band: column.band,
            x: column.x.saturating_add(column.width),
        }
    }

    // The column that is so wide and stands here, or in the next band if it has no room.
    fn column(self, width: usize, group: Group) -> Column
        ensures band { result.band ≡ (with_room self width).band }
        ensures x { result.x ≡ (with_room self width).x }
        ensures width { result.width ≡ width }
    {
        let next = self.with_room(width);
        Column {
            band: next.band,
            x: next.x,
            width,
            first: group.first,
            turns: group.turns,
            round: group.round,
            rounds: group.rounds,
        }
    }
}

/// The columns of a picture.
#[derive(Drop)]
pub(crate) struct Columns {
    /// The turns that are shown.
    pub span: Span,
    /// The columns, from left to right and from above.
    pub list: Vec<Column>,
    // Of each turn its column.
    places: Vec<usize>,
    // Of each band its first turn and its last, and where it ends.
    bands: Vec<Band>,
    left: usize,
}

// A band: its first turn and its last, and where it ends.
#[derive(Clone, Copy)]
struct Band {
    first: usize,
    last: usize,
    right: usize,
}

impl Columns {
    // Adds a column, and says that its turns have it.
    fn add(&mut self, column: Column) -> Result<(), OutOfMemory> {
        let place = self.list.len();
        for _turn in 0..column.turns {
            push(&mut self.places, place)?;
        }
        self.note_band(column)?;
        push(&mut self.list, column)
    }

    // Notes that a column stands in its band, which is the last one or the next.
    fn note_band(&mut self, column: Column) -> Result<(), OutOfMemory> {
        let first = self.span.first.saturating_add(column.first);
        let last = first.saturating_add(column.turns.saturating_sub(1));
        let right = column.x.saturating_add(column.width);
        if let Some(band) = self.bands.get_mut(column.band) {
            band.last = last;
            band.right = right;
            return Ok(());
        }
        push(&mut self.bands, Band { first, last, right })
    }

    // Adds a column for each turn of a group.
    fn add_turns(&mut self, needs: &[Need], group: Group, from: Next) -> Result<Next, OutOfMemory> {
        let mut next = from;
        for place in group.first..group.first.saturating_add(group.turns) {
            if let Some(need) = needs.get(place) {
                let turn = Group {
                    round: need.round,
                    rounds: 1,
                    first: place,
                    turns: 1,
                    is_idle: need.is_idle,
                };
                let column = next.column(need.width, turn);
                self.add(column)?;
                next = next.behind(column);
            }
        }
        Ok(next)
    }

    // Adds the columns of a group: one, or one for each turn.
    fn add_group(&mut self, needs: &[Need], group: Group, next: Next) -> Result<Next, OutOfMemory> {
        let (widest, all) = widths_of(needs, group);
        if group.is_folded() {
            let column = next.column(widest.max(group.width()), group);
            self.add(column)?;
            return Ok(next.behind(column));
        }
        self.add_turns(needs, group, next.with_room(all))
    }

    /// The columns of turns that need this, as far right of the left side.
    pub(crate) fn new(
        alloc: Global,
        span: Span,
        left: usize,
        needs: &[Need],
    ) -> Result<Self, OutOfMemory> {
        let mut columns = Columns {
            span,
            list: Vec::new(alloc),
            places: Vec::new(alloc),
            bands: Vec::new(alloc),
            left,
        };
        let mut next = Next {
            left,
            band: 0,
            x: left,
        };
        let groups = groups_of(alloc, needs)?;
        for group in &groups {
            next = columns.add_group(needs, *group, next)?;
        }
        Ok(columns)
    }

    // The column of a turn. One before those shown counts as the first, one behind them as the last.
    fn place(&self, turn: usize) -> usize {
        let turn = turn.min(self.span.last).saturating_sub(self.span.first);
        self.places.get(turn).copied().unwrap_or(0)
    }

    /// The column of a turn, if one is shown.
    pub(crate) fn column(&self, turn: usize) -> Option<Column> {
        self.list.get(self.place(turn)).copied()
    }

    /// The band in which a turn stands.
    pub(crate) fn band(&self, turn: usize) -> usize {
        match self.column(turn) {
            Some(column) => column.band,
            None => 0,
        }
    }

    /// How many bands there are.
    pub(crate) fn bands(&self) -> usize {
        self.bands.len().max(1)
    }

    // A band; where nothing is shown, one without a turn.
    fn band_at(&self, band: usize) -> Band {
        self.bands.get(band).copied().unwrap_or(Band {
            first: self.span.first,
            last: self.span.first,
            right: self.left,
        })
    }

    /// The first turn of a band.
    pub(crate) fn begin(&self, band: usize) -> usize {
        self.band_at(band).first
    }

    /// The last turn of a band.
    pub(crate) fn end(&self, band: usize) -> usize {
        self.band_at(band).last
    }

    /// Where a turn begins.
    pub(crate) fn x(&self, turn: usize) -> usize {
        match self.column(turn) {
            Some(column) => column.x,
            None => self.left,
        }
    }

    /// How wide a turn's column is.
    pub(crate) fn width_of(&self, turn: usize) -> usize {
        match self.column(turn) {
            Some(column) => column.width,
            None => 0,
        }
    }

    /// The middle of a turn's column.
    pub(crate) fn middle(&self, turn: usize) -> usize {
        self.x(turn).saturating_add(self.width_of(turn) / 2)
    }

    /// Where a turn's column ends.
    pub(crate) fn right(&self, turn: usize) -> usize {
        self.x(turn).saturating_add(self.width_of(turn))
    }

    /// Where a band ends.
    pub(crate) fn edge(&self, band: usize) -> usize {
        self.band_at(band).right
    }

    /// How far the widest band reaches to the right.
    pub(crate) fn widest(&self) -> usize {
        let mut widest = self.left;
        for band in &self.bands {
            widest = widest.max(band.right);
        }
        widest
    }
}
