use crate::reels::round_length;

/// In which form a run is shown.
#[derive(Clone, Copy, PartialEq, Eq)]
pub enum Rendering {
    /// A line for each turn that is chosen, why threads haven't ended, and the report.
    Lines,
    /// Its trace, as `lwkt_check` reads it.
    Trace,
    /// A picture of the turns that are chosen, in SVG.
    Picture,
    /// The written sections of each token.
    Chains,
    /// A page that plays the turns that are chosen, in HTML.
    Player,
    /// A timeline of the turns that are chosen, in JSON of the trace event format.
    Timeline,
}

/// What a range counts.
#[derive(Clone, Copy, PartialEq, Eq)]
pub enum Counted {
    /// Turns of processors.
    Turns,
    /// Rounds: one turn of each processor.
    Rounds,
}

/// How a run is shown, and which of its turns. These may be after the end of the run.
#[derive(Clone, Copy, PartialEq, Eq)]
pub struct Options {
    /// How the run is shown.
    pub rendering: Rendering,
    /// Whether turns or rounds are counted.
    pub counted: Counted,
    /// The first turn or round that is shown, counted from 0.
    pub first: usize,
    /// The last one, not before the first; 18446744073709551615 if no end was named.
    pub last: usize,
}

impl Options {
    ghost use Rattle.std.specs.Prelude.{◌≡◌, ◌↔◌, ◌≤◌, IsTrue};
    ghost use Rattle.lwkt_show.specs.Shown.{first_turn};
    ghost use Rattle.lwkt_show.specs.Lines.{range_first, range_last, round_length};

    /// The same as turns of so many processors.
    pub(crate) fn in_turns(&self, cpus: u8) -> Options
        ensures first { result.first ≡ range_first self.now.counted self.now.first (round_length cpus) }
        ensures last { result.last ≡ range_last self.now.counted self.now.last (round_length cpus) }
    {
        let cpus = round_length(cpus);
        match self.counted {
            Counted::Turns => *self,
            Counted::Rounds => Options {
                rendering: self.rendering,
                counted: Counted::Turns,
                first: self.first.saturating_mul(cpus),
                last: self
                    .last
                    .saturating_add(1)
                    .saturating_mul(cpus)
                    .saturating_sub(1),
            },
        }
    }

    /// Whether all that is chosen comes after the end of a run of so many processors that made so many turns.
    pub(crate) fn is_past(&self, cpus: u8, turns: usize) -> bool
        ensures { IsTrue result ↔ (turns ≤ first_turn self.now.counted self.now.first cpus) }
    {
        match self.counted {
            Counted::Turns => turns <= self.first,
            Counted::Rounds => match self.first.checked_mul(usize::from(cpus)) {
                Some(first) => turns <= first,
                None => true,
            },
        }
    }
}
