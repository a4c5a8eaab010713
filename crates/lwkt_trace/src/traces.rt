ghost use Rattle.std.specs.Prelude.{◌≡◌};

use lwkt_base::{Blob, Cells, CpuId, MsgEnd, MsgSpec, TokId, TokSpec};
use lwkt_core::{Event, Final};
use lwkt_script::Series;

/// An event as a trace states it.
#[derive(Clone, Copy)]
pub enum Stated {
    /// The whole event.
    Whole(Event),
    /// A written give, without its section.
    Given { cpu: CpuId, tok: TokId },
}

/// The closing values of a trace.
#[derive(Drop)]
pub struct Closing {
    /// Each token's cells.
    pub rows: Series<Cells>,
    /// Each token's generation.
    pub gens: Cells,
    /// Each token's tallies.
    pub tallies: Series<Cells>,
    /// Each message's owner state and round.
    pub messages: Series<MsgEnd>,
    /// Each token's record, if it has one; none of any where they are left out.
    pub blobs: Series<Option<Blob>>,
}

impl Closing {
    /// The closing values as the model has them. Takes no memory.
    pub fn into_final(self) -> Final
        ensures rows { result.rows.items ≡ self.rows }
        ensures gens { result.gens.items ≡ self.gens }
        ensures tallies { result.tallies.items ≡ self.tallies }
        ensures messages { result.messages.items ≡ self.messages }
        ensures blobs { result.blobs.items ≡ self.blobs }
    {
        Final {
            rows: self.rows.into_vec(),
            gens: self.gens.into_vec(),
            tallies: self.tallies.into_vec(),
            messages: self.messages.into_vec(),
            blobs: self.blobs.into_vec(),
        }
    }
}

/// A trace, read.
#[derive(Drop)]
pub struct Trace {
    /// How many processors there are, 1 to 8.
    pub cpus: u8,
    /// At most 64 tokens, by their numbers.
    pub tokens: Series<TokSpec>,
    /// At most 64 messages, by their numbers.
    pub messages: Series<MsgSpec>,
    /// The events, in order, as they are stated.
    pub events: Series<Stated>,
    /// The closing values, or none where they were left out.
    pub last: Option<Closing>,
}
