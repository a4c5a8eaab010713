ghost use Rattle.std.specs.Prelude.{◌≡◌, ◌≤◌};
ghost use Rattle.serde_json.specs.View.{view, items_view};
ghost use Rattle.lwkt_trace.specs.Words.{row_of, row_item, section_items};

use lwkt_base::limits::CELL_LIMIT;
use lwkt_base::{Row, Section, TokId};
use lwkt_script::steps::whole_at;
use serde_json::Value;

// The row of some numbers.
#[tactic(auto, using(lwkt_script::proofs::Counts::items_counted))]
fn row_of(items: &[Value]) -> Option<Row>
    ensures { result ≡ row_of (items_view items.now) }
{
    if items.len() > CELL_LIMIT {
        return None;
    }
    let mut cells = [0u64; 4];
    for (place, item) in items.iter().enumerate() {
        cells[place] = item.as_u64()?;
    }
    Some(Row::of(&cells[..items.len()]))
}

// Item i as a row.
fn row_at(value: &Value, i: usize) -> Option<Row>
    ensures { result ≡ row_item i (view value.now) }
{
    row_of(value.get(i)?.as_array()?.as_slice())
}

/// The section of a token that items 3 to 5 state: its generation, and the rows at its beginning and at its end.
pub fn section_in(tok: u8, value: &Value) -> Option<Section>
    ensures { result ≡ section_items tok (view value.now) }
{
    let generation = whole_at(value, 3)?;
    let before = row_at(value, 4)?;
    let after = row_at(value, 5)?;
    Some(Section {
        before,
        after,
        generation,
        tok: TokId(tok),
    })
}
