ghost use Rattle.std.specs.Prelude.{◌↔◌, IsTrue};

/// What the cells of a token obey whenever no exclusive holder is writing them (own).
#[derive(Clone, Copy, Debug, PartialEq, Eq)]
pub enum Law {
    /// Nothing is asked of the cells.
    Any,
    /// The cells add up to the parameter, as whole numbers without wrapping.
    Sum,
    /// No cell is less than the one before it.
    Order,
    /// Each cell is at most the parameter.
    Cap,
    /// The one cell is the parameter plus all that the processors have added; at the opening it is the parameter.
    Tally,
    /// The first cell is the length of the token's record.
    Len,
}

impl Law {
    ghost use Rattle.lwkt_base.specs.Law.{OpensLawfully, Obeys};

    /// Whether these cells, beside a record of this length, obey the law as opening cells. Without a length there is no record.
    pub fn holds(&self, cells: &[u64], param: u64, len: Option<u64>) -> bool
        ensures { IsTrue result ↔ OpensLawfully self.now param cells.now len }
    {
        match self {
            Law::Any => true,
            Law::Sum => adds_up_to(cells, param),
            Law::Order => is_non_decreasing(cells),
            Law::Cap => cells.iter().all(|cell| *cell <= param),
            Law::Tally => is_only(cells, param),
            Law::Len => is_length(cells, len),
        }
    }

    /// Whether these cells, beside a record of this length, obey the law at the end of a section: that of the opening, but
    /// that nothing is asked of the cells of a Tally token, whose sum holds at every moment.
    pub fn holds_of_section(&self, cells: &[u64], param: u64, len: Option<u64>) -> bool
        ensures { IsTrue result ↔ Obeys self.now param cells.now len }
    {
        *self == Law::Tally || self.holds(cells, param, len)
    }
}

ghost use Rattle.std.specs.Prelude.{◌≡◌, ◌∷◌, [], sum};
ghost use Rattle.std.specs.List.Sorted.{IsNonDecreasing};
ghost use Rattle.lwkt_base.specs.Law.{IsLength};

fn adds_up_to(cells: &[u64], param: u64) -> bool
    ensures { IsTrue result ↔ (sum cells.now ≡ param) }
{
    let mut total = 0u64;
    for cell in cells {
        match total.checked_add(*cell) {
            Some(next) => total = next,
            None => return false,
        }
    }
    total == param
}

fn is_non_decreasing(cells: &[u64]) -> bool
    ensures { IsTrue result ↔ IsNonDecreasing cells.now }
{
    let mut last = 0u64;
    for cell in cells {
        if *cell < last {
            return false;
        }
        last = *cell;
    }
    true
}

fn is_only(cells: &[u64], param: u64) -> bool
    ensures { IsTrue result ↔ (cells.now ≡ param ∷ []) }
{
    match cells {
        [cell] => *cell == param,
        _ => false,
    }
}

fn is_length(cells: &[u64], len: Option<u64>) -> bool
    ensures { IsTrue result ↔ IsLength cells.now len }
{
    match len {
        None => false,
        Some(len) => cells.get(0).copied() == Some(len),
    }
}
