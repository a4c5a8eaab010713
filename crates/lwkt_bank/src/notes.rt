ghost use Rattle.std.specs.Prelude.{◌≡◌, ◌≢◌, ◌↔◌, ◌+◌, ◌-◌, ◌^◌, ◌<◌, ◌≤◌, length, true, false, IsTrue, MatchOption};
ghost use Rattle.lwkt_base.specs.Holding.{is_held};
ghost use Rattle.lwkt_core.specs.Tokens.{IsNotLastExclusive};
ghost use Rattle.lwkt_bank.specs.Notes.{no_note, held_in, touch_of, begun, note_changed, IsTouchOf, Overwrites};

use lwkt_base::limits::RECORD_LIMIT;
use lwkt_base::{Blob, Held, Mode};

/// A store to a cell in a section.
#[derive(Clone, Copy)]
pub struct Change {
    /// The cell's value in the section's first row.
    pub first: u64,
    /// The value stored.
    pub last: u64,
}

impl Change {
    #[inline]
    fn touch(self) -> Touch
        ensures { result ≡ touch_of self }
    {
        if self.first == self.last {
            Touch::Same
        } else {
            Touch::Other
        }
    }
}

/// How a cell stands in the present section.
#[derive(Clone, Copy)]
pub enum Touch {
    /// It wasn't stored to.
    Untouched,
    /// It was stored to, and has another value.
    Other,
    /// It was stored to, and has its first value.
    Same,
}

// The bytes of a record that has 64 of them.
#[inline(always)]
fn full(blob: &Blob) -> Option<&[u8; 64]>
    ensures { MatchOption result (length blob.now ≢ RECORD_LIMIT) (λ bytes. bytes.now ≡ blob.now) }
{
    if blob.len() == 64 {
        blob.as_slice().as_array()
    } else {
        None
    }
}

// Whether two records of 64 bytes have the same ones. Each byte is compared, so that no branch depends on one.
#[inline(always)]
fn same_bytes(first: &[u8; 64], blob: &[u8; 64]) -> bool
    ensures { IsTrue result ↔ (first.now ≡ blob.now) }
{
    let mut same = true;
    for place in 0..64 {
        same &= first[place] == blob[place];
    }
    same
}

// Whether two records are the same. Those of 64 bytes are compared without a call.
#[inline(always)]
fn are_same(first: &Blob, blob: &Blob) -> bool
    ensures { IsTrue result ↔ (first.now ≡ blob.now) }
{
    if first.len() != blob.len() {
        return false;
    }
    match (full(first), full(blob)) {
        (Some(first), Some(blob)) => same_bytes(first, blob),
        _ => first.is_same(blob),
    }
}

// How a record stands whose first one in the section is this, and which is the other now.
#[inline(always)]
fn touch_of_record(first: &Blob, blob: &Blob) -> Touch
    ensures { IsTouchOf result first.now blob.now }
{
    if are_same(first, blob) {
        Touch::Same
    } else {
        Touch::Other
    }
}

/// What a seat keeps of one token. What a take writes lies side by side in eight bytes, so that it is one write: the exchange
/// behind it waits for each.
#[derive(Clone, Copy)]
pub struct TokenNote {
    /// The section's first record. It counts only while the token is held exclusively and the record was written. It stands
    /// first, so that it lies on a multiple of 8 bytes where the seat does.
    pub first_blob: Blob,
    /// The first values of the cells that were stored to since the section began.
    pub first: [u64; 4],
    /// Their values now. They count only while the token is held exclusively.
    pub last: [u64; 4],
    /// What this processor has added to the cell of a Tally token.
    pub tally: u64,
    /// How each cell stands. It counts only while the token is held exclusively.
    pub cells: [Touch; 4],
    /// How the record stands. It counts only while the token is held exclusively.
    pub record_: Touch,
    /// The mode of the first reference that the seat has.
    pub mode: Mode,
    /// How many references it has, 0 to 256.
    pub references: u16,
}

impl TokenNote {
    /// The note of a token that was never taken.
    pub(crate) fn blank() -> TokenNote
        ensures { result ≡ no_note }
    {
        TokenNote {
            first_blob: Blob::of(&[]),
            first: [0; 4],
            last: [0; 4],
            tally: 0,
            cells: [Touch::Untouched; 4],
            record_: Touch::Untouched,
            mode: Mode::Exclusive,
            references: 0,
        }
    }

    /// What the seat holds.
    #[inline]
    pub(crate) fn held(&self) -> Held
        requires { self.now.references ≤ 256 }
        ensures { result ≡ held_in self.now }
    {
        if self.references == 0 {
            Held::Nothing
        } else {
            Held::Holds(self.mode, (self.references - 1) as u8)
        }
    }

    /// Whether the seat has one reference, which is exclusive.
    #[inline(always)]
    pub(crate) fn is_last(&self) -> bool
        ensures last { result ≡ true → held_in self.now ≡ Held.Holds Mode.Exclusive 0 }
        ensures not_last { result ≡ false → is_held (held_in self.now) ≡ true → IsNotLastExclusive (held_in self.now) }
    {
        matches!(self.mode, Mode::Exclusive) && self.references == 1
    }

    /// The token was taken in this mode.
    #[inline]
    pub(crate) fn take(&mut self, mode: Mode)
        ensures { self.new ≡ begun self.old mode }
    {
        self.cells = [Touch::Untouched; 4];
        self.record_ = Touch::Untouched;
        self.mode = mode;
        self.references = 1;
    }

    /// One reference more.
    #[inline]
    pub(crate) fn one_more(&mut self)
        requires { self.old.references < 256 }
        ensures { self.new ≡ record self.old { references = self.old.references + 1 } }
    {
        self.references += 1;
    }

    /// One reference less.
    #[inline]
    pub(crate) fn one_less(&mut self)
        requires { 0 < self.old.references }
        ensures { self.new ≡ record self.old { references = self.old.references - 1 } }
    {
        self.references -= 1;
    }

    /// No reference any more.
    #[inline]
    pub(crate) fn end(&mut self)
        ensures { self.new ≡ record self.old { references = 0 } }
    {
        self.references = 0;
    }

    /// The cell was stored to: its first value and the stored one are kept, and how it stands.
    #[inline]
    pub(crate) fn change(&mut self, cell: usize, change: Change)
        requires first { cell < length self.old.first }
        requires last { cell < length self.old.last }
        requires inside { cell < length self.old.cells }
        ensures { self.new ≡ note_changed self.old cell change }
    {
        self.first[cell] = change.first;
        self.last[cell] = change.last;
        self.cells[cell] = change.touch();
    }

    /// The record was this one, and is written now. The first write in a section keeps it, as the section's first record.
    #[inline(always)]
    pub(crate) fn write(&mut self, old: &Blob, blob: &Blob)
        ensures { Overwrites self.old self.new old.now blob.now }
    {
        match self.record_ {
            Touch::Untouched => {
                self.record_ = touch_of_record(old, blob);
                self.first_blob = *old;
            }
            Touch::Same | Touch::Other => {
                self.record_ = touch_of_record(&self.first_blob, blob);
            }
        }
    }

    /// This much more is added to the cell of a Tally token.
    #[inline]
    pub(crate) fn raise(&mut self, change: Change, k: u64)
        requires first { 0 < length self.old.first }
        requires last { 0 < length self.old.last }
        requires inside { 0 < length self.old.cells }
        requires fits { self.old.tally + k < 2 ^ 64 }
        ensures { self.new ≡ record (note_changed self.old 0 change) { tally = self.old.tally + k } }
    {
        self.change(0, change);
        self.tally += k;
    }
}
