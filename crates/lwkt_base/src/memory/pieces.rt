//! Texts put together of pieces.
ghost use Rattle.std.specs.Prelude.{◌≡◌, ℕ, ◌++◌, List, OnOk, string_bytes, encode_utf8, decimal};

use super::OutOfMemory;
use super::texts::{push_char, push_number, push_str};

/// A piece of a text: a text, a character, a number in decimal, or several of these in turn.
pub trait Piece: Drop {
    // its bytes
    ghost text: { Self → List ℕ };

    /// Appends the piece.
    fn put_on(self, out: &mut String) -> Result<(), OutOfMemory>
        ensures { OnOk result (string_bytes out.new ≡ string_bytes out.old ++ text self) };
}

/// Appends a piece, or several, as in `put(out, ("event ", index, ": "))`.
#[inline(always)]
pub fn put<P: Piece>(out: &mut String, piece: P) -> Result<(), OutOfMemory>
    ensures { OnOk result (string_bytes out.new ≡ string_bytes out.old ++ P.text piece) }
{
    piece.put_on(out)
}

impl Piece for &str {
    ghost text = { λ s. s.now };

    fn put_on(self, out: &mut String) -> Result<(), OutOfMemory> {
        push_str(out, self)
    }
}

impl Piece for char {
    ghost text = { λ c. encode_utf8 c };

    fn put_on(self, out: &mut String) -> Result<(), OutOfMemory> {
        push_char(out, self)
    }
}

impl Piece for u64 {
    ghost text = { λ n. decimal n };

    fn put_on(self, out: &mut String) -> Result<(), OutOfMemory> {
        push_number(out, self)
    }
}

impl Piece for u32 {
    ghost text = { λ n. decimal n };

    fn put_on(self, out: &mut String) -> Result<(), OutOfMemory> {
        push_number(out, u64::from(self))
    }
}

impl Piece for u8 {
    ghost text = { λ n. decimal n };

    fn put_on(self, out: &mut String) -> Result<(), OutOfMemory> {
        push_number(out, u64::from(self))
    }
}

impl Piece for usize {
    ghost text = { λ n. decimal n };

    fn put_on(self, out: &mut String) -> Result<(), OutOfMemory> {
        push_number(out, self as u64)
    }
}

impl<A: Piece, B: Piece> Piece for (A, B) {
    ghost text = { λ p. A.text p.0 ++ B.text p.1 };

    fn put_on(self, out: &mut String) -> Result<(), OutOfMemory> {
        let (a, b) = self;
        a.put_on(out)?;
        b.put_on(out)
    }
}

impl<A: Piece, B: Piece, C: Piece> Piece for (A, B, C) {
    ghost text = { λ p. A.text p.0 ++ B.text p.1 ++ C.text p.2 };

    fn put_on(self, out: &mut String) -> Result<(), OutOfMemory> {
        let (a, b, c) = self;
        a.put_on(out)?;
        b.put_on(out)?;
        c.put_on(out)
    }
}

impl<A: Piece, B: Piece, C: Piece, D: Piece> Piece for (A, B, C, D) {
    ghost text = { λ p. A.text p.0 ++ B.text p.1 ++ C.text p.2 ++ D.text p.3 };

    fn put_on(self, out: &mut String) -> Result<(), OutOfMemory> {
        let (a, b, c, d) = self;
        a.put_on(out)?;
        b.put_on(out)?;
        c.put_on(out)?;
        d.put_on(out)
    }
}

impl<A: Piece, B: Piece, C: Piece, D: Piece, E: Piece> Piece for (A, B, C, D, E) {
    ghost text = { λ p. A.text p.0 ++ B.text p.1 ++ C.text p.2 ++ D.text p.3 ++ E.text p.4 };

    fn put_on(self, out: &mut String) -> Result<(), OutOfMemory> {
        let (a, b, c, d, e) = self;
        a.put_on(out)?;
        b.put_on(out)?;
        c.put_on(out)?;
        d.put_on(out)?;
        e.put_on(out)
    }
}
