//! An invariant of a body.
ghost use Rattle.lwkt_base.specs.declared.asks.Ask.{Ask};
ghost use Rattle.lwkt_base.specs.declared.asks.Answer.{Answer};

use lwkt_cpu::Body;

/// A body with something that each poll keeps. What holds of all bodies at the opening then holds of them at the close, whatever the
/// machine did in between. One that keeps nothing in particular says `λ b. Unit {0}`.
pub trait Lasting: Body {
    /// What holds of the body before its first poll and after each.
    ghost kept: { Self → Type 0 };

    /// A poll keeps it.
    ghost keeps: { (b : Self) (last : Answer) (ask : Ask) (d : Self) → Self.polled b last ask d → kept b → kept d };
}

impl Lasting for Box<dyn Body + Drop> {
    ghost kept = { λ b. Unit {0} };

    ghost keeps = { λ b last ask d step before. before };
}

impl Lasting for Box<dyn Body + Send + Drop> {
    ghost kept = { λ b. Unit {0} };

    ghost keeps = { λ b last ask d step before. before };
}
