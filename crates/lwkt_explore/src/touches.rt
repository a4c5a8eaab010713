//! What turns of a processor may look at or change that others look at or change too: tokens, messages, and the lanes between
//! processors. It is never too little; it may be too much.
use lwkt_base::steps::step_of;
use lwkt_base::{Ask, Part, Ref};
use lwkt_code::{Expr, ExprTree, Operand, Step, Wish};

/// Tokens, messages and processors, each as a bit.
#[derive(Clone, Copy, PartialEq, Eq)]
pub(crate) struct Touch {
    /// The tokens, 0 to 63.
    pub tokens: u64,
    /// The messages, 0 to 63.
    pub messages: u64,
    /// The processors that a note may be sent to.
    pub targets: u8,
}

/// Nothing.
pub(crate) const NOTHING: Touch = Touch {
    tokens: 0,
    messages: 0,
    targets: 0,
};

/// The bit of a token or message of this number.
pub(crate) fn bit(number: usize) -> u64 {
    if number < 64 { 1u64 << number } else { 0 }
}

/// The bit of a processor.
pub(crate) fn cpu_bit(cpu: usize) -> u8 {
    if cpu < 8 { 1u8 << cpu } else { 0 }
}

/// Whether a processor is among some.
pub(crate) fn has(cpus: u8, cpu: usize) -> bool {
    cpus & cpu_bit(cpu) != 0
}

/// Whether the turns of two processors that touch this may disturb one another. A processor looks at the lanes to itself in each
/// turn, so a note that is sent to it disturbs it.
pub(crate) fn disturb(a: usize, of_a: Touch, b: usize, of_b: Touch) -> bool {
    of_a.tokens & of_b.tokens != 0
        || of_a.messages & of_b.messages != 0
        || has(of_a.targets, b)
        || has(of_b.targets, a)
}

impl Touch {
    /// What either touches.
    pub(crate) fn and(self, other: Touch) -> Touch {
        Touch {
            tokens: self.tokens | other.tokens,
            messages: self.messages | other.messages,
            targets: self.targets | other.targets,
        }
    }
}

// What a part of a step names.
fn named_by(part: &Part) -> Touch {
    match *part {
        Part::Token(tok) | Part::Cell(tok, _) => Touch {
            tokens: bit(usize::from(tok.0)),
            ..NOTHING
        },
        Part::Message(msg) => Touch {
            messages: bit(usize::from(msg.0)),
            ..NOTHING
        },
        Part::Target(to) => Touch {
            targets: cpu_bit(usize::from(to.cpu.0)),
            ..NOTHING
        },
        Part::Value(_)
        | Part::Record(_)
        | Part::Call(_)
        | Part::Flags(_)
        | Part::Code(_)
        | Part::Outcome(_) => NOTHING,
    }
}

// What a step touches by itself: its tokens, its message, and the processor that it sends to.
fn touched_by(ask: Ask) -> Touch {
    let (_, parts) = step_of(&ask);
    let mut touch = NOTHING;
    for part in parts.as_slice() {
        touch = touch.and(named_by(part));
    }
    touch
}

// The number that an expression always is, if it is always the same.
fn fixed_number(e: &Expr) -> Option<usize> {
    match e.tree() {
        ExprTree::Number(n) => Some((*n).min(255) as usize),
        _ => None,
    }
}

// The tokens or messages that an expression may name: one, or any.
fn bits_of(e: &Expr) -> u64 {
    match fixed_number(e) {
        Some(number) => bit(number),
        None => u64::MAX,
    }
}

// The processors that an expression may name: one, or any.
fn cpus_of(e: &Expr) -> u8 {
    match fixed_number(e) {
        Some(number) => cpu_bit(number),
        None => u8::MAX,
    }
}

// What an operand may name.
fn named_in(operand: &Operand) -> Touch {
    match operand {
        Operand::Token(tok) | Operand::Cell(tok, _) => Touch {
            tokens: bits_of(tok),
            ..NOTHING
        },
        Operand::Message(msg) => Touch {
            messages: bits_of(msg),
            ..NOTHING
        },
        Operand::Target(cpu, _) => Touch {
            targets: cpus_of(cpu),
            ..NOTHING
        },
        Operand::Value(_)
        | Operand::Record(_)
        | Operand::Call(..)
        | Operand::Flags(_)
        | Operand::Code(_)
        | Operand::Outcome(_) => NOTHING,
    }
}

// What an ask may touch whose numbers are expressions.
fn touched_by_wish(wish: &Wish) -> Touch {
    let mut touch = NOTHING;
    for operand in wish.operands.as_slice() {
        touch = touch.and(named_in(operand));
    }
    touch
}

/// What a step of a program may touch.
pub(crate) fn touched_by_step(step: &Step) -> Touch {
    match step {
        Step::Fixed(ask) => touched_by(*ask),
        Step::Make(wish, _) => touched_by_wish(wish),
        _ => NOTHING,
    }
}

/// The tokens of a list.
pub(crate) fn listed(list: &[Ref]) -> Touch {
    let mut tokens = 0u64;
    for one in list {
        tokens |= bit(usize::from(one.tok.0));
    }
    Touch { tokens, ..NOTHING }
}
