//! Sentences that hold others, and where the steps that they begin and end lead.
ghost use Rattle.std.specs.Prelude.{◌≡◌, ◌+◌, ◌≤◌, ◌<◌, count_by, drop, length, option_and_then, slice_get};
ghost use Rattle.lwkt_text.specs.Blocks.{is_round, is_times, round_in, times_in, is_assertion, numbered, is_if, end_of, opens, closes, ends_round, ends_arm, deeper, lands, found, aim_of, aim_in, aimed, block_of, linked};

use lwkt_code::{Jump, MOST_STEPS, Step, Test};

/// What a sentence that isn't ended yet is.
#[derive(Clone, Copy)]
pub enum Opened {
    /// `if`
    If,
    /// `if`, behind its `else`
    Else,
    /// `while` or `loop`
    Round,
    /// `times`, with the number of its count
    Times(u8),
}

/// A sentence that isn't ended yet.
#[derive(Clone, Copy)]
pub struct Block {
    /// The place of the step to which its end leads back, if it is a loop.
    pub back: usize,
    /// How many bytes stand before the sentence.
    pub at: usize,
    /// What it is.
    pub kind: Opened,
}

/// Where a step is told of.
#[derive(Clone, Copy)]
pub struct Line {
    /// How many bytes stand before its sentence.
    pub at: usize,
    /// The same of the innermost loop that it stands at or in, and else of its sentence.
    pub round: usize,
}

fn is_round(block: Block) -> bool
    ensures { result ≡ is_round block }
{
    match block.kind {
        Opened::If | Opened::Else => false,
        Opened::Round | Opened::Times(_) => true,
    }
}

fn is_times(block: Block) -> bool
    ensures { result ≡ is_times block }
{
    match block.kind {
        Opened::If | Opened::Else | Opened::Round => false,
        Opened::Times(_) => true,
    }
}

/// Whether a sentence that isn't ended is an `if` without an `else` so far.
pub fn is_if(block: Block) -> bool
    ensures { result ≡ is_if block }
{
    match block.kind {
        Opened::If => true,
        Opened::Else | Opened::Round | Opened::Times(_) => false,
    }
}

/// Where the innermost loop begins that isn't ended.
pub fn round_in(blocks: &[Block]) -> Option<usize>
    ensures { result ≡ round_in blocks.now }
{
    let mut found = None;
    for block in blocks {
        if is_round(*block) {
            found = Some(block.at);
        }
    }
    found
}

// How many `times` aren't ended.
fn times_in(blocks: &[Block]) -> usize
    ensures { result ≡ times_in blocks.now }
{
    blocks.iter().filter(|block| is_times(**block)).count()
}

fn is_assertion(step: &Step) -> bool
    ensures { result ≡ is_assertion step.now }
{
    matches!(step, Step::Assert(_, _))
}

// How many assertions there are.
fn assertions(steps: &[Step]) -> usize
    ensures { result ≡ count_by is_assertion steps.now }
{
    let mut count = 0usize;
    for step in steps {
        if is_assertion(step) {
            count += 1;
        }
    }
    count
}

/// A step with its number: that of its count among those that aren't ended, or its own among the assertions.
pub fn numbered(blocks: &[Block], steps: &[Step], step: Step) -> Step
    ensures { result ≡ numbered blocks.now steps.now step }
{
    match step {
        Step::Count(_, n) => Step::Count(times_in(blocks).min(255) as u8, n),
        Step::Assert(c, _) => Step::Assert(c, assertions(steps).min(0xffff_ffff) as u32),
        other => other,
    }
}

/// What a step of so many behind others begins: `if`, or a loop.
pub fn block_of(steps: usize, at: usize, step: &Step) -> Block
    ensures { result ≡ block_of steps at step.now }
{
    let begin = steps.min(MOST_STEPS);
    match step {
        Step::Unless(Test::If, _, _) => Block {
            back: begin,
            at,
            kind: Opened::If,
        },
        Step::Count(k, _) => Block {
            back: begin + 1,
            at,
            kind: Opened::Times(*k),
        },
        _ => Block {
            back: begin,
            at,
            kind: Opened::Round,
        },
    }
}

/// The step that ends a sentence.
pub fn end_of(block: Block) -> Step
    ensures { result ≡ end_of block }
{
    match block.kind {
        Opened::If | Opened::Else => Step::Goto(Jump::End, 0),
        Opened::Round => Step::Goto(Jump::Back, block.back),
        Opened::Times(k) => Step::Again(k, block.back),
    }
}

// Whether steps behind this one stand in it.
fn opens(step: &Step) -> bool
    ensures { result ≡ opens step.now }
{
    match step {
        Step::Unless(_, _, _) => true,
        Step::Goto(Jump::Loop, _) => true,
        Step::Count(_, _) => true,
        _ => false,
    }
}

// Whether a step ends what stands in another.
fn closes(step: &Step) -> bool
    ensures { result ≡ closes step.now }
{
    match step {
        Step::Goto(Jump::Back, _) => true,
        Step::Goto(Jump::End, _) => true,
        Step::Again(_, _) => true,
        _ => false,
    }
}

// Whether a step ends a loop.
fn ends_round(step: &Step) -> bool
    ensures { result ≡ ends_round step.now }
{
    match step {
        Step::Goto(Jump::Back, _) => true,
        Step::Again(_, _) => true,
        _ => false,
    }
}

// Whether a step ends one of the two lists of an `if`.
fn ends_arm(step: &Step) -> bool
    ensures { result ≡ ends_arm step.now }
{
    match step {
        Step::Goto(Jump::Else, _) => true,
        Step::Goto(Jump::End, _) => true,
        _ => false,
    }
}

// How many sentences are open behind a step.
fn deeper(step: &Step, depth: usize) -> usize
    requires { depth ≤ 100000 }
    ensures exact { result ≡ deeper step.now depth }
    ensures most { result ≤ depth + 1 }
{
    if opens(step) {
        return depth + 1;
    }
    if closes(step) {
        depth.saturating_sub(1)
    } else {
        depth
    }
}

// Where a way goes on that comes to this end from before it.
fn lands(step: &Step, at: usize) -> usize
    requires { at ≤ 100000 }
    ensures exact { result ≡ lands step.now at }
{
    match step {
        Step::Goto(Jump::End, _) => at,
        _ => at + 1,
    }
}

// Where a way goes on that leaves a loop, or a list of an `if`, in which these steps stand, the first of them at a place.
fn found(is_loop: bool, at: usize, steps: &[Step]) -> usize
    requires few { length steps.now ≤ MOST_STEPS }
    requires start { at ≤ MOST_STEPS }
    ensures { result ≡ found is_loop at 0 steps.now }
{
    let mut depth = 0usize;
    for (k, step) in steps.iter().enumerate() {
        let is_end = if is_loop {
            ends_round(step)
        } else {
            ends_arm(step)
        };
        if depth == 0 && is_end {
            return lands(step, at + k);
        }
        depth = deeper(step, depth);
    }
    at + steps.len()
}

// Where a step at a place leads, if that depends on the steps behind it.
fn aim_of(at: usize, step: &Step, behind: &[Step]) -> Option<usize>
    requires few { length behind.now ≤ MOST_STEPS }
    requires start { at < MOST_STEPS }
    ensures { result ≡ aim_of at step.now behind.now }
{
    match step {
        Step::Unless(Test::If, _, _) => Some(found(false, at + 1, behind)),
        Step::Unless(Test::While, _, _) => Some(found(true, at + 1, behind)),
        Step::Goto(Jump::Else, _) => Some(found(false, at + 1, behind)),
        Step::Goto(Jump::Break, _) => Some(found(true, at + 1, behind)),
        Step::Goto(Jump::Loop, _) => Some(at + 1),
        Step::Goto(Jump::End, _) => Some(at + 1),
        _ => None,
    }
}

// Lets a step lead there.
fn aim_step(step: &mut Step, to: Option<usize>)
    ensures { step.new ≡ aimed to step.old }
{
    let Some(place) = to else {
        return;
    };
    match step {
        Step::Unless(_, _, old) => *old = place,
        Step::Goto(_, old) => *old = place,
        _ => {}
    }
}

// Where the step at a place of a list leads, if that depends on the steps behind it.
fn aim_in(steps: &[Step], at: usize) -> Option<usize>
    requires few { length steps.now ≤ MOST_STEPS }
    requires there { at < length steps.now }
    ensures { result ≡ aim_in steps.now at }
{
    aim_of(at, &steps[at], &steps[at + 1..])
}

/// Lets each step lead where it has to.
pub fn link(steps: &mut [Step])
    requires { length steps.old ≤ MOST_STEPS }
    ensures { steps.new ≡ linked 0 steps.old }
{
    for at in 0..steps.len() {
        let to = aim_in(steps, at);
        aim_step(&mut steps[at], to);
    }
}
