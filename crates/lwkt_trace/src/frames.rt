//! Traces that are written just as `trace_text` writes one, whose events are read one after another, without a reader of JSON.
//!
//! Words: the *front* and the *back* of a text are what stands before and behind its events, and *frame* them.
ghost use Rattle.std.specs.Prelude.{◌≡◌, ◌++◌, Ok, IsTrue, IfOk, IfSome};
ghost use Rattle.lwkt_trace.specs.Format.{trace_of};
ghost use Rattle.lwkt_trace.specs.Written.{front_text};
ghost use Rattle.lwkt_trace.specs.Recognised.{IsBack, Frames};

use crate::ranges::{words_of_last, words_of_opening};
use crate::readers::read_trace;
use crate::traces::{Closing, Trace};
use crate::writers::{back_text, front_text};
use lwkt_base::memory::{extend_from_slice, from_slice, push};
use lwkt_base::{Cells, Fault, OutOfMemory};
use lwkt_report::{Closing as Reported, TokenLine, Verdict};
use std::alloc::Global;

// What a front ends with, and a back begins with.
const FRONT_END: &[u8] = b"\"events\":[";

const BACK_BEGIN: &[u8] = b"],\n\"last\":";

// How many bytes of a text a front or a back may have, that is looked for.
const LIMIT: usize = 65_536;

// Where the front of a text likely ends, if it has one.
fn front_end(bytes: &[u8]) -> Option<usize> {
    let near = &bytes[..LIMIT.min(bytes.len())];
    let place = near
        .windows(FRONT_END.len())
        .position(|part| part == FRONT_END)?;
    place.checked_add(FRONT_END.len())
}

// Where the back of a text likely begins, if it has one.
fn back_begin(bytes: &[u8]) -> Option<usize> {
    let far = bytes.len() - LIMIT.min(bytes.len());
    let place = bytes[far..]
        .windows(BACK_BEGIN.len())
        .position(|part| part == BACK_BEGIN)?;
    place.checked_add(far)
}

/// A text in three parts, of which the middle one is likely to have the events, and the others are at most 65536 bytes long. None
/// where no such parts are found.
pub fn parts_of(bytes: &[u8]) -> Option<(&[u8], &[u8], &[u8])>
    ensures { IfSome result (λ parts. bytes.now ≡ parts.0.now ++ (parts.1.now ++ parts.2.now)) }
{
    let (front, rest) = bytes.split_at_checked(front_end(bytes)?)?;
    let (events, back) = rest.split_at_checked(back_begin(rest)?)?;
    Some((front, events, back))
}

// Two texts as one.
fn joined(alloc: Global, front: &[u8], back: &[u8]) -> Result<Vec<u8>, OutOfMemory>
    ensures { IfOk result (λ bytes. bytes.items ≡ front.now ++ back.now) }
{
    let mut bytes = Vec::new(alloc);
    extend_from_slice(&mut bytes, front)?;
    extend_from_slice(&mut bytes, back)?;
    Ok(bytes)
}

// The trace that a front and a back are with nothing between them, if they are one.
fn bare_trace(alloc: Global, front: &[u8], back: &[u8]) -> Result<Option<Trace>, OutOfMemory>
    ensures { IfOk result (λ found. IfSome found (λ trace. trace_of (front.now ++ back.now) ≡ Ok trace)) }
{
    let bytes = joined(alloc, front, back)?;
    match read_trace(alloc, bytes.as_slice()) {
        Ok(trace) => Ok(Some(trace)),
        Err(Fault::Memory(refused)) => Err(refused),
        Err(_) => Ok(None),
    }
}

// What a token is at the close, as a report has it. What isn't given is left out, or 0: no text is written so.
fn line_of(
    alloc: Global,
    closing: &Closing,
    place: usize,
    cells: &Cells,
) -> Result<TokenLine, OutOfMemory> {
    Ok(TokenLine {
        generation: closing.gens.as_slice().get(place).copied().unwrap_or(0),
        blob: closing.blobs.as_slice().get(place).copied().flatten(),
        cells: cells.try_clone(alloc)?,
        tallies: tallies_at(alloc, closing, place)?,
    })
}

// The tallies of a token at the close, where they are given.
fn tallies_at(
    alloc: Global,
    closing: &Closing,
    place: usize,
) -> Result<Option<Cells>, OutOfMemory> {
    match closing.tallies.as_slice().get(place) {
        None => Ok(None),
        Some(tallies) => Ok(Some(tallies.try_clone(alloc)?)),
    }
}

// What each token that has a row is at the close.
fn lines_of(alloc: Global, closing: &Closing) -> Result<Vec<TokenLine>, OutOfMemory> {
    let mut lines = Vec::new(alloc);
    for (place, cells) in closing.rows.as_slice().iter().enumerate() {
        push(&mut lines, line_of(alloc, closing, place, cells)?)?;
    }
    Ok(lines)
}

// The closing values as a report has them.
fn reported(alloc: Global, closing: &Closing) -> Result<Reported, OutOfMemory> {
    Ok(Reported {
        tokens: lines_of(alloc, closing)?,
        messages: from_slice(alloc, closing.messages.as_slice())?,
        threads: Vec::new(alloc),
        verdict: Verdict::Closed,
    })
}

// Whether the front of a text is just as it is written for this trace.
fn is_front(alloc: Global, front: &[u8], trace: &Trace) -> Result<bool, OutOfMemory>
    ensures { IfOk result (λ is. IsTrue is → front.now ≡ front_text trace.now.cpus trace.now.tokens trace.now.messages) }
{
    let text = front_text(
        alloc,
        trace.cpus,
        trace.tokens.as_slice(),
        trace.messages.as_slice(),
    )?;
    Ok(text.as_bytes() == front)
}

// Whether the back of a text is just as it is written for these closing values, or for none.
fn is_back_of(alloc: Global, back: &[u8], last: &Option<Reported>) -> Result<bool, OutOfMemory>
    ensures { IfOk result (λ is. IsTrue is → IsBack back.now) }
{
    words_of_last(last);
    let text = back_text(alloc, last)?;
    Ok(text.as_bytes() == back)
}

// Whether the back of a text is just as it is written for some closing values, which likely are these, or for none.
fn is_back(alloc: Global, back: &[u8], last: &Option<Closing>) -> Result<bool, OutOfMemory>
    ensures { IfOk result (λ is. IsTrue is → IsBack back.now) }
{
    match last {
        None => is_back_of(alloc, back, &None),
        Some(closing) => is_back_of(alloc, back, &Some(reported(alloc, closing)?)),
    }
}

// Whether the two parts of a text, which are this trace, are just as they are written for it.
fn is_frame(alloc: Global, front: &[u8], back: &[u8], trace: &Trace) -> Result<bool, OutOfMemory>
    ensures { IfOk result (λ is. IsTrue is → trace_of (front.now ++ back.now) ≡ Ok trace.now → Frames front.now back.now trace.now) }
{
    words_of_opening(trace);
    if is_front(alloc, front, trace)? {
        is_back(alloc, back, &trace.last)
    } else {
        Ok(false)
    }
}

// A trace, where something is so.
fn trace_if(trace: Trace, is: bool) -> Option<Trace>
    ensures { IfSome result (λ kept. (kept ≡ trace) × IsTrue is) }
{
    if is { Some(trace) } else { None }
}

/// The trace without events that these two parts of a text are, if they are just as `trace_text` writes them: whatever events
/// are written between them, the whole is this trace with these events. None says nothing of the text.
pub fn frame_of(alloc: Global, front: &[u8], back: &[u8]) -> Result<Option<Trace>, OutOfMemory>
    ensures { IfOk result (λ found. IfSome found (Frames front.now back.now)) }
{
    match bare_trace(alloc, front, back)? {
        None => Ok(None),
        Some(trace) => match is_frame(alloc, front, back, &trace) {
            Ok(framed) => Ok(trace_if(trace, framed)),
            Err(refused) => Err(refused),
        },
    }
}
