//! The tries of a turn: where no thread of a processor runs, it tries the lists of threads one after another, and what one
//! of them took is given back before the next. The thread that is polled was tried last.
use crate::reels::{Scene, part_of};
use crate::replays::Replay;
use crate::stories::Doing;
use lwkt_base::{Mode, Ref, ThreadId};
use lwkt_core::Event;

/// How many references a processor has after an event, of those that it took in this turn.
pub(crate) fn held_after(held: usize, event: &Event) -> usize {
    match *event {
        Event::Take { .. } | Event::Share { .. } | Event::Again { .. } => held.saturating_add(1),
        Event::GiveOne { .. } | Event::GiveClean { .. } | Event::GiveWritten { .. } => {
            held.saturating_sub(1)
        }
        _ => held,
    }
}

// How many of these events there are until all that the first ones took is given back, if it is.
fn given_back(part: &[Event]) -> Option<usize> {
    let mut held = 0usize;
    for (place, event) in part.iter().enumerate() {
        held = held_after(held, event);
        if held == 0 {
            return Some(place.saturating_add(1));
        }
    }
    None
}

// Whether some event takes a reference.
fn has_take(part: &[Event]) -> bool {
    for event in part {
        if event.adds_reference() {
            return true;
        }
    }
    false
}

// Whether an event is the taking of a reference.
fn is_taking(event: &Event, wanted: &Ref) -> bool {
    match *event {
        Event::Take { tok, .. } => tok.0 == wanted.tok.0 && wanted.mode == Mode::Exclusive,
        Event::Share { tok, .. } => tok.0 == wanted.tok.0 && wanted.mode == Mode::Shared,
        Event::Again { tok, .. } => tok.0 == wanted.tok.0,
        _ => false,
    }
}

// Whether these events take the first references of a list, and not all.
fn is_missed_try(list: &[Ref], part: &[Event]) -> bool {
    let mut place = 0usize;
    for event in part {
        if event.adds_reference() {
            match list.get(place) {
                Some(wanted) if is_taking(event, wanted) => place = place.saturating_add(1),
                _ => return false,
            }
        }
    }
    place < list.len()
}

// The only thread of the turn's processor, of those that aren't polled, by whose try these events can be.
fn missed_by(replay: &Replay, scene: &Scene, part: &[Event]) -> Option<ThreadId> {
    let polled = match scene.poll {
        Some(poll) => Some(poll.thread),
        None => None,
    };
    let mut found = None;
    for story in &replay.stories {
        let may_be = story.id.cpu.0 == scene.cpu
            && story.doing == Doing::WantsList
            && Some(story.id) != polled;
        if may_be && is_missed_try(story.list.refs(), part) {
            if found.is_some() {
                return None;
            }
            found = Some(story.id);
        }
    }
    found
}

/// The thread that a processor takes tokens for, from this place of a turn's events on, if that is sure.
pub(crate) fn taker(replay: &Replay, scene: &Scene, place: usize) -> Option<ThreadId> {
    let rest = part_of(scene.part, place, scene.part.len());
    let Some(count) = given_back(rest) else {
        return Some(scene.poll?.thread);
    };
    if let Some(poll) = scene.poll {
        let has_list = match replay.story(poll.thread) {
            Some(story) => !story.list.refs().is_empty(),
            None => false,
        };
        if has_list && !has_take(part_of(rest, count, rest.len())) {
            return Some(poll.thread);
        }
    }
    missed_by(replay, scene, part_of(rest, 0, count))
}
