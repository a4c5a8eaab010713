//! What is said of a mark that keeps a lone reader from a token that nobody holds.
use crate::replays::Replay;
use crate::stories::{Doing, Story};
use crate::words::show_thread;
use lwkt_base::{ThreadId, TokId};
use lwkt_refusals::Page;
use lwkt_text::Names;

// Whether a thread has ended.
fn has_ended(replay: &Replay, id: ThreadId) -> bool {
    match replay.story(id) {
        Some(story) => story.doing == Doing::Ended,
        None => false,
    }
}

// Whether a thread that hasn't ended has an exclusive reference to a token on its list.
fn is_wanted_exclusively(replay: &Replay, tok: TokId) -> bool {
    for story in &replay.stories {
        if story.doing != Doing::Ended && story.wants_exclusively(tok) {
            return true;
        }
    }
    false
}

/// If a mark alone keeps a thread from a token, and the thread that left the mark has ended, appends that:
/// `, but marked by 1.0, which has ended`.
pub(crate) fn show_marker(out: &mut Page, names: Option<&Names>, replay: &Replay, story: &Story) {
    let Some(tok) = story.stopped_by_mark(&replay.state) else {
        return;
    };
    let Some(marker) = replay.marker(tok) else {
        return;
    };
    if has_ended(replay, marker) {
        out.add(", but marked by ");
        show_thread(out, names, marker);
        out.add(", which has ended");
    }
}

/// The same, where no turn changes anything any more: and that nobody is left who clears the mark, if so.
pub(crate) fn show_left_mark(
    out: &mut Page,
    names: Option<&Names>,
    replay: &Replay,
    story: &Story,
) {
    show_marker(out, names, replay, story);
    if let Some(tok) = story.stopped_by_mark(&replay.state) {
        if !is_wanted_exclusively(replay, tok) {
            out.add(", and nobody is left who takes it exclusively");
        }
    }
}
