//! How a run ended, in a line of its picture.
ghost use Rattle.std.specs.Prelude.{◌≡◌};
ghost use Rattle.lwkt_show.specs.Verdicts.{manner_of, first_text, last_text};

use crate::circles::{Wait, first_of, show_circle};
use crate::reels::Reel;
use crate::replays::Replay;
use crate::shapes::{Point, show_text_at};
use crate::stories::{Doing, Story};
use crate::words::{show_message, show_thread, show_token};
use lwkt_base::limits::MESSAGE_LIMIT;
use lwkt_base::memory::push;
use lwkt_base::{MsgId, OutOfMemory};
use lwkt_refusals::Page;
use lwkt_run::{End, end_of_closing};
use lwkt_text::Names;
use std::alloc::Global;

// The most threads of which it is said for what they wait.
const THREAD_LIMIT: usize = 3;

/// How a run ended.
#[derive(Clone, Copy, PartialEq, Eq)]
pub enum Manner {
    /// Every thread has ended, or is a service.
    Ended,
    /// Some have not, and none of them can go on.
    Stuck,
    /// Some have not, and one could go on.
    TurnsOut,
    /// The check of the run said no.
    Unlawful,
}

// How a run ended with this, by whether a thread could go on.
fn manner_of(end: End, goes_on: bool) -> Manner
    ensures { result ≡ manner_of end goes_on }
{
    match end {
        End::Unlawful => Manner::Unlawful,
        End::Ended => Manner::Ended,
        End::TurnsOut => {
            if goes_on {
                Manner::TurnsOut
            } else {
                Manner::Stuck
            }
        }
    }
}

// What is said first of a run that ended so, and what last.
fn manner_words(manner: Manner) -> (&'static str, &'static str)
    ensures first { result.0.now ≡ first_text manner }
    ensures last { result.1.now ≡ last_text manner }
{
    match manner {
        Manner::Ended => (
            "every thread is done",
            "lawful: the implementation did what the model allows",
        ),
        Manner::Stuck => (
            "stuck: ",
            "lawful: the implementation did what the model allows",
        ),
        Manner::TurnsOut => (
            "the turns are used up: ",
            "lawful: the implementation did what the model allows",
        ),
        Manner::Unlawful => ("unlawful: this is no run of the model", ""),
    }
}

// Whether a message is on its way to a thread that waits for its port.
fn has_mail(replay: &Replay, story: &Story) -> bool {
    for number in 0..MESSAGE_LIMIT as u8 {
        if replay.comes_to(MsgId(number), story.id) {
            return true;
        }
    }
    false
}

// Whether a thread could go on.
fn goes_on(replay: &Replay, story: &Story) -> bool {
    match story.doing {
        Doing::Ended => false,
        Doing::Runs => true,
        Doing::WantsList => story.lacks(&replay.state).is_none(),
        Doing::WaitsForPort => has_mail(replay, story),
        Doing::WaitsForReply(msg) => replay.comes_to(msg, story.id),
    }
}

// Whether a thread of a run could go on.
fn one_goes_on(replay: &Replay) -> bool {
    for story in &replay.stories {
        if goes_on(replay, story) {
            return true;
        }
    }
    false
}

// The threads that wait for a reply, and of whom.
fn waits_of(alloc: Global, replay: &Replay) -> Result<Vec<Wait>, OutOfMemory> {
    let mut waits = Vec::new(alloc);
    for story in &replay.stories {
        if let Doing::WaitsForReply(msg) = story.doing {
            let wait = Wait {
                from: story.id,
                to: replay.receiver(msg),
            };
            push(&mut waits, wait)?;
        }
    }
    Ok(waits)
}

// Appends a message behind a word where it has no name.
fn show_mail(out: &mut Page, names: Option<&Names>, msg: MsgId) {
    if names.is_none() {
        out.add("message ");
    }
    show_message(out, names, msg)
}

// Appends which token of its list a thread can't have, or that it is ready.
fn show_lacking(out: &mut Page, names: Option<&Names>, replay: &Replay, story: &Story) {
    let Some(wanted) = story.lacks(&replay.state) else {
        return out.add(" is ready");
    };
    out.add(" waits for ");
    if names.is_none() {
        out.add("token ");
    }
    show_token(out, names, wanted.tok)
}

// Appends for what a thread waits.
fn show_waiting(out: &mut Page, names: Option<&Names>, replay: &Replay, story: &Story) {
    show_thread(out, names, story.id);
    match story.doing {
        Doing::Ended => out.add(" has ended"),
        Doing::Runs => out.add(" runs"),
        Doing::WantsList => show_lacking(out, names, replay, story),
        Doing::WaitsForPort => out.add(" waits for its port"),
        Doing::WaitsForReply(msg) => {
            out.add(" waits for the reply to ");
            show_mail(out, names, msg)
        }
    }
}

// Appends for what each thread waits that hasn't ended, of the first few.
fn show_all_waiting(out: &mut Page, names: Option<&Names>, replay: &Replay) {
    let mut count = 0usize;
    for story in &replay.stories {
        if story.doing != Doing::Ended {
            if count > 0 && count <= THREAD_LIMIT {
                out.add(", ");
            }
            if count < THREAD_LIMIT {
                show_waiting(out, names, replay, story);
            } else if count == THREAD_LIMIT {
                out.add("..");
            }
            count = count.saturating_add(1);
        }
    }
}

// Appends who waits for whom in a circle, or else for what each thread waits that hasn't ended.
fn show_why(
    alloc: Global,
    out: &mut Page,
    names: Option<&Names>,
    replay: &Replay,
) -> Result<(), OutOfMemory> {
    let waits = waits_of(alloc, replay)?;
    match first_of(&waits) {
        Some(first) => show_circle(out, names, &waits, first),
        None => show_all_waiting(out, names, replay),
    }
    Ok(())
}

// The class of what is said first of a run that ended so.
fn class_of(manner: Manner) -> &'static str {
    match manner {
        Manner::Ended | Manner::TurnsOut => " class=\"bold\"",
        Manner::Stuck | Manner::Unlawful => " class=\"bold bad\"",
    }
}

/// What is told of a run's end.
#[derive(Drop)]
pub(crate) struct Told {
    manner: Manner,
    /// The first line.
    pub first: String,
}

/// What is told of the end of a run whose last turn has been made again, in names if some are given: that every thread is done, or who
/// waits for what, in a circle if there is one.
pub(crate) fn told_of(
    alloc: Global,
    names: Option<&Names>,
    run: &Reel,
    replay: &Replay,
) -> Result<Told, OutOfMemory> {
    let manner = manner_of(end_of_closing(run.closing), one_goes_on(replay));
    let mut out = Page::new(alloc);
    let (first, _last) = manner_words(manner);
    out.add(first);
    if matches!(manner, Manner::Stuck | Manner::TurnsOut) {
        show_why(alloc, &mut out, names, replay)?;
    }
    Ok(Told {
        manner,
        first: out.whole()?,
    })
}

/// Appends what is told of a run's end, on two lines: below it that the run is lawful, if it is.
pub(crate) fn show_told(out: &mut Page, told: &Told, y: usize) {
    let (_first, last) = manner_words(told.manner);
    show_text_at(out, Point { x: 4, y }, class_of(told.manner));
    out.add(told.first.as_str());
    out.add("</text>");
    let below = y.saturating_add(16);
    show_text_at(out, Point { x: 4, y: below }, "");
    out.add(last);
    out.add("</text>\n");
}
