//! What stands in the box of a turn: the thread that ran, or for what one waits where none did.
use crate::deeds::show_deed;
use crate::layouts::NAME_LETTERS;
use crate::reels::Scene;
use crate::replays::Replay;
use crate::shapes::{Point, digits, show_cut, show_path, show_rect, show_text_at, text_width};
use crate::stories::{Doing, Story};
use crate::words::{show_message, show_thread, show_token};
use lwkt_base::{CpuId, MsgId, OutOfMemory, ThreadId, TokId};
use lwkt_core::State;
use lwkt_refusals::Page;
use lwkt_text::Names;
use lwkt_verdict::Poll;
use std::alloc::Global;

// The most letters of what a thread does.
const DEED_LETTERS: usize = 16;

// How wide a box is in which nothing stands, with what is around it.
const NARROW: usize = 16;

/// What a box shows. Of what threads wait for it shows what stands first here.
#[derive(Clone, Copy, PartialEq, Eq)]
pub(crate) enum Kind {
    /// This thread ran.
    Thread,
    /// None ran: one waits for this token of its list, which it can't have.
    Token,
    /// None ran: one waits for the reply to this message.
    Reply,
    /// None ran: one waits for its port.
    Port,
    /// None ran: one could go on.
    Ready,
    /// Every thread has ended.
    Empty,
}

/// What stands in a box.
#[derive(Clone, Copy)]
pub(crate) struct Content {
    /// What it shows.
    pub kind: Kind,
    /// Which thread of the processor, which token or which message it names; 0 where it names none.
    pub number: u8,
    /// Whether further threads wait for something else.
    pub more: bool,
}

// What stands in a box that shows one thread alone.
fn alone(kind: Kind, number: u8) -> Content {
    Content {
        kind,
        number,
        more: false,
    }
}

// What a thread waits for.
fn want_of(story: &Story, state: &State) -> Content {
    match story.doing {
        Doing::Ended => alone(Kind::Empty, 0),
        Doing::Runs => alone(Kind::Ready, 0),
        Doing::WaitsForPort => alone(Kind::Port, 0),
        Doing::WaitsForReply(msg) => alone(Kind::Reply, msg.0),
        Doing::WantsList => match story.lacks(state) {
            Some(wanted) => alone(Kind::Token, wanted.tok.0),
            None => alone(Kind::Ready, 0),
        },
    }
}

// The place of a kind among them.
fn rank(kind: Kind) -> u8 {
    match kind {
        Kind::Thread => 0,
        Kind::Token => 1,
        Kind::Reply => 2,
        Kind::Port => 3,
        Kind::Ready => 4,
        Kind::Empty => 5,
    }
}

// What stands in a box that showed this, once a thread waits for that too.
fn with(content: Content, want: Content) -> Content {
    if want.kind == Kind::Empty {
        return content;
    }
    if content.kind == Kind::Empty {
        return want;
    }
    if content.kind == want.kind && content.number == want.number {
        return content;
    }
    let first = if rank(want.kind) < rank(content.kind) {
        want
    } else {
        content
    };
    Content {
        more: true,
        ..first
    }
}

/// What stands in the box of a turn, which has been made.
pub(crate) fn content_of(replay: &Replay, scene: &Scene) -> Content {
    if let Some(poll) = scene.poll {
        return alone(Kind::Thread, poll.thread.thread);
    }
    let mut content = alone(Kind::Empty, 0);
    for story in &replay.stories {
        if story.id.cpu.0 == scene.cpu {
            content = with(content, want_of(story, &replay.state));
        }
    }
    content
}

// The word of a kind.
fn word(kind: Kind) -> &'static str {
    match kind {
        Kind::Thread | Kind::Empty => "",
        Kind::Token => "t",
        Kind::Reply => "m",
        Kind::Port => "port",
        Kind::Ready => "rdy",
    }
}

// Whether a kind names something by its number.
fn is_numbered(kind: Kind) -> bool {
    matches!(kind, Kind::Thread | Kind::Token | Kind::Reply)
}

// Appends what a box names by its number.
fn show_number(out: &mut Page, content: Content) {
    out.add(word(content.kind));
    if is_numbered(content.kind) {
        out.number("", u64::from(content.number));
    }
}

// Appends what a box of a processor names by its name.
fn show_name(out: &mut Page, names: &Names, cpu: u8, content: Content) {
    let id = ThreadId {
        cpu: CpuId(cpu),
        thread: content.number,
    };
    match content.kind {
        Kind::Thread => show_thread(out, Some(names), id),
        Kind::Token => show_token(out, Some(names), TokId(content.number)),
        Kind::Reply => show_message(out, Some(names), MsgId(content.number)),
        _ => out.add(word(content.kind)),
    }
}

/// What a box of a processor says, but for a plus; of a long name the front.
pub(crate) fn label_of(
    alloc: Global,
    names: Option<&Names>,
    cpu: u8,
    content: Content,
) -> Result<String, OutOfMemory> {
    let mut page = Page::new(alloc);
    match names {
        Some(names) => show_name(&mut page, names, cpu, content),
        None => show_number(&mut page, content),
    }
    cut_of(alloc, page, NAME_LETTERS)
}

// The front of a page, in so many letters.
fn cut_of(alloc: Global, page: Page, letters: usize) -> Result<String, OutOfMemory> {
    let whole = page.whole()?;
    let mut front = Page::new(alloc);
    show_cut(&mut front, whole.as_str(), letters);
    front.whole()
}

/// What a thread does in a turn by its poll, in few letters.
pub(crate) fn deed_of(
    alloc: Global,
    names: Option<&Names>,
    poll: &Poll,
) -> Result<String, OutOfMemory> {
    let mut page = Page::new(alloc);
    show_deed(&mut page, names, &poll.ask, poll.answer);
    cut_of(alloc, page, DEED_LETTERS)
}

/// Whether a processor has one thread only.
pub(crate) fn is_alone(replay: &Replay, cpu: u8) -> bool {
    let mut count = 0usize;
    for story in &replay.stories {
        if story.id.cpu.0 == cpu {
            count = count.saturating_add(1);
        }
    }
    count == 1
}

/// What stands in a box below its first line.
#[derive(Clone, Copy)]
pub(crate) enum Below<'a> {
    /// Nothing: the first line stands in the middle.
    Nothing,
    /// These words.
    Words(&'a str),
    /// How many rounds share the box.
    Rounds(usize),
}

/// What stands below the first line of a box that so many rounds share, whose thread does this.
pub(crate) fn below_of<'a>(rounds: usize, deed: &'a str) -> Below<'a> {
    if rounds > 1 {
        Below::Rounds(rounds)
    } else if deed.is_empty() {
        Below::Nothing
    } else {
        Below::Words(deed)
    }
}

/// A box, and what stands in it.
#[derive(Clone, Copy)]
pub(crate) struct Labelled<'a> {
    /// What it shows.
    pub content: Content,
    /// Its first line, but for a plus.
    pub label: &'a str,
    /// What stands below that.
    pub below: Below<'a>,
    /// How wide it is with what is around it.
    pub width: usize,
    /// How high it is.
    pub height: usize,
}

// How many letters the first line of a box has.
fn letters_of(content: Content, label: &str) -> usize {
    let more = if content.more { 1 } else { 0 };
    label.len().saturating_add(more)
}

// How many letters stand below it.
fn letters_below(below: Below<'_>) -> usize {
    match below {
        Below::Nothing => 0,
        Below::Words(words) => words.len(),
        Below::Rounds(rounds) => digits(rounds as u64).saturating_add(1),
    }
}

/// How wide a box has to be with what is around it; wider where a thread ends faulted in it, for its cross.
pub(crate) fn width_for(content: Content, label: &str, below: Below<'_>, crossed: bool) -> usize {
    let letters = letters_of(content, label).max(letters_below(below));
    let cross = if crossed { 14 } else { 0 };
    text_width(letters)
        .saturating_add(cross)
        .saturating_add(11)
        .max(NARROW)
}

// Appends the beginning of a line of so many letters in the middle of a box, as far below its top.
fn begin_words(out: &mut Page, at: Point, width: usize, letters: usize, below: usize) {
    let inset = width.saturating_sub(text_width(letters)) / 2;
    show_text_at(out, at.by(inset, below), "");
}

// Appends the first line of a box.
fn show_first(out: &mut Page, at: Point, shown: Labelled<'_>, width: usize) {
    let below = match shown.below {
        Below::Nothing => (shown.height / 2).saturating_add(4),
        _ => (shown.height / 2).saturating_sub(3),
    };
    let letters = letters_of(shown.content, shown.label);
    begin_words(out, at, width, letters, below);
    out.add(shown.label);
    if shown.content.more {
        out.add("+");
    }
    out.add("</text>");
}

// Appends what stands below it.
fn show_below(out: &mut Page, at: Point, shown: Labelled<'_>, width: usize) {
    if let Below::Nothing = shown.below {
        return;
    }
    let below = shown.height.saturating_sub(5);
    begin_words(out, at, width, letters_below(shown.below), below);
    match shown.below {
        Below::Words(words) => out.add(words),
        Below::Rounds(rounds) => out.size("&#215;", rounds),
        Below::Nothing => {}
    }
    out.add("</text>");
}

/// Appends a box with what it says, crossed at its right if a thread ended faulted in it.
pub(crate) fn show_box(out: &mut Page, at: Point, shown: Labelled<'_>, crossed: bool) {
    let class = if shown.content.kind == Kind::Thread {
        "turn"
    } else {
        "idle"
    };
    let column = shown.width;
    show_rect(
        out,
        at.by(2, 0),
        column.saturating_sub(4),
        shown.height,
        class,
    );
    out.add("/>");
    let width = if crossed {
        column.saturating_sub(12)
    } else {
        column
    };
    show_first(out, at, shown, width);
    show_below(out, at, shown, width);
    if crossed {
        let corner = at.by(
            column.saturating_sub(14),
            (shown.height / 2).saturating_sub(4),
        );
        show_path(out, corner, "l8 8m0 -8l-8 8", "cross");
        out.add("/>");
    }
}
