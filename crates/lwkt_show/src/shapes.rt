//! The shapes of a picture, and how long its words are.
use lwkt_base::Mode;
use lwkt_refusals::Page;

/// The class of a text in bold.
pub(crate) const BOLD: &str = " class=\"bold\"";

/// The class of a token's bar, by its colour: eight that are told apart also by those who see few colours.
pub(crate) fn colour_class(tok: usize) -> &'static str {
    match tok % 8 {
        0 => "bar t0",
        1 => "bar t1",
        2 => "bar t2",
        3 => "bar t3",
        4 => "bar t4",
        5 => "bar t5",
        6 => "bar t6",
        _ => "bar t7",
    }
}

/// The class of a text on a token's bar: white on a dark colour, black on a light one, and with a white edge on what is hatched.
pub(crate) fn value_class(tok: usize, mode: Mode) -> &'static str {
    match mode {
        Mode::Shared => "",
        Mode::Exclusive => match tok % 8 {
            0 | 7 => " class=\"light\"",
            _ => " class=\"dark\"",
        },
    }
}

/// Appends a bar of a token, hatched if it is shared.
pub(crate) fn show_bar(
    out: &mut Page,
    at: Point,
    width: usize,
    height: usize,
    tok: usize,
    mode: Mode,
) {
    show_rect(out, at, width, height, colour_class(tok));
    out.add("/>");
    if mode == Mode::Shared {
        show_rect(out, at, width, height, "shared");
        out.add("/>");
    }
}

/// How wide so many letters are, in pixels.
pub(crate) fn text_width(letters: usize) -> usize {
    letters
        .saturating_mul(7)
        .saturating_add(letters / 4)
        .saturating_add(1)
}

/// How many letters have room in so many pixels.
pub(crate) fn letters_in(width: usize) -> usize {
    width.saturating_mul(4) / 29
}

/// How many digits a number has.
pub(crate) fn digits(number: u64) -> usize {
    let mut rest = number;
    let mut count = 1usize;
    for _place in 0..20u8 {
        if rest > 9 {
            rest /= 10;
            count = count.saturating_add(1);
        }
    }
    count
}

// The first bytes, so many; all if there are fewer.
fn front_of(bytes: &[u8], count: usize) -> &[u8] {
    if count > bytes.len() {
        return bytes;
    }
    &bytes[..count]
}

/// Appends a text of ASCII in at most so many letters.
pub(crate) fn show_cut(out: &mut Page, text: &str, room: usize) {
    if text.len() <= room {
        return out.add(text);
    }
    for byte in front_of(text.as_bytes(), room.saturating_sub(2)) {
        out.letter(*byte as char);
    }
    out.add("..")
}

/// A place in a picture, in pixels from the left and from above.
#[derive(Clone, Copy)]
pub(crate) struct Point {
    /// How far from the left.
    pub x: usize,
    /// How far from above.
    pub y: usize,
}

impl Point {
    /// The place so far right of it, and so far below.
    pub(crate) fn by(self, x: usize, y: usize) -> Point {
        Point {
            x: self.x.saturating_add(x),
            y: self.y.saturating_add(y),
        }
    }
}

/// Appends a text of a picture in which a number stands for each `@`.
pub(crate) fn draw(out: &mut Page, text: &str, numbers: &[usize]) {
    let mut rest = text;
    for number in numbers {
        if let Some((before, behind)) = rest.split_once("@") {
            out.size(before, *number);
            rest = behind;
        }
    }
    out.add(rest);
}

/// Appends a rectangle up to its class.
pub(crate) fn show_rect(out: &mut Page, at: Point, width: usize, height: usize, class: &str) {
    let numbers = [at.x, at.y, width, height];
    draw(
        out,
        "<rect x=\"@\" y=\"@\" width=\"@\" height=\"@\" class=\"",
        &numbers,
    );
    out.add(class);
    out.add("\"");
}

/// Appends the beginning of a text at a place, of a class or none.
pub(crate) fn show_text_at(out: &mut Page, at: Point, class: &str) {
    draw(out, "<text x=\"@\" y=\"@\"", &[at.x, at.y]);
    out.add(class);
    out.add(">");
}

/// Appends a text at a place that is a word and a number.
pub(crate) fn show_label(out: &mut Page, at: Point, class: &str, word: &str, number: usize) {
    show_text_at(out, at, class);
    out.size(word, number);
    out.add("</text>");
}

/// Appends a text at a place.
pub(crate) fn show_word(out: &mut Page, at: Point, word: &str) {
    show_text_at(out, at, "");
    out.add(word);
    out.add("</text>");
}

/// Appends a path of a class that begins at a place.
pub(crate) fn show_path(out: &mut Page, at: Point, path: &str, class: &str) {
    draw(out, "<path d=\"M@ @", &[at.x, at.y]);
    out.add(path);
    out.add("\" class=\"");
    out.add(class);
    out.add("\"");
}

/// How the line of a message looks.
#[derive(Clone, Copy)]
pub(crate) struct Look {
    /// It is dashed.
    pub is_reply: bool,
    /// It is three times as thick.
    pub is_urgent: bool,
}

// Appends the beginning of a line of a class.
fn begin_line(out: &mut Page, from: Point, to: Point, class: &str) {
    let numbers = [from.x, from.y, to.x, to.y];
    draw(
        out,
        "<line x1=\"@\" y1=\"@\" x2=\"@\" y2=\"@\" class=\"",
        &numbers,
    );
    out.add(class);
    out.add("\"");
}

/// Appends a line of a class.
pub(crate) fn show_rule(out: &mut Page, from: Point, to: Point, class: &str) {
    begin_line(out, from, to, class);
    out.add("/>");
}

/// Appends a line of a message, dashed for a reply and thick if it is urgent; with an arrow head if it arrives. A white line below keeps
/// it apart from what it crosses.
pub(crate) fn show_line(out: &mut Page, from: Point, to: Point, look: Look, arrives: bool) {
    show_rule(out, from, to, "under");
    begin_line(out, from, to, "way");
    if look.is_urgent {
        out.add(" style=\"stroke-width:3\"");
    }
    if look.is_reply {
        out.add(" stroke-dasharray=\"5 3\"");
    }
    if arrives {
        out.add(" marker-end=\"url(#head)\"");
    }
    out.add("/>");
}

/// Appends the flag of a mark.
pub(crate) fn show_flag(out: &mut Page, at: Point) {
    show_path(out, at, "v14m0 -14l9 4l-9 4", "flag");
}

/// Appends the ring of a message that nobody took.
pub(crate) fn show_ring(out: &mut Page, at: Point) {
    show_path(out, at, "v7", "way");
    let middle = at.by(0, 10);
    draw(
        out,
        "/><circle cx=\"@\" cy=\"@\" r=\"3\" class=\"way\"/>",
        &[middle.x, middle.y],
    );
}
