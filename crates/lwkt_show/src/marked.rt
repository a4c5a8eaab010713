//! Texts that stand in other languages: in SVG and HTML, and between the quotes of JSON.
ghost use Rattle.std.specs.List.{flat_map};
ghost use Rattle.lwkt_refusals.specs.Pages.{GrowsBy};
ghost use Rattle.lwkt_show.specs.Marked.{ascii_letter, marked_letter, quoted_letter};

use lwkt_refusals::Page;

// Appends a letter, if it is one of ASCII.
fn show_letter(out: &mut Page, letter: u8)
    ensures { GrowsBy out.old out.new (ascii_letter letter) }
{
    if letter < 128 {
        out.letter(letter as char)
    } else {
        out.add("")
    }
}

// Appends a letter as it stands in SVG and HTML.
fn show_marked_letter(out: &mut Page, letter: u8)
    ensures { GrowsBy out.old out.new (marked_letter letter) }
{
    if letter == b'&' {
        out.add("&amp;")
    } else if letter == b'<' {
        out.add("&lt;")
    } else if letter == b'>' {
        out.add("&gt;")
    } else {
        show_letter(out, letter)
    }
}

// Appends a letter as it stands between the quotes of JSON.
fn show_quoted_letter(out: &mut Page, letter: u8)
    ensures { GrowsBy out.old out.new (quoted_letter letter) }
{
    if letter == b'"' {
        out.add("\\\"")
    } else if letter == b'\\' {
        out.add("\\\\")
    } else {
        show_letter(out, letter)
    }
}

/// Appends a text of ASCII as it stands in SVG and HTML.
pub(crate) fn show_marked(out: &mut Page, text: &str)
    ensures { GrowsBy out.old out.new (flat_map marked_letter text.now) }
{
    for letter in text.as_bytes() {
        show_marked_letter(out, *letter);
    }
}

/// Appends a text of ASCII as it stands between the quotes of JSON.
pub(crate) fn show_quoted(out: &mut Page, text: &str)
    ensures { GrowsBy out.old out.new (flat_map quoted_letter text.now) }
{
    for letter in text.as_bytes() {
        show_quoted_letter(out, *letter);
    }
}
