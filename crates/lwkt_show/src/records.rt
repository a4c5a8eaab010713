ghost use Rattle.std.specs.Prelude.{◌≡◌, true, take};
ghost use Rattle.std.specs.List.{list_all};
ghost use Rattle.lwkt_base.specs.Hex.{hex_text};
ghost use Rattle.lwkt_refusals.specs.Pages.{GrowsBy};
ghost use Rattle.lwkt_trace.specs.Written.{blob_text};
ghost use Rattle.lwkt_show.specs.Words.{is_shown, bytes_words, cut_words, full_words, record_words};

use lwkt_base::Blob;
use lwkt_base::hexes::digits_of;
use lwkt_refusals::Page;

// How many bytes of a record are shown in words.
const SHOWN: usize = 24;

/// Appends bytes, two digits for each.
pub(crate) fn show_hex(out: &mut Page, bytes: &[u8])
    ensures { GrowsBy out.old out.new (hex_text bytes.now) }
{
    for byte in bytes {
        let (high, low) = digits_of(*byte);
        out.add(high);
        out.add(low);
    }
}

/// Appends a record as it stands in a script or a trace: its digits in quotes.
#[tactic(auto, unfolding(lwkt_trace::specs::Written::blob_text))]
pub(crate) fn show_digits(out: &mut Page, blob: &Blob)
    ensures { GrowsBy out.old out.new (blob_text blob.now) }
{
    out.add("\"");
    show_hex(out, blob.as_slice());
    out.add(if blob.len() > 64 { "00\"" } else { "\"" })
}

// Whether a byte is a character of ASCII that is shown as it is, and has no meaning of its own in a line or a picture.
fn is_shown(byte: u8) -> bool
    ensures { result ≡ is_shown byte }
{
    b' ' <= byte && byte < 127 && !(byte == b'"' || byte == b'&' || byte == b'<' || byte == b'>')
}

// Whether bytes are shown as text.
fn is_text(bytes: &[u8]) -> bool
    ensures { result ≡ list_all is_shown bytes.now }
{
    bytes.iter().all(|byte| is_shown(*byte))
}

// The bytes that are shown.
fn front_of(bytes: &[u8]) -> &[u8]
    ensures { result.now ≡ take 24 bytes.now }
{
    if bytes.len() > SHOWN {
        &bytes[..SHOWN]
    } else {
        bytes
    }
}

// Appends bytes as text, those that are shown as they are.
fn show_letters(out: &mut Page, bytes: &[u8])
    requires { list_all is_shown bytes.now ≡ true }
    ensures { GrowsBy out.old out.new bytes.now }
{
    for byte in bytes {
        out.letter(*byte as char);
    }
}

// Appends bytes as text where all of them are shown as they are, else as hexadecimal digits; cut where they are many.
fn show_bytes(out: &mut Page, bytes: &[u8])
    ensures { GrowsBy out.old out.new (bytes_words bytes.now) }
{
    let front = front_of(bytes);
    if is_text(bytes) {
        out.add("'");
        show_letters(out, front);
        out.add("'")
    } else {
        show_hex(out, front)
    }
}

// Appends how many bytes a record has, where it is cut.
fn show_cut(out: &mut Page, blob: &Blob)
    ensures { GrowsBy out.old out.new (cut_words blob.now) }
{
    if blob.len() > 24 {
        out.number(".., ", u64::from(blob.len()));
        out.add(" bytes")
    } else {
        out.add("")
    }
}

// Appends a record that has bytes.
fn show_full(out: &mut Page, blob: &Blob)
    ensures { GrowsBy out.old out.new (full_words blob.now) }
{
    out.add("record ");
    show_bytes(out, blob.as_slice());
    show_cut(out, blob)
}

/// Appends a record: as text if all of it is printable, else as hexadecimal digits; cut if it is long, and then with its
/// length.
pub(crate) fn show_record(out: &mut Page, blob: &Blob)
    ensures { GrowsBy out.old out.new (record_words blob.now) }
{
    if blob.is_empty() {
        out.add("an empty record")
    } else {
        show_full(out, blob)
    }
}
