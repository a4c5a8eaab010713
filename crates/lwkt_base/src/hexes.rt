ghost use Rattle.std.specs.Prelude.{◌≡◌, ◌/◌, ◌%◌, ◌++◌, OnOk, string_bytes};
ghost use Rattle.lwkt_base.specs.Hex.{digit_text, byte_text, hex_text, bytes_text};

use crate::memory::{OutOfMemory, push_str};

// A hexadecimal digit.
fn digit(n: u8) -> &'static str
    ensures { result.now ≡ digit_text n }
{
    match n {
        0 => "0",
        1 => "1",
        2 => "2",
        3 => "3",
        4 => "4",
        5 => "5",
        6 => "6",
        7 => "7",
        8 => "8",
        9 => "9",
        10 => "a",
        11 => "b",
        12 => "c",
        13 => "d",
        14 => "e",
        _ => "f",
    }
}

/// The digits of a byte, the higher first.
pub fn digits_of(byte: u8) -> (&'static str, &'static str)
    ensures { (result.0.now ≡ digit_text (byte / 16)) × (result.1.now ≡ digit_text (byte % 16)) }
{
    (digit(byte / 16), digit(byte % 16))
}

// Appends a byte by its two digits.
fn show_byte(byte: u8, out: &mut String) -> Result<(), OutOfMemory>
    ensures { OnOk result (string_bytes out.new ≡ string_bytes out.old ++ byte_text byte) }
{
    push_str(out, digit(byte / 16))?;
    push_str(out, digit(byte % 16))
}

/// Appends bytes, each by two small hexadecimal digits.
pub fn show_hex(bytes: &[u8], out: &mut String) -> Result<(), OutOfMemory>
    ensures { OnOk result (string_bytes out.new ≡ string_bytes out.old ++ hex_text bytes.now) }
{
    for byte in bytes {
        show_byte(*byte, out)?;
    }
    Ok(())
}

/// Appends bytes in the same way, or `-` where there are none.
pub fn show_hex_or_none(bytes: &[u8], out: &mut String) -> Result<(), OutOfMemory>
    ensures { OnOk result (string_bytes out.new ≡ string_bytes out.old ++ bytes_text bytes.now) }
{
    if bytes.is_empty() {
        push_str(out, "-")
    } else {
        show_hex(bytes, out)
    }
}
