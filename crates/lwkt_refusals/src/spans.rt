//! Where the parts of a JSON text begin and end.

/// The byte at a place, or 0 behind the end.
pub fn byte_at(text: &[u8], at: usize) -> u8 {
    match text.get(at) {
        Some(byte) => *byte,
        None => 0,
    }
}

// Whether a byte is white space.
fn is_space(byte: u8) -> bool {
    matches!(byte, b' ' | b'\t' | b'\n' | b'\r')
}

/// The place of the first byte from here on that is no white space.
pub fn past_space(text: &[u8], from: usize) -> usize {
    for at in from..text.len() {
        if !is_space(byte_at(text, at)) {
            return at;
        }
    }
    text.len()
}

// The place behind the string that begins here.
fn past_string(text: &[u8], from: usize) -> usize {
    let mut is_escaped = false;
    for at in from.saturating_add(1)..text.len() {
        let byte = byte_at(text, at);
        if byte == b'"' && !is_escaped {
            return at.saturating_add(1);
        }
        is_escaped = byte == b'\\' && !is_escaped;
    }
    text.len()
}

// The place behind the number or word that begins here.
fn past_scalar(text: &[u8], from: usize) -> usize {
    for at in from..text.len() {
        let byte = byte_at(text, at);
        if is_space(byte) || matches!(byte, b',' | b']' | b'}' | b':') {
            return at;
        }
    }
    text.len()
}

// The place behind the list or object that begins here.
fn past_group(text: &[u8], from: usize) -> usize {
    let mut depth = 0usize;
    let mut at = from;
    for _turn in from..text.len() {
        let byte = byte_at(text, at);
        if byte == b'"' {
            at = past_string(text, at);
            continue;
        }
        at = at.saturating_add(1);
        match byte {
            b'{' | b'[' => depth = depth.saturating_add(1),
            b'}' | b']' => depth = depth.saturating_sub(1),
            _ => {}
        }
        if depth == 0 {
            return at;
        }
    }
    text.len()
}

/// The place behind the part that begins here.
pub fn past_value(text: &[u8], from: usize) -> usize {
    match byte_at(text, from) {
        b'"' => past_string(text, from),
        b'{' | b'[' => past_group(text, from),
        _ => past_scalar(text, from),
    }
}

/// The place behind the next byte that is no white space: behind the comma or the colon between two parts.
pub fn past_mark(text: &[u8], from: usize) -> usize {
    past_space(text, from).saturating_add(1)
}

// The number that four hexadecimal digits are.
fn code_at(text: &[u8], at: usize) -> u32 {
    let mut code = 0u32;
    for i in 0..4usize {
        let digit = (byte_at(text, at.saturating_add(i)) as char).to_digit(16);
        code = code.saturating_mul(16).saturating_add(digit.unwrap_or(0));
    }
    code
}

// The character of a string at a place, if it is one of ASCII's, and the place behind it.
fn letter_at(text: &[u8], at: usize) -> (u32, usize) {
    let byte = byte_at(text, at);
    if byte != b'\\' {
        return (u32::from(byte), at.saturating_add(1));
    }
    let behind = at.saturating_add(2);
    match byte_at(text, at.saturating_add(1)) {
        b'u' => (code_at(text, behind), behind.saturating_add(4)),
        b'b' => (8, behind),
        b't' => (9, behind),
        b'n' => (10, behind),
        b'f' => (12, behind),
        b'r' => (13, behind),
        mark => (u32::from(mark), behind),
    }
}

/// Whether the part that begins here is the string of these characters, which are ASCII's.
pub fn is_string_of(text: &[u8], from: usize, letters: &str) -> bool {
    if byte_at(text, from) != b'"' {
        return false;
    }
    let mut at = from.saturating_add(1);
    for wanted in letters.as_bytes() {
        let (letter, behind) = letter_at(text, at);
        if letter != u32::from(*wanted) {
            return false;
        }
        at = behind;
    }
    byte_at(text, at) == b'"'
}
