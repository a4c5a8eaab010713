//! What is bad of tokens and messages.
use crate::checks::{
    Check, WHOLE, show_checks, show_list, show_members, show_number, show_numbers,
};
use crate::json_parts::Part;
use crate::words::Words;

/// Whose token it is: that of a script of version 1, which has no record, of a trace, which may name one, or of a script of
/// version 2, which names its record, or null for none.
#[derive(Clone, Copy, PartialEq, Eq)]
pub(crate) enum Guarding {
    Never,
    Maybe,
    Always,
}

// The members of a token, the last of them not in version 1.
const MEMBERS: [&str; 5] = ["cells", "law", "param", "gen", "record"];

// The names of the laws, the last of them not in version 1.
const LAWS: [&str; 6] = ["any", "sum", "order", "cap", "tally", "len"];

// The numbers of a token.
const NUMBERS: [Check; 2] = [
    Check::Number("param", 0, WHOLE),
    Check::Number("gen", 0, 70_368_744_177_663),
];

// The names of the laws that a token may have, and what is said of them.
fn laws_of(guarding: Guarding) -> (&'static [&'static str], &'static str) {
    match guarding {
        Guarding::Never => (
            &LAWS[..5],
            ", and has to be \"any\", \"sum\", \"order\", \"cap\" or \"tally\"",
        ),
        Guarding::Maybe | Guarding::Always => (
            &LAWS,
            ", and has to be \"any\", \"sum\", \"order\", \"cap\", \"tally\" or \"len\"",
        ),
    }
}

// Appends what is bad of the name of a law; says whether something is.
fn show_law_name(out: &mut Words, law: Part<'_>, guarding: Guarding) -> bool {
    let (names, said) = laws_of(guarding);
    if names.iter().any(|name| law.is_text(name)) {
        return false;
    }
    out.quote("law is ", law, said);
    for name in names {
        out.propose(law, *name);
    }
    true
}

// Appends what is bad of a law over so many cells; says whether something is.
fn show_law(out: &mut Words, token: Part<'_>, count: usize, guarding: Guarding) -> bool {
    let Some(law) = token.member("law") else {
        return false;
    };
    out.point(law);
    if law.is_text("tally") && count != 1 {
        out.page
            .say(("law tally has exactly one cell, and here are ", count));
        return true;
    }
    if guarding != Guarding::Never && law.is_text("len") && count == 0 {
        out.page
            .say("law len has at least one cell, and here is none");
        return true;
    }
    show_law_name(out, law, guarding)
}

// Appends what is bad of the cells of a token and its law; says whether something is.
fn show_cells(out: &mut Words, token: Part<'_>, guarding: Guarding) -> bool {
    if show_list(out, token, "cells", 4) {
        return true;
    }
    let Some(cells) = token.member("cells") else {
        return false;
    };
    show_numbers(out, cells, "a cell") || show_law(out, token, cells.count().unwrap_or(0), guarding)
}

// Appends what is bad of the members of a token; says whether something is.
fn show_token_members(out: &mut Words, token: Part<'_>, guarding: Guarding) -> bool {
    match guarding {
        Guarding::Always => show_members(out, token, &MEMBERS, 5),
        Guarding::Maybe => show_members(out, token, &MEMBERS, 4),
        Guarding::Never => show_members(out, token, &MEMBERS[..4], 4),
    }
}

/// Appends what is bad of a token; says whether something is.
pub(crate) fn show_token(out: &mut Words, token: Part<'_>, guarding: Guarding) -> bool {
    show_token_members(out, token, guarding)
        || show_cells(out, token, guarding)
        || show_checks(out, token, &NUMBERS)
        || (guarding != Guarding::Never && show_record(out, token))
}

// Whether a byte is a hexadecimal digit, of which letters are small.
fn is_digit(c: u8) -> bool {
    matches!(c, 48..=57 | 97..=102)
}

/// Whether a part is a text of two digits for each byte of a record of at most so many.
pub(crate) fn is_record(part: Part<'_>, most: usize) -> bool {
    let digits = part.unquoted().as_bytes();
    part.first() == b'"'
        && digits.len() / 2 <= most
        && digits.len() % 2 == 0
        && digits.iter().all(|c| is_digit(*c))
}

/// Appends what isn't a record of at most so many bytes.
pub(crate) fn show_no_record(out: &mut Words, most: usize) {
    out.page.say((
        "no text of two small hexadecimal digits for each byte, with at most ",
        most,
        " bytes",
    ));
}

// Appends what is bad of a record under a law; says whether something is.
fn show_law_record(out: &mut Words, token: Part<'_>, has_record: bool) -> bool {
    let Some(law) = token.member("law") else {
        return false;
    };
    if law.is_text("len") && !has_record {
        out.point(law);
        out.page.say("law len asks for a record");
        return true;
    }
    if law.is_text("tally") && has_record {
        out.point(law);
        out.page.say("law tally has no record");
        return true;
    }
    false
}

// Appends what is bad of the record of a token; says whether something is.
fn show_record(out: &mut Words, token: Part<'_>) -> bool {
    let Some(record) = token.member("record") else {
        return show_law_record(out, token, false);
    };
    let has_record = record.written() != "null";
    if has_record && !is_record(record, 64) {
        out.quote(
            "record is ",
            record,
            ", and has to be null or a text: this is ",
        );
        show_no_record(out, 64);
        return true;
    }
    show_law_record(out, token, has_record)
}

// The processor and the thread that a message is of, if it names just these.
fn origin_of(of: Part<'_>) -> Option<(u64, u64)> {
    if of.count()? != 2 {
        return None;
    }
    Some((of.item(0)?.number()?, of.item(1)?.number()?))
}

// Appends what is bad of the thread that a message is of; says whether something is.
fn show_origin(out: &mut Words, message: Part<'_>, cpus: u64) -> bool {
    let Some(of) = message.member("of") else {
        return false;
    };
    let Some((cpu, thread)) = origin_of(of) else {
        out.quote(
            "of is ",
            of,
            ", and has to be a list of a processor and a thread",
        );
        return true;
    };
    out.point(of);
    if cpu < cpus && thread < 16 {
        return false;
    }
    out.page.say((
        "of is ",
        cpu,
        ", ",
        thread,
        "; the processor has to be below cpus, ",
    ));
    out.page
        .say(("which is ", cpus, ", and the thread 0 to 15"));
    true
}

/// Appends what is bad of a message; says whether something is.
pub(crate) fn show_message(out: &mut Words, message: Part<'_>, cpus: u64) -> bool {
    show_members(out, message, &["of", "round"], 2)
        || show_origin(out, message, cpus)
        || show_number(out, message, "round", 0, 2_251_799_813_685_247)
}
