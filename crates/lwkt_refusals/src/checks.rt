//! Checks of a part of a document, and what is said of one that doesn't pass.
use crate::json_parts::Part;
use crate::words::Words;

/// The largest whole number.
pub(crate) const WHOLE: u64 = u64::MAX;

/// What a part has to be.
#[derive(Clone, Copy)]
pub(crate) enum Check {
    /// An object with these members alone; it may lack those behind the first so many.
    Members(&'static [&'static str], usize),
    /// An object with members that are lists.
    Lists(&'static [&'static str]),
    /// An object with a member that is a list of at most so many items.
    List(&'static str, usize),
    /// An object with a member that is a whole number of a range.
    Number(&'static str, u64, u64),
}

/// Appends what is bad of a part by the first of these checks that it doesn't pass; says whether there is one.
pub(crate) fn show_checks(out: &mut Words, part: Part<'_>, checks: &[Check]) -> bool {
    for check in checks {
        if show_check(out, part, *check) {
            return true;
        }
    }
    false
}

// Appends what is bad of a part by a check; says whether something is.
fn show_check(out: &mut Words, part: Part<'_>, check: Check) -> bool {
    match check {
        Check::Members(names, least) => show_members(out, part, names, least),
        Check::Lists(names) => show_lists(out, part, names),
        Check::List(name, most) => show_list(out, part, name, most),
        Check::Number(name, low, high) => show_number(out, part, name, low, high),
    }
}

// Appends that a member is missing.
fn show_missing(out: &mut Words, name: &str) -> bool {
    out.page.say((name, " is missing"));
    true
}

/// Appends what is bad of a member that has to be a number; says whether something is.
pub(crate) fn show_number(
    out: &mut Words,
    part: Part<'_>,
    name: &str,
    low: u64,
    high: u64,
) -> bool {
    let Some(found) = part.member(name) else {
        return show_missing(out, name);
    };
    if matches!(found.number(), Some(number) if low <= number && number <= high) {
        return false;
    }
    out.page.say(name);
    out.quote(" is ", found, ", and has to be a whole number ");
    out.page.say((low, " to ", high));
    true
}

/// Appends what is bad of a member that has to be true or false; says whether something is.
pub(crate) fn show_truth(out: &mut Words, part: Part<'_>, name: &str) -> bool {
    let Some(found) = part.member(name) else {
        return show_missing(out, name);
    };
    if matches!(found.written(), "true" | "false") {
        return false;
    }
    out.page.say(name);
    out.quote(" is ", found, ", and has to be true or false");
    true
}

/// Appends what is bad of a member that has to be a list of at most so many items; says whether something is.
pub(crate) fn show_list(out: &mut Words, part: Part<'_>, name: &str, most: usize) -> bool {
    let Some(list) = part.member(name) else {
        return show_missing(out, name);
    };
    out.point(list);
    match list.count() {
        Some(count) if count <= most => return false,
        Some(count) => out
            .page
            .say((name, " has ", count, " items, and may have ", most)),
        None => out.page.say((name, " is no list")),
    }
    true
}

// Appends what is bad of members that have to be lists; says whether something is.
fn show_lists(out: &mut Words, part: Part<'_>, names: &[&'static str]) -> bool {
    for name in names {
        if show_list(out, part, *name, usize::MAX) {
            return true;
        }
    }
    false
}

/// Appends what is bad of a list of whole numbers; says whether something is.
pub(crate) fn show_numbers(out: &mut Words, list: Part<'_>, name: &str) -> bool {
    let Some(item) = list.odd_item() else {
        return false;
    };
    out.page.say(name);
    out.quote(" is ", item, ", and has to be a whole number 0 to ");
    out.page.say(WHOLE);
    true
}

// Appends that a part lacks one of these members, and points at another one in its place, if that is most like it.
fn show_lack(out: &mut Words, part: Part<'_>, names: &[&'static str], name: &'static str) {
    if let Some(stranger) = part.stranger(names) {
        out.propose(stranger, name);
        if !out.near().is_empty() {
            out.quote("it has a member ", stranger, ", and ");
        }
    }
    show_missing(out, name);
}

// Appends which of these members a part lacks; says whether it lacks one.
fn show_lacking(out: &mut Words, part: Part<'_>, names: &[&'static str]) -> bool {
    out.point(part);
    if part.first() != b'{' {
        out.page.say("it is no object");
        return true;
    }
    for name in names {
        if part.member(*name).is_none() {
            show_lack(out, part, names, *name);
            return true;
        }
    }
    false
}

/// Appends which of the first so many members a part lacks, or which one it has beside all of these; says whether it does.
pub(crate) fn show_members(
    out: &mut Words,
    part: Part<'_>,
    all: &[&'static str],
    least: usize,
) -> bool {
    let names = all.get(..least).unwrap_or(all);
    if show_lacking(out, part, names) {
        return true;
    }
    let Some(stranger) = part.stranger(all) else {
        return false;
    };
    out.quote("it has a member ", stranger, ", and has to have exactly");
    for name in names {
        out.page.say((" ", *name));
    }
    if let Some(beside) = all.get(least) {
        out.page.say((", or these and ", *beside));
    }
    true
}
