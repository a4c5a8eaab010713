//! What a claim names and the script doesn't have, in words.
use crate::pages::Page;
use lwkt_base::{CpuId, TokId};
use lwkt_text::{Mention, Names};

// Appends which parts of a kind there are: `; there are tokens 0 to 2`.
fn add_there(page: &mut Page, kind: &str, count: usize) {
    match count {
        0 => page.say(("; there is no ", kind)),
        1 => page.say(("; there is only ", kind, " 0")),
        _ => page.say(("; there are ", kind, "s 0 to ", count.saturating_sub(1))),
    }
}

// Appends a part by its kind and its number, and which parts of the kind there are.
fn add_part(page: &mut Page, kind: &str, number: u8, count: usize) {
    page.say((kind, " ", number));
    add_there(page, kind, count);
}

// Appends a token by its name.
fn add_token(page: &mut Page, names: &Names, tok: TokId) {
    page.say(" of token ");
    if let Some(name) = names.tokens.as_slice().get(tok.0 as usize) {
        page.show(name.as_str());
    }
}

// Appends a token that isn't there; says whether it isn't.
fn add_no_token(page: &mut Page, names: &Names, tok: TokId) -> bool {
    let count = names.tokens.len();
    if (tok.0 as usize) < count {
        return false;
    }
    add_part(page, "token", tok.0, count);
    true
}

// Appends a cell that isn't there.
fn add_no_cell(page: &mut Page, names: &Names, tok: TokId, cell: u8) {
    if add_no_token(page, names, tok) {
        return;
    }
    let count = match names.cells.as_slice().get(tok.0 as usize) {
        Some(cells) => cells.len(),
        None => 0,
    };
    page.say(("cell ", cell));
    add_token(page, names, tok);
    add_there(page, "cell", count);
}

// Appends the additions of a processor that aren't there.
fn add_no_tally(page: &mut Page, names: &Names, tok: TokId, cpu: CpuId) {
    if add_no_token(page, names, tok) {
        return;
    }
    if cpu.0 >= names.cpus {
        return add_part(page, "processor", cpu.0, names.cpus as usize);
    }
    page.say("a tally");
    add_token(page, names, tok);
    page.say("; its law isn't tally");
}

/// Appends what a claim names and the script doesn't have, and what of its kind there is.
pub(crate) fn add_absent(page: &mut Page, names: &Names, mention: Mention) {
    match mention {
        Mention::Token(tok) => {
            add_no_token(page, names, tok);
        }
        Mention::Cell(tok, cell) => add_no_cell(page, names, tok, cell),
        Mention::Tally(tok, cpu) => add_no_tally(page, names, tok, cpu),
        Mention::Message(msg) => add_part(page, "message", msg.0, names.messages.len()),
        Mention::Thread(id) => page.say(("thread ", id.cpu.0, ".", id.thread)),
    }
}
