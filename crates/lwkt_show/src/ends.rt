use crate::marks::show_marker;
use crate::records::show_hex;
use crate::replays::Replay;
use crate::stories::{Logged, Story};
use crate::turns::show_step;
use crate::words::{fill, show_ask, show_fault, show_thread, show_token};
use lwkt_base::{Blob, Entry, Fault, ThreadLine, ThreadState};
use lwkt_refusals::Page;
use lwkt_text::Names;
use lwkt_told::EntryTold;

// Appends the rule by which a thread ended faulted, with its values.
fn show_rule(out: &mut Page, names: Option<&Names>, replay: &Replay, story: &Story, fault: Fault) {
    if let Some(why) = &story.why {
        out.add(": ");
        out.add_page(why);
        return;
    }
    if fault != Fault::Worn {
        return;
    }
    let Some(tok) = story.worn(&replay.state) else {
        return;
    };
    if let Some(token) = replay.state.token(tok) {
        out.add(": token ");
        show_token(out, names, tok);
        let behind = " is at generation @, the last, and is wanted exclusively";
        fill(out, behind, &[token.generation]);
    }
}

// Appends why a thread hasn't ended, or ended faulted.
fn show_end(out: &mut Page, names: Option<&Names>, replay: &Replay, story: &Story) {
    match story.end {
        ThreadState::Exited => {}
        ThreadState::Faulted(fault) => {
            out.add("thread ");
            show_thread(out, names, story.id);
            out.add(" ended faulted ");
            show_fault(out, fault);
            show_rule(out, names, replay, story, fault);
            out.add("\n");
        }
        ThreadState::Ready | ThreadState::Waiting | ThreadState::Running => {
            out.add("the turns are used up, and thread ");
            story.show_why(out, names, &replay.state, &replay.runners);
            show_marker(out, names, replay, story);
            out.add("\n");
        }
    }
}

// Appends a record in an entry.
fn show_bytes(out: &mut Page, blob: &Blob) {
    out.add("b=");
    if blob.is_empty() {
        return out.add("-");
    }
    show_hex(out, blob.as_slice())
}

// Appends an entry of a log, as in a report in numbers.
fn show_numbers(out: &mut Page, entry: Entry) {
    match entry {
        Entry::Value(value) => out.number("v=", value),
        Entry::Bytes(blob) => show_bytes(out, &blob),
        Entry::Aborted(asked) => out.number("a=", u64::from(asked)),
        Entry::Request(msg, call) => {
            fill(
                out,
                "q=@:@:@",
                &[u64::from(msg.0), u64::from(call.op), call.arg],
            )
        }
        Entry::Reply(msg, error, outcome) => {
            fill(
                out,
                "r=@:@:@",
                &[u64::from(msg.0), u64::from(error), outcome],
            )
        }
        Entry::NoMessage => out.add("n"),
        Entry::Dropped(msg, call) => {
            fill(
                out,
                "d=@:@:@",
                &[u64::from(msg.0), u64::from(call.op), call.arg],
            )
        }
        Entry::Refused(number) => out.number("f=", u64::from(number)),
        Entry::Failed(number) => out.number("x=", u64::from(number)),
    }
}

// Appends an entry of a log in the names of a text.
fn tell_entry(out: &mut Page, names: &Names, entry: &Entry) {
    if let Entry::Value(_) = entry {
        out.add("saw ");
    }
    out.say(EntryTold { names, entry })
}

// Appends an entry of a log, as in a report.
fn show_entry(out: &mut Page, names: Option<&Names>, entry: Entry) {
    match names {
        Some(names) => tell_entry(out, names, &entry),
        None => show_numbers(out, entry),
    }
}

// Appends an entry of a log beside the step that made it.
fn show_logged(out: &mut Page, names: Option<&Names>, story: &Story, entry: Entry, logged: Logged) {
    out.add("  ");
    show_entry(out, names, entry);
    out.add(" of ");
    show_step(out, story.step_at(logged.number));
    out.add(": ");
    show_ask(out, names, &logged.ask);
    out.add("\n");
}

// Appends the log of a thread, each entry beside its step, and how many entries it has no room for.
fn show_log(out: &mut Page, names: Option<&Names>, story: &Story, line: &ThreadLine) {
    if let Some(refused) = story.lost() {
        out.lose(refused);
    }
    let entries = line.log.as_slice();
    if entries.is_empty() {
        return;
    }
    out.add("log of thread ");
    show_thread(out, names, story.id);
    out.add("\n");
    for (entry, logged) in entries.iter().zip(story.logged.iter()) {
        show_logged(out, names, story, *entry, *logged);
    }
    let kept = entries.len() as u64;
    if story.entries > kept {
        let cut = "  @ further entries are cut off: a log has the first 32\n";
        fill(out, cut, &[story.entries - kept]);
    }
}

/// Appends why each thread that didn't end by itself hasn't, or how it faulted, and then the logs; in names if some are given.
pub(crate) fn show_ends(
    out: &mut Page,
    names: Option<&Names>,
    replay: &Replay,
    lines: &[ThreadLine],
) {
    for story in &replay.stories {
        show_end(out, names, replay, story);
    }
    for (story, line) in replay.stories.iter().zip(lines.iter()) {
        show_log(out, names, story, line);
    }
}
