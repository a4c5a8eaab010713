ghost use Rattle.std.specs.Prelude.{◌≡◌, ◌++◌, codes};
ghost use Rattle.std.specs.Fmt.{decimal};
ghost use Rattle.std.specs.List.{flat_map};
ghost use Rattle.std.specs.Option.{option_copied};
ghost use Rattle.lwkt_refusals.specs.Pages.{GrowsBy};
ghost use Rattle.lwkt_told.specs.Called.{called};
ghost use Rattle.lwkt_trace.specs.Written.{comma};
ghost use Rattle.lwkt_show.specs.Words.{thread_text, thread_said, token_said, message_said, flags_number, part_text, parts_text, ask_text, keyed_text, word_if, flags_told, part_told, ask_told, ask_said, fault_text, item_text, dropped_text, refused_text, answer_text};

use crate::records::{show_digits, show_record};
use lwkt_base::steps::step_of;
use lwkt_base::{Answer, Ask, Call, Fault, Flags, Item, Mode, MsgId, Part, Rec, ThreadId, TokId};
use lwkt_refusals::Page;
use lwkt_text::Names;
use lwkt_told::{Called, CellCalled, RecordTold, ThreadCalled};

// Appends a thread by its processor and its number: `1.0`.
fn show_thread_number(out: &mut Page, id: ThreadId)
    ensures { GrowsBy out.old out.new (thread_text id) }
{
    out.number("", u64::from(id.cpu.0));
    out.number(".", u64::from(id.thread));
}

/// Appends a thread by its name, if names are given: `auditor`; or else by its processor and its number: `1.0`.
pub(crate) fn show_thread(out: &mut Page, names: Option<&Names>, id: ThreadId)
    ensures { GrowsBy out.old out.new (thread_said (option_copied names.entry) id) }
{
    match names {
        Some(names) => out.say(ThreadCalled { names, id }),
        None => show_thread_number(out, id),
    }
}

// Appends what the token of a number is called.
fn show_token_called(out: &mut Page, names: &Names, number: usize)
    ensures { GrowsBy out.old out.new (called names.now.tokens number) }
{
    let names = names.tokens.as_slice();
    out.say(Called { names, number })
}

// Appends what a message is called.
fn show_message_called(out: &mut Page, names: &Names, msg: MsgId)
    ensures { GrowsBy out.old out.new (called names.now.messages msg.0) }
{
    let names = names.messages.as_slice();
    let number = usize::from(msg.0);
    out.say(Called { names, number })
}

/// Appends the token of a number by its name, if names are given, or else by that number.
pub(crate) fn show_token_at(out: &mut Page, names: Option<&Names>, number: usize)
    ensures { GrowsBy out.old out.new (token_said (option_copied names.entry) number) }
{
    match names {
        Some(names) => show_token_called(out, names, number),
        None => out.size("", number),
    }
}

/// Appends a token by its name, if names are given, or else by its number.
pub(crate) fn show_token(out: &mut Page, names: Option<&Names>, tok: TokId)
    ensures { GrowsBy out.old out.new (token_said (option_copied names.entry) tok.0) }
{
    show_token_at(out, names, usize::from(tok.0))
}

/// Appends a cell with its token: `accounts.from`, if names are given, or else `token 0: cell 1`.
pub(crate) fn show_cell(out: &mut Page, names: Option<&Names>, tok: TokId, cell: u8) {
    match names {
        Some(names) => out.say(CellCalled { names, tok, cell }),
        None => fill(out, "token @: cell @", &[u64::from(tok.0), u64::from(cell)]),
    }
}

/// Appends a message by its name, if names are given, or else by its number.
pub(crate) fn show_message(out: &mut Page, names: Option<&Names>, msg: MsgId)
    ensures { GrowsBy out.old out.new (message_said (option_copied names.entry) msg.0) }
{
    match names {
        Some(names) => show_message_called(out, names, msg),
        None => out.number("", u64::from(msg.0)),
    }
}

// Appends two numbers, each after a comma.
fn show_two(out: &mut Page, first: u64, second: u64)
    ensures { GrowsBy out.old out.new (comma first ++ comma second) }
{
    out.number(",", first);
    out.number(",", second)
}

// The flags of a send as a number.
fn flags_number(flags: Flags) -> u8
    ensures { result ≡ flags_number flags }
{
    let dropable = if flags.dropable { 1 } else { 0 };
    let abortable = if flags.abortable { 2 } else { 0 };
    let priority = if flags.priority { 4 } else { 0 };
    dropable + abortable + priority
}

// Appends a part of a step after a comma.
fn show_part(out: &mut Page, part: &Part)
    ensures { GrowsBy out.old out.new (part_text part.now) }
{
    match *part {
        Part::Token(tok) => out.number(",", u64::from(tok.0)),
        Part::Cell(tok, cell) => show_two(out, u64::from(tok.0), u64::from(cell)),
        Part::Value(value) => out.number(",", value),
        Part::Record(blob) => {
            out.add(",");
            show_digits(out, &blob)
        }
        Part::Message(msg) => out.number(",", u64::from(msg.0)),
        Part::Target(to) => show_two(out, u64::from(to.cpu.0), u64::from(to.thread)),
        Part::Call(call) => show_two(out, u64::from(call.op), call.arg),
        Part::Flags(flags) => out.number(",", u64::from(flags_number(flags))),
        Part::Code(error) => out.number(",", u64::from(error)),
        Part::Outcome(outcome) => out.number(",", outcome),
    }
}

// Appends the parts of a step.
fn show_parts(out: &mut Page, parts: &[Part])
    ensures { GrowsBy out.old out.new (parts_text parts.now) }
{
    for part in parts {
        show_part(out, part);
    }
}

// Appends an ask as the step of a script that stands for it: `["add",0,5]`.
fn show_json(out: &mut Page, ask: &Ask)
    ensures { GrowsBy out.old out.new (ask_text ask.now) }
{
    let (verb, parts) = step_of(ask);
    out.add("[\"");
    out.add(verb.word());
    out.add("\"");
    show_parts(out, parts.as_slice());
    out.add("]");
}

// Appends a number behind a word, or nothing for 0.
fn show_keyed(out: &mut Page, key: &str, n: u64)
    ensures { GrowsBy out.old out.new (keyed_text key.now n) }
{
    if n == 0 {
        out.add("")
    } else {
        out.number(key, n)
    }
}

// Appends what a message asks for.
fn show_call(out: &mut Page, call: Call)
    ensures { GrowsBy out.old out.new (keyed_text (codes ", op ") call.op ++ keyed_text (codes ", arg ") call.arg) }
{
    show_keyed(out, ", op ", u64::from(call.op));
    show_keyed(out, ", arg ", call.arg)
}

// Appends a word if it is so.
fn show_if(out: &mut Page, is: bool, word: &str)
    ensures { GrowsBy out.old out.new (word_if is word.now) }
{
    out.add(if is { word } else { "" })
}

// Appends what a message's origin may do with it.
fn show_flags(out: &mut Page, flags: Flags)
    ensures { GrowsBy out.old out.new (flags_told flags) }
{
    show_if(out, flags.dropable, ", dropable");
    show_if(out, flags.abortable, ", abortable");
    show_if(out, flags.priority, ", priority")
}

// Appends a part of a step as it stands in a text.
fn tell_part(out: &mut Page, names: &Names, part: &Part)
    ensures { GrowsBy out.old out.new (part_told names.now part.now) }
{
    match *part {
        Part::Token(tok) => {
            out.add(" ");
            show_token_called(out, names, usize::from(tok.0))
        }
        Part::Cell(tok, cell) => out.say((" ", CellCalled { names, tok, cell })),
        Part::Value(value) => out.number(" ", value),
        Part::Record(blob) => out.say((" ", RecordTold { blob: &blob })),
        Part::Message(msg) => {
            out.add(" ");
            show_message_called(out, names, msg)
        }
        Part::Target(to) => out.say((" -> ", ThreadCalled { names, id: to })),
        Part::Call(call) => show_call(out, call),
        Part::Flags(flags) => show_flags(out, flags),
        Part::Code(error) => out.number(" ", u64::from(error)),
        Part::Outcome(outcome) => out.number(" ", outcome),
    }
}

// Appends the parts of a step as they stand in a text.
fn tell_parts(out: &mut Page, names: &Names, parts: &[Part])
    ensures { GrowsBy out.old out.new (flat_map (part_told names.now) parts.now) }
{
    for part in parts {
        tell_part(out, names, part);
    }
}

// Appends an ask as the step of a text that stands for it: `add accounts 5`.
fn tell_ask(out: &mut Page, names: &Names, ask: &Ask)
    ensures { GrowsBy out.old out.new (ask_told names.now ask.now) }
{
    let (verb, parts) = step_of(ask);
    out.add(verb.word());
    tell_parts(out, names, parts.as_slice())
}

/// Appends an ask as the step that stands for it: of a text, if names are given, or else of a script.
pub(crate) fn show_ask(out: &mut Page, names: Option<&Names>, ask: &Ask)
    ensures { GrowsBy out.old out.new (ask_said (option_copied names.entry) ask.now) }
{
    match names {
        Some(names) => tell_ask(out, names, ask),
        None => show_json(out, ask),
    }
}

/// Appends a fault by its number and its message: `23, token busy`.
pub(crate) fn show_fault(out: &mut Page, fault: Fault)
    ensures { GrowsBy out.old out.new (fault_text fault) }
{
    out.number("", u64::from(fault.number()));
    out.fault(", ", fault)
}

// Appends two numbers, each behind its words.
fn show_values(out: &mut Page, before: &str, first: u64, between: &str, second: u64)
    ensures { GrowsBy out.old out.new (before.now ++ decimal first ++ between.now ++ decimal second) }
{
    out.number(before, first);
    out.number(between, second)
}

// Appends an item of a port.
fn show_item(out: &mut Page, names: Option<&Names>, item: Item)
    ensures { GrowsBy out.old out.new (item_text (option_copied names.entry) item) }
{
    match item {
        Item::Request(msg, call) => {
            out.add("the request message ");
            show_message(out, names, msg);
            show_values(out, ", op ", u64::from(call.op), ", arg ", call.arg)
        }
        Item::Answered(msg, error, outcome) => {
            out.add("the reply to message ");
            show_message(out, names, msg);
            show_values(out, ", error ", u64::from(error), ", result ", outcome)
        }
    }
}

// Appends a message that was taken back.
fn show_dropped(out: &mut Page, names: Option<&Names>, msg: MsgId, rec: Rec)
    ensures { GrowsBy out.old out.new (dropped_text (option_copied names.entry) msg rec) }
{
    out.add("message ");
    show_message(out, names, msg);
    show_values(
        out,
        " taken back, op ",
        u64::from(rec.op),
        ", arg ",
        rec.arg,
    )
}

// Appends a refusal.
fn show_refused(out: &mut Page, fault: Fault)
    ensures { GrowsBy out.old out.new (refused_text fault) }
{
    out.add("refused ");
    show_fault(out, fault)
}

/// Appends an answer: `done`, `value 15`, `refused 23, token busy`.
pub(crate) fn show_answer(out: &mut Page, names: Option<&Names>, answer: Answer)
    ensures { GrowsBy out.old out.new (answer_text (option_copied names.entry) answer) }
{
    match answer {
        Answer::Begin => out.add("not asked before"),
        Answer::Done => out.add("done"),
        Answer::Value(value) => out.number("value ", value),
        Answer::Bytes(blob) => show_record(out, &blob),
        Answer::Dropped(msg, rec) => show_dropped(out, names, msg, rec),
        Answer::Got(item) => show_item(out, names, item),
        Answer::NoMsg => out.add("nothing at the port"),
        Answer::Refused(fault) => show_refused(out, fault),
    }
}

/// How a token is wanted or held: `exclusively` or `shared`.
pub(crate) fn mode_word(mode: Mode) -> &'static str {
    match mode {
        Mode::Exclusive => "exclusively",
        Mode::Shared => "shared",
    }
}

/// Appends a text in which a number stands for each `@`.
pub(crate) fn fill(out: &mut Page, text: &str, numbers: &[u64]) {
    let mut rest = text;
    for number in numbers {
        if let Some((before, behind)) = rest.split_once("@") {
            out.number(before, *number);
            rest = behind;
        }
    }
    out.add(rest);
}
