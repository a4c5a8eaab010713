//! What the answers to a thread's asks put in its log.
ghost use Rattle.std.specs.Prelude.{◌≡◌};
ghost use Rattle.lwkt_script.specs.Logs.{value_entry, item_entry, entry_of, failure_of};

use lwkt_base::{Answer, Ask, Call, Entry, Item};

// The entry of a value: of a question whether a message is to be aborted, or of a read.
fn value_entry(ask: Ask, value: u64) -> Entry
    ensures { result ≡ value_entry ask value }
{
    match ask {
        Ask::IsAborted(_) => Entry::Aborted(value == 1),
        _ => Entry::Value(value),
    }
}

// The entry of an item.
fn item_entry(item: Item) -> Entry
    ensures { result ≡ item_entry item }
{
    match item {
        Item::Request(msg, call) => Entry::Request(msg, call),
        Item::Answered(msg, error, outcome) => Entry::Reply(msg, error, outcome),
    }
}

/// What an answer to an ask puts in the log.
pub fn entry_of(ask: Ask, answer: Answer) -> Option<Entry>
    ensures { result ≡ entry_of ask answer }
{
    match answer {
        Answer::Begin | Answer::Done => None,
        Answer::Value(value) => Some(value_entry(ask, value)),
        Answer::Bytes(blob) => Some(Entry::Bytes(blob)),
        Answer::Dropped(msg, rec) => Some(Entry::Dropped(
            msg,
            Call {
                arg: rec.arg,
                op: rec.op,
            },
        )),
        Answer::Got(item) => Some(item_entry(item)),
        Answer::NoMsg => Some(Entry::NoMessage),
        Answer::Refused(fault) => Some(Entry::Refused(fault.number())),
    }
}

/// What an ask puts in the log by itself: that to end by an assertion that doesn't hold, its number.
pub fn failure_of(ask: &Ask) -> Option<Entry>
    ensures { result ≡ failure_of ask.now }
{
    match ask {
        Ask::Fail(number) => Some(Entry::Failed(*number)),
        _ => None,
    }
}
