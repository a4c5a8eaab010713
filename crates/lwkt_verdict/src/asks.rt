ghost use Rattle.std.specs.Prelude.{◌≡◌, ◌==◌};
ghost use Rattle.lwkt_verdict.specs.Asks.{refusals, may_refuse, may_be_done, may_give_value, may_give_bytes, may_drop, is_reply_to, may_give_item, may_find_nothing, may_answer, makes_event, is_do, is_exit, is_fail, is_end, may_wait, may_block};

use lwkt_base::{Answer, Ask, Item};

// The numbers of the faults with which an ask can be refused.
fn refusals(ask: &Ask) -> &'static [u8]
    ensures { result.now ≡ refusals ask.now }
{
    match ask {
        Ask::Get(_) => &[16, 10, 11, 20],
        Ask::GetShared(_) => &[16, 10],
        Ask::TryGet(_) => &[16, 10, 11, 20, 23, 34],
        Ask::Rel(_) => &[13, 12, 19],
        Ask::Swap => &[15, 14],
        Ask::Read(..) => &[16, 17, 13],
        Ask::Write(..) => &[16, 17, 13, 18, 22],
        Ask::Add(..) => &[16, 13, 18, 22, 21],
        Ask::ReadBlob(_) => &[16, 17, 13, 37],
        Ask::WriteBlob(..) => &[16, 17, 13, 37, 38],
        Ask::Send(..) => &[30, 25, 24, 36],
        Ask::Do(..) => &[30, 29, 25, 24, 36],
        Ask::Reply(..) => &[31, 24],
        Ask::Abort(_) => &[25, 26, 27],
        Ask::IsAborted(_) => &[31],
        Ask::DropMsg(_) => &[25, 26, 28],
        Ask::GetPort => &[34],
        Ask::WaitPort | Ask::Yield | Ask::Exit | Ask::Fail(_) => &[],
    }
}

// Whether an ask can be refused with a fault of this number.
fn may_refuse(ask: &Ask, number: u8) -> bool
    ensures { result ≡ may_refuse ask.now number }
{
    refusals(ask).iter().any(|n| *n == number)
}

// Whether an ask can be answered that it is done.
fn may_be_done(ask: &Ask) -> bool
    ensures { result ≡ may_be_done ask.now }
{
    !matches!(
        ask,
        Ask::Read(..)
            | Ask::ReadBlob(_)
            | Ask::Do(..)
            | Ask::IsAborted(_)
            | Ask::DropMsg(_)
            | Ask::GetPort
            | Ask::WaitPort
            | Ask::Exit
            | Ask::Fail(_)
    )
}

// Whether an ask can be answered by this value.
fn may_give_value(ask: &Ask, value: u64) -> bool
    ensures { result ≡ may_give_value ask.now value }
{
    match ask {
        Ask::Read(..) => true,
        Ask::IsAborted(_) => value <= 1,
        _ => false,
    }
}

// Whether an ask can be answered by a record.
fn may_give_bytes(ask: &Ask) -> bool
    ensures { result ≡ may_give_bytes ask.now }
{
    matches!(ask, Ask::ReadBlob(_))
}

// Whether an ask can be answered by this message's record.
fn may_drop(ask: &Ask, msg: u8) -> bool
    ensures { result ≡ may_drop ask.now msg }
{
    match ask {
        Ask::DropMsg(mine) => mine.0 == msg,
        _ => false,
    }
}

// Whether an item is the reply to this message.
fn is_reply_to(msg: u8, item: Item) -> bool
    ensures { result ≡ is_reply_to msg item }
{
    match item {
        Item::Request(..) => false,
        Item::Answered(other, _, _) => msg == other.0,
    }
}

// Whether an ask can be answered by this item of the port.
fn may_give_item(ask: &Ask, item: Item) -> bool
    ensures { result ≡ may_give_item ask.now item }
{
    match ask {
        Ask::GetPort | Ask::WaitPort => true,
        Ask::Do(msg, _, _) => is_reply_to(msg.0, item),
        _ => false,
    }
}

// Whether an ask can be answered that the port has nothing.
fn may_find_nothing(ask: &Ask) -> bool
    ensures { result ≡ may_find_nothing ask.now }
{
    matches!(ask, Ask::GetPort)
}

/// Whether an ask can have an answer.
pub fn may_answer(ask: &Ask, answer: &Answer) -> bool
    ensures { result ≡ may_answer ask.now answer.now }
{
    match *answer {
        Answer::Begin => false,
        Answer::Done => may_be_done(ask),
        Answer::Value(value) => may_give_value(ask, value),
        Answer::Bytes(_) => may_give_bytes(ask),
        Answer::Dropped(msg, _) => may_drop(ask, msg.0),
        Answer::Got(item) => may_give_item(ask, item),
        Answer::NoMsg => may_find_nothing(ask),
        Answer::Refused(fault) => may_refuse(ask, fault.number()),
    }
}

/// Whether an ask that isn't refused makes an event of its own.
pub fn makes_event(ask: &Ask) -> bool
    ensures { result ≡ makes_event ask.now }
{
    matches!(
        ask,
        Ask::Read(..)
            | Ask::Write(..)
            | Ask::Add(..)
            | Ask::ReadBlob(_)
            | Ask::WriteBlob(..)
            | Ask::Send(..)
            | Ask::Do(..)
            | Ask::Reply(..)
            | Ask::Abort(_)
            | Ask::DropMsg(_)
    )
}

/// Whether an ask is a synchronous send, which goes on after its own event.
pub fn is_do(ask: &Ask) -> bool
    ensures { result ≡ is_do ask.now }
{
    matches!(ask, Ask::Do(..))
}

/// Whether an ask is that to exit.
pub fn is_exit(ask: &Ask) -> bool
    ensures { result ≡ is_exit ask.now }
{
    matches!(ask, Ask::Exit)
}

/// Whether an ask is that to end by an assertion that doesn't hold.
pub fn is_fail(ask: &Ask) -> bool
    ensures { result ≡ is_fail ask.now }
{
    matches!(ask, Ask::Fail(_))
}

/// Whether an ask is the last one of a thread.
pub fn is_end(ask: &Ask) -> bool
    ensures { result ≡ is_end ask.now }
{
    is_exit(ask) || is_fail(ask)
}

/// Whether an ask can leave its thread waiting for its port or for a reply.
pub fn may_wait(ask: &Ask) -> bool
    ensures { result ≡ may_wait ask.now }
{
    matches!(ask, Ask::Do(..) | Ask::WaitPort)
}

/// Whether an ask can block its thread and leave it to go on.
pub fn may_block(ask: &Ask) -> bool
    ensures { result ≡ may_block ask.now }
{
    matches!(
        ask,
        Ask::Get(_) | Ask::GetShared(_) | Ask::Do(..) | Ask::WaitPort | Ask::Yield
    )
}
