//! Threads that wait are woken by what they wait for.
ghost use Rattle.std.specs.Prelude.{◌≡◌, ◌⊎◌, ℕ, ◌+◌, ◌*◌, ◌<◌, ◌≤◌, length, Some, vec_len, vec_capacity};
ghost use Rattle.lwkt_msg.specs.Desks.{desk_cpu, messages_of};
ghost use Rattle.lwkt_port.specs.Posts.{IsSamePost};
ghost use Rattle.lwkt_port.specs.Traced.{TracesDeeds};
ghost use Rattle.lwkt_port.specs.Works.{Grew};
ghost use Rattle.lwkt_cpu.specs.Processors.{Awaits, AllAwait};
ghost use Rattle.lwkt_cpu.specs.Waking.{woken_by, replied_by, LooksAfter, WakesAll, ward, AreWoken};

use crate::phases::Phase;
use crate::threads::Thread;
use lwkt_base::limits::THREAD_LIMIT;
use lwkt_base::{Answer, Fault, Item, MsgId, Rec};
use lwkt_core::Event;
use lwkt_msg::MsgBook;
use lwkt_port::Ports;

// A look at a thread's port makes it ready, if there was an item.
fn wake_by_item(thread: &mut Thread, came: Result<Option<Item>, Fault>)
    ensures { thread.new ≡ woken_by came thread.old }
{
    if let Ok(Some(item)) = came {
        thread.last = Answer::Got(item);
        thread.phase = Phase::Live;
    }
}

// The reply that a thread waits for makes it ready.
fn wake_by_reply(thread: &mut Thread, msg: MsgId, came: Option<Rec>)
    ensures { thread.new ≡ replied_by msg came thread.old }
{
    if let Some(rec) = came {
        thread.last = Answer::Got(Item::Answered(msg, rec.error, rec.result));
        thread.phase = Phase::Live;
    }
}

// Looks after a thread that waits: it is ready once what it waits for is there.
#[inline(never)]
fn wake_waiting(
    ports: &mut Ports,
    book: &MsgBook,
    number: u8,
    thread: &mut Thread,
    trace: &mut Vec<Event>,
)
    requires table { ports.old.seat.table ≡ book.now.table }
    requires exists { number < ports.old.threads }
    requires awaits { Awaits (messages_of ports.old.seat) thread.old }
    requires room { vec_len trace.old + 128 ≤ vec_capacity trace.old }
    ensures { LooksAfter number ports.old ports.new trace.old trace.new thread.old thread.new }
{
    match thread.phase {
        Phase::AwaitsItem => {
            let came = ports.get(book, number, trace);
            wake_by_item(thread, came);
        }
        Phase::AwaitsReply(msg) => {
            let came = ports.done(msg);
            wake_by_reply(thread, msg, came);
        }
        Phase::Live | Phase::Exited | Phase::Faulted(_) => {}
    }
}

// Looks after a thread: one that waits is ready once what it waits for is there.
#[inline(always)]
fn wake_one(
    ports: &mut Ports,
    book: &MsgBook,
    number: u8,
    thread: &mut Thread,
    trace: &mut Vec<Event>,
)
    requires table { ports.old.seat.table ≡ book.now.table }
    requires exists { number < ports.old.threads }
    requires awaits { Awaits (messages_of ports.old.seat) thread.old }
    requires room { vec_len trace.old + 128 ≤ vec_capacity trace.old }
    ensures { LooksAfter number ports.old ports.new trace.old trace.new thread.old thread.new }
{
    match thread.phase {
        Phase::Live => {}
        _ => wake_waiting(ports, book, number, thread, trace),
    }
}

/// Looks after each thread, by rising number.
#[inline]
pub(crate) fn wake_all(
    ports: &mut Ports,
    book: &MsgBook,
    threads: &mut [Thread],
    trace: &mut Vec<Event>,
)
    requires table { ports.old.seat.table ≡ book.now.table }
    requires ported { ports.old.threads ≡ length threads.old }
    requires few { length threads.old ≤ THREAD_LIMIT }
    requires awaits { AllAwait (messages_of ports.old.seat) threads.old }
    requires room { vec_len trace.old + 2048 ≤ vec_capacity trace.old }
    ensures wakes { WakesAll (ward ports.old threads.old trace.old) (ward ports.new threads.new trace.new) }
    ensures woken { AreWoken threads.old threads.new }
    ensures same { IsSamePost ports.old ports.new }
    ensures grew { Grew (desk_cpu ports.old.seat) (128 * length threads.old) trace.old trace.new }
    ensures traced { TracesDeeds ports.old.seat ports.new.seat trace.old.items trace.new.items }
{
    for at in 0..threads.len() {
        wake_one(ports, book, at as u8, &mut threads[at], trace);
    }
}
