//! The turns of a run: made one by one, kept by a keeper, and followed by a check, until it says no.
ghost use Rattle.std.specs.Prelude.{◌≡◌, ◌↔◌, ◌<◌, ◌≤◌, IsTrue, false, All, length, IfOk, IfSome, option_map};
ghost use Rattle.lwkt_verdict.specs.Threads.{slot_of};
ghost use Rattle.lwkt_run.specs.Driving.{GoesOnBy, DeclinesBy, TurnDriven, RoundDriven, RoundsDriven, TurnsDriven, IsDriven, IsWithin, IsShort, HasTurns, driver_state};
ghost use Rattle.lwkt_run.specs.Keeping.{polled_of};
ghost use Rattle.lwkt_run.specs.Running.{WasPolled, HasPolled, IsPolledAt, HasBeenAsked, says_over, both as both_so};

use crate::keepers::Keeper;
use crate::polled::PolledRef;
use lwkt_base::limits::{CPU_LIMIT, MACHINE_THREADS, THREAD_LIMIT};
use lwkt_base::{CpuId, OutOfMemory, ThreadId};
use lwkt_core::Event;
use lwkt_cpu::Turned;
use lwkt_machine::{Machine, ScriptBody};
use lwkt_verdict::Follower;

/// Which turns a run makes.
#[derive(Clone, Copy)]
pub enum Course<'a> {
    /// So many rounds of one turn of each processor, by rising number, or fewer: up to the first in which each turn says that every thread
    /// of its processor has ended.
    Rounds(u32),
    /// The turn of each processor that an order names, 0 to 7, one after another.
    Along(&'a [u8]),
}

impl Course<'_> {
    /// Whether rounds, if these are to be made, are some.
    pub fn has_turns(self) -> bool
        ensures { IsTrue result ↔ HasTurns self.entry }
    {
        match self {
            Course::Rounds(limit) => limit > 0,
            Course::Along(_) => true,
        }
    }
}

// What the last turn of a processor asked, which polled this thread.
fn polled_at(machine: &Machine<ScriptBody>, cpu: usize, thread: usize) -> PolledRef<'_>
    requires processor { cpu < CPU_LIMIT }
    requires numbered { thread < THREAD_LIMIT }
    requires polled { WasPolled machine.now cpu thread }
    ensures { IsPolledAt machine.now cpu thread (polled_of result) }
{
    let body = machine.body(cpu, thread).unwrap();
    PolledRef {
        thread: ThreadId {
            cpu: CpuId(cpu as u8),
            thread: thread as u8,
        },
        heard: body.heard().unwrap(),
        asked: body.asked().unwrap(),
    }
}

// What the last turn of a processor asked, which says this.
fn asks_of(machine: &Machine<ScriptBody>, cpu: usize, turned: Turned) -> Option<PolledRef<'_>>
    requires processor { cpu < CPU_LIMIT }
    requires polled { HasPolled cpu machine.now turned }
    ensures asked { HasBeenAsked cpu machine.now turned (option_map polled_of result) }
    ensures within { IfSome result (λ p. slot_of p.thread < MACHINE_THREADS) }
{
    match turned {
        Turned::Ran { thread } => Some(polled_at(machine, cpu, thread)),
        Turned::Idle | Turned::AllExited => None,
    }
}

// Whether a turn says that every thread has ended.
fn is_over(turned: Turned) -> bool
    ensures { result ≡ says_over turned }
{
    matches!(turned, Turned::AllExited)
}

// Whether both are so.
fn both(a: bool, b: bool) -> bool
    ensures { result ≡ both_so a b }
{
    a && b
}

// Whether a turn of a processor fits the turns before it; the check then goes on by it.
fn fits(
    follower: &mut Follower<'_>,
    cpu: usize,
    asks: Option<PolledRef<'_>>,
    part: &[Event],
) -> Result<bool, OutOfMemory>
    requires processor { cpu < CPU_LIMIT }
    ensures goes { IfOk result (λ yes. IsTrue yes → GoesOnBy cpu (option_map polled_of asks.entry) part.now follower.old follower.new) }
    ensures declines { IfOk result (λ yes. yes ≡ false → DeclinesBy cpu (option_map polled_of asks.entry) part.now follower.old) }
{
    match asks {
        None => Ok(follower.rest(cpu, part)),
        Some(polled) => follower.poll(cpu, polled.thread, polled.heard, polled.asked, part),
    }
}

// Makes a turn of a processor, which is kept, and says whether all its threads have ended; `None` where the check says that the turn
// doesn't fit. The turn's events are traced into the room, in place of what that had, and are counted if the turn fits.
fn drive_turn<K: Keeper>(
    machine: &mut Machine<ScriptBody>,
    cpu: usize,
    room: &mut Vec<Event>,
    follower: &mut Follower<'_>,
    keeper: &mut K,
    events: &mut usize,
) -> Result<Option<bool>, OutOfMemory>
    requires there { cpu < length machine.old.cpus }
    requires few { length machine.old.cpus ≤ CPU_LIMIT }
    ensures ok { IfOk result (λ heard. TurnDriven cpu heard (driver_state machine.old (K.kept keeper.old) events.old follower.old) (driver_state machine.new (K.kept keeper.new) events.new follower.new)) }
    ensures as_many { length machine.new.cpus ≡ length machine.old.cpus }
{
    room.clear();
    let turned = machine.turn_into(cpu, room)?;
    let asks = asks_of(machine, cpu, turned);
    let part = room.as_slice();
    keeper.note(cpu as u8, part, asks)?;
    if !fits(follower, cpu, asks, part)? {
        return Ok(None);
    }
    *events = events.saturating_add(part.len());
    Ok(Some(is_over(turned)))
}

// Makes a round, one turn of each processor, and says whether all said that their threads have ended; `None` where the check says that a
// turn doesn't fit, which is the last one then.
fn drive_round<K: Keeper>(
    machine: &mut Machine<ScriptBody>,
    room: &mut Vec<Event>,
    follower: &mut Follower<'_>,
    keeper: &mut K,
    events: &mut usize,
) -> Result<Option<bool>, OutOfMemory>
    ensures ok { IfOk result (λ heard. RoundDriven heard (driver_state machine.old (K.kept keeper.old) events.old follower.old) (driver_state machine.new (K.kept keeper.new) events.new follower.new)) }
{
    let mut over = true;
    for cpu in 0..machine.cpus() {
        match drive_turn(machine, cpu, room, follower, keeper, events)? {
            None => return Ok(None),
            Some(ended) => over = both(over, ended),
        }
    }
    Ok(Some(over))
}

// Makes rounds, so many or up to the first in which each turn says that every thread of its processor has ended. Says whether the check
// followed them; if it doesn't, the last turn is the first that it says no to.
fn drive_rounds<K: Keeper>(
    machine: &mut Machine<ScriptBody>,
    limit: u32,
    room: &mut Vec<Event>,
    follower: &mut Follower<'_>,
    keeper: &mut K,
    events: &mut usize,
) -> Result<bool, OutOfMemory>
    ensures ok { IfOk result (λ fits. RoundsDriven limit fits (driver_state machine.old (K.kept keeper.old) events.old follower.old) (driver_state machine.new (K.kept keeper.new) events.new follower.new)) }
{
    for _round in 0..limit {
        match drive_round(machine, room, follower, keeper, events)? {
            None => return Ok(false),
            Some(true) => return Ok(true),
            Some(false) => {}
        }
    }
    Ok(true)
}

// Makes the turn of each processor that an order names, one after another. Says whether the check followed them; if it doesn't, the last
// turn is the first that it says no to.
fn drive_turns<K: Keeper>(
    machine: &mut Machine<ScriptBody>,
    order: &[u8],
    room: &mut Vec<Event>,
    follower: &mut Follower<'_>,
    keeper: &mut K,
    events: &mut usize,
) -> Result<bool, OutOfMemory>
    requires processors { All (λ x. x < length machine.old.cpus) order.now }
    requires few { length machine.old.cpus ≤ CPU_LIMIT }
    ensures ok { IfOk result (λ fits. TurnsDriven order.now fits (driver_state machine.old (K.kept keeper.old) events.old follower.old) (driver_state machine.new (K.kept keeper.new) events.new follower.new)) }
{
    for at in 0..order.len() {
        let cpu = usize::from(order[at]);
        match drive_turn(machine, cpu, room, follower, keeper, events)? {
            None => return Ok(false),
            Some(_) => {}
        }
    }
    Ok(true)
}

/// Makes the turns of a course, each of which the keeper takes and the check follows. Says whether the check followed all; if it doesn't,
/// the last turn is the first that it says no to, and the machine is left where it stands then. The events of the turns that fit are
/// counted, as far as the number goes. A turn's events are traced into the room, in place of what that had.
///
/// Refused with `Memory` if memory for a turn's events, for keeping it or for the check is. The turns before are made then.
pub fn drive<K: Keeper>(
    machine: &mut Machine<ScriptBody>,
    course: Course<'_>,
    room: &mut Vec<Event>,
    follower: &mut Follower<'_>,
    keeper: &mut K,
    events: &mut usize,
) -> Result<bool, OutOfMemory>
    requires processors { IsWithin (length machine.old.cpus) course }
    requires few { length machine.old.cpus ≤ CPU_LIMIT }
    ensures short { IsShort course.entry }
    ensures ok { IfOk result (λ fits. IsDriven course.entry fits (driver_state machine.old (K.kept keeper.old) events.old follower.old) (driver_state machine.new (K.kept keeper.new) events.new follower.new)) }
{
    match course {
        Course::Rounds(limit) => drive_rounds(machine, limit, room, follower, keeper, events),
        Course::Along(order) => drive_turns(machine, order, room, follower, keeper, events),
    }
}
