//! A check that follows a run turn by turn, and keeps no turn.
ghost use Rattle.std.specs.Prelude.{◌≡◌, ℕ, ◌<◌, ◌+◌, ◌*◌, ◌/◌, ◌%◌, ◌^◌, ◌-◌, ◌≤◌, ◌↔◌, IsTrue, IfOk, IfSome, MatchOption, length, slice_get, false, Some, is_some, option_map};
ghost use Rattle.std.specs.Option.{option_copied};
ghost use Rattle.lwkt_verdict.specs.TurnParts.{after_all, GoesQuietly};
ghost use Rattle.lwkt_verdict.specs.Threads.{plan_of_thread, line_of};
ghost use Rattle.lwkt_verdict.specs.Follow.{Follow, Begins, GoesOnByPoll, DeclinesPoll, GoesOnUnasked, DeclinesUnasked, EndsHere, DeclinesEnd, AreThreads};
ghost use Rattle.lwkt_verdict.specs.Followed.{unpolled, IsPolled, MayBePolled, IsKept, MayRest, IsEnded, MayEnd, AllThreads, KeepsPlans, AreKept, MayAllRest, AllowAllRest, OneMayNotRest};

use crate::followed::Followed;
use crate::plans::{find_line, find_thread};
use crate::rounds::are_listed;
use crate::turn_parts::{are_of, goes_quietly};
use lwkt_base::limits::{CPU_LIMIT, MACHINE_THREADS, THREAD_LIMIT};
use lwkt_base::memory::{push, with_capacity};
use lwkt_base::{Answer, Ask, OutOfMemory, ThreadId, ThreadLine};
use lwkt_core::{Event, State};
use lwkt_script::ThreadSpec;
use std::alloc::Global;
use std::marker::Model;

/// A check that follows a run of a script turn by turn, as it is made. It keeps no turn. Of each thread it keeps where its program
/// stands, what it asked last, which answers that can have, and the first 32 entries of its log; and beside the threads the machine that
/// the trace so far leads to.
///
/// What it says of a turn holds for each of these answers. It says no exactly of a turn that fits none of the turns before it.
#[derive(Drop)]
pub struct Follower<'p> {
    plans: &'p [ThreadSpec],
    // 16 threads for each of 8 processors.
    table: Vec<Followed<'p>>,
    // The machine that the trace so far leads to.
    state: State,
}

impl<'p> Model for Follower<'p> {
    ghost use Rattle.lwkt_verdict.specs.Follow.{Follow, AreThreads};
    ghost use Rattle.std.specs.Coded.{codes};
    ghost use Rattle.lwkt_code.specs.Codes.{term_code, formula_code};

    ghost Value = { Follow };

    ghost coded = { Prim.hlevel (codes, term_code, formula_code) };

    ghost view = { λ f. record { plans = f.plans.now; table = f.table.items; machine = f.state } };

    ghost invariant = { λ f. AreThreads f.plans.now f.table.items };
}

// The thread of this number, 16 for each processor, if the script has it.
fn thread_at(plans: &[ThreadSpec], slot: usize) -> Option<&ThreadSpec>
    requires { slot < MACHINE_THREADS }
    ensures { option_copied result ≡ plan_of_thread (slot / THREAD_LIMIT) (slot % THREAD_LIMIT) plans.now }
{
    match find_thread((slot / 16) as u8, (slot % 16) as u8, plans) {
        None => None,
        Some(at) => plans.get(at),
    }
}

// The line of the thread of this number, if there is one.
fn line_at(lines: &[ThreadLine], slot: usize) -> Option<&ThreadLine>
    ensures { option_copied result ≡ line_of slot lines.now }
{
    match find_line(slot, lines) {
        None => None,
        Some(at) => lines.get(at),
    }
}

// The threads, none of which was polled yet.
fn unpolled_threads<'p>(
    alloc: Global,
    plans: &'p [ThreadSpec],
) -> Result<Vec<Followed<'p>>, OutOfMemory>
    ensures { IfOk result (λ table. (length table.items ≡ MACHINE_THREADS) × AllThreads (λ k t. t ≡ unpolled (plan_of_thread (k / THREAD_LIMIT) (k % THREAD_LIMIT) plans.now)) table.items) }
{
    let mut table = with_capacity(alloc, MACHINE_THREADS)?;
    for slot in 0..MACHINE_THREADS {
        push(
            &mut table,
            Followed::unpolled(alloc, thread_at(plans, slot)),
        )?;
    }
    Ok(table)
}

// Whether a thread that heard this may be polled with this ask and this part of the trace; it and the machine then go on.
#[inline(always)]
fn asks(
    followed: &mut Followed<'_>,
    state: &mut State,
    heard: &Answer,
    asked: &Ask,
    part: &[Event],
) -> Result<bool, OutOfMemory>
    ensures plan { followed.new.plan ≡ followed.old.plan }
    ensures polled { IfOk result (λ yes. IsTrue yes → IsPolled state.old heard.now asked.now part.now followed.old followed.new) }
    ensures declines { IfOk result (λ yes. yes ≡ false → ¬ MayBePolled state.old heard.now asked.now part.now followed.old) }
    ensures moved { IfOk result (λ yes. IsTrue yes → state.new ≡ after_all state.old part.now) }
{
    if !followed.hear(heard)? {
        return Ok(false);
    }
    Ok(followed.asks_next(heard, asked) && followed.go_on(state, asked, part))
}

// Whether each thread of a processor rests.
fn all_rest(table: &mut [Followed<'_>], cpu: usize) -> bool
    requires processor { cpu < CPU_LIMIT }
    requires room { length table.old ≡ MACHINE_THREADS }
    ensures plans { KeepsPlans table.old table.new }
    ensures kept { IsTrue result → AreKept table.old table.new }
    ensures rests { IsTrue result → MayAllRest cpu table.old table.new }
    ensures allows { IsTrue result → AllowAllRest cpu table.old table.new }
    ensures declines { result ≡ false → OneMayNotRest cpu table.old }
{
    for n in 0..16 {
        if !table[16 * cpu + n].rest() {
            return false;
        }
    }
    true
}

// Whether each thread ends as its line says.
fn all_end(table: &[Followed<'_>], lines: &[ThreadLine]) -> bool
    requires room { length table.now ≡ MACHINE_THREADS }
    ensures ends { IsTrue result → AllThreads (λ k t. IsEnded t (line_of k lines.now)) table.now }
    ensures declines { result ≡ false → ¬ AllThreads (λ k t. MayEnd t (line_of k lines.now)) table.now }
{
    for slot in 0..MACHINE_THREADS {
        if !table[slot].ends_as(line_at(lines, slot)) {
            return false;
        }
    }
    true
}

impl<'p> Follower<'p> {
    /// A check of a run of a script with these threads, from this opening on.
    pub fn new(
        alloc: Global,
        plans: &'p [ThreadSpec],
        opening: State,
    ) -> Result<Follower<'p>, OutOfMemory>
        ensures { IfOk result (λ f. Begins plans.now opening f) }
    {
        let table = unpolled_threads(alloc, plans)?;
        Ok(Follower {
            plans,
            table,
            state: opening,
        })
    }

    /// Whether a turn of this processor, 0 to 7, that polled this thread fits the turns before it, with this part of the trace. The
    /// thread heard the answer to what it had asked before, and asked this. What it heard at its first poll isn't looked at. If the
    /// turn fits, the check goes on by it; else nothing follows from the check any more.
    ///
    /// Nothing follows from the check where memory for the thread's log is refused.
    #[inline]
    pub fn poll(
        &mut self,
        cpu: usize,
        thread: ThreadId,
        heard: &Answer,
        asked: &Ask,
        part: &[Event],
    ) -> Result<bool, OutOfMemory>
        requires processor { cpu < CPU_LIMIT }
        ensures goes { IfOk result (λ yes. IsTrue yes → GoesOnByPoll cpu thread heard.now asked.now part.now self.old self.new) }
        ensures declines { IfOk result (λ yes. yes ≡ false → DeclinesPoll cpu thread heard.now asked.now part.now self.old) }
    {
        if usize::from(thread.cpu.0) != cpu || thread.thread >= 16 || !are_of(cpu, part) {
            return Ok(false);
        }
        let slot = 16 * cpu + usize::from(thread.thread);
        asks(&mut self.table[slot], &mut self.state, heard, asked, part)
    }

    /// Whether a turn of this processor, 0 to 7, that polled no thread fits the turns before it, with this part of the trace. If it fits, the
    /// check goes on by it; else nothing follows from the check any more.
    pub fn rest(&mut self, cpu: usize, part: &[Event]) -> bool
        requires processor { cpu < CPU_LIMIT }
        ensures goes { IsTrue result → GoesOnUnasked cpu part.now self.old self.new }
        ensures declines { result ≡ false → DeclinesUnasked cpu part.now self.old }
    {
        if !are_of(cpu, part) {
            return false;
        }
        if !goes_quietly(&mut self.state, part) {
            return false;
        }
        all_rest(self.table.as_mut_slice(), cpu)
    }

    /// Whether the run ends here as these lines say, with these events of the stop. If so, the machine that they lead to.
    pub fn ends(self, lines: &[ThreadLine], stop: &[Event]) -> Option<State>
        ensures ends { IfSome result (λ state. EndsHere self.entry lines.now stop.now) }
        ensures declines { is_some result ≡ false → DeclinesEnd self.entry lines.now stop.now }
        ensures moved { IfSome result (λ state. state ≡ after_all self.entry.machine stop.now) }
    {
        if !are_listed(self.state.cpus(), lines) || !all_end(self.table.as_slice(), lines) {
            return None;
        }
        let mut state = self.state;
        if goes_quietly(&mut state, stop) {
            Some(state)
        } else {
            None
        }
    }
}
