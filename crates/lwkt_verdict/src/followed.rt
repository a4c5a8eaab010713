//! What a check that follows a run knows of a thread.
ghost use Rattle.std.specs.Prelude.{◌≡◌, ◌≢◌, ℕ, ◌<◌, ◌↔◌, ◌≤◌, ◌++◌, ◌∷◌, [], IsTrue, true, false, length, Option, Some, None, is_some, option_and_then, IfOk, IfSome, OnOk, option_map};
ghost use Rattle.std.specs.Option.{option_copied};
ghost use Rattle.lwkt_code.specs.Answers.{last_step, logs};
ghost use Rattle.lwkt_code.specs.Next.{next};
ghost use Rattle.lwkt_code.specs.Programs.{start};
ghost use Rattle.lwkt_script.specs.Logs.{failure_of};
ghost use Rattle.lwkt_verdict.specs.Threads.{program_of, logged_by, may_end};
ghost use Rattle.lwkt_verdict.specs.Follow.{Awaited, Known, is_expected, come};
ghost use Rattle.lwkt_base.specs.declared.asks.Ask.{Ask};
ghost use Rattle.lwkt_verdict.specs.Followed.{unpolled, log_with, Hears, Moves, Asks, MayHear, MayAskNext, IsKept, MayRest, AllowsRest, MayNotRest, IsEnded, MayEnd};
ghost use Rattle.lwkt_verdict.specs.TurnParts.{after_all, IsPartOf};

use crate::asks::may_answer;
use crate::expected::Expected;
use crate::owns::has_blocked;
use crate::progress::may_end_after;
use crate::turn_parts::goes_by_ask;
use lwkt_base::limits::LOG_LIMIT;
use lwkt_base::memory::push;
use lwkt_base::{Answer, Ask, Entry, OutOfMemory, ThreadLine, ThreadState};
use lwkt_code::{Code, Local};
use lwkt_core::{Event, State};
use lwkt_script::{ThreadSpec, entry_of, failure_of};
use std::alloc::Global;
use std::marker::Model;

/// What a check that follows a run knows of a thread.
#[derive(Drop)]
pub struct Followed<'p> {
    // The thread, if the script has it.
    plan: Option<&'p ThreadSpec>,
    // Where its program stands after what it asked last.
    local: Local,
    // What the thread last asked, whether its part shows that it blocked the thread, and which answers it can have.
    last: Option<Ask>,
    blocked: bool,
    expected: Expected,
    // The first 32 entries that the asks before made.
    log: Vec<Entry>,
}

impl<'p> Model for Followed<'p> {
    ghost use Rattle.std.specs.Prelude.{◌≤◌, length};
    ghost use Rattle.std.specs.Option.{option_copied};
    ghost use Rattle.lwkt_base.specs.declared.limits.TheConstants.{LOG_LIMIT};
    ghost use Rattle.lwkt_verdict.specs.Follow.{Known};
    ghost use Rattle.lwkt_verdict.specs.Followed.{awaited};
    ghost use Rattle.std.specs.Coded.{codes};
    ghost use Rattle.lwkt_code.specs.Codes.{term_code, formula_code};

    ghost Value = { Known };

    ghost coded = { Prim.hlevel (codes, term_code, formula_code) };

    ghost view = { λ f. record { plan = option_copied f.plan; local = f.local; last = awaited f.last f.blocked f.expected; log = f.log.items } };

    ghost invariant = { λ f. length f.log.items ≤ LOG_LIMIT };
}

// Where a thread that isn't there stands.
const NOWHERE: Local = Local {
    at: 0,
    left: 0,
    vars: [0; 8],
    counts: [0; 8],
    refused: 0,
    asked: false,
};

// Where a thread stands that was never polled.
fn start_of(plan: Option<&ThreadSpec>) -> Local
    ensures { result ≡ start (program_of (option_copied plan.entry)) }
{
    match plan {
        None => NOWHERE,
        Some(plan) => plan.code.start(),
    }
}

// Whether the answer to a thread's last ask may make an entry.
fn may_log(plan: Option<&ThreadSpec>, local: &Local, heard: &Answer) -> bool
    ensures { result ≡ logs (last_step (program_of (option_copied plan.entry)).steps local.now) heard.now }
{
    match plan {
        None => true,
        Some(plan) => plan.code.logs(local, heard),
    }
}

// An entry goes behind a log that has room for it, if there is one.
fn push_entry(log: &mut Vec<Entry>, entry: Option<Entry>) -> Result<(), OutOfMemory>
    requires few { length log.old.items < LOG_LIMIT }
    ensures items { OnOk result (log.new.items ≡ log_with log.old.items entry) }
    ensures few { length log.new.items ≤ LOG_LIMIT }
{
    match entry {
        None => Ok(()),
        Some(entry) => push(log, entry),
    }
}

// What an answer puts in the log.
fn entry_by(plan: Option<&ThreadSpec>, local: &Local, ask: &Ask, heard: &Answer) -> Option<Entry>
    ensures { result ≡ logged_by (program_of (option_copied plan.entry)).steps local.now (record { ask = ask.now; answer = Some heard.now; blocked = false }) }
{
    if may_log(plan, local, heard) {
        entry_of(*ask, *heard)
    } else {
        None
    }
}

// The entry of an answer, whatever the answer, goes behind a log, if it has one and there is room for it.
#[inline(never)]
#[tactic(auto, using(crate::proofs::KnownMoves::full_log))]
fn note_any(
    log: &mut Vec<Entry>,
    plan: Option<&ThreadSpec>,
    local: &Local,
    ask: &Ask,
    heard: &Answer,
) -> Result<(), OutOfMemory>
    requires few { length log.old.items ≤ LOG_LIMIT }
    ensures items { OnOk result (log.new.items ≡ log_with log.old.items (logged_by (program_of (option_copied plan.entry)).steps local.now (record { ask = ask.now; answer = Some heard.now; blocked = false }))) }
    ensures few { length log.new.items ≤ LOG_LIMIT }
{
    if log.len() >= LOG_LIMIT {
        return Ok(());
    }
    push_entry(log, entry_by(plan, local, ask, heard))
}

// Appends to a log the entry that an answer makes, if it makes one and the log has room. Most answers make none.
#[inline(always)]
#[tactic(auto, using(crate::proofs::KnownMoves::nothing_begun, crate::proofs::KnownMoves::nothing_done))]
fn note(
    log: &mut Vec<Entry>,
    plan: Option<&ThreadSpec>,
    local: &Local,
    ask: &Ask,
    heard: &Answer,
) -> Result<(), OutOfMemory>
    requires few { length log.old.items ≤ LOG_LIMIT }
    ensures items { OnOk result (log.new.items ≡ log_with log.old.items (logged_by (program_of (option_copied plan.entry)).steps local.now (record { ask = ask.now; answer = Some heard.now; blocked = false }))) }
    ensures few { length log.new.items ≤ LOG_LIMIT }
{
    match heard {
        Answer::Begin | Answer::Done => Ok(()),
        _ => note_any(log, plan, local, ask, heard),
    }
}

// Whether two logs are one, where they are as long.
fn are_same_below(log: &[Entry], other: &[Entry]) -> bool
    requires long { length log.now ≡ length other.now }
    ensures { IsTrue result ↔ (log.now ≡ other.now) }
{
    for at in 0..log.len() {
        if !log[at].is_same(&other[at]) {
            return false;
        }
    }
    true
}

// Whether two logs are one.
fn are_same(log: &[Entry], other: &[Entry]) -> bool
    ensures { IsTrue result ↔ (log.now ≡ other.now) }
{
    log.len() == other.len() && are_same_below(log, other)
}

// Whether a log is another one with an entry behind it.
#[tactic(auto, using(crate::proofs::KnownMoves::snoc_same, crate::proofs::KnownMoves::snoc_none))]
fn ends_with(log: &[Entry], entry: &Entry, whole: &[Entry]) -> bool
    ensures { IsTrue result ↔ (log.now ++ entry.now ∷ [] ≡ whole.now) }
{
    match whole {
        [] => false,
        [front @ .., last] => are_same(log, front) && entry.is_same(last),
    }
}

// The same where the log may have no room for the entry.
#[tactic(auto, using(crate::proofs::KnownMoves::full_log, crate::proofs::KnownMoves::room_log))]
fn is_with(log: &[Entry], entry: &Entry, whole: &[Entry]) -> bool
    ensures { IsTrue result ↔ (log_with log.now (Some entry.now) ≡ whole.now) }
{
    if log.len() >= LOG_LIMIT {
        return are_same(log, whole);
    }
    ends_with(log, entry, whole)
}

// What a thread's last ask puts in the log, if there is one, which has no answer.
fn failure_in(last: &Option<Ask>) -> Option<Entry>
    ensures { result ≡ option_and_then failure_of last.now }
{
    match last {
        None => None,
        Some(ask) => failure_of(ask),
    }
}

// Whether a log is another one, with the entry of the last ask, which has no answer, behind it, if there is one and room for it.
fn is_whole(log: &[Entry], last: &Option<Ask>, whole: &[Entry]) -> bool
    ensures { IsTrue result ↔ (log_with log.now (option_and_then failure_of last.now) ≡ whole.now) }
{
    match failure_in(last) {
        None => are_same(log, whole),
        Some(entry) => is_with(log, &entry, whole),
    }
}

// Whether a thread may be in this state whose last ask, if there is one, is open.
fn may_end(state: ThreadState, last: &Option<Ask>, blocked: bool) -> bool
    ensures { result ≡ may_end state (option_map (λ ask. record { ask = ask; answer = None; blocked = blocked }) last.now) }
{
    match last {
        None => matches!(state, ThreadState::Ready),
        Some(ask) => may_end_after(state, ask, blocked),
    }
}

// Whether a thread asks this next that was told this, whatever it asks; it then stands behind that.
#[inline(never)]
fn is_next_any(code: &Code, local: &mut Local, told: &Answer, asked: &Ask) -> bool
    ensures asks { IsTrue result → asked.now ≡ (next code.now.steps local.old told.now).0 }
    ensures moves { IsTrue result → local.new ≡ (next code.now.steps local.old told.now).1 }
    ensures declines { result ≡ false → asked.now ≢ (next code.now.steps local.old told.now).0 }
{
    code.next(local, told).is_same(asked)
}

// The same. An ask that stands where the thread stands is compared there.
#[inline(always)]
fn is_next(code: &Code, local: &mut Local, told: &Answer, asked: &Ask) -> bool
    ensures asks { IsTrue result → asked.now ≡ (next code.now.steps local.old told.now).0 }
    ensures moves { IsTrue result → local.new ≡ (next code.now.steps local.old told.now).1 }
    ensures declines { result ≡ false → asked.now ≢ (next code.now.steps local.old told.now).0 }
{
    match code.pass(local, told) {
        None => is_next_any(code, local, told, asked),
        Some(ask) => ask.is_same(asked),
    }
}

impl<'p> Followed<'p> {
    /// A thread, or none, that was never polled. Takes no memory.
    pub fn unpolled(alloc: Global, plan: Option<&'p ThreadSpec>) -> Followed<'p>
        ensures { result ≡ unpolled (option_copied plan.entry) }
    {
        Followed {
            plan,
            local: start_of(plan),
            last: None,
            blocked: false,
            expected: Expected::Any,
            log: Vec::new(alloc),
        }
    }

    /// Whether what the thread last asked, if anything, can have this answer. If so, the entry of the answer is logged.
    #[inline]
    pub fn hear(&mut self, heard: &Answer) -> Result<bool, OutOfMemory>
        ensures plan { self.new.plan ≡ self.old.plan }
        ensures few { length self.old.log ≤ LOG_LIMIT }
        ensures hears_it { IfOk result (λ yes. IsTrue yes → Hears heard.now self.old self.new) }
        ensures declines { IfOk result (λ yes. yes ≡ false → ¬ MayHear heard.now self.old) }
    {
        let Some(ask) = &self.last else {
            return Ok(true);
        };
        if !self.expected.allows(heard) || !may_answer(ask, heard) {
            return Ok(false);
        }
        note(&mut self.log, self.plan, &self.local, ask, heard)?;
        Ok(true)
    }

    /// Whether the thread, if it is there, asks this next that heard this. Its program then stands behind it.
    #[inline(always)]
    pub fn asks_next(&mut self, heard: &Answer, asked: &Ask) -> bool
        ensures plan { self.new.plan ≡ self.old.plan }
        ensures moves { IsTrue result → Moves heard.now asked.now self.old self.new }
        ensures declines { result ≡ false → ¬ MayAskNext heard.now asked.now self.old }
    {
        let Some(plan) = self.plan else {
            return false;
        };
        if self.last.is_none() {
            return is_next_any(&plan.code, &mut self.local, &Answer::Begin, asked);
        }
        is_next(&plan.code, &mut self.local, heard, asked)
    }

    /// Whether the thread may ask this, whose next ask it is, by this part of the trace. If so, it has asked it, and the machine goes on.
    #[inline(always)]
    pub fn go_on(&mut self, state: &mut State, ask: &Ask, part: &[Event]) -> bool
        ensures plan { self.new.plan ≡ self.old.plan }
        ensures asked { IsTrue result → Asks state.old ask.now part.now self.old self.new }
        ensures declines { result ≡ false → ¬ IsPartOf state.old ask.now None part.now }
        ensures moved { IsTrue result → state.new ≡ after_all state.old part.now }
    {
        if !goes_by_ask(state, ask, part, &mut self.expected) {
            return false;
        }
        self.last = Some(*ask);
        self.blocked = has_blocked(ask, part);
        true
    }

    /// Whether the thread, if it is there, rests: it is blocked by what it last asked. That isn't refused any more then.
    pub fn rest(&mut self) -> bool
        ensures plan { self.new.plan ≡ self.old.plan }
        ensures kept { IsTrue result → IsKept self.old self.new }
        ensures rests { IsTrue result → MayRest self.old self.new }
        ensures allows { IsTrue result → AllowsRest self.old self.new }
        ensures declines { result ≡ false → MayNotRest self.old }
    {
        if self.plan.is_none() {
            return true;
        }
        if self.last.is_none() || !self.blocked {
            return false;
        }
        self.expected.leave_refusals()
    }

    // Whether the line of a thread that is there has its log, and a state that it may be in.
    fn has_line(&self, line: &ThreadLine) -> bool
        ensures ends { IsTrue result → is_some self.now.plan ≡ true → IsEnded self.now (Some line.now) }
        ensures declines { result ≡ false → ¬ MayEnd self.now (Some line.now) }
    {
        if !is_whole(self.log.as_slice(), &self.last, line.log.as_slice()) {
            return false;
        }
        may_end(line.state, &self.last, self.blocked)
    }

    /// Whether the thread, if it is there, ends as its line says, if there is one.
    pub fn ends_as(&self, line: Option<&ThreadLine>) -> bool
        ensures ends { IsTrue result → IsEnded self.now (option_copied line.entry) }
        ensures declines { result ≡ false → ¬ MayEnd self.now (option_copied line.entry) }
    {
        match (self.plan, line) {
            (None, None) => true,
            (Some(_), Some(line)) => self.has_line(line),
            _ => false,
        }
    }
}
