//! The bodies of a script's threads.
ghost use Rattle.std.specs.Prelude.{◌≡◌, ◌<◌, ◌≤◌, List, length, vec_capacity, false, IfOk, IfSome, IsSome, Option, Some, None, option_and_then};
ghost use Rattle.std.specs.Option.{option_copied};
ghost use Rattle.lwkt_base.specs.declared.asks.Ask.{Ask};
ghost use Rattle.lwkt_code.specs.declared.locals.Local.{Local};
ghost use Rattle.lwkt_code.specs.declared.steps.Step.{Step};
ghost use Rattle.lwkt_script.specs.Logs.{failure_of};
ghost use Rattle.lwkt_machine.specs.Bodies.{unpolled, ask_said, next_of, after_ask, after_hearing, entry_by, entry_kept, logged};

use crate::lasting::Lasting;
use lwkt_base::limits::LOG_LIMIT;
use lwkt_base::memory::with_capacity;
use lwkt_base::{Answer, Ask, Entry, OutOfMemory};
use lwkt_code::moves::fixed_at;
use lwkt_code::{Code, Local, Step};
use lwkt_cpu::Body;
use lwkt_script::{entry_of, failure_of};
use std::alloc::Global;
use std::marker::Model;

/// The body of a script's thread: it asks what its program asks, by the answers that it is given, and after its end `Exit` ever after. Its
/// log has the first 32 entries that its answers make; an answer `Done` makes none.
#[derive(Drop)]
pub struct ScriptBody {
    code: Code,
    local: Local,
    // Where the last ask stands in the program, if it stands there.
    standing: Option<usize>,
    // Else the last ask, if there is one.
    made: Option<Ask>,
    heard: Option<Answer>,
    log: Vec<Entry>,
}

impl Model for ScriptBody {
    ghost use Rattle.lwkt_base.specs.declared.limits.TheConstants.{LOG_LIMIT};
    ghost use Rattle.std.specs.Prelude.{◌≤◌, length, vec_capacity};
    ghost use Rattle.std.specs.Coded.{codes};
    ghost use Rattle.lwkt_code.specs.Codes.{term_code, formula_code};
    ghost use Rattle.lwkt_machine.specs.Bodies.{Scripted, ask_said};

    ghost Value = { Scripted };

    ghost coded = { Prim.hlevel (codes, term_code, formula_code) };

    ghost view = { λ b. record { program = b.code; local = b.local; asked = ask_said b.code.steps b.standing b.made; heard = b.heard; log = b.log.items } };

    ghost invariant = { λ b. (length b.log.items ≤ LOG_LIMIT) × (LOG_LIMIT ≤ vec_capacity b.log) };
}

// The ask that stands at a place, or else another.
fn said_in<'a>(steps: &'a [Step], standing: Option<usize>, made: &'a Option<Ask>) -> Option<&'a Ask>
    ensures { option_copied result ≡ ask_said steps.now standing made.now }
{
    match standing {
        None => made.as_ref(),
        Some(at) => fixed_at(steps, at),
    }
}

// What an answer that was heard puts in the log, by what was asked.
fn entry_of_heard(
    code: &Code,
    local: &Local,
    asked: Option<&Ask>,
    heard: &Option<Answer>,
) -> Option<Entry>
    ensures { result ≡ option_and_then (λ answer. entry_by code.now.steps local.now (option_copied asked.entry) answer) heard.now }
{
    let answer = heard.as_ref()?;
    let ask = asked?;
    if code.logs(local, answer) {
        entry_of(*ask, *answer)
    } else {
        None
    }
}

// Keeps what an ask puts in a log by itself, if the log has room.
#[inline(never)]
#[tactic(auto, using(crate::proofs::BodyMoves::full_log))]
fn add_failure(log: &mut Vec<Entry>, ask: &Ask)
    requires few { length log.old.items ≤ LOG_LIMIT }
    requires room { LOG_LIMIT ≤ vec_capacity log.old }
    ensures items { log.new.items ≡ logged log.old.items (failure_of ask.now) }
    ensures few { length log.new.items ≤ LOG_LIMIT }
    ensures room { LOG_LIMIT ≤ vec_capacity log.new }
{
    if log.len() >= LOG_LIMIT {
        return;
    }
    if let Some(entry) = failure_of(ask) {
        log.push(entry).unwrap();
    }
}

// The same. Only an assertion that doesn't hold puts something there.
#[inline(always)]
fn keep_failure(log: &mut Vec<Entry>, ask: &Ask)
    requires few { length log.old.items ≤ LOG_LIMIT }
    requires room { LOG_LIMIT ≤ vec_capacity log.old }
    ensures items { log.new.items ≡ logged log.old.items (failure_of ask.now) }
    ensures few { length log.new.items ≤ LOG_LIMIT }
    ensures room { LOG_LIMIT ≤ vec_capacity log.new }
{
    if let Ask::Fail(_) = ask {
        add_failure(log, ask);
    }
}

// Whether an answer that was heard may put something in the log.
#[inline(always)]
#[tactic(auto, using(crate::proofs::BodyMoves::nothing_begun, crate::proofs::BodyMoves::nothing_done))]
fn may_log(heard: &Option<Answer>) -> bool
    ensures { result ≡ false → (steps : List Step) (s : Local) (asked : Option Ask) → option_and_then (λ answer. entry_by steps s asked answer) heard.now ≡ None }
{
    !matches!(heard, None | Some(Answer::Begin | Answer::Done))
}

impl ScriptBody {
    /// A body that makes this program, in memory of its own, and was never polled. Its log has room for its 32 entries from the
    /// beginning.
    ///
    /// `OutOfMemory` if memory for the program or the log is refused.
    pub fn new(alloc: Global, code: &Code) -> Result<Self, OutOfMemory>
        ensures { IfOk result (λ body. body ≡ unpolled code.now) }
    {
        let log = with_capacity(alloc, LOG_LIMIT)?;
        let code = code.copy(alloc)?;
        let local = code.start();
        Ok(ScriptBody {
            code,
            local,
            standing: None,
            made: None,
            heard: None,
            log,
        })
    }

    /// Where the body stands in its program.
    pub fn local(&self) -> &Local
        ensures { result.now ≡ self.now.local }
    {
        &self.local
    }

    /// What the body asked at its last poll. `None` before the first one.
    pub fn asked(&self) -> Option<&Ask>
        ensures { option_copied result ≡ self.now.asked }
    {
        said_in(self.code.steps(), self.standing, &self.made)
    }

    /// The answer that the body was given at its last poll: that to the ask before, and `Begin` at its first poll. `None` before
    /// that.
    pub fn heard(&self) -> Option<&Answer>
        ensures { option_copied result ≡ self.now.heard }
    {
        self.heard.as_ref()
    }

    /// The log, at most 32 entries, the first one first.
    pub fn log(&self) -> &[Entry]
        ensures log { result.now ≡ self.now.log }
        ensures few { length self.now.log ≤ LOG_LIMIT }
    {
        self.log.as_slice()
    }

    // Keeps what an answer that was heard puts in the log, which has room for it.
    #[inline(never)]
    fn add_entry(&mut self)
        requires { length self.old.log < LOG_LIMIT }
        ensures { self.new ≡ record self.old { log = logged self.old.log (entry_kept self.old) } }
    {
        if let Some(entry) = entry_of_heard(&self.code, &self.local, self.asked(), &self.heard) {
            self.log.push(entry).unwrap();
        }
    }

    // Keeps what an answer that was heard puts in the log, if the log has room.
    #[inline(always)]
    fn keep(&mut self)
        ensures { self.new ≡ record self.old { log = logged self.old.log (entry_kept self.old) } }
    {
        if may_log(&self.heard) && self.log.len() < LOG_LIMIT {
            self.add_entry();
        }
    }

    // Keeps an answer, and what it puts in the log. `Done`, the most common one, puts nothing there and is made anew, since an
    // answer that is copied takes its room for a record along.
    #[inline(always)]
    #[tactic(auto, using(crate::proofs::BodyMoves::nothing_done))]
    fn hear(&mut self, last: Answer)
        ensures { self.new ≡ after_hearing last self.old }
    {
        if let Answer::Done = last {
            self.heard = Some(Answer::Done);
            return;
        }
        self.heard = Some(last);
        self.keep();
    }

    // Goes on to the next ask, whatever that is, by the answer that was heard.
    #[inline(never)]
    fn ask_any(&mut self)
        ensures { IfSome self.old.heard (λ last. self.new ≡ after_ask last self.old) }
    {
        let Some(last) = &self.heard else {
            return;
        };
        let ask = self.code.next(&mut self.local, last);
        keep_failure(&mut self.log, &ask);
        self.standing = None;
        self.made = Some(ask);
    }

    // Goes on to the next ask, by the answer that was heard. Of one that stands where the body stands only its place is kept.
    #[inline(always)]
    fn go_on(&mut self)
        ensures { IfSome self.old.heard (λ last. self.new ≡ after_ask last self.old) }
    {
        let Some(last) = &self.heard else {
            return;
        };
        match self.code.pass(&mut self.local, last) {
            None => self.ask_any(),
            Some(ask) => {
                self.standing = Some(self.local.at - 1);
                keep_failure(&mut self.log, ask);
            }
        }
    }

    // The ask that the body asked last, which is there.
    #[inline(always)]
    fn last_ask(&self) -> &Ask
        requires { IsSome self.now.asked }
        ensures { Some result.now ≡ self.now.asked }
    {
        self.asked().unwrap()
    }
}

impl Body for ScriptBody {
    ghost use Rattle.lwkt_machine.specs.Bodies.{IsPolled};

    ghost polled = { IsPolled };

    // The ask is copied once, from where it stands.
    #[inline(always)]
    #[tactic(auto, using(crate::proofs::BodyMoves::polled_so, crate::proofs::BodyMoves::has_asked))]
    fn poll(&mut self, last: Answer) -> Ask {
        self.hear(last);
        self.go_on();
        *self.last_ask()
    }
}

// A script's body keeps nothing in particular.
impl Lasting for ScriptBody {
    ghost kept = { λ b. Unit {0} };

    ghost keeps = { λ b last ask d step before. before };
}
