//! Outcomes: reports of runs along orders, each once.
ghost use Rattle.std.specs.Prelude.{◌≡◌, ◌≢◌, ℕ, ◌+◌, ◌<◌, ◌≤◌, true, List, [], ◌∷◌, ◌++◌, length, sum, string_bytes, get_or, Err, IfOk, IfErr, IfNone, IsTrue, OnOk, OnErr, OnSome};
ghost use Rattle.std.specs.List.{Any};
ghost use Rattle.lwkt_run.specs.Run.{AreThere, IsOrderRun, end_of_closing};
ghost use Rattle.lwkt_script.specs.declared.scripts.Script.{Script};
ghost use Rattle.lwkt_explore.specs.Outcomes.{settled_text, IsKind, IsOutcome, AreAlike, AreOnce, AreOutcomes, AreShort, AreWhole, HasEnded, HasReport, HasRoom, RefusesSearch};
ghost use Rattle.lwkt_explore.specs.Searches.{state_after, IsShortestOrder, AreShortest, StuckAt};
ghost use Rattle.lwkt_plain.specs.Deadlocks.{IsStandstill};
ghost use Rattle.lwkt_explore.specs.Verdicts.{IsOfVerdict};

use crate::watches::Watch;
use lwkt_base::memory::{push, reserve};
use lwkt_base::{Fault, OutOfMemory};
use lwkt_report::{Closing, Verdict, report_front};
use lwkt_run::{End, TurnsRun, end_of_closing, order_run_of};
use lwkt_script::Script;
use std::alloc::Global;

/// How a run along an order stood when it stopped.
#[derive(Clone, Copy, PartialEq, Eq)]
pub enum Kind {
    /// Every thread has ended. A turn may still change something: messages may be under way.
    Ended,
    /// No turn changes anything, and a thread hasn't ended.
    Stuck,
    /// The bound on turns was met, a thread hasn't ended, and a turn may still change something.
    Cut,
}

/// How the state stands that an order leads to.
#[derive(Clone, Copy, PartialEq, Eq)]
pub(crate) enum LastState {
    /// No turn changes anything.
    Quiet,
    /// All threads have ended.
    AllEnded,
    /// Neither is so, or it isn't known.
    Cut,
}

/// A report, without its verdict, with an order that leads to it. It stands at a state in which every thread has ended, at one that no
/// turn changes, or where the order was cut.
#[derive(Drop)]
pub struct Outcome {
    /// How the run along the order stood when it stopped.
    pub kind: Kind,
    /// The processor of each turn, 0 to 7; of a search a shortest order that leads to this outcome.
    pub order: Vec<u8>,
    /// What the report shows. The verdict is `Lawful`.
    pub closing: Closing,
    /// The lines of the report but the last, which has the verdict.
    pub text: String,
    /// Those of them that are of tokens and threads. Outcomes of one kind that differ in the others alone are grouped.
    pub settled: String,
    /// Of a stuck outcome what each thread that hasn't ended waits for, in the words of who looks on; of every other nothing.
    pub why: Option<String>,
}

/// The outcomes that were found, each once.
#[derive(Drop)]
pub struct Outcomes {
    /// The outcomes, in the order in which they were found: after a search those of shorter orders first.
    pub all: Vec<Outcome>,
    /// Of each of them how many of the orders that were tried to their end led to it, 1 or more.
    pub counts: Vec<u64>,
}

// Which kind of outcome a run is that led to a state that stands so. 35: its verdict isn't `lawful`.
fn kind_of(run: &TurnsRun, last_state: LastState) -> Result<Kind, Fault>
    requires { run.now.closing.verdict ≢ Verdict.Closed }
    ensures lawful { OnOk result (run.now.closing.verdict ≡ Verdict.Lawful) }
    ensures unlawful { IfErr result (λ fault. IsOfVerdict run.now.closing.verdict fault) }
    ensures kind { IfOk result (λ kind. IsKind kind (end_of_closing run.now.closing)) }
    ensures stuck { IfOk result (λ kind. kind ≡ Kind.Stuck → last_state ≡ LastState.Quiet) }
{
    match run.closing.verdict {
        Verdict::Lawful => {}
        // (a verdict was made, so this can't be)
        Verdict::Closed => return Err(Fault::Unlawful { index: 0 }),
        Verdict::Unlawful { index } => return Err(Fault::Unlawful { index }),
    }
    match (last_state, end_of_closing(&run.closing)) {
        // (its verdict is lawful, so this can't be)
        (_, End::Unlawful) => Err(Fault::Unlawful { index: 0 }),
        (LastState::Quiet | LastState::AllEnded, End::Ended) => Ok(Kind::Ended),
        (LastState::Quiet, End::TurnsOut) => Ok(Kind::Stuck),
        // (where all threads have ended, the turns aren't used up)
        (LastState::AllEnded, End::TurnsOut) | (LastState::Cut, _) => Ok(Kind::Cut),
    }
}

// Makes the run along an order, and says which kind of outcome it is.
fn lawful_run(
    alloc: Global,
    script: &Script,
    order: &[u8],
    last_state: LastState,
) -> Result<(TurnsRun, Kind), Fault>
    requires { AreThere script.now order.now }
    ensures run { IfOk result (λ made. IsOrderRun script.now order.now made.0) }
    ensures lawful { IfOk result (λ made. made.0.closing.verdict ≡ Verdict.Lawful) }
    ensures kind { IfOk result (λ made. IsKind made.1 (end_of_closing made.0.closing)) }
    ensures stuck { IfOk result (λ made. made.1 ≡ Kind.Stuck → last_state ≡ LastState.Quiet) }
    ensures refused { IfErr result (λ fault. RefusesSearch script.now fault) }
{
    let run = order_run_of(alloc, script, order)?;
    let kind = kind_of(&run, last_state)?;
    Ok((run, kind))
}

// The token and thread lines of a report, with what it shows.
fn settled_of(alloc: Global, closing: Closing) -> Result<(Closing, String), OutOfMemory>
    ensures same { IfOk result (λ made. made.0 ≡ closing) }
    ensures settled { IfOk result (λ made. string_bytes made.1 ≡ settled_text closing) }
{
    let Closing {
        tokens,
        messages,
        threads,
        verdict,
    } = closing;
    let unsent = Closing {
        tokens,
        messages: Vec::new(alloc),
        threads,
        verdict,
    };
    let settled = report_front(alloc, &unsent)?;
    let closing = Closing { messages, ..unsent };
    Ok((closing, settled))
}

// The outcome of a run along an order.
fn outcome_of<W: Watch>(
    alloc: Global,
    script: &Script,
    order: Vec<u8>,
    last_state: LastState,
) -> Result<Outcome, Fault>
    requires { AreThere script.now order.items }
    ensures ok { IfOk result (λ outcome. IsOutcome script.now outcome) }
    ensures order { IfOk result (λ outcome. outcome.order.items ≡ order.items) }
    ensures stuck { IfOk result (λ outcome. outcome.kind ≡ Kind.Stuck → last_state ≡ LastState.Quiet) }
    ensures refused { IfErr result (λ fault. RefusesSearch script.now fault) }
{
    let (run, kind) = lawful_run(alloc, script, order.as_slice(), last_state)?;
    let why = match kind {
        Kind::Stuck => Some(W::why(alloc, script, &run)?),
        Kind::Ended | Kind::Cut => None,
    };
    let text = report_front(alloc, &run.closing)?;
    let (closing, settled) = settled_of(alloc, run.closing)?;
    Ok(Outcome {
        kind,
        order,
        closing,
        text,
        settled,
        why,
    })
}

// Whether two outcomes are of one kind, and have one text.
fn is_alike(one: &Outcome, other: &Outcome) -> bool
    ensures yes { IsTrue result → AreAlike one.now other.now }
    ensures no { AreAlike one.now other.now → IsTrue result }
{
    one.kind == other.kind && one.text.as_str() == other.text.as_str()
}

impl Outcomes {
    /// None so far.
    pub(crate) fn new(alloc: Global) -> Self
        ensures none { result.all.items ≡ [] }
        ensures counts { result.counts.items ≡ [] }
    {
        Outcomes {
            all: Vec::new(alloc),
            counts: Vec::new(alloc),
        }
    }

    // Which outcome this is, if it was found before.
    fn place_of(&self, outcome: &Outcome) -> Option<usize>
        ensures found { OnSome result (Any (λ one. AreAlike one outcome.now) self.now.all.items) }
        ensures fresh { IfNone result ((k : ℕ) (d : Outcome) → k < length self.now.all.items → AreAlike (get_or self.now.all.items k d) outcome.now → ⊥) }
    {
        for place in 0..self.all.len() {
            if is_alike(&self.all[place], outcome) {
                return Some(place);
            }
        }
        None
    }

    // Counts one order more that led to an outcome.
    fn count(&mut self, place: usize)
        ensures all { self.new.all ≡ self.old.all }
        ensures counts { sum self.new.counts.items ≤ sum self.old.counts.items + 1 }
    {
        if let Some(count) = self.counts.get_mut(place) {
            *count = count.saturating_add(1);
        }
    }

    /// Whether one of them is ended.
    pub(crate) fn have_ended(&self) -> bool
        ensures { result ≡ true → HasEnded self.now }
    {
        for outcome in &self.all {
            if outcome.kind == Kind::Ended {
                return true;
            }
        }
        false
    }

    /// How many of the orders that were tried led to an outcome.
    pub(crate) fn total(&self) -> u64
        ensures { result ≤ sum self.now.counts.items }
    {
        let mut total = 0u64;
        for count in &self.counts {
            total = total.saturating_add(*count);
        }
        total
    }

    // Makes room for one outcome more.
    fn make_room(&mut self) -> Result<(), OutOfMemory>
        ensures all { self.new.all.items ≡ self.old.all.items }
        ensures counts { self.new.counts.items ≡ self.old.counts.items }
        ensures room { OnOk result (HasRoom self.new) }
    {
        reserve(&mut self.all, 1)?;
        reserve(&mut self.counts, 1)
    }

    // Keeps an outcome. That there is room for it is the caller's condition.
    fn keep(&mut self, outcome: Outcome)
        requires { HasRoom self.old }
        ensures all { self.new.all.items ≡ self.old.all.items ++ outcome ∷ [] }
        ensures counts { sum self.new.counts.items ≤ sum self.old.counts.items + 1 }
    {
        push(&mut self.counts, 1).unwrap();
        push(&mut self.all, outcome).unwrap();
    }

    /// Takes those outcomes of others that it lacks, behind its own. Where memory is refused, the rest is left out.
    pub(crate) fn take_in(&mut self, others: Outcomes) -> Result<(), OutOfMemory>
        ensures found { (script : Script) → AreOutcomes script self.old → AreOutcomes script others → AreOutcomes script self.new }
        ensures short { (turns : ℕ) → AreShort turns self.old → AreShort turns others → AreShort turns self.new }
        ensures once { AreOnce self.old → AreOnce self.new }
    {
        for outcome in others.all {
            if self.place_of(&outcome).is_none() {
                self.make_room()?;
                self.keep(outcome);
            }
        }
        Ok(())
    }

    /// Makes the run along an order, and keeps its report, if it is a new one: room for it is made before the run. Says which kind of
    /// outcome it is.
    pub(crate) fn add<W: Watch>(
        &mut self,
        alloc: Global,
        script: &Script,
        order: Vec<u8>,
        last_state: LastState,
    ) -> Result<Kind, Fault>
        requires order { AreThere script.now order.items }
        requires outcomes { AreOutcomes script.now self.old }
        ensures found { AreOutcomes script.now self.new }
        ensures short { (turns : ℕ) → length order.items ≤ turns → AreShort turns self.old → AreShort turns self.new }
        ensures once { AreOnce self.old → AreOnce self.new }
        ensures shortest { IsShortestOrder script.now order.items → AreShortest script.now self.old → AreShortest script.now self.new }
        ensures stuck { (last_state ≡ LastState.Quiet → IsStandstill script.now (state_after script.now order.items)) → StuckAt (IsStandstill script.now) script.now self.old → StuckAt (IsStandstill script.now) script.now self.new }
        ensures ended { HasEnded self.old → HasEnded self.new }
        ensures whole { IfOk result (λ kind. kind ≢ Kind.Cut → AreWhole self.old → AreWhole self.new) }
        ensures err { OnErr result (self.new.all.items ≡ self.old.all.items) }
        ensures kind { IfOk result (λ kind. kind ≡ Kind.Ended → HasEnded self.new) }
        ensures told { IfOk result (λ kind. HasReport script.now order.items self.new) }
        ensures stays { (one : List ℕ) → HasReport script.now one self.old → HasReport script.now one self.new }
        ensures counts { sum self.new.counts.items ≤ sum self.old.counts.items + 1 }
        ensures refused { IfErr result (λ fault. RefusesSearch script.now fault) }
    {
        self.make_room()?;
        let outcome = outcome_of::<W>(alloc, script, order, last_state)?;
        let kind = outcome.kind;
        match self.place_of(&outcome) {
            Some(place) => self.count(place),
            None => self.keep(outcome),
        }
        Ok(kind)
    }
}
