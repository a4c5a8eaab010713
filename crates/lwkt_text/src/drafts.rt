ghost use Rattle.std.specs.Prelude.{◌≡◌, ◌<◌, ◌≤◌, ◌++◌, [], length, Ok, Err, OnOk, IfOk, IfNone};
ghost use Rattle.lwkt_script.specs.Format.{threads_on};
ghost use Rattle.lwkt_text.specs.Blocks.{linked};
ghost use Rattle.lwkt_text.specs.Outcome.{IsAsRead};
ghost use Rattle.lwkt_text.specs.Within.{IsDraft};
ghost use Rattle.lwkt_text.specs.Drafting.{no_draft, line_at, told_of, checked_program, program_of, thread_read, thread_put, unended, cleared, crowded, closed, thread_begun, blamed_first, var_put, with_step, leaves, misplaced, placed, stepped, opened, innermost, turned_over, ended, acted, put, begun_wrong, put_or_blamed, sentence_added, all_added};

use crate::blocks::{Block, Line, Opened, block_of, end_of, is_if, link, numbered, round_in};
use crate::claims::Expectation;
use crate::declarations::Head;
use crate::looks::{place_of_word, text_at, wrong_at};
use crate::many::Many;
use crate::names::Name;
use crate::sayings::{Act, Said, said_in};
use crate::tables::Names;
use crate::words::{Sentence, Word};
use crate::wrongs::{Slip, What, Wrong};
use lwkt_base::limits::{MESSAGE_LIMIT, STEP_LIMIT, THREAD_LIMIT, TOKEN_LIMIT};
use lwkt_base::{MsgSpec, OutOfMemory, TokSpec};
use lwkt_code::{Code, Jump, MOST_STEPS, Step, Wrong as CodeWrong};
use lwkt_script::ThreadSpec;
use std::alloc::Global;

/// What a text said so far.
#[derive(Drop)]
pub struct Draft {
    /// The most turns of each processor.
    pub turns: u32,
    /// The most turns in a row without a thread that can run.
    pub idle: u32,
    /// The tokens that were said.
    pub tokens: Many<TokSpec>,
    /// The messages that were said.
    pub messages: Many<MsgSpec>,
    /// The threads whose steps were said.
    pub threads: Many<ThreadSpec>,
    /// The head of the thread whose steps are being read.
    pub head: Option<Head>,
    /// The names of that thread's variables.
    pub vars: Many<Name>,
    /// What they hold first.
    pub held: [u64; 8],
    /// The steps of that thread so far.
    pub steps: Many<Step>,
    /// Of each step where it is told of.
    pub lines: Many<Line>,
    /// The sentences of that thread that hold others and aren't ended.
    pub blocks: Many<Block>,
    /// How many of its steps count: all but ends and elses.
    pub said: usize,
    /// What was said of outcomes.
    pub expectations: Many<Expectation>,
    /// What is wrong so far.
    pub faults: Many<Wrong>,
}

/// How many of these threads are of a processor.
pub(crate) fn threads_on(cpu: u8, threads: &[ThreadSpec]) -> usize
    ensures { result ≡ threads_on cpu threads.now }
{
    threads.iter().filter(|t| t.cpu.0 == cpu).count()
}

// The line of a step.
fn line_at(lines: &[Line], at: usize) -> Line
    ensures { result ≡ line_at lines.now at }
{
    match lines.get(at) {
        Some(line) => *line,
        None => Line { at: 0, round: 0 },
    }
}

// Whether a step leaves a loop.
fn leaves(step: &Step) -> bool
    ensures { result ≡ leaves step.now }
{
    matches!(step, Step::Goto(Jump::Break, _))
}

// What is wrong with steps, as the text tells it.
fn told_of(lines: &[Line], wrong: CodeWrong) -> Wrong
    ensures { result ≡ told_of lines.now wrong }
{
    match wrong {
        CodeWrong::TooMany => Wrong {
            at: line_at(lines, MOST_STEPS).at,
            what: What::Crowd,
        },
        CodeWrong::Step(at, _) => Wrong {
            at: line_at(lines, at).at,
            what: What::Deep,
        },
        CodeWrong::Circle(begin, _) => Wrong {
            at: line_at(lines, begin).round,
            what: What::Silent,
        },
    }
}

// The program of steps, linked.
#[tactic(auto, using(crate::proofs::Ending::clear_read, crate::proofs::Ending::wrong_read))]
fn program_of(steps: Many<Step>, lines: &[Line], repeat: u32, vars: [u64; 8]) -> Result<Code, Slip>
    requires { length steps ≤ MOST_STEPS }
    ensures { IsAsRead result (checked_program lines.now (linked 0 steps) repeat vars) }
{
    let mut list = steps.into_vec();
    link(list.as_mut_slice());
    match Code::new(list, repeat, vars) {
        Ok(code) => Ok(code),
        Err(wrong) => Err(Slip::Wrong(told_of(lines, wrong))),
    }
}

impl Draft {
    fn new(alloc: Global, faults: Many<Wrong>) -> Self
        ensures { result ≡ no_draft faults }
    {
        Draft {
            turns: 10_000,
            idle: 100_000_000,
            tokens: Many::new(alloc),
            messages: Many::new(alloc),
            threads: Many::new(alloc),
            head: None,
            vars: Many::new(alloc),
            held: [0; 8],
            steps: Many::new(alloc),
            lines: Many::new(alloc),
            blocks: Many::new(alloc),
            said: 0,
            expectations: Many::new(alloc),
            faults,
        }
    }

    // Word 0 says something that there is no room for.
    fn crowd(&mut self, words: &[Word]) -> Result<(), OutOfMemory>
        ensures { OnOk result (self.new ≡ crowded words.now self.old) }
    {
        self.faults.push(wrong_at(words, 0, What::Crowd))
    }

    // Tells of each sentence that nothing ends, and takes these away.
    fn blame_unended(&mut self, alloc: Global) -> Result<(), OutOfMemory>
        ensures { OnOk result (self.new ≡ record self.old { faults = self.old.faults ++ unended self.old.blocks; blocks = [] }) }
    {
        let blocks = self.blocks.take(alloc);
        for block in blocks.as_slice() {
            self.faults.push(Wrong {
                at: block.at,
                what: What::Unended,
            })?;
        }
        Ok(())
    }

    // No thread is being said.
    fn clear(&mut self, alloc: Global)
        ensures { self.new ≡ cleared self.old }
    {
        self.head = None;
        self.vars = Many::new(alloc);
        self.held = [0; 8];
        self.steps = Many::new(alloc);
        self.lines = Many::new(alloc);
        self.blocks = Many::new(alloc);
        self.said = 0;
    }

    // A thread with this program.
    fn put_code(&mut self, head: Head, code: Code) -> Result<(), OutOfMemory>
        ensures { OnOk result (self.new ≡ thread_put head (Ok code) self.old) }
    {
        self.threads.push(ThreadSpec {
            cpu: head.cpu,
            service: head.service,
            code,
        })
    }

    // A thread with which this is wrong.
    fn put_wrong(&mut self, alloc: Global, head: Head, wrong: Wrong) -> Result<(), OutOfMemory>
        ensures { OnOk result (self.new ≡ thread_put head (Err wrong) self.old) }
    {
        let code = Code::listed(alloc, &[], head.repeat)?;
        self.put_code(head, code)?;
        self.faults.push(wrong)
    }

    // The program that was said, and takes its steps away.
    fn take_program(&mut self, alloc: Global, head: Head) -> Result<Code, Slip>
        ensures read { IsAsRead result (program_of head self.old) }
        ensures rest { self.new ≡ record self.old { steps = [] } }
    {
        let steps = self.steps.take(alloc);
        let lines = self.lines.as_slice();
        if steps.len() > MOST_STEPS {
            return Err(Slip::Wrong(Wrong {
                at: line_at(lines, MOST_STEPS).at,
                what: What::Crowd,
            }));
        }
        program_of(steps, lines, head.repeat, self.held)
    }

    // What was said of a thread, and takes its steps away.
    fn read_thread(&mut self, alloc: Global, head: Head) -> Result<Code, Slip>
        ensures read { IsAsRead result (thread_read head self.old) }
        ensures rest { record self.new { steps = [] } ≡ record self.old { steps = [] } }
    {
        if self.faults.len() == 0 && self.blocks.len() == 0 {
            return self.take_program(alloc, head);
        }
        Ok(Code::listed(alloc, &[], head.repeat)?)
    }

    // Ends the thread whose steps were said, if there is one.
    fn close(&mut self, alloc: Global) -> Result<(), OutOfMemory>
        ensures { OnOk result (self.new ≡ closed self.old) }
    {
        let Some(head) = self.head else {
            return Ok(());
        };
        let read = self.read_thread(alloc, head);
        self.blame_unended(alloc)?;
        self.clear(alloc);
        match read {
            Ok(code) => self.put_code(head, code),
            Err(Slip::Wrong(wrong)) => self.put_wrong(alloc, head, wrong),
            Err(Slip::Memory(refused)) => Err(refused),
        }
    }

    fn open(&mut self, words: &[Word], head: Head) -> Result<(), OutOfMemory>
        ensures { OnOk result (self.new ≡ thread_begun head words.now self.old) }
    {
        if threads_on(head.cpu.0, self.threads.as_slice()) >= THREAD_LIMIT {
            return self.crowd(words);
        }
        self.head = Some(head);
        Ok(())
    }

    // Something that is told only where nothing else is wrong.
    fn blame_first(&mut self, what: What, words: &[Word]) -> Result<(), OutOfMemory>
        ensures { OnOk result (self.new ≡ blamed_first what words.now self.old) }
    {
        if self.faults.len() != 0 {
            return Ok(());
        }
        self.faults.push(wrong_at(words, 0, what))
    }

    // A variable of the thread.
    fn put_var(&mut self, alloc: Global, words: &[Word], n: u64) -> Result<(), OutOfMemory>
        ensures { OnOk result (self.new ≡ var_put words.now n self.old) }
    {
        let count = self.vars.len();
        if count >= 8 {
            return self.crowd(words);
        }
        if self.steps.len() != 0 {
            return self.blame_first(What::Late, words);
        }
        self.held[count] = n;
        self.vars.push(Name::of(alloc, text_at(words, 1))?)
    }

    // One step more.
    fn push_step(&mut self, words: &[Word], step: Step) -> Result<(), OutOfMemory>
        ensures { OnOk result (self.new ≡ with_step step words.now self.old) }
    {
        let at = place_of_word(words, 0);
        let round = round_in(self.blocks.as_slice()).unwrap_or(at);
        self.steps.push(step)?;
        self.lines.push(Line { at, round })
    }

    // What is wrong with a step where it stands.
    fn misplaced(&self, step: &Step) -> Option<What>
        ensures exact { result ≡ misplaced step.now self.now }
        ensures room { IfNone result (self.now.said < STEP_LIMIT) }
    {
        if self.said >= STEP_LIMIT {
            return Some(What::Crowd);
        }
        if self.blocks.len() > 8 {
            return Some(What::Deep);
        }
        if leaves(step) && round_in(self.blocks.as_slice()).is_none() {
            Some(What::NoLoop)
        } else {
            None
        }
    }

    // A step, unless something is wrong with it where it stands.
    fn place_step(
        &mut self,
        wrong: Option<What>,
        words: &[Word],
        step: Step,
    ) -> Result<(), OutOfMemory>
        requires { IfNone wrong (self.old.said < STEP_LIMIT) }
        ensures { OnOk result (self.new ≡ placed wrong words.now step self.old) }
    {
        if let Some(what) = wrong {
            return self.faults.push(wrong_at(words, 0, what));
        }
        self.said += 1;
        self.push_step(words, step)
    }

    // A step that holds no others.
    fn step(&mut self, words: &[Word], step: Step) -> Result<(), OutOfMemory>
        ensures { OnOk result (self.new ≡ stepped step words.now self.old) }
    {
        let wrong = self.misplaced(&step);
        let whole = numbered(self.blocks.as_slice(), self.steps.as_slice(), step);
        self.place_step(wrong, words, whole)
    }

    // A step that holds others.
    fn begin(&mut self, words: &[Word], step: Step) -> Result<(), OutOfMemory>
        ensures { OnOk result (self.new ≡ opened step words.now self.old) }
    {
        let whole = numbered(self.blocks.as_slice(), self.steps.as_slice(), step);
        let wrong = self.misplaced(&whole);
        let block = block_of(self.steps.len(), place_of_word(words, 0), &whole);
        self.blocks.push(block)?;
        self.place_step(wrong, words, whole)
    }

    // The other list of an `if`.
    fn turn_over(&mut self, words: &[Word]) -> Result<(), OutOfMemory>
        ensures { OnOk result (self.new ≡ turned_over (innermost self.old) words.now self.old) }
    {
        match self.blocks.as_slice().last().copied() {
            Some(block) if is_if(block) => {
                self.push_step(words, Step::Goto(Jump::Else, 0))?;
                self.blocks.keep(self.blocks.len().saturating_sub(1));
                self.blocks.push(Block {
                    back: block.back,
                    at: block.at,
                    kind: Opened::Else,
                })
            }
            _ => self.faults.push(wrong_at(words, 0, What::Unopened)),
        }
    }

    // The end of what was begun last.
    fn end(&mut self, words: &[Word]) -> Result<(), OutOfMemory>
        ensures { OnOk result (self.new ≡ ended (innermost self.old) words.now self.old) }
    {
        match self.blocks.as_slice().last().copied() {
            Some(block) => {
                self.push_step(words, end_of(block))?;
                self.blocks.keep(self.blocks.len().saturating_sub(1));
                Ok(())
            }
            None => self.faults.push(wrong_at(words, 0, What::Unopened)),
        }
    }

    // What is said of a thread that there is.
    fn act(&mut self, alloc: Global, words: &[Word], act: Act) -> Result<(), OutOfMemory>
        ensures { OnOk result (self.new ≡ acted words.now act self.old) }
    {
        match act {
            Act::Var(n) => self.put_var(alloc, words, n),
            Act::Step(step) => self.step(words, step),
            Act::Open(step) => self.begin(words, step),
            Act::Else => self.turn_over(words),
            Act::End => self.end(words),
        }
    }

    // What is said of a thread.
    fn put_act(&mut self, alloc: Global, words: &[Word], act: Act) -> Result<(), OutOfMemory>
        ensures { OnOk result (self.new ≡ put words.now (Said.Do act) self.old) }
    {
        if self.head.is_some() {
            self.act(alloc, words, act)
        } else {
            self.blame_first(What::NoThread, words)
        }
    }

    fn add_token(&mut self, words: &[Word], token: TokSpec) -> Result<(), OutOfMemory>
        ensures { OnOk result (self.new ≡ put words.now (Said.Token token) self.old) }
    {
        if self.tokens.len() >= TOKEN_LIMIT {
            return self.crowd(words);
        }
        self.tokens.push(token)
    }

    fn add_message(&mut self, words: &[Word], message: MsgSpec) -> Result<(), OutOfMemory>
        ensures { OnOk result (self.new ≡ put words.now (Said.Message message) self.old) }
    {
        if self.messages.len() >= MESSAGE_LIMIT {
            return self.crowd(words);
        }
        self.messages.push(message)
    }

    // Puts what was said behind what was said before.
    fn put(&mut self, alloc: Global, words: &[Word], said: Said) -> Result<(), OutOfMemory>
        ensures { OnOk result (self.new ≡ put words.now said self.old) }
    {
        match said {
            Said::Turns(turns) => self.turns = turns,
            Said::Idle(idle) => self.idle = idle,
            Said::Cpus => {}
            Said::Token(token) => self.add_token(words, token)?,
            Said::Message(message) => self.add_message(words, message)?,
            Said::Thread(head) => {
                self.close(alloc)?;
                self.open(words, head)?;
            }
            Said::Do(act) => self.put_act(alloc, words, act)?,
            Said::Expect(expectation) => self.expectations.push(expectation)?,
        }
        Ok(())
    }

    // A sentence that holds others, whatever is wrong with it.
    fn begin_wrong(&mut self, words: &[Word]) -> Result<(), OutOfMemory>
        ensures { OnOk result (self.new ≡ begun_wrong words.now self.old) }
    {
        let kind = match text_at(words, 0) {
            "if" => Opened::If,
            "while" | "times" | "loop" => Opened::Round,
            _ => return Ok(()),
        };
        self.blocks.push(Block {
            back: 0,
            at: place_of_word(words, 0),
            kind,
        })
    }

    // What is wrong with a sentence.
    fn blame(&mut self, words: &[Word], wrong: Wrong) -> Result<(), OutOfMemory>
        ensures { OnOk result (self.new ≡ put_or_blamed (Err wrong) words.now self.old) }
    {
        if self.head.is_some() {
            self.begin_wrong(words)?;
        }
        self.faults.push(wrong)
    }

    // A sentence, said.
    #[tactic(auto, using(crate::proofs::Keeping::put_within))]
    fn add_sentence(
        &mut self,
        alloc: Global,
        names: &Names,
        words: &[Word],
    ) -> Result<(), OutOfMemory>
        requires { 0 < names.now.cpus }
        ensures ok { OnOk result (self.new ≡ sentence_added names.now words.now self.old) }
        ensures keeps { OnOk result (IsDraft names.now.cpus self.old → IsDraft names.now.cpus self.new) }
    {
        match said_in(alloc, names, self.vars.as_slice(), words) {
            Ok(said) => self.put(alloc, words, said),
            Err(Slip::Wrong(wrong)) => self.blame(words, wrong),
            Err(Slip::Memory(refused)) => Err(refused),
        }
    }
}

/// What sentences say, behind what is wrong with the names that they give.
#[tactic(auto, using(crate::proofs::Keeping::closed_within, crate::proofs::Keeping::none_within))]
pub fn draft_of(
    alloc: Global,
    names: &Names,
    sentences: &[Sentence],
    faults: Many<Wrong>,
) -> Result<Draft, OutOfMemory>
    requires { 0 < names.now.cpus }
    ensures ok { IfOk result (λ draft. draft ≡ closed (all_added names.now sentences.now (no_draft faults))) }
    ensures limits { IfOk result (IsDraft names.now.cpus) }
{
    let mut draft = Draft::new(alloc, faults);
    for sentence in sentences {
        draft.add_sentence(alloc, names, sentence.words.as_slice())?;
    }
    draft.close(alloc)?;
    Ok(draft)
}
