use crate::events::show_owner;
use crate::tokens::{Runners, excludes, show_holders, show_word};
use crate::walks::{Walk, Way};
use crate::words::{mode_word, show_message, show_thread, show_token};
use lwkt_base::limits::{LAST_GENERATION, LOG_LIMIT};
use lwkt_base::memory::push;
use lwkt_base::{
    Answer, Ask, Fault, Mode, MsgId, OutOfMemory, Ref, ThreadId, ThreadState, TokId, TokList,
};
use lwkt_core::{Event, State, Token};
use lwkt_refusals::Page;
use lwkt_script::{entry_of, failure_of};
use lwkt_text::Names;
use lwkt_verdict::Poll;
use std::alloc::Global;

/// What a thread is doing between two turns.
#[derive(Clone, Copy, PartialEq, Eq)]
pub(crate) enum Doing {
    /// It runs, and its processor holds its tokens.
    Runs,
    /// It goes on once its list can be had.
    WantsList,
    /// It waits for its port.
    WaitsForPort,
    /// It waits for the reply to a message.
    WaitsForReply(MsgId),
    /// It has ended.
    Ended,
}

/// What came of a step.
#[derive(Clone, Copy)]
pub enum Came {
    /// The thread goes on.
    Runs,
    /// It waits.
    Waits,
    /// It ends.
    Ends,
    /// It ends by this fault: 19, 20 or 42.
    Faulted(Fault),
}

/// Which step a thread makes.
#[derive(Clone, Copy)]
pub struct Step {
    /// How many steps the thread makes before, where each repetition makes each step once.
    pub polls: u64,
    /// How many steps it has, 0 to 256.
    pub steps: u64,
    /// How many times it makes them, 0 to 1000000.
    pub repeat: u64,
}

/// What a thread has come to after some turns.
#[derive(Drop)]
pub(crate) struct Story {
    /// The thread.
    pub id: ThreadId,
    /// What it is doing.
    pub doing: Doing,
    /// The references that it wants or holds.
    pub list: TokList,
    /// The number of its next step, where each repetition makes each step once.
    pub polls: u64,
    // Its way through its program, if the script has it.
    walk: Option<Walk>,
    /// How it ends.
    pub end: ThreadState,
    /// The turn in which it ended, if it has.
    pub ended_in: Option<usize>,
    /// Of a section that broke its law, or a token at its last generation, what is said of it.
    pub why: Option<Page>,
    /// Of each entry of the log the ask that made it, by its number among the thread's asks.
    pub logged: Vec<Logged>,
    // That memory for one of these was refused, if it was.
    lost: Option<OutOfMemory>,
    /// How many entries the log would have without a limit.
    pub entries: u64,
}

/// An ask of which an entry is in the log.
#[derive(Clone, Copy)]
pub(crate) struct Logged {
    /// The ask.
    pub ask: Ask,
    /// The number of the step that made it.
    pub number: u64,
}

/// What a poll came to.
#[derive(Clone, Copy)]
pub(crate) struct Outcome {
    /// The number of its turn.
    pub turn: usize,
    /// What the thread does next.
    pub doing: Doing,
    /// Whether a section broke its law.
    pub broken: bool,
}

// Whether the last of some events adds a reference.
fn ends_with_reference(part: &[Event]) -> bool {
    match part.last() {
        Some(event) => event.adds_reference(),
        None => false,
    }
}

// Whether some events have a send.
fn has_send(part: &[Event]) -> bool {
    for event in part {
        if let Event::Send { .. } = *event {
            return true;
        }
    }
    false
}

/// What a poll leaves its thread doing, by its turn's events; `mail` says that an item of its port came to it.
pub(crate) fn doing_after(poll: &Poll, part: &[Event], mail: bool) -> Doing {
    if let Some(Answer::Refused(_)) = poll.answer {
        return Doing::Runs;
    }
    match poll.ask {
        Ask::Get(_) | Ask::GetShared(_) if !ends_with_reference(part) => Doing::WantsList,
        Ask::Do(msg, _, _) if has_send(part) => Doing::WaitsForReply(msg),
        Ask::WaitPort if !mail => Doing::WaitsForPort,
        Ask::Yield => Doing::WantsList,
        Ask::Exit | Ask::Fail(_) => Doing::Ended,
        _ => Doing::Runs,
    }
}

impl Story {
    // Adds a reference that was asked for.
    fn add(&mut self, tok: TokId, mode: Mode) {
        let _ = self.list.push(Ref { tok, mode });
    }

    // What an ask that was done did to the list.
    fn change_list(&mut self, ask: Ask) {
        match ask {
            Ask::Get(tok) | Ask::TryGet(tok) => self.add(tok, Mode::Exclusive),
            Ask::GetShared(tok) => self.add(tok, Mode::Shared),
            Ask::Rel(tok) => {
                let _ = self.list.pop(tok);
            }
            Ask::Swap => {
                let _ = self.list.swap();
            }
            _ => {}
        }
    }

    /// If the thread waits for what a message brings, lets it go on; says whether it did.
    pub(crate) fn wake(&mut self, msg: MsgId) -> bool {
        let waits = self.doing == Doing::WaitsForPort || self.doing == Doing::WaitsForReply(msg);
        if waits {
            self.doing = Doing::WantsList;
        }
        waits
    }

    /// If the thread can't have its list, since a token on it is at its last generation, ends it in this turn.
    pub(crate) fn end_worn(&mut self, state: &State, turn: usize) {
        let is_worn = self.end == ThreadState::Faulted(Fault::Worn)
            && self.doing == Doing::WantsList
            && self.worn(state).is_some();
        if is_worn {
            self.doing = Doing::Ended;
            self.ended_in = Some(turn);
        }
    }

    /// A thread before its first poll, that goes this way through its program, and ends so.
    pub(crate) fn new(alloc: Global, id: ThreadId, walk: Option<Walk>, end: ThreadState) -> Self {
        let polls = match &walk {
            Some(walk) => walk.number(),
            None => 0,
        };
        Story {
            id,
            doing: Doing::WantsList,
            list: TokList::new(),
            polls,
            walk,
            end,
            ended_in: None,
            why: None,
            logged: Vec::new(alloc),
            lost: None,
            entries: 0,
        }
    }

    // Whether this answer to its ask may make an entry in its log.
    fn logs(&self, answer: &Answer) -> bool {
        match &self.walk {
            Some(walk) => walk.logs(answer),
            None => true,
        }
    }

    // Whether an ask makes an entry in the log, by its answer or by having none.
    fn has_entry(&self, poll: &Poll) -> bool {
        match poll.answer {
            Some(answer) => self.logs(&answer) && entry_of(poll.ask, answer).is_some(),
            None => failure_of(&poll.ask).is_some(),
        }
    }

    // Goes on to the next step, if the ask has its answer.
    fn go_on(&mut self, answer: Option<Answer>) {
        if let (Some(walk), Some(answer)) = (&mut self.walk, answer) {
            walk.go_on(&answer);
            self.polls = walk.number();
        }
    }

    // Notes the entry that a poll makes in the log.
    fn note_entry(&mut self, poll: &Poll) {
        if !self.has_entry(poll) {
            return;
        }
        self.entries = self.entries.saturating_add(1);
        if self.logged.len() < LOG_LIMIT {
            let logged = Logged {
                ask: poll.ask,
                number: self.polls,
            };
            if let Err(refused) = push(&mut self.logged, logged) {
                self.lost = Some(refused);
            }
        }
    }

    // Notes what an answer says of the list.
    fn note_list(&mut self, poll: &Poll) {
        match poll.answer {
            Some(Answer::Refused(fault)) => {
                if fault.number() == 19 {
                    self.change_list(poll.ask);
                }
            }
            _ => self.change_list(poll.ask),
        }
    }

    /// Notes a poll and what it came to; of a section that broke its law what is said of it.
    pub(crate) fn note(&mut self, poll: &Poll, outcome: Outcome, why: Page) {
        self.note_entry(poll);
        self.note_list(poll);
        self.doing = outcome.doing;
        self.go_on(poll.answer);
        if outcome.doing == Doing::Ended {
            self.ended_in = Some(outcome.turn);
        }
        if outcome.broken {
            self.why = Some(why);
        }
    }

    /// The step of this number.
    pub(crate) fn step_at(&self, polls: u64) -> Step {
        let (steps, repeat) = match &self.walk {
            Some(walk) => (walk.steps(), walk.repeat()),
            None => (0, 0),
        };
        Step {
            polls,
            steps,
            repeat,
        }
    }

    /// That memory for what is noted of it was refused, if it was.
    pub(crate) fn lost(&self) -> Option<OutOfMemory> {
        match &self.walk {
            Some(walk) if self.lost.is_none() => walk.lost(),
            _ => self.lost,
        }
    }

    /// Its way to its next ask.
    pub(crate) fn way(&self) -> Way<'_> {
        match &self.walk {
            Some(walk) => walk.way(),
            None => Way {
                steps: &[],
                made: &[],
            },
        }
    }

    /// What came of a step that left the thread doing this.
    pub(crate) fn came(&self, doing: Doing) -> Came {
        match doing {
            Doing::Runs => Came::Runs,
            Doing::Ended => match self.end {
                ThreadState::Faulted(fault) => Came::Faulted(fault),
                _ => Came::Ends,
            },
            _ => Came::Waits,
        }
    }

    // Whether the list has no reference to another token than this.
    fn is_alone(&self, tok: TokId) -> bool {
        for r in self.list.refs() {
            if r.tok.0 != tok.0 {
                return false;
            }
        }
        true
    }

    /// The first reference of the list that can't be had.
    pub(crate) fn lacks(&self, state: &State) -> Option<Ref> {
        for wanted in self.list.refs() {
            if let Some(token) = state.token(wanted.tok) {
                if !token.held_by(self.id.cpu).is_held()
                    && excludes(token, *wanted, self.is_alone(wanted.tok))
                {
                    return Some(*wanted);
                }
            }
        }
        None
    }

    /// The token that the thread, a lone reader, can't have for its mark alone: nobody holds it.
    pub(crate) fn stopped_by_mark(&self, state: &State) -> Option<TokId> {
        if self.doing != Doing::WantsList {
            return None;
        }
        let wanted = self.lacks(state)?;
        let token = state.token(wanted.tok)?;
        if wanted.mode == Mode::Shared && token.is_free() {
            Some(wanted.tok)
        } else {
            None
        }
    }

    /// Whether the thread has an exclusive reference to a token on its list.
    pub(crate) fn wants_exclusively(&self, tok: TokId) -> bool {
        for wanted in self.list.refs() {
            if wanted.tok.0 == tok.0 && wanted.mode == Mode::Exclusive {
                return true;
            }
        }
        false
    }

    // Appends which token of its list a thread can't have.
    fn show_want(&self, out: &mut Page, names: Option<&Names>, state: &State, runners: &Runners) {
        let Some(wanted) = self.lacks(state) else {
            out.add("is ready");
            return;
        };
        out.add("waits for token ");
        show_token(out, names, wanted.tok);
        out.add(" ");
        out.add(mode_word(wanted.mode));
        match state.token(wanted.tok) {
            Some(token) => show_hindrance(out, names, token, runners),
            None => {}
        }
    }

    /// The token of the list that is wanted exclusively at its last generation.
    pub(crate) fn worn(&self, state: &State) -> Option<TokId> {
        for wanted in self.list.refs() {
            if let Some(token) = state.token(wanted.tok) {
                if wanted.mode == Mode::Exclusive && token.generation >= LAST_GENERATION {
                    return Some(wanted.tok);
                }
            }
        }
        None
    }

    // Appends for which reply a thread waits, and where the message is.
    fn show_awaited(&self, out: &mut Page, names: Option<&Names>, state: &State, msg: MsgId) {
        out.add("waits for the reply to message ");
        show_message(out, names, msg);
        if let Some(message) = state.message(msg) {
            out.add(", which is ");
            show_owner(out, message.owner)
        }
    }

    /// Appends why a thread doesn't run, or that it does; in names if some are given.
    pub(crate) fn show_why(
        &self,
        out: &mut Page,
        names: Option<&Names>,
        state: &State,
        runners: &Runners,
    ) {
        show_thread(out, names, self.id);
        out.add(" ");
        match self.doing {
            Doing::Runs => out.add("runs"),
            Doing::WantsList => self.show_want(out, names, state, runners),
            Doing::WaitsForPort => out.add("waits for its port, which has nothing"),
            Doing::WaitsForReply(msg) => self.show_awaited(out, names, state, msg),
            Doing::Ended => out.add("has ended"),
        }
    }
}

// Appends what keeps a token from a thread: its word in parts, and who holds it.
fn show_hindrance(out: &mut Page, names: Option<&Names>, token: &Token, runners: &Runners) {
    out.add(", ");
    show_word(out, token);
    out.add(", ");
    show_holders(out, names, token, runners);
}
