use crate::events::{show_event, stood_before};
use crate::records::show_record;
use crate::reels::Scene;
use crate::stories::{Doing, Outcome, Story, doing_after};
use crate::tokens::Runners;
use crate::tries::{held_after, taker};
use crate::walks::Walk;
use crate::words::{fill, show_token};
use lwkt_base::limits::{MESSAGE_LIMIT, TOKEN_LIMIT};
use lwkt_base::memory::push;
use lwkt_base::{
    Answer, Ask, Blob, Fault, Law, MsgId, OutOfMemory, Owner, ThreadId, ThreadLine, ThreadState,
    TokId,
};
use lwkt_core::{Event, State};
use lwkt_refusals::{Page, show_breach};
use lwkt_script::{Script, ThreadSpec};
use lwkt_text::Names;
use lwkt_verdict::Poll;
use std::alloc::Global;

/// A run that is made again event by event, and how far its threads have come.
#[derive(Drop)]
pub(crate) struct Replay {
    /// The state of the model after the events so far.
    pub state: State,
    /// The threads as they end, by processor, then number.
    pub stories: Vec<Story>,
    /// Of each processor the thread that runs, if one does.
    pub runners: Runners,
    // The thread that each message was last sent to.
    sent_to: [ThreadId; MESSAGE_LIMIT],
    // Whether each message was last sent with priority.
    urgent: [bool; MESSAGE_LIMIT],
    // The thread that last marked each token, if one did.
    marked_by: [Option<ThreadId>; TOKEN_LIMIT],
}

// The thread of a script that has this number on its processor.
fn spec_of(script: &Script, id: ThreadId) -> Option<&ThreadSpec> {
    let mut before = 0u8;
    for spec in script.threads.as_slice() {
        if spec.cpu.0 == id.cpu.0 {
            if before == id.thread {
                return Some(spec);
            }
            before = before.saturating_add(1);
        }
    }
    None
}

// Appends how long the record is, where the law asks for its length.
fn show_length(out: &mut Page, law: Law, blob: &Option<Blob>) {
    if let (Law::Len, Some(blob)) = (law, blob) {
        fill(out, ", which has @ bytes", &[u64::from(blob.len())]);
    }
}

// Appends that the first record was stored again, where another one was there.
fn show_first_record(out: &mut Page, blob: &Option<Blob>, first: &Option<Blob>) {
    let (Some(blob), Some(first)) = (blob, first) else {
        return;
    };
    if !blob.is_same(first) {
        out.add("; the first ");
        show_record(out, first);
        out.add(" was stored again");
    }
}

// What is said of a thread before the first turn; what it makes on its way through its program is kept if that is wanted.
fn story_of(
    alloc: Global,
    script: &Script,
    line: &ThreadLine,
    keeps: bool,
) -> Result<Story, OutOfMemory> {
    let walk = match spec_of(script, line.id) {
        Some(spec) => Some(Walk::new(alloc, spec.code.copy(alloc)?, keeps)),
        None => None,
    };
    Ok(Story::new(alloc, line.id, walk, line.state))
}

// Whether the ask of a turn stores what its thread says, so that a write is its own.
fn stores(turn: Option<&Scene>) -> bool {
    let Some(scene) = turn else {
        return false;
    };
    match scene.poll {
        Some(poll) => matches!(poll.ask, Ask::Write(..) | Ask::Add(..) | Ask::WriteBlob(..)),
        None => false,
    }
}

impl Replay {
    ghost use Rattle.std.specs.Prelude.{IfErr};
    ghost use Rattle.lwkt_show.specs.Shown.{MayBeRefused};

    /// A run of a script before its first turn, whose threads end as these lines say; what they make on their ways through their programs
    /// is kept if that is wanted.
    pub(crate) fn open(
        alloc: Global,
        script: &Script,
        lines: &[ThreadLine],
        keeps: bool,
    ) -> Result<Self, Fault>
        ensures refused { IfErr result (MayBeRefused script.now) }
    {
        let state = State::open(
            alloc,
            script.tokens.as_slice(),
            script.messages.as_slice(),
            usize::from(script.cpus),
        )?;
        let mut stories = Vec::new(alloc);
        for line in lines {
            push(&mut stories, story_of(alloc, script, line, keeps)?)?;
        }
        Ok(Replay {
            state,
            stories,
            runners: [None; 8],
            sent_to: [ThreadId::default(); MESSAGE_LIMIT],
            urgent: [false; MESSAGE_LIMIT],
            marked_by: [None; TOKEN_LIMIT],
        })
    }

    /// The thread that a message was last sent to.
    pub(crate) fn receiver(&self, msg: MsgId) -> ThreadId {
        self.sent_to
            .get(usize::from(msg.0))
            .copied()
            .unwrap_or(ThreadId::default())
    }

    /// Whether a message is on its way to a thread: as a request, or as the reply to one of its own.
    pub(crate) fn comes_to(&self, msg: MsgId, id: ThreadId) -> bool {
        let Some(message) = self.state.message(msg) else {
            return false;
        };
        match message.owner {
            Owner::Out { .. } => self.receiver(msg) == id,
            Owner::Back { .. } => message.origin == id,
            Owner::Rest { .. } | Owner::With { .. } => false,
        }
    }

    /// Whether a message was last sent with priority.
    pub(crate) fn is_urgent(&self, msg: MsgId) -> bool {
        self.urgent
            .get(usize::from(msg.0))
            .copied()
            .unwrap_or(false)
    }

    /// The thread that last marked a token, if one did.
    pub(crate) fn marker(&self, tok: TokId) -> Option<ThreadId> {
        match self.marked_by.get(usize::from(tok.0)) {
            Some(marker) => *marker,
            None => None,
        }
    }

    /// The own round of a message that is sent or replied to by an event.
    pub(crate) fn round_of(&self, event: &Event, msg: MsgId) -> u64 {
        if let Event::Send { round, .. } = *event {
            return round;
        }
        match self.state.message(msg) {
            Some(message) => message.round,
            None => 0,
        }
    }

    // Where the story of a thread stands.
    fn place_of(&self, id: ThreadId) -> Option<usize> {
        for (place, story) in self.stories.iter().enumerate() {
            if story.id == id {
                return Some(place);
            }
        }
        None
    }

    /// The story of a thread.
    pub(crate) fn story(&self, id: ThreadId) -> Option<&Story> {
        self.stories.get(self.place_of(id)?)
    }

    // The story of a thread, which is to change.
    fn story_mut(&mut self, id: ThreadId) -> Option<&mut Story> {
        let place = self.place_of(id)?;
        self.stories.get_mut(place)
    }

    // The message that an event brings, and the thread that it comes to. One that is to be aborted comes to none, since it is replied
    // to and not given.
    fn brought(&self, event: &Event) -> Option<(ThreadId, MsgId)> {
        match *event {
            Event::TakeMsg { msg, .. } if self.state.message(msg)?.asked => None,
            Event::TakeMsg { msg, .. } => {
                let to = self.sent_to.get(usize::from(msg.0)).copied()?;
                Some((to, msg))
            }
            Event::Reap { msg, .. } => Some((self.state.message(msg)?.origin, msg)),
            _ => None,
        }
    }

    // Lets the thread go on that waits for what an event brings; says whether it brings a thread something that it doesn't
    // wait for. What comes to a thread that has ended is given to nobody.
    fn deliver(&mut self, event: &Event) -> bool {
        let Some((id, msg)) = self.brought(event) else {
            return false;
        };
        match self.story_mut(id) {
            Some(story) => story.doing != Doing::Ended && !story.wake(msg),
            None => false,
        }
    }

    /// Lets those go on that the mail of a turn wakes, and says whether mail came that wakes nobody: what was asked for.
    pub(crate) fn take_mail(&mut self, part: &[Event]) -> bool {
        let mut asked_for = false;
        for event in part {
            if self.deliver(event) {
                asked_for = true;
            }
        }
        asked_for
    }

    // Whether a processor runs a thread between two turns.
    fn is_running(&self, cpu: u8) -> bool {
        match self.runners.get(usize::from(cpu)) {
            Some(runner) => runner.is_some(),
            None => false,
        }
    }

    // Notes the thread that a processor runs, or takes tokens for.
    fn set_runner(&mut self, cpu: u8, runner: Option<ThreadId>) {
        if let Some(slot) = self.runners.get_mut(usize::from(cpu)) {
            *slot = runner;
        }
    }

    // Appends how the row of a token breaks its law, and what is done about it.
    fn show_broken(&self, out: &mut Page, names: Option<&Names>, tok: TokId) {
        let Some(token) = self.state.token(tok) else {
            return;
        };
        out.add("token ");
        show_token(out, names, tok);
        out.add(": ");
        show_breach(out, token.law, token.param, token.row.as_slice());
        show_length(out, token.law, &token.blob);
        if token.row.as_slice() != token.first.as_slice() {
            out.add("; first row");
            out.numbers(token.first.as_slice());
            out.add(" was stored again");
        }
        show_first_record(out, &token.blob, &token.first_blob);
    }

    // Notes for whom an event's processor holds tokens, which so far has so many references of this turn; says how many it
    // then has.
    fn note_taker(&mut self, scene: &Scene, place: usize, event: &Event, held: usize) -> usize {
        if held == 0 && event.adds_reference() {
            let found = taker(self, scene, place);
            self.set_runner(scene.cpu, found);
        }
        held_after(held, event)
    }

    // If an event stores again a cell or the record of a section that broke its law, notes that and says it.
    fn note_broken(
        &self,
        names: Option<&Names>,
        why: &mut Page,
        event: &Event,
        stores: bool,
        broken: Option<TokId>,
    ) -> Option<TokId> {
        let tok = match *event {
            Event::Write { tok, .. } | Event::WriteBlob { tok, .. } => tok,
            _ => return broken,
        };
        if stores || broken == Some(tok) {
            return broken;
        }
        why.clear();
        self.show_broken(why, names, tok);
        Some(tok)
    }

    /// Makes events happen, those of a turn or of the stop, and appends each by what it changed. What is said of a section
    /// that broke its law goes into `why` too.
    pub(crate) fn play(
        &mut self,
        names: Option<&Names>,
        out: &mut Page,
        why: &mut Page,
        part: &[Event],
        turn: Option<&Scene>,
    ) -> bool {
        let mut broken = None;
        let mut held = 0usize;
        let stores = stores(turn);
        let runs = match turn {
            Some(scene) => self.is_running(scene.cpu),
            None => true,
        };
        for (place, event) in part.iter().enumerate() {
            let noted = self.note_broken(names, why, event, stores, broken);
            if noted != broken {
                broken = noted;
                out.add("; ");
                out.add_page(why);
            }
            match turn {
                Some(scene) if !runs => held = self.note_taker(scene, place, event, held),
                _ => {}
            }
            out.add("; ");
            self.play_one(names, out, event);
        }
        broken.is_some()
    }

    /// Makes the events of a turn happen, which isn't shown. What is said of a section that broke its law goes into `why`.
    pub(crate) fn pass(&mut self, names: Option<&Names>, why: &mut Page, scene: &Scene) -> bool {
        let mut broken = None;
        let stores = stores(Some(scene));
        for event in scene.part {
            broken = self.note_broken(names, why, event, stores, broken);
            let _ = self.state.step(event);
        }
        broken.is_some()
    }

    // Makes an event happen, and appends what it changed.
    fn play_one(&mut self, names: Option<&Names>, out: &mut Page, event: &Event) {
        let old = stood_before(&self.state, event);
        if self.state.step(event).is_err() {
            out.add("an event that can't happen: ");
        }
        show_event(out, names, &self.state, event, old, &self.runners);
    }

    // Notes the thread that a message is sent to.
    fn note_sending(&mut self, poll: &Poll) {
        if let Some(Answer::Refused(_)) = poll.answer {
            return;
        }
        let (msg, to, is_urgent) = match poll.ask {
            Ask::Send(msg, to, _, flags) => (msg, to, flags.priority),
            Ask::Do(msg, to, _) => (msg, to, false),
            _ => return,
        };
        if let Some(slot) = self.urgent.get_mut(usize::from(msg.0)) {
            *slot = is_urgent;
        }
        if let Some(slot) = self.sent_to.get_mut(usize::from(msg.0)) {
            *slot = to;
        }
    }

    // Notes which tokens a thread marked, by a turn's events.
    fn note_marks(&mut self, id: ThreadId, part: &[Event]) {
        for event in part {
            if let Event::Mark { tok, .. } = *event {
                if let Some(slot) = self.marked_by.get_mut(usize::from(tok.0)) {
                    *slot = Some(id);
                }
            }
        }
    }

    // Notes what a poll came to, and of a section that broke its law what is said of it.
    fn note_poll(&mut self, poll: &Poll, outcome: Outcome, why: Page) {
        self.note_sending(poll);
        let runs = outcome.doing == Doing::Runs;
        self.set_runner(
            poll.thread.cpu.0,
            if runs { Some(poll.thread) } else { None },
        );
        if let Some(story) = self.story_mut(poll.thread) {
            story.note(poll, outcome, why);
        }
    }

    /// Notes what a turn came to, and of a section that broke its law what is said of it.
    pub(crate) fn note(&mut self, scene: &Scene, outcome: Option<Outcome>, why: Page) {
        let Some(outcome) = outcome else {
            return;
        };
        if let Some(poll) = &scene.poll {
            self.note_marks(poll.thread, scene.part);
            self.note_poll(poll, outcome, why);
        }
    }

    // Ends the threads of a processor that can't have their lists, since a token on them is at its last generation: in a
    // turn that ran no thread.
    fn end_worn(&mut self, cpu: u8, turn: usize) {
        self.set_runner(cpu, None);
        for story in self.stories.iter_mut() {
            if story.id.cpu.0 == cpu {
                story.end_worn(&self.state, turn);
            }
        }
    }

    /// What the events of a turn come to, which have happened: what the polled thread does next, if there is one. Where there
    /// is none, threads that can't have their lists end.
    pub(crate) fn outcome(&mut self, scene: &Scene, mail: bool, broken: bool) -> Option<Outcome> {
        let Some(poll) = scene.poll else {
            self.end_worn(scene.cpu, scene.number);
            return None;
        };
        let ends = broken && !matches!(poll.ask, Ask::Rel(_));
        let doing = if ends {
            Doing::Ended
        } else {
            doing_after(&poll, scene.part, mail)
        };
        Some(Outcome {
            turn: scene.number,
            doing,
            broken,
        })
    }
}
