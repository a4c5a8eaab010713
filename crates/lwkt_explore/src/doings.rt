//! What each processor may touch at a place of a run: in its next turn, and in all turns from there on.
ghost use Rattle.std.specs.Prelude.{◌<◌, length};
ghost use Rattle.lwkt_plain.specs.Stores.{kept, IsStore};

use crate::mails::Mails;
use crate::outlooks::{Outlook, Outlooks};
use crate::touches::{NOTHING, Touch, bit, disturb, listed};
use lwkt_base::MsgState;
use lwkt_plain::{Processor, Store};
use lwkt_script::Script;

/// What a processor may touch.
#[derive(Clone, Copy, PartialEq, Eq)]
pub(crate) struct Doing {
    // in its next turn
    next: Touch,
    // in all turns from here on
    later: Touch,
    // whether a thread of it runs, how many haven't ended, and how many of these are no services
    runs: bool,
    live: u8,
    pending: u8,
    // whether its next turn may end all that haven't and are no services
    may_end: bool,
}

const IDLE: Doing = Doing {
    next: NOTHING,
    later: NOTHING,
    runs: false,
    live: 0,
    pending: 0,
    may_end: false,
};

/// What each processor may touch.
#[derive(Clone, Copy)]
pub(crate) struct Doings {
    all: [Doing; 8],
}

impl Doing {
    // Notes a thread that hasn't ended: what its list and its next step touch, and what its other steps do. Where one runs, no other
    // makes a step in the next turn. One that doesn't run may end before a step, if a token of its list is at its last generation.
    fn note(&mut self, runs: bool, leaves: bool, next: Touch, later: Touch) {
        self.live = self.live.saturating_add(1);
        self.later = self.later.and(later);
        if runs {
            self.runs = true;
            self.may_end = leaves;
            self.next = next;
        } else if !self.runs {
            self.may_end = true;
            self.next = self.next.and(next);
        }
    }

    // Notes a thread of a processor, by where it stands in its program.
    fn note_thread(&mut self, cpu: &Processor, place: usize, service: bool, outlook: &Outlook) {
        let Some(thread) = cpu.threads.as_slice().get(place) else {
            return;
        };
        if thread.phase.has_ended() {
            return;
        }
        let list = listed(thread.list.refs());
        let (step, leaves) = outlook.next(&thread.local);
        let later = list.and(outlook.later(&thread.local));
        self.note(cpu.running == Some(place), leaves, list.and(step), later);
        if !service {
            self.pending = self.pending.saturating_add(1);
        }
    }

    // A turn ends one thread, or of those that don't run more where a token may be at its last generation.
    fn bounded(self, wears: bool) -> Doing {
        let ends_all = self.pending == 1 || (wears && !self.runs);
        Doing {
            may_end: self.may_end && ends_all,
            ..self
        }
    }

    // Whether all its threads have ended that are no services.
    fn is_done(&self) -> bool {
        self.pending == 0
    }

    // Whether it has services that haven't ended.
    fn serves(&self) -> bool {
        self.live > self.pending
    }

    // Whether its next turn takes mail in or lets a service run, all its other threads having ended.
    fn is_late(&self) -> bool {
        self.is_done() && (self.serves() || self.next.messages != 0)
    }

    // Adds the messages that are away, and those that may still be sent, as far as they can be with the processor.
    fn with_mail(self, mails: &Mails, cpu: usize, away: u64, named: u64) -> Doing {
        let own = mails.with(cpu);
        let mut doing = self;
        doing.next.messages |= away & own;
        doing.later.messages |= (away | named) & own;
        doing.next = mails.touched(doing.next);
        doing.later = mails.touched(doing.later);
        doing
    }
}

// What a processor may touch, mail aside.
fn doing_of(script: &Script, outlooks: &Outlooks, c: usize, cpu: &Processor) -> Doing {
    let mut doing = IDLE;
    let mut count = 0usize;
    for (number, spec) in script.threads.as_slice().iter().enumerate() {
        if usize::from(spec.cpu.0) != c {
            continue;
        }
        if let Some(outlook) = outlooks.get(number) {
            doing.note_thread(cpu, count, spec.service, outlook);
        }
        count = count.saturating_add(1);
    }
    doing
}

// The messages that aren't at rest at a state.
fn unrested(script: &Script, store: &Store, at: usize) -> u64
    requires store { IsStore store.now }
    requires there { at < length (kept store.now) }
{
    let mut away = 0u64;
    for m in 0..script.messages.as_slice().len() {
        if let Some(letter) = store.letter(at, m) {
            if !matches!(letter.word.state, MsgState::Rest) {
                away |= bit(m);
            }
        }
    }
    away
}

impl Doings {
    /// What each processor may touch at a state.
    pub(crate) fn at(
        script: &Script,
        outlooks: &Outlooks,
        mails: &Mails,
        store: &Store,
        at: usize,
    ) -> Doings
        requires store { IsStore store.now }
        requires there { at < length (kept store.now) }
    {
        let mut doings = Doings { all: [IDLE; 8] };
        for c in 0..store.cpus().min(8) {
            doings.all[c] = doing_of(script, outlooks, c, store.processor(at, c)).bounded(
                outlooks.wears,
            );
        }
        doings.add_mail(mails, mails.away(unrested(script, store, at)));
        doings
    }

    // The messages that a thread may still name.
    fn named(&self) -> u64 {
        let mut named = 0u64;
        for doing in &self.all {
            named |= doing.later.messages;
        }
        named
    }

    // Adds the messages that are away, or may still be named.
    fn add_mail(&mut self, mails: &Mails, away: u64) {
        let named = self.named();
        for cpu in 0..8usize {
            self.all[cpu] = self.all[cpu].with_mail(mails, cpu, away, named);
        }
    }

    /// What a processor may touch.
    pub(crate) fn of(&self, cpu: usize) -> Doing {
        self.all.get(cpu).copied().unwrap_or(IDLE)
    }

    /// Whether the threads of all processors have ended that are no services.
    pub(crate) fn all_done(&self) -> bool {
        self.all.iter().all(|doing| doing.is_done())
    }

    // Whether the next turn of a processor may come to stand on the other side of the end of all threads, services aside, if another
    // one's turns are made before it: it is late, and the other one still has one to end; or it may end its own, and the other one may
    // take mail in or has services.
    fn is_timed(&self, cpu: usize, other: usize) -> bool {
        let (doing, others) = (self.of(cpu), self.of(other));
        let is_late = doing.is_late() && !others.is_done();
        is_late || (doing.may_end && (others.serves() || others.later.messages != 0))
    }

    /// Whether the next turn of a processor may be disturbed by another one, in whichever of its turns.
    pub(crate) fn is_disturbed(&self, cpu: usize, other: usize) -> bool {
        if cpu == other {
            return false;
        }
        disturb(cpu, self.of(cpu).next, other, self.of(other).later) || self.is_timed(cpu, other)
    }
}
