//! All that is kept of a run that is shown.
ghost use Rattle.std.specs.Prelude.{◌≡◌, ℕ, ◌<◌, Some, slice_get};
ghost use Rattle.lwkt_base.specs.declared.limits.TheConstants.{MACHINE_THREADS};
ghost use Rattle.lwkt_core.specs.Machine.{changed};
ghost use Rattle.lwkt_run.specs.Keeping.{last_place, with_answer};

use crate::keepers::Keeper;
use crate::polled::PolledRef;
use lwkt_base::limits::MACHINE_THREADS;
use lwkt_base::memory::push;
use lwkt_base::{Answer, OutOfMemory};
use lwkt_core::Event;
use lwkt_drive::EventList;
use lwkt_verdict::{Poll, Turn};
use std::alloc::Global;

/// What is kept of a run: its trace, the processor of each turn, the turns in order, and their polls.
#[derive(Drop)]
pub struct Record {
    /// The events of all turns, in order.
    pub trace: EventList,
    /// The processor of each turn, in order, 0 to 7.
    pub order: Vec<u8>,
    /// The polls, in order, each with its answer if its thread was polled again.
    pub polls: Vec<Poll>,
    /// The turns, in order: as many as `order` has.
    pub turns: Vec<Turn>,
    // Of each thread the place of its last poll, 16 threads for each processor.
    last: [Option<usize>; MACHINE_THREADS],
    ghost places: { (slot : ℕ) → slot < MACHINE_THREADS → slice_get last slot ≡ Some (last_place slot polls.items) },
}

// The poll at a place, if there is one, gets this answer.
fn answer_poll(polls: &mut Vec<Poll>, place: usize, heard: &Answer)
    ensures { polls.new.items ≡ changed (with_answer heard.now) polls.old.items place }
{
    if place < polls.len() {
        let poll = &mut polls[place];
        poll.answer = Some(*heard);
    }
}

impl Record {
    ghost use Rattle.std.specs.Prelude.{IfSome, OnOk, option_map};
    ghost use Rattle.lwkt_verdict.specs.Threads.{slot_of};
    ghost use Rattle.lwkt_run.specs.Keeping.{polled_of, no_story, polls_answered, polls_after};
    ghost use Rattle.lwkt_run.specs.Running.{story_in_record};

    /// Nothing kept yet. Takes no memory.
    pub fn new(alloc: Global) -> Self
        ensures { story_in_record result ≡ no_story }
    {
        Record {
            trace: EventList::new(alloc),
            order: Vec::new(alloc),
            polls: Vec::new(alloc),
            turns: Vec::new(alloc),
            last: [None; MACHINE_THREADS],
        }
    }

    // The last poll of a thread, if it was polled before, gets its answer.
    fn answer(&mut self, slot: usize, heard: &Answer)
        requires { slot < MACHINE_THREADS }
        ensures polls { self.new.polls.items ≡ polls_answered slot heard.now self.old.polls.items }
        ensures turns { self.new.turns ≡ self.old.turns }
        ensures order { self.new.order ≡ self.old.order }
        ensures trace { self.new.trace ≡ self.old.trace }
    {
        if let Some(place) = self.last[slot] {
            answer_poll(&mut self.polls, place, heard);
        }
    }

    // Keeps a poll, and the answer to what its thread asked before, if it was polled before.
    fn keep_poll(&mut self, polled: PolledRef<'_>) -> Result<(), OutOfMemory>
        requires { slot_of polled.thread < MACHINE_THREADS }
        ensures polls { OnOk result (self.new.polls.items ≡ polls_after (Some (polled_of polled.entry)) self.old.polls.items) }
        ensures turns { self.new.turns ≡ self.old.turns }
        ensures order { self.new.order ≡ self.old.order }
        ensures trace { self.new.trace ≡ self.old.trace }
    {
        let PolledRef {
            thread,
            heard,
            asked,
        } = polled;
        let slot = 16 * usize::from(thread.cpu.0) + usize::from(thread.thread);
        let place = self.polls.len();
        self.answer(slot, heard);
        push(
            &mut self.polls,
            Poll {
                answer: None,
                ask: *asked,
                thread,
            },
        )?;
        self.last[slot] = Some(place);
        Ok(())
    }
}

impl Keeper for Record {
    ghost use Rattle.std.specs.Prelude.{Some};
    ghost use Rattle.lwkt_run.specs.Running.{story_in_record};

    ghost kept = { λ r. Some (story_in_record r) };

    fn note(
        &mut self,
        cpu: u8,
        part: &[Event],
        asks: Option<PolledRef<'_>>,
    ) -> Result<(), OutOfMemory> {
        let before = self.polls.len();
        let poll = match asks {
            None => None,
            Some(polled) => {
                self.keep_poll(polled)?;
                Some(before)
            }
        };
        self.trace.append(part)?;
        push(
            &mut self.turns,
            Turn {
                poll,
                events: part.len(),
            },
        )?;
        push(&mut self.order, cpu)
    }
}
