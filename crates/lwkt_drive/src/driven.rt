//! A processor that is driven, and how its driving ended.
ghost use Rattle.std.specs.Prelude.{◌≡◌, true, false, []};
ghost use Rattle.lwkt_cpu.specs.Driving.{none_driven};

use crate::event_lists::EventList;
use crate::gates::Gate;
use lwkt_base::{CpuId, OutOfMemory};
use lwkt_core::Event;
use lwkt_cpu::{Cpu, Drove};
use std::alloc::Global;

/// Why a processor made no further turn. What is said of other processors no clause claims.
#[derive(Clone, Copy, PartialEq, Eq)]
pub enum Ending {
    /// It wasn't driven yet.
    NotDriven,
    /// The gate said no to it.
    Stopped,
    /// As many turns polled a thread as the limit allows.
    TurnsOut,
    /// As many turns polled none as the limit allows.
    IdleOut,
    /// A turn has said that every thread of this processor has ended, and so has one of each other processor.
    AllExited,
    /// Memory for the 4096 events of its next turn was refused, to the room into which turns are traced or to the trace.
    NoMemory(OutOfMemory),
    /// Another processor was refused memory for its next turn: what it was refused with.
    CalledOff(OutOfMemory),
    /// No turn of any processor could change anything any more: each had stopped, or its last turn polled no thread, appended no
    /// event, moved no note and ended no thread. Claimed is that the last turn of this one polled no thread and appended no event.
    Quiet,
}

/// How many turns a processor makes at most in a drive, each 0 to 4294967295.
#[derive(Clone, Copy, PartialEq, Eq)]
pub struct Limits {
    /// The most turns that poll a thread.
    pub turns: u32,
    /// The most turns that poll none.
    pub idle: u32,
}

/// What the gate has said to a processor. It is made with the processor, and only the beginning of a drive and the gate's answers
/// change it.
#[derive(Drop)]
pub struct Said {
    // How many drives have begun, modulo 2^64.
    drives: u64,
    // How often the gate has said yes since the last one began, modulo 2^64.
    yeses: u64,
    // Whether the gate has said no since the last one began.
    no: bool,
}

/// The gate of a drive. Only `Driven::ask` can ask it, so that each yes is counted and a no is kept.
#[derive(Clone, Copy)]
pub(crate) struct Door<'a, G> {
    gate: &'a G,
}

impl<'a, G> Door<'a, G> {
    /// The door over this gate.
    pub(crate) fn new(gate: &'a G) -> Self
        ensures { result.gate.now ≡ gate.now }
    {
        Door { gate }
    }
}

/// A processor with the events of its turns, how many of these it made when it was driven last, and why it made no further one.
#[derive(Drop)]
pub struct Driven<B> {
    /// The processor's number, by which the gate is asked, 0 to 7.
    pub id: CpuId,
    /// The processor.
    pub cpu: Cpu<B>,
    /// The events of all its turns so far, in order, those of earlier drives too, packed.
    pub trace: EventList,
    /// The room into which the next turn is told. Its events are in the trace already.
    pub(crate) room: Vec<Event>,
    /// What the gate has said to it.
    pub said: Said,
    /// How many turns the last drive made, by kind. All zero before the first drive.
    pub drove: Drove,
    /// Whether the last turn of this drive was *silent*: it polled no thread and appended no event. False before its first turn.
    pub silent: bool,
    /// Why the last drive ended for this processor; `NotDriven` before the first one.
    pub ending: Ending,
}

impl<B> Driven<B> {
    /// A processor that wasn't driven yet, without events. Takes no memory.
    pub fn new(alloc: Global, id: CpuId, cpu: Cpu<B>) -> Driven<B>
        ensures id { result.id ≡ id }
        ensures cpu { result.cpu ≡ cpu }
        ensures trace { result.trace.items ≡ [] }
        ensures room { result.room.items ≡ [] }
        ensures said { result.said ≡ record { drives = 0; yeses = 0; no = false } }
        ensures drove { result.drove ≡ none_driven }
        ensures silent { result.silent ≡ false }
        ensures ending { result.ending ≡ Ending.NotDriven }
    {
        Driven {
            id,
            cpu,
            trace: EventList::new(alloc),
            room: Vec::new(alloc),
            said: Said {
                drives: 0,
                yeses: 0,
                no: false,
            },
            drove: Drove {
                ran: 0,
                idle: 0,
                all_exited: false,
            },
            silent: false,
            ending: Ending::NotDriven,
        }
    }

    ghost use Rattle.lwkt_drive.specs.Course.{agreed, drive_begun, said_at_end};

    /// Begins a drive: no turn of it is made yet, and it hasn't ended.
    pub(crate) fn begin(&mut self)
        ensures { self.new ≡ drive_begun self.old }
    {
        self.said = Said {
            drives: self.said.drives.wrapping_add(1),
            yeses: 0,
            no: false,
        };
        self.drove = Drove {
            ran: 0,
            idle: 0,
            all_exited: false,
        };
        self.silent = false;
        self.ending = Ending::NotDriven;
    }

    /// Asks the gate whether the processor goes on with its turn of this number. A yes is counted, and a no is kept.
    pub(crate) fn ask<G: Gate>(&mut self, door: &Door<'_, G>, turn: u64) -> bool
        ensures answers { G.answers door.now.gate.now self.old.id turn result }
        ensures yes { result ≡ true → self.new ≡ record self.old { said = agreed self.old.said } }
        ensures no { result ≡ false → self.new ≡ record self.old { said = said_at_end Ending.Stopped self.old.said } }
    {
        if door.gate.pass(self.id, turn) {
            self.said.yeses = self.said.yeses.wrapping_add(1);
            return true;
        }
        self.said.no = true;
        false
    }
}
