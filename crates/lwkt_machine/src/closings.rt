//! The close of a machine.
ghost use Rattle.std.specs.Prelude.{◌≡◌, ℕ, ◌+◌, ◌∷◌, [], ◌++◌, All, IfOk, List, length};
ghost use Rattle.lwkt_cpu.specs.Processors.{AllOver};
ghost use Rattle.lwkt_machine.specs.Ended.{AreOver, IsStopRoom};
ghost use Rattle.lwkt_machine.specs.Machines.{AreKept, AreLawful, processors};

use crate::lasting::Lasting;
use crate::machines::Machine;
use crate::stops::end_all;
use lwkt_bank::CpuSeat;
use lwkt_base::memory::{push, with_capacity, with_capacity_for};
use lwkt_base::{MsgEnd, OutOfMemory, TokId};
use lwkt_core::Event;
use lwkt_cpu::STOP_EVENTS;
use lwkt_drive::{Driven, EventList};
use lwkt_msg::MsgSeat;
use std::alloc::Global;

/// What a machine leaves.
#[derive(Drop)]
pub struct Closed<B> {
    /// Each token's row, generation, tallies and record, by the token's number.
    pub tokens: lwkt_bank::Closed,
    /// Each message's round, and whom it is with, by the message's number.
    pub messages: Vec<MsgEnd>,
    /// The bodies by processor, then by the thread's number, each as its last poll left it.
    pub bodies: Vec<Vec<B>>,
    /// The events of all turns, and of a stop that came before the close, in order, by processor.
    pub traces: Vec<EventList>,
    /// The events of the stop at the close, in order, by processor.
    pub stops: Vec<Vec<Event>>,
}

impl<B> Closed<B> {
    ghost use Rattle.std.specs.Prelude.{◌≡◌, [], slice_index, slice_index_or};

    /// The cells of a token, 0 to 4 of them; none if there is no such token.
    pub fn row(&self, tok: TokId) -> &[u64]
        ensures { result.now ≡ slice_index_or self.now.tokens.rows.items tok.0 [] }
    {
        match self.tokens.rows.get(tok.0 as usize) {
            Some(row) => row.as_slice(),
            None => &[],
        }
    }

    /// A cell of a token; 0 if there is no such token or cell.
    pub fn cell(&self, tok: TokId, cell: usize) -> u64
        ensures { result ≡ slice_index (slice_index_or self.now.tokens.rows.items tok.0 []) cell }
    {
        self.row(tok).get(cell).copied().unwrap_or(0)
    }

    /// The generation of a token, 0 to 70368744177663: that of its opening, and one more for each section that changed its row or
    /// record. 0 if there is no such token.
    pub fn generation(&self, tok: TokId) -> u64
        ensures { result ≡ slice_index self.now.tokens.gens.items tok.0 }
    {
        self.tokens.gens.get(tok.0 as usize).copied().unwrap_or(0)
    }
}

// What processors gave back: their seats, the bodies of their threads, and their events.
#[derive(Drop)]
struct Gathered<B> {
    seats: Vec<CpuSeat>,
    mails: Vec<MsgSeat>,
    bodies: Vec<Vec<B>>,
    traces: Vec<EventList>,
}

/// Room for all that the close of a machine makes. It is made before, so that the close can't fail.
#[derive(Drop)]
pub struct CloseRoom<B> {
    gathered: Gathered<B>,
    stops: Vec<Vec<Event>>,
    tokens: lwkt_bank::CloseRoom,
    messages: Vec<MsgEnd>,
}

// For each of these processors a list with room for the events of its stop.
fn stop_rooms<B>(alloc: Global, cpus: &[Driven<B>]) -> Result<Vec<Vec<Event>>, OutOfMemory>
    ensures many { IfOk result (λ stops. length stops.items ≡ length cpus.now) }
    ensures rooms { IfOk result (λ stops. All IsStopRoom stops.items) }
{
    let mut stops = with_capacity_for(alloc, cpus)?;
    for _driven in cpus {
        push(&mut stops, with_capacity(alloc, STOP_EVENTS)?)?;
    }
    Ok(stops)
}

impl<B: Drop> Gathered<B> {
    ghost use Rattle.lwkt_drive.specs.declared.driven.Driven.{Driven as Done};
    ghost use Rattle.lwkt_machine.specs.Ended.{AreRetired, HasRoom};

    // Room for what these processors give back.
    fn room(alloc: Global, cpus: &[Driven<B>]) -> Result<Gathered<B>, OutOfMemory>
        ensures none { IfOk result (λ all. AreRetired [] all) }
        ensures room { IfOk result (λ all. HasRoom (length cpus.now) all) }
    {
        Ok(Gathered {
            seats: with_capacity_for(alloc, cpus)?,
            mails: with_capacity_for(alloc, cpus)?,
            bodies: with_capacity_for(alloc, cpus)?,
            traces: with_capacity_for(alloc, cpus)?,
        })
    }

    // One processor more gives back what it has, for which there is room.
    fn add(&mut self, driven: Driven<B>)
        requires over { AllOver driven.cpu.threads }
        requires room { HasRoom 1 self.old }
        ensures retired { (done : List (Done B)) → AreRetired done self.old → AreRetired (done ++ driven ∷ []) self.new }
        ensures room { (count : ℕ) → HasRoom (count + 1) self.old → HasRoom count self.new }
    {
        let Driven { cpu, trace, .. } = driven;
        let (seat, mail, bodies) = cpu.retire();
        self.seats.push(seat).unwrap();
        self.mails.push(mail).unwrap();
        self.bodies.push(bodies).unwrap();
        self.traces.push(trace).unwrap();
    }

    // All these processors do.
    fn all(self, mut cpus: Vec<Driven<B>>) -> Gathered<B>
        requires over { AreOver (processors cpus.items) }
        requires none { AreRetired [] self }
        requires room { HasRoom (length cpus.items) self }
        ensures { AreRetired cpus.items result }
    {
        let mut all = self;
        for _number in 0..cpus.len() {
            let driven = cpus.remove(0);
            all.add(driven);
        }
        all
    }
}

impl<B: Lasting + Drop> Machine<B> {
    ghost use Rattle.lwkt_machine.specs.Ended.{IsClosedMachine, IsRoomFor};

    /// Room for the close of this machine: all that `close_in` takes. It stays enough, whatever the machine does until then.
    pub fn room(&self, alloc: Global) -> Result<CloseRoom<B>, OutOfMemory>
        ensures { IfOk result (λ room. IsRoomFor self.now.bank self.now.book (length self.now.cpus) room) }
    {
        Ok(CloseRoom {
            gathered: Gathered::room(alloc, &self.cpus)?,
            stops: stop_rooms(alloc, &self.cpus)?,
            tokens: self.bank.room(alloc)?,
            messages: self.book.room(alloc)?,
        })
    }

    /// Closes the machine as `close` does, in room that was made before. It takes no memory, so it can't fail.
    pub fn close_in(self, room: CloseRoom<B>) -> Closed<B>
        requires { IsRoomFor self.bank self.book (length self.cpus) room }
        ensures lawful { AreLawful 0 self.bank.plans result.tokens }
        ensures closed { IsClosedMachine self result }
        ensures kept { AreKept B.kept result.bodies.items }
    {
        let Machine { bank, book, cpus } = self;
        let CloseRoom {
            gathered,
            stops,
            tokens,
            messages,
        } = room;
        let mut cpus = cpus;
        let mut stops = stops;
        end_all(&bank, &book, &mut cpus, &mut stops);
        let Gathered {
            seats,
            mails,
            bodies,
            traces,
        } = gathered.all(cpus);
        let tokens = bank.close_in(tokens, seats);
        let messages = book.close_in(messages, mails);
        Closed {
            tokens,
            messages,
            bodies,
            traces,
            stops,
        }
    }

    /// Closes the machine: each processor is stopped, its threads end and give up what they hold, and bank and book are closed.
    /// Each token's row, with its record and its tallies, then meets the law that was declared for it, and what each body keeps
    /// holds of it as it comes back.
    ///
    /// Refused if memory is; the machine is gone then.
    pub fn close(self, alloc: Global) -> Result<Closed<B>, OutOfMemory>
        ensures lawful { IfOk result (λ closed. AreLawful 0 self.bank.plans closed.tokens) }
        ensures closed { IfOk result (λ closed. IsClosedMachine self closed) }
        ensures kept { IfOk result (λ closed. AreKept B.kept closed.bodies.items) }
    {
        let room = self.room(alloc)?;
        Ok(self.close_in(room))
    }
}
