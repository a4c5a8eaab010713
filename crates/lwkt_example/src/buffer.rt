//! A buffer of four places between a producer and a consumer, on two processors, each driven by a thread of its own.
ghost use Rattle.std.specs.Prelude.{◌≡◌, IfOk, sum, slice_index_or, []};

use lwkt_base::{Answer, Ask, Call, Fault, MsgId, OutOfMemory, TokId};
use lwkt_machine::{Closed, LIMITS, Machine, Stepper, Steps, makers};
use std::alloc::Global;
use std::thread::Threads;

/// The buffer that both share: how many of its four places are free, and how many are taken.
pub const BUFFER: TokId = TokId(0);

/// The producer's message.
const SIGNAL: MsgId = MsgId(0);

/// A thread that takes a place, or gives one back, in a section of its own; then the producer signals, and the consumer replies and waits for
/// the next signal.
#[derive(Drop)]
pub struct Worker {
    produces: bool,
    left: u32,
    taken: u64,
}

impl Worker {
    // Begins the next round, if there is one.
    fn again(&mut self) -> Ask {
        if self.left == 0 {
            return Ask::Exit;
        }
        self.left -= 1;
        if self.produces {
            Ask::Get(BUFFER)
        } else {
            Ask::WaitPort
        }
    }

    // One place more is taken, or one fewer.
    fn count(&mut self, taken: u64) -> Ask {
        self.taken = if self.produces {
            taken.wrapping_add(1)
        } else {
            taken.wrapping_sub(1)
        };
        Ask::Write(BUFFER, 1, self.taken)
    }

    // The section is over: the producer says so, and the consumer answers.
    fn notify(&self) -> Ask {
        if self.produces {
            Ask::Do(SIGNAL, makers::thread(1, 0), Call { arg: 0, op: 1 })
        } else {
            Ask::Reply(SIGNAL, 0, self.taken)
        }
    }
}

impl Steps for Worker {
    ghost kept = { λ w. Unit {0} };

    fn begin(&mut self) -> Ask {
        self.again()
    }

    fn answered(&mut self, asked: Ask, answer: Answer) -> Ask {
        match (asked, answer) {
            (Ask::WaitPort, _) => Ask::Get(BUFFER),
            (Ask::Get(_), _) => Ask::Read(BUFFER, 1),
            (Ask::Read(_, _), Answer::Value(taken)) => self.count(taken),
            (Ask::Write(_, 1, _), _) => Ask::Write(BUFFER, 0, 4_u64.wrapping_sub(self.taken)),
            (Ask::Write(_, _, _), _) => Ask::Rel(BUFFER),
            (Ask::Rel(_), _) => self.notify(),
            _ => self.again(),
        }
    }

    fn refused(&mut self, _asked: Ask, _fault: Fault) -> Ask {
        Ask::Exit
    }
}

// The one thread of a processor, with ten rounds to make.
fn lone_thread(alloc: Global, produces: bool) -> Result<Vec<Stepper<Worker>>, OutOfMemory> {
    let worker = Worker {
        produces,
        left: 10,
        taken: 0,
    };
    makers::list(alloc, [Stepper::new(worker)])
}

/// Runs producer and consumer. All places are there in the end.
pub fn run<R: Threads + Sync>(rt: &R, alloc: Global) -> Result<Closed<Stepper<Worker>>, Fault>
    ensures all { IfOk result (λ closed. sum (slice_index_or closed.tokens.rows.items 0 []) ≡ 4) }
{
    let tokens = [makers::sum(alloc, &[4, 0], 4)?];
    let messages = [makers::message(makers::thread(0, 0))];
    let bodies = makers::list(
        alloc,
        [lone_thread(alloc, true)?, lone_thread(alloc, false)?],
    )?;
    let mut machine = Machine::open(alloc, &tokens, &messages, bodies)?;
    let room = machine.room(alloc)?;
    machine.drive(rt, &LIMITS);
    Ok(machine.close_in(room))
}
