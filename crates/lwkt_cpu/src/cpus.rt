//! A processor: its seat under a hold, and its threads.
ghost use Rattle.std.specs.Prelude.{◌≡◌, ◌≢◌, ◌⊎◌, ◌<◌, ◌≤◌, true, false, [], length, replicate, IfOk, IfSome, OnErr, Err, Some, None, slice_get, vec_len};
ghost use Rattle.lwkt_base.specs.Holding.{holds_nothing};
ghost use Rattle.lwkt_bank.specs.Seats.{holding};
ghost use Rattle.lwkt_msg.specs.Desks.{desk_cpu};
ghost use Rattle.lwkt_cpu.specs.Fresh.{fresh};

use crate::answers::Status;
use crate::phases::Phase;
use crate::threads::Thread;
use lwkt_bank::CpuSeat;
use lwkt_base::limits::{LIST_LIMIT, THREAD_LIMIT};
use lwkt_base::memory::push;
use lwkt_base::{Answer, Fault, OutOfMemory, ThreadState, TokList};
use lwkt_hold::Hold;
use lwkt_port::Ports;
use std::alloc::Global;
use std::marker::Model;

/// A processor with its threads, at most 16. It is always at rest between two calls: at most one thread runs, every list is lawful,
/// and the seat holds exactly the list of the running thread, in its modes, or nothing (token(9)).
#[derive(Drop)]
pub struct Cpu<B> {
    pub(crate) hold: Hold,
    pub(crate) ports: Ports,
    pub(crate) bodies: Vec<B>,
    pub(crate) threads: Vec<Thread>,
    pub(crate) running: Option<usize>,
    pub(crate) cursor: usize,
    /// How many notes were taken in so far, of which nothing is claimed.
    pub(crate) popped: u64,
}

impl<B> Model for Cpu<B> {
    ghost use Rattle.lwkt_hold.specs.Holds.{seat_of};
    ghost use Rattle.lwkt_cpu.specs.Processors.{Processor, processor_of, IsAtRest};

    ghost Value = { Processor B };

    ghost view = { λ c. processor_of (seat_of c.hold) c.ports c.bodies.items c.threads.items c.running c.cursor };

    ghost invariant = { λ c. IsAtRest (processor_of (seat_of c.hold) c.ports c.bodies.items c.threads.items c.running c.cursor) };
}

// So many threads, each ready and never polled.
fn fresh_threads(alloc: Global, count: usize) -> Result<Vec<Thread>, OutOfMemory>
    ensures { IfOk result (λ threads. threads.items ≡ replicate count fresh) }
{
    let mut threads = Vec::new(alloc);
    for made in 0..count {
        let thread = Thread {
            list: TokList::new(),
            last: Answer::Begin,
            phase: Phase::Live,
            busy: None,
        };
        push(&mut threads, thread)?;
    }
    Ok(threads)
}

// Whether there are at most so many bodies as a processor may have threads, and as many as the ports have.
fn fits(ports: &Ports, count: usize) -> bool
    ensures yes { result ≡ true → (count ≤ THREAD_LIMIT) × (ports.now.threads ≡ count) }
    ensures no { result ≡ false → (THREAD_LIMIT < count) ⊎ (ports.now.threads ≢ count) }
{
    if count > THREAD_LIMIT {
        return false;
    }
    ports.threads() == count
}

impl<B> Cpu<B> {
    ghost use Rattle.lwkt_cpu.specs.Processors.{IsAtRest};
    ghost use Rattle.lwkt_cpu.specs.Shown.{IsNewCpu, ShowsThread};
    ghost use Rattle.lwkt_base.specs.Fault.{no_memory};

    /// A processor over these seats, with a thread for each body, which is ready and was never polled. That the seats at bank and
    /// book are of one processor, and that the one at the bank holds nothing, are the caller's conditions.
    ///
    /// Refused with `Limits` only if there are more than 16 bodies, or not as many as the ports have threads, and with `Memory` if
    /// memory is refused.
    pub fn new(alloc: Global, seat: CpuSeat, ports: Ports, bodies: Vec<B>) -> Result<Self, Fault>
    where
        B: Drop,
        requires mine { desk_cpu ports.seat ≡ seat.cpu }
        requires empty { holding seat ≡ holds_nothing }
        ensures ok { IfOk result (λ cpu. IsNewCpu seat ports bodies.items cpu) }
        ensures only { OnErr result ((result ≡ Err no_memory) ⊎ ((result ≡ Err Fault.Limits) × ((THREAD_LIMIT < vec_len bodies) ⊎ (ports.threads ≢ vec_len bodies)))) }
    {
        let count = bodies.len();
        let threads = fresh_threads(alloc, count)?;
        if !fits(&ports, count) {
            return Err(Fault::Limits);
        }
        Ok(Cpu {
            hold: Hold::new(seat),
            ports,
            bodies,
            threads,
            running: None,
            cursor: 0,
            popped: 0,
        })
    }

    /// How many threads there are, ended ones too, 0 to 16. The processor is at rest.
    pub fn threads(&self) -> usize
        ensures value { result ≡ length self.now.threads }
        ensures at_rest { IsAtRest self.now }
    {
        self.threads.len()
    }

    /// What the thread of this number is doing, and its references. `None` exactly if there is no such thread.
    pub fn thread(&self, i: usize) -> Option<Status<'_>>
        ensures shows { ShowsThread self.now i result }
        ensures few { IfSome result (λ status. length status.list.now ≤ LIST_LIMIT) }
    {
        let thread = self.threads.get(i)?;
        let state = match thread.phase {
            Phase::Live if self.running == Some(i) => ThreadState::Running,
            Phase::Live => ThreadState::Ready,
            Phase::AwaitsItem | Phase::AwaitsReply(_) => ThreadState::Waiting,
            Phase::Exited => ThreadState::Exited,
            Phase::Faulted(fault) => ThreadState::Faulted(fault),
        };
        Some(Status {
            state,
            list: thread.list.refs(),
        })
    }

    /// The body of the thread of this number, as its last poll left it. `None` only if there is no such thread.
    pub fn body(&self, i: usize) -> Option<&B>
        ensures some { IfSome result (λ body. slice_get self.now.bodies i ≡ Some body.now) }
        ensures none { result ≡ None → length self.now.threads ≤ i }
    {
        self.bodies.get(i)
    }
}
