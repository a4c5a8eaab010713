//! Many turns of a processor.
ghost use Rattle.std.specs.Prelude.{◌≡◌, ◌≢◌, true, false, ◌+◌, ◌<◌, ◌^◌, IfOk, OnErr, Err};
ghost use Rattle.lwkt_bank.specs.Seats.{id_of, bank_of};
ghost use Rattle.lwkt_cpu.specs.Traced.{TracesMail};
ghost use Rattle.lwkt_cpu.specs.Driving.{with_turn, Drives, DrivesShort};

use crate::Body;
use crate::answers::{Drove, Turned};
use crate::cpus::Cpu;
use lwkt_bank::Bank;
use lwkt_base::Fault;
use lwkt_core::Event;
use lwkt_msg::MsgBook;

/// One turn more, counted by its answer: one that says `AllExited` counts as one that polled no thread. That both counts together
/// stay below 2^64 is the caller's condition.
pub fn count(drove: Drove, turned: Turned) -> Drove
    requires { drove.ran + drove.idle + 1 < 2 ^ 64 }
    ensures { result ≡ with_turn drove turned }
{
    let Drove {
        ran,
        idle,
        all_exited,
    } = drove;
    match turned {
        Turned::Ran { .. } => Drove {
            ran: ran + 1,
            idle,
            all_exited,
        },
        Turned::Idle => Drove {
            ran,
            idle: idle + 1,
            all_exited,
        },
        Turned::AllExited => Drove {
            ran,
            idle: idle + 1,
            all_exited: true,
        },
    }
}

// Whether a turn said that every thread has ended.
fn is_last(turned: Turned) -> bool
    ensures yes { result ≡ true → turned ≡ Turned.AllExited }
    ensures no { result ≡ false → turned ≢ Turned.AllExited }
{
    matches!(turned, Turned::AllExited)
}

impl<B: Body> Cpu<B> {
    ghost use Rattle.lwkt_base.specs.Fault.{no_memory};

    /// Makes `limit` turns, or fewer: up to the first at which every thread has ended. Their events are appended to the trace. That
    /// the seats are of this bank and book is the caller's condition.
    ///
    /// Refused with `Memory` if the trace has no room for the next turn's 4096 events and can't be given it; the turns before stand.
    pub fn drive(
        &mut self,
        bank: &Bank,
        book: &MsgBook,
        limit: u64,
        trace: &mut Vec<Event>,
    ) -> Result<Drove, Fault>
        requires of { bank_of self.old.seat ≡ id_of bank.now }
        requires table { self.old.post.seat.table ≡ book.now.table }
        ensures ok { IfOk result (λ drove. Drives B.polled (id_of bank.now) self.old self.new trace.old trace.new limit drove) }
        ensures err { OnErr result (DrivesShort B.polled (id_of bank.now) self.old self.new trace.old trace.new limit) }
        ensures only { OnErr result (result ≡ Err no_memory) }
        ensures of { bank_of self.new.seat ≡ bank_of self.old.seat }
        ensures table { self.new.post.seat.table ≡ self.old.post.seat.table }
        ensures traced { TracesMail self.old.post.seat self.new.post.seat trace.old.items trace.new.items }
    {
        let mut drove = Drove {
            ran: 0,
            idle: 0,
            all_exited: false,
        };
        for made in 0..limit {
            let turned = self.turn(bank, book, trace)?;
            drove = count(drove, turned);
            if is_last(turned) {
                return Ok(drove);
            }
        }
        Ok(drove)
    }
}
