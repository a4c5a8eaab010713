//! Three accounts under one token. Two processors, each on a thread of its own, transfer units until they see that the first is empty.
ghost use Rattle.std.specs.Prelude.{◌≡◌, ◌⊎◌, All, IfOk, IsTrue, sum, slice_index_or, []};

use lwkt_base::{Answer, Ask, Fault, OutOfMemory, TokId};
use lwkt_machine::{Closed, LIMITS, Machine, Stepper, Steps, makers};
use std::alloc::Global;
use std::thread::Threads;

/// The token of the accounts.
pub const ACCOUNTS: TokId = TokId(0);

/// Transfers a unit from the first account to another one, in a section of its own; again and again, until it sees the first one empty.
#[derive(Drop)]
pub struct Teller {
    to: u8,
    /// How many units it saw in the first account when it last looked.
    pub saw: u64,
    /// Whether it ends because of what it saw.
    pub done: bool,
}

impl Teller {
    // Asks for the accounts, unless it is done.
    fn again(&self) -> Ask {
        if self.done {
            Ask::Exit
        } else {
            Ask::Get(ACCOUNTS)
        }
    }

    // Takes one of the units that it sees in the first account. If it sees none, it is done.
    fn look(&mut self, units: u64) -> Ask
        ensures saw { self.new.saw ≡ units }
        ensures done { IsTrue self.new.done → units ≡ 0 }
    {
        self.saw = units;
        self.done = units == 0;
        if self.done {
            return Ask::Rel(ACCOUNTS);
        }
        Ask::Write(ACCOUNTS, 0, units.wrapping_sub(1))
    }
}

impl Steps for Teller {
    ghost use Rattle.lwkt_base.specs.declared.asks.Answer.{Answer};
    ghost use Rattle.lwkt_base.specs.declared.asks.Ask.{Ask};
    ghost use Rattle.lwkt_base.specs.declared.names.TokId.{TokId};
    ghost use Rattle.lwkt_machine.specs.declared.steps.Heard.{Heard};

    ghost kept = { λ t. IsTrue t.done → t.saw ≡ 0 };

    ghost says = { λ t heard ask d. IsTrue d.done → IsTrue t.done ⊎ ((tok : TokId) × (heard ≡ Heard.Answer (Ask.Read tok 0) (Answer.Value 0))) };

    fn begin(&mut self) -> Ask {
        self.again()
    }

    fn answered(&mut self, asked: Ask, answer: Answer) -> Ask {
        match (asked, answer) {
            (Ask::Get(_), _) => Ask::Read(ACCOUNTS, 0),
            (Ask::Read(_, 0), Answer::Value(units)) => self.look(units),
            (Ask::Write(_, 0, _), _) => Ask::Read(ACCOUNTS, self.to),
            (Ask::Read(_, _), Answer::Value(units)) => {
                Ask::Write(ACCOUNTS, self.to, units.wrapping_add(1))
            }
            (Ask::Write(_, _, _), _) => Ask::Rel(ACCOUNTS),
            (Ask::Rel(_), _) => self.again(),
            _ => Ask::Exit,
        }
    }

    fn refused(&mut self, _asked: Ask, _fault: Fault) -> Ask {
        Ask::Exit
    }
}

// The bodies of one processor.
fn alone(alloc: Global, to: u8) -> Result<Vec<Stepper<Teller>>, OutOfMemory>
    ensures { IfOk result (λ bodies. All (λ b. IsTrue b.steps.done → b.steps.saw ≡ 0) bodies.items) }
{
    let teller = Stepper::new(Teller {
        to,
        saw: 0,
        done: false,
    });
    makers::list(alloc, [teller])
}

/// Runs both tellers. No unit is lost and none is made, and a teller that is done saw the first account empty.
pub fn run<R: Threads + Sync>(rt: &R, alloc: Global) -> Result<Closed<Stepper<Teller>>, Fault>
    ensures whole { IfOk result (λ closed. sum (slice_index_or closed.tokens.rows.items 0 []) ≡ 300) }
    ensures empty { IfOk result (λ closed. All (λ v. All (λ b. IsTrue b.steps.done → b.steps.saw ≡ 0) v.items) closed.bodies.items) }
{
    let tokens = [makers::sum(alloc, &[300, 0, 0], 300)?];
    let first = alone(alloc, 1)?;
    let second = alone(alloc, 2)?;
    let bodies = makers::list(alloc, [first, second])?;
    let mut machine = Machine::open(alloc, &tokens, &[], bodies)?;
    let room = machine.room(alloc)?;
    machine.drive(rt, &LIMITS);
    Ok(machine.close_in(room))
}
