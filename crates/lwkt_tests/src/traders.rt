//! Two bodies that call each other: with each call and each reply they hand a record on, under one token.

use crate::listed::TOKEN;
use lwkt_base::{Answer, Ask, Blob, Call, Fault, Item, MsgId};
use lwkt_machine::{Stepper, Steps, makers};

/// The message of the calls, which thread 0.0 makes to thread 1.0.
pub const MESSAGE: MsgId = MsgId(0);

/// How many calls are made.
pub const ROUNDS: u64 = 1000;

/// Calls, or serves the calls. Before each call and each reply it finds the record that the other one has left, 64 bytes that are all
/// the same, and leaves the next one. It ends where something isn't as it must be.
#[derive(Drop)]
pub struct Trader {
    serves: bool,
    /// The call that is made, or served, beginning with 0.
    round: u64,
}

// Record k: 64 bytes that are all the same.
fn page(k: u64) -> Blob {
    Blob::of(&[(k % 256) as u8; 64])
}

impl Trader {
    /// A body that was never polled.
    pub fn new(serves: bool) -> Stepper<Trader> {
        Stepper::new(Trader { serves, round: 0 })
    }

    // The number of the record that it has to find.
    fn number(&self) -> u64 {
        let twice = self.round.saturating_mul(2);
        if self.serves {
            twice.saturating_add(1)
        } else {
            twice
        }
    }

    // What it asks after this record.
    fn hand_on(&self, record: Blob) -> Ask {
        if !record.is_same(&page(self.number())) {
            return Ask::Exit;
        }
        Ask::WriteBlob(TOKEN, page(self.number().saturating_add(1)))
    }

    // What it asks once it has given the token back.
    fn notify(&self) -> Ask {
        if self.serves {
            return Ask::Reply(MESSAGE, 0, self.round.saturating_add(1));
        }
        let call = Call {
            arg: self.round,
            op: 5,
        };
        Ask::Do(MESSAGE, makers::thread(1, 0), call)
    }

    // What it asks after a round.
    fn go_on(&mut self) -> Ask {
        self.round = self.round.saturating_add(1);
        if self.round >= ROUNDS {
            return Ask::Exit;
        }
        if self.serves {
            Ask::WaitPort
        } else {
            Ask::Get(TOKEN)
        }
    }

    // What it asks after this item.
    fn take(&mut self, item: Item) -> Ask {
        match item {
            Item::Request(_, call) if call.arg == self.round => Ask::Get(TOKEN),
            Item::Answered(_, 0, outcome) if outcome == self.round.saturating_add(1) => {
                self.go_on()
            }
            _ => Ask::Exit,
        }
    }

    // What it asks after the answer to any other ask.
    fn hear(&mut self, answer: Answer) -> Ask {
        match answer {
            Answer::Bytes(record) => self.hand_on(record),
            Answer::Got(item) => self.take(item),
            _ => self.go_on(),
        }
    }
}

impl Steps for Trader {
    ghost kept = { λ t. Unit {0} };

    fn begin(&mut self) -> Ask {
        if self.serves {
            Ask::WaitPort
        } else {
            Ask::Get(TOKEN)
        }
    }

    fn answered(&mut self, asked: Ask, answer: Answer) -> Ask {
        match asked {
            Ask::Get(_) => Ask::ReadBlob(TOKEN),
            Ask::WriteBlob(..) => Ask::Rel(TOKEN),
            Ask::Rel(_) => self.notify(),
            _ => self.hear(answer),
        }
    }

    fn refused(&mut self, _asked: Ask, _fault: Fault) -> Ask {
        Ask::Exit
    }
}
