//! Bodies that ask what they are listed with.

use lwkt_base::{Answer, Ask, Fault, TokId};
use lwkt_machine::{Stepper, Steps};

/// The token of the rows.
pub const TOKEN: TokId = TokId(0);

/// Asks three things, one after another, whatever is answered, and then ends.
#[derive(Drop)]
pub struct Listed {
    asks: [Ask; 3],
    next: usize,
}

impl Listed {
    /// A body that was never polled.
    pub fn new(asks: [Ask; 3]) -> Stepper<Listed> {
        Stepper::new(Listed { asks, next: 0 })
    }

    fn ask_next(&mut self) -> Ask {
        let ask = self.asks.get(self.next).copied().unwrap_or(Ask::Exit);
        self.next = self.next.saturating_add(1);
        ask
    }
}

impl Steps for Listed {
    ghost kept = { λ l. Unit {0} };

    fn begin(&mut self) -> Ask {
        self.ask_next()
    }

    fn answered(&mut self, _asked: Ask, _answer: Answer) -> Ask {
        self.ask_next()
    }

    fn refused(&mut self, _asked: Ask, _fault: Fault) -> Ask {
        self.ask_next()
    }
}
