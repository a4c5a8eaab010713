//! What threads that drive processors of their own may rest on, as theorems.
ghost use Rattle.lwkt_cpu.specs.Laws.{TurnsArePartsOfRuns, MailsArePartsOfRuns};

use crate::Body;
use crate::cpus::Cpu;
use lwkt_bank::{Bank, laws as bank_laws};
use lwkt_msg::{MsgBook, laws as book_laws};

/// The theorem that, whatever other seats do before, during and after it, what a turn did is a part of one run of the model, at
/// the bank and at the book. Nothing is asked of those who drive the other processors: the kit keeps both rules between any two
/// steps of any number of seats, `bank_keeps_that_rule` and `book_keeps_that_rule` say which rules, and a turn itself asks no
/// more than that its processor's seats are of that bank and of that book.
pub fn turns_are_parts_of_runs<B: Body>()
    ensures tokens { TurnsArePartsOfRuns B.polled }
    ensures messages { MailsArePartsOfRuns B }
{
    bank_laws::states_are_reached();
    book_laws::rule_shows_safety();
    book_laws::states_are_reached();
}

// Asks that a value may be moved to another thread.
fn may_be_moved<T: Send>() {}

// Asks that a value may be shared by threads.
fn may_be_shared<T: Sync>() {}

/// A processor may be moved to a thread of the caller's own if its bodies may, and all threads may share bank and book: the
/// body asks so of the types.
pub fn processors_go_to_threads<B: Body + Send>() {
    may_be_moved::<Cpu<B>>();
    may_be_shared::<Bank>();
    may_be_shared::<MsgBook>();
}
