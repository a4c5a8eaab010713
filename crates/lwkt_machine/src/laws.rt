//! Laws of the bodies of a script's threads, and of what the processors of a machine did.
ghost use Rattle.lwkt_machine.specs.Laws.{AsksAreTheScripts, AsksAreTheLists, LogsAreFirstEntries};
ghost use Rattle.lwkt_machine.specs.ProcessorParts.{DrivesArePartsOfRuns, ThreadsArePartsOfRuns};

use crate::lasting::Lasting;
use lwkt_drive::Gate;

/// The theorem that over all its polls a body asks what its program asks, by the answers that it is given; a list of asks in order, each by
/// its number, and `Exit` after the last; and that its log is the first 32 entries that its polls make.
pub fn bodies_follow_scripts()
    ensures asks { AsksAreTheScripts }
    ensures lists { AsksAreTheLists }
    ensures logs { LogsAreFirstEntries }
{}

/// The theorem that what the processors of a machine did from its opening on, each in its turns on a thread of its own and then in
/// its stop, are the parts of one run of the model on tokens and of one on messages, which lead from what was declared to the
/// closing values.
pub fn drives_are_parts_of_runs<B: Lasting, G: Gate>()
    ensures { DrivesArePartsOfRuns B.polled G.answers }
{}

/// The same theorem of the machine of a script.
pub fn threads_are_parts_of_runs<G: Gate>()
    ensures { ThreadsArePartsOfRuns G.answers }
{}
