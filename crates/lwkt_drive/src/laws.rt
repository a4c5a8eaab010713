//! What the traces of processors that were driven have, and how one ends as quiet, as theorems.
ghost use Rattle.lwkt_drive.specs.Course.{QuietEndsAreSilent};
ghost use Rattle.lwkt_drive.specs.Traced.{NewIsTraced, TurnsAreTraced, StopsAreTraced, VectorTurnsAreTraced, VectorStopsAreTraced, DrivesAreTraced, TracesArePartsOfOneRun, NewMailIsTraced, MailTurnsAreTraced, MailStopsAreTraced, MailStaysTraced, MailDrivesAreTraced, TracesArePartsOfOneMailRun};

use crate::gates::Gate;
use lwkt_cpu::Body;

/// The theorem that a trace has what its processor's seat has done at the bank: at the opening, and after it was driven, made a
/// turn or was stopped if it did so before. It holds of a vector, too, into which `Cpu::turn` or `Cpu::stop` traces what it does.
pub fn traces_have_deeds_of_seats<B: Body, G: Gate>()
    ensures new { NewIsTraced }
    ensures turns { TurnsAreTraced B.polled }
    ensures stops { StopsAreTraced B.polled }
    ensures vector_turns { VectorTurnsAreTraced B.polled }
    ensures vector_stops { VectorStopsAreTraced }
    ensures drives { DrivesAreTraced B.polled G.answers }
{}

/// The theorem that at the close the traces of all processors are the parts of one run of the model, which leads from the
/// opening to the closing values.
pub fn traces_are_parts_of_one_run()
    ensures { TracesArePartsOfOneRun }
{}

/// The theorem that a trace has, of messages, what its processor's seat has done at the book: at the opening, and after it was
/// driven, made a turn or was stopped if it did so before. It holds of a vector, too, into which `Cpu::turn` or `Cpu::stop` traces
/// what it does.
pub fn traces_have_deeds_of_desks<B: Body, G: Gate>()
    ensures new { NewMailIsTraced }
    ensures turns { MailTurnsAreTraced B.polled }
    ensures stops { MailStopsAreTraced B.polled }
    ensures stays { MailStaysTraced }
    ensures drives { MailDrivesAreTraced B.polled G.answers }
{}

/// The theorem that at the close the traces of all processors are, of messages, the parts of one run of the model, which leads
/// from the opening to the closing owner states and rounds.
pub fn traces_are_parts_of_one_mail_run()
    ensures { TracesArePartsOfOneMailRun }
{}

/// The theorem that if a processor's drive ends as quiet, it made a turn, and its last turn polled no thread and appended no
/// event.
pub fn quiet_ends_are_silent<B: Body, G: Gate>()
    ensures { QuietEndsAreSilent B.polled G.answers }
{}
