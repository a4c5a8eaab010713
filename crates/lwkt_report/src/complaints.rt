ghost use Rattle.std.specs.Prelude.{◌≡◌, ◌++◌, ◌≤◌, ◌∷◌, [], length, IsTrue};
ghost use Rattle.lwkt_report.specs.Complaint.{program_name, usage_text, fault_line, complaint_of, IsSaid};

use crate::sinks::{Sink, write_whole};
use crate::streams::RunFault;
use arrayvec::ArrayString;
use itoa::Buffer;
use lwkt_base::Fault;

/// A program, by the name that its lines begin with.
#[derive(Clone, Copy, PartialEq, Eq)]
pub enum Program {
    /// `lwkt_run`.
    Run,
    /// `lwkt_check`.
    Check,
}

/// What a program says where there is no whole report.
#[derive(Clone, Copy, PartialEq, Eq)]
pub enum Complaint {
    /// The arguments are not those of the program.
    Usage,
    /// What was read, or memory, is at fault.
    Fault(Fault),
    /// The reader or the writer failed.
    Stream,
}

fn name_of(program: Program) -> &'static str
    ensures name { result.now ≡ program_name program }
    ensures short { length result.now ≤ 12 }
{
    match program {
        Program::Run => "lwkt_run: ",
        Program::Check => "lwkt_check: ",
    }
}

fn usage_of(program: Program) -> &'static str
    ensures text { result.now ≡ usage_text program }
    ensures short { length result.now ≤ 24 }
{
    match program {
        Program::Run => "turns or threads",
        Program::Check => "no arguments, or lines",
    }
}

fn fault_text(program: Program, fault: Fault) -> ArrayString<48>
    ensures { result.bytes ≡ fault_line program (Complaint.Fault fault) }
{
    let mut digits = Buffer::new();
    let mut line = ArrayString::new();
    line.push_str(name_of(program));
    line.push_str("fault ");
    line.push_str(digits.format(fault.number()));
    if let Fault::Script { place } = fault {
        line.push_str(" at ");
        line.push_str(digits.format(place));
    }
    line.push_str("\n");
    line
}

fn fixed(program: Program, text: &str) -> ArrayString<48>
    requires { length text.now ≤ 24 }
    ensures { result.bytes ≡ program_name program ++ text.now ++ 10 ∷ [] }
{
    let mut line = ArrayString::new();
    line.push_str(name_of(program));
    line.push_str(text);
    line.push_str("\n");
    line
}

/// The line that a program says, ended by a line feed. It takes no memory.
pub fn complaint_line(program: Program, complaint: Complaint) -> ArrayString<48>
    ensures { result.bytes ≡ fault_line program complaint }
{
    match complaint {
        Complaint::Usage => fixed(program, usage_of(program)),
        Complaint::Fault(fault) => fault_text(program, fault),
        Complaint::Stream => fixed(program, "stream"),
    }
}

/// Writes the line that a program says. If that fails, a front of it stands. A sink that had failed has failed still.
pub fn complain<K: Sink>(sink: &mut K, program: Program, complaint: Complaint)
    ensures said { IsSaid (K.has_failed sink.new) (K.contents sink.old) (K.contents sink.new) (fault_line program complaint) }
    ensures failed { IsTrue (K.has_failed sink.old) → IsTrue (K.has_failed sink.new) }
{
    let line = complaint_line(program, complaint);
    let _ = write_whole(sink, line.as_bytes());
}

/// What is said of a run that ended without a whole report.
pub fn complaint_of(fault: RunFault) -> Complaint
    ensures { result ≡ complaint_of fault }
{
    match fault {
        RunFault::Fault(fault) => Complaint::Fault(fault),
        RunFault::Stream => Complaint::Stream,
    }
}
