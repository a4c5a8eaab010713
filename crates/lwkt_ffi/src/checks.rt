ghost use Rattle.std.specs.Prelude.{◌≡◌, []};
ghost use Rattle.lwkt_ffi.specs.Answers.{ReportsCheck, AnswersCheck, status_of_check};

use crate::answers::{LwktAnswer, status_of_fault};
use crate::fronts::{blank, fill, page_refusal};
use crate::refusals::say_trace;
use lwkt_base::Fault;
use lwkt_checker::check_stream;
use lwkt_report::{Page, RunFault};
use std::alloc::Global;

// Judges a trace, with what was found of it on an empty page, which takes it where memory is there.
fn finding_onto(alloc: Global, trace: &[u8], page: &mut Page) -> Result<bool, Fault>
    requires { page.old.text.items ≡ [] }
    ensures { ReportsCheck trace.now result page.new.text.items }
{
    let mut source = trace;
    match check_stream(alloc, &mut source, page) {
        Ok(lawful) => Ok(lawful),
        Err(RunFault::Fault(fault)) => Err(fault),
        Err(RunFault::Stream) => Err(Fault::Memory(page_refusal(page))),
    }
}

// Judges a trace, with what was found of it on an empty page, or why nothing was.
fn check_onto(alloc: Global, trace: &[u8], page: &mut Page) -> Result<bool, Fault>
    requires { page.old.text.items ≡ [] }
    ensures { ReportsCheck trace.now result page.new.text.items }
{
    match finding_onto(alloc, trace, page) {
        Ok(lawful) => Ok(lawful),
        Err(fault) => {
            page.text.clear();
            say_trace(alloc, page, trace, fault);
            Err(fault)
        }
    }
}

// The status of a check.
fn status_of(outcome: &Result<bool, Fault>) -> u32
    ensures { result ≡ status_of_check outcome.now }
{
    match *outcome {
        Ok(true) => 0,
        Ok(false) => 4,
        Err(fault) => status_of_fault(fault),
    }
}

/// Judges a trace, as `check_stream` of lwkt_checker does, and puts what was found into the buffer, or in words why nothing was.
///
/// The status: 0 where the trace is lawful, 4 where it isn't; 1 with the fault 33, 39 or 40 for a trace or an opening that was
/// refused; 3 with the fault 32 for want of memory.
#[unsafe(no_mangle)]
pub extern "C" fn lwkt_check_trace(
    alloc: Global,
    trace: &[u8],
    buffer: &mut [u8],
    answer: &mut LwktAnswer,
) -> u32
    ensures { AnswersCheck trace.now buffer.old buffer.new answer.new result }
{
    let mut page = blank(alloc);
    let outcome = check_onto(alloc, trace, &mut page);
    fill(buffer, &page.text);
    *answer = LwktAnswer::new(page.text.len(), outcome.err());
    status_of(&outcome)
}
