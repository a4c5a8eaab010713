ghost use Rattle.std.specs.Prelude.{◌≡◌, []};
ghost use Rattle.lwkt_ffi.specs.Answers.{ReportsRun, AnswersRun, status_of_run};

use crate::answers::{LwktAnswer, status_of_end, status_of_fault};
use crate::fronts::{blank, fill, page_refusal};
use crate::refusals::say_json;
use lwkt_base::Fault;
use lwkt_report::{Page, RunFault};
use lwkt_run::{End, run_turns};
use std::alloc::Global;

// Runs a script, with its report on an empty page, which takes it where memory is there.
fn report_onto(alloc: Global, script: &[u8], page: &mut Page) -> Result<End, Fault>
    requires { page.old.text.items ≡ [] }
    ensures { ReportsRun script.now result page.new.text.items }
{
    let mut source = script;
    match run_turns(alloc, &mut source, page) {
        Ok(end) => Ok(end),
        Err(RunFault::Fault(fault)) => Err(fault),
        Err(RunFault::Stream) => Err(Fault::Memory(page_refusal(page))),
    }
}

// Runs a script, with its report on an empty page, or why there is none.
fn run_onto(alloc: Global, script: &[u8], page: &mut Page) -> Result<End, Fault>
    requires { page.old.text.items ≡ [] }
    ensures { ReportsRun script.now result page.new.text.items }
{
    match report_onto(alloc, script, page) {
        Ok(end) => Ok(end),
        Err(fault) => {
            page.text.clear();
            say_json(alloc, page, script, fault);
            Err(fault)
        }
    }
}

// The status of a run.
fn status_of(outcome: &Result<End, Fault>) -> u32
    ensures { result ≡ status_of_run outcome.now }
{
    match *outcome {
        Ok(end) => status_of_end(end),
        Err(fault) => status_of_fault(fault),
    }
}

/// Runs a script in rounds, on this thread, as `run_turns` of lwkt_run does, and puts its report into the buffer, or in words why
/// there is none.
///
/// The status: 0 where every thread had ended, 2 where the turns were used up, 4 where the run was unlawful; 1 with the fault 33,
/// 39 or 40 for a script or an opening that was refused; 3 with the fault 32 for want of memory.
#[unsafe(no_mangle)]
pub extern "C" fn lwkt_run_turns(
    alloc: Global,
    script: &[u8],
    buffer: &mut [u8],
    answer: &mut LwktAnswer,
) -> u32
    ensures { AnswersRun script.now buffer.old buffer.new answer.new result }
{
    let mut page = blank(alloc);
    let outcome = run_onto(alloc, script, &mut page);
    fill(buffer, &page.text);
    *answer = LwktAnswer::new(page.text.len(), outcome.err());
    status_of(&outcome)
}
