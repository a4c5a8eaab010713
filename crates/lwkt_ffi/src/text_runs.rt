//! Texts of the language for scripts, run.
ghost use Rattle.std.specs.Prelude.{◌≡◌, [], IfOk, IfErr, string_bytes};
ghost use Rattle.lwkt_ffi.specs.Texts.{HasTextReport, RefusesTextRun, ReportsTextRun, AnswersText, status_of_text_run};

use crate::answers::{LwktAnswer, status_of_fault};
use crate::fronts::{blank, fill, put_both};
use crate::readings::read_onto;
use crate::refusals::{say_memory, say_unmade};
use lwkt_base::Fault;
use lwkt_explore::{Account, Judgement, account_of};
use lwkt_report::Page;
use lwkt_run::{Mode, close_turns};
use lwkt_text::{Input, Reading};
use std::alloc::Global;

// Runs a text, to all that is said of its run; why it is refused is put on a page.
fn account_onto(alloc: Global, text: &[u8], page: &mut Page) -> Result<Account, Fault>
    ensures ok { IfOk result (λ account. HasTextReport text.now account.judgement (string_bytes account.report)) }
    ensures refused { IfErr result (λ fault. RefusesTextRun text.now fault) }
{
    let Reading {
        script,
        names,
        expectations,
    } = match read_onto(alloc, text, page) {
        Ok(reading) => reading,
        Err(fault) => return Err(fault),
    };
    let closing = match close_turns(alloc, &script) {
        Ok(closing) => closing,
        Err(fault) => {
            let names = Some(names);
            let input = Input {
                script,
                names,
                expectations,
            };
            say_unmade(alloc, page, text, &input, fault);
            return Err(fault);
        }
    };
    match account_of(
        alloc,
        None,
        text,
        expectations.as_slice(),
        Mode::Turns,
        &closing,
    ) {
        Ok(account) => Ok(account),
        Err(refused) => {
            say_memory(page);
            Err(Fault::Memory(refused))
        }
    }
}

// Runs a text, with its report and the lines of its expectations behind that on an empty page, or why there are none.
fn run_onto(alloc: Global, text: &[u8], page: &mut Page) -> Result<Judgement, Fault>
    requires { page.old.text.items ≡ [] }
    ensures { ReportsTextRun text.now result page.new.text.items }
{
    let mut errors = blank(alloc);
    let Account {
        report,
        verdicts,
        judgement,
    } = match account_onto(alloc, text, &mut errors) {
        Ok(account) => account,
        Err(fault) => {
            *page = errors;
            return Err(fault);
        }
    };
    match put_both(page, report.as_bytes(), verdicts.as_bytes()) {
        Ok(()) => Ok(judgement),
        Err(refused) => {
            page.text.clear();
            Err(Fault::Memory(refused))
        }
    }
}

// The status of a text that was run.
fn status_of(outcome: &Result<Judgement, Fault>) -> u32
    ensures { result ≡ status_of_text_run outcome.now }
{
    match *outcome {
        Ok(judgement) => u32::from(judgement.status()),
        Err(fault) => status_of_fault(fault),
    }
}

/// Runs a text in rounds, on this thread, and puts its report into the buffer, and behind it a line for each of its expectations,
/// which says whether it holds; or in words all that is wrong with the text.
///
/// The status: 0 where all expectations hold, or there are none and every thread had ended; 2 where there are none and the turns
/// were used up; 4 where the run was unlawful; 5 where an expectation doesn't hold; 1 with the fault 33, 39 or 40 for a text or an
/// opening that was refused; 3 with the fault 32 for want of memory.
#[unsafe(no_mangle)]
pub extern "C" fn lwkt_run_text(
    alloc: Global,
    text: &[u8],
    buffer: &mut [u8],
    answer: &mut LwktAnswer,
) -> u32
    ensures { AnswersText text.now buffer.old buffer.new answer.new result }
{
    let mut page = blank(alloc);
    let outcome = run_onto(alloc, text, &mut page);
    fill(buffer, &page.text);
    *answer = LwktAnswer::new(page.text.len(), outcome.err());
    status_of(&outcome)
}
