//! Runs of a script.
ghost use Rattle.std.specs.Prelude.{◌≡◌, IfErr, IfOk, string_bytes};
ghost use Rattle.lwkt_run.specs.Run.{DeclinesRun};
ghost use Rattle.lwkt.specs.Failing.{IsFault};
ghost use Rattle.lwkt_explore.specs.Judgements.{judgement_of};
ghost use Rattle.lwkt.specs.Making.{IsReport, mode_of, report_in};
ghost use Rattle.lwkt_told.specs.Told.{named_report};

use crate::failures::Failure;
use crate::written::Made;
use lwkt_base::OutOfMemory;
use lwkt_explore::{Account, Telling, account_of, told_account_of};
use lwkt_report::Closing;
use lwkt_request::Wording;
use lwkt_run::{Mode, close_by};
use lwkt_text::Input;
use std::alloc::Global;
use std::thread::Threads;

/// How processors are driven.
pub fn mode_of(on_threads: bool) -> Mode
    ensures { result ≡ mode_of on_threads }
{
    if on_threads {
        Mode::Threads
    } else {
        Mode::Turns
    }
}

/// In which words a run is reported, and whether verdicts in names are painted.
#[derive(Clone, Copy)]
pub struct Words {
    pub wording: Wording,
    pub paints: bool,
}

// What is said of a run of a text in its names; of JSON, which has none, in numbers.
fn named_account(
    alloc: Global,
    mode: Mode,
    words: Words,
    path: Option<&str>,
    bytes: &[u8],
    input: &Input,
    closing: &Closing,
) -> Result<Account, OutOfMemory>
    ensures report { IfOk result (λ account. string_bytes account.report ≡ named_report input.now.names input.now.script closing.now) }
    ensures judgement { IfOk result (λ account. account.judgement ≡ judgement_of input.now.expectations mode closing.now) }
{
    let expectations = input.expectations.as_slice();
    match &input.names {
        Some(names) => {
            let telling = Telling {
                names,
                script: &input.script,
            };
            told_account_of(
                alloc,
                &telling,
                words.paints,
                bytes,
                expectations,
                mode,
                closing,
            )
        }
        None => account_of(alloc, path, bytes, expectations, mode, closing),
    }
}

// What is said of a run in the words that are asked for.
fn account_in(
    alloc: Global,
    mode: Mode,
    words: Words,
    path: Option<&str>,
    bytes: &[u8],
    input: &Input,
    closing: &Closing,
) -> Result<Account, OutOfMemory>
    ensures report { IfOk result (λ account. string_bytes account.report ≡ report_in words.wording input.now closing.now) }
    ensures judgement { IfOk result (λ account. account.judgement ≡ judgement_of input.now.expectations mode closing.now) }
{
    match words.wording {
        Wording::Names => named_account(alloc, mode, words, path, bytes, input, closing),
        Wording::Numbers | Wording::OldName => {
            account_of(
                alloc,
                path,
                bytes,
                input.expectations.as_slice(),
                mode,
                closing,
            )
        }
    }
}

/// Runs a script, driven so, to its report in the words that are asked for. In the verdicts on what is expected, which are in numbers where
/// the report is, the file is called by the path, if there is one.
pub fn report_of<R: Threads + Sync>(
    rt: &R,
    alloc: Global,
    mode: Mode,
    words: Words,
    path: Option<&str>,
    bytes: &[u8],
    input: &Input,
) -> Result<Made, Failure>
    ensures made { IfOk result (λ made. IsReport mode words.wording input.now (string_bytes made.text) made.status) }
    ensures declined { IfErr result (IsFault (DeclinesRun input.now.script)) }
{
    let closing = close_by(rt, alloc, mode, &input.script)?;
    let account = account_in(alloc, mode, words, path, bytes, input, &closing)?;
    let Account {
        report,
        verdicts,
        judgement,
    } = account;
    Ok(Made {
        text: report,
        status: judgement.status(),
        verdicts,
    })
}
