//! Scripts, translated between their forms.
ghost use Rattle.std.specs.Prelude.{◌≡◌, IfErr, IfOk, Ok, Result, string_bytes};
ghost use Rattle.lwkt.specs.Failing.{DeclinesForm, DeclinesWritten};
ghost use Rattle.lwkt.specs.Making.{IsForm, IsShort};

use crate::failures::Failure;
use crate::runs::{Words, report_of};
use crate::written::Made;
use lwkt_base::limits::SCRIPT_BYTES;
use lwkt_request::{Form, Wording};
use lwkt_run::Mode;
use lwkt_text::{Input, Unsaid, json_of, text_of};
use std::alloc::Global;
use std::thread::Threads;

// A form of a script, unless it is too long for one.
fn made_of(alloc: Global, form: Result<String, Unsaid>) -> Result<Made, Failure>
    ensures made { IfOk result (λ made. form ≡ Ok made.text) }
    ensures short { IfOk result (λ made. IsShort (string_bytes made.text)) }
    ensures status { IfOk result (λ made. made.status ≡ 0) }
    ensures declined { IfErr result DeclinesWritten }
{
    match form {
        Ok(text) if text.len() <= SCRIPT_BYTES => Ok(Made {
            text,
            status: 0,
            verdicts: String::new(alloc),
        }),
        Ok(_) | Err(Unsaid::Limits) => Err(Failure::Long),
        Err(Unsaid::Memory(refused)) => Err(refused.into()),
    }
}

/// A script in a form; or the report of its run in rounds.
pub fn form_of<R: Threads + Sync>(
    rt: &R,
    alloc: Global,
    form: Form,
    path: Option<&str>,
    bytes: &[u8],
    input: &Input,
) -> Result<Made, Failure>
    ensures made { IfOk result (λ made. IsForm form input.now (string_bytes made.text) made.status) }
    ensures declined { IfErr result (DeclinesForm form input.now.script) }
{
    match form {
        Form::Json => made_of(alloc, json_of(alloc, &input.script)),
        Form::Text => made_of(alloc, text_of(alloc, &input.script)),
        Form::Run => {
            let words = Words {
                wording: Wording::Numbers,
                paints: false,
            };
            report_of(rt, alloc, Mode::Turns, words, path, bytes, input)
        }
    }
}
