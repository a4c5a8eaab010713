//! Every order of turns of a script.
ghost use Rattle.std.specs.Prelude.{◌≡◌, [], IfOk, IfErr};
ghost use Rattle.std.specs.Result.{result_err};
ghost use Rattle.lwkt_explore.specs.Outcomes.{RefusesSearch};
ghost use Rattle.lwkt_explore.specs.Rounds.{AreRounds};
ghost use Rattle.lwkt_ffi.specs.Texts.{AreFoundWithin, IsSearch, RefusesOrders, ReportsSearch, AnswersOrders, status_of_orders};

use crate::answers::{LwktAnswer, status_of_fault};
use crate::fronts::{blank, fill, put_both};
use crate::readings::input_onto;
use crate::refusals::{say_memory, say_unmade};
use lwkt_base::{Fault, OutOfMemory};
use lwkt_explore::{
    Bounds, Found, Method, Seen, Watch, explore, rounds_of, status_of_text, text_of, verdicts_of,
};
use lwkt_report::{Closing, Page};
use lwkt_run::TurnsRun;
use lwkt_script::Script;
use lwkt_show::whys_of;
use lwkt_text::Input;
use std::alloc::Global;

/// What came of a script whose orders were tried.
#[derive(Drop)]
pub struct Search {
    /// What was found.
    pub found: Found,
    /// Of a text a line for each of its expectations, which says whether it holds.
    pub verdicts: String,
    /// The status by what was found.
    pub status: u8,
}

// Nobody looks on: every search goes on.
#[derive(Drop)]
struct Unwatched;

impl Watch for Unwatched {
    fn goes_on(&mut self, _seen: Seen) -> bool {
        true
    }

    fn why(alloc: Global, script: &Script, run: &TurnsRun) -> Result<String, OutOfMemory> {
        whys_of(alloc, script, run)
    }
}

// Tries every order of a script that was read of these bytes; why it is refused is put on a page.
fn explored(
    alloc: Global,
    bytes: &[u8],
    input: &Input,
    bounds: Bounds,
    page: &mut Page,
) -> Result<Found, Fault>
    ensures found { IfOk result (λ found. AreFoundWithin input.now.script bounds.states bounds.turns found) }
    ensures refused { IfErr result (λ fault. RefusesSearch input.now.script fault) }
{
    match explore(
        alloc,
        &input.script,
        bounds,
        Method::Reduced,
        &mut Unwatched,
    ) {
        Ok(found) => Ok(found),
        Err(fault) => {
            say_unmade(alloc, page, bytes, input, fault);
            Err(fault)
        }
    }
}

// Makes the run in rounds of a script that was read of these bytes, if a text says something of that; why it is refused is put on a page.
fn rounds_onto(
    alloc: Global,
    bytes: &[u8],
    input: &Input,
    page: &mut Page,
) -> Result<Option<Closing>, Fault>
    ensures made { IfOk result (AreRounds input.now.script input.now.expectations) }
    ensures refused { IfErr result (λ fault. RefusesSearch input.now.script fault) }
{
    match rounds_of(alloc, &input.script, input.expectations.as_slice()) {
        Ok(rounds) => Ok(rounds),
        Err(fault) => {
            say_unmade(alloc, page, bytes, input, fault);
            Err(fault)
        }
    }
}

// Tries every order of a script in either form, and judges what a text says of the outcomes; why it is refused is put on a page.
fn search_of(alloc: Global, script: &[u8], bounds: Bounds, page: &mut Page) -> Result<Search, Fault>
    ensures found { IfOk result (λ search. IsSearch script.now bounds.states bounds.turns search) }
    ensures refused { IfErr result (λ fault. RefusesOrders script.now fault) }
{
    let input = match input_onto(alloc, script, page) {
        Ok(input) => input,
        Err(fault) => return Err(fault),
    };
    let found = match explored(alloc, script, &input, bounds, page) {
        Ok(found) => found,
        Err(fault) => return Err(fault),
    };
    let rounds = match rounds_onto(alloc, script, &input, page) {
        Ok(rounds) => rounds,
        Err(fault) => return Err(fault),
    };
    let expectations = input.expectations.as_slice();
    let status = status_of_text(expectations, &rounds, &found);
    match verdicts_of(alloc, script, expectations, &rounds, &found) {
        Ok(verdicts) => Ok(Search {
            found,
            verdicts,
            status,
        }),
        Err(refused) => {
            say_memory(page);
            Err(Fault::Memory(refused))
        }
    }
}

// Tries every order of a script, with what was found on an empty page, or why nothing was.
fn search_onto(
    alloc: Global,
    script: &[u8],
    bounds: Bounds,
    page: &mut Page,
) -> Result<Search, Fault>
    requires { page.old.text.items ≡ [] }
    ensures { ReportsSearch script.now bounds.states bounds.turns result page.new.text.items }
{
    let mut errors = blank(alloc);
    let search = match search_of(alloc, script, bounds, &mut errors) {
        Ok(search) => search,
        Err(fault) => {
            *page = errors;
            return Err(fault);
        }
    };
    let text = match text_of(alloc, &search.found) {
        Ok(text) => text,
        Err(refused) => return Err(Fault::Memory(refused)),
    };
    match put_both(page, text.as_bytes(), search.verdicts.as_bytes()) {
        Ok(()) => Ok(search),
        Err(refused) => {
            page.text.clear();
            Err(Fault::Memory(refused))
        }
    }
}

// The status of a script whose orders were tried, and the fault for which it was refused.
fn status_of(outcome: &Result<Search, Fault>) -> (u32, Option<Fault>)
    ensures status { result.0 ≡ status_of_orders outcome.now }
    ensures fault { result.1 ≡ result_err outcome.now }
{
    match outcome {
        Ok(search) => (u32::from(search.status), None),
        Err(Fault::Unlawful { index }) => (4, Some(Fault::Unlawful { index: *index })),
        Err(fault) => (status_of_fault(*fault), Some(*fault)),
    }
}

/// Tries every order of turns of a script in either form, as `explore` of lwkt_explore does with `Reduced`, and puts what was
/// found into the buffer, and of a text behind it a line for each thing that it says of the outcomes; or in words why nothing
/// was found. At most so many states are kept, but one at least, and no order has more turns than that.
///
/// The status, of a script in JSON and of a text that expects nothing: 0 where every order was tried, and from every state an
/// end can be reached; 2 where every order was tried, and from a state no end can be reached; 5 where not every order was
/// tried. Of a text that expects something: 0 where every order was tried and all that it expects holds, and 5 where not. Of
/// all: 4 with the fault 35 where a run wasn't lawful; 1 with the fault 33, 39 or 40 for a script or an opening that was
/// refused; 3 with the fault 32 for want of memory.
#[unsafe(no_mangle)]
pub extern "C" fn lwkt_explore_orders(
    alloc: Global,
    script: &[u8],
    states: usize,
    turns: usize,
    buffer: &mut [u8],
    answer: &mut LwktAnswer,
) -> u32
    ensures { AnswersOrders script.now states turns buffer.old buffer.new answer.new result }
{
    let mut page = blank(alloc);
    // A search without a state would say that it tried every order.
    let states = states.max(1);
    let bounds = Bounds {
        states,
        turns,
        bytes: u64::MAX,
        compared: 1000,
    };
    let outcome = search_onto(alloc, script, bounds, &mut page);
    fill(buffer, &page.text);
    let (status, fault) = status_of(&outcome);
    *answer = LwktAnswer::new(page.text.len(), fault);
    status
}
