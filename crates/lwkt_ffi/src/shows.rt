ghost use Rattle.std.specs.Prelude.{◌≡◌, ◌⊎◌, ℕ, List, [], IfErr, IfOk, IfSome, IsNone, Ok, Err, None, Some, map, string_bytes};
ghost use Rattle.std.specs.Option.{option_copied};
ghost use Rattle.std.specs.Str.{IsUtf8};
ghost use Rattle.lwkt_show.specs.declared.options.Options.{Options};
ghost use Rattle.lwkt_ffi.specs.Alongs.{AreAlong};
ghost use Rattle.lwkt_ffi.specs.Answers.{AnswersShow, AskForNoRun, AskNothing, Displays, EndsBeforeIn, RefusesShow, ShowsIn, in_names, names_shown, status_of_show, words_asked, words_in};
ghost use Rattle.lwkt_ffi.specs.Arguments.{AreOptions};
ghost use Rattle.lwkt_base.specs.Fault.{no_memory};

use crate::alongs::along_of;
use crate::answers::{LwktAnswer, status_of_end, status_of_fault};
use crate::arguments::options_of;
use crate::fronts::{blank, fill};
use crate::misuses::say_misused;
use crate::readings::input_onto;
use crate::refusals::{say_memory, say_unmade, say_whole};
use crate::words::{asks_names, without_names, words_of};
use lwkt_base::memory::extend_from_slice;
use lwkt_base::{Fault, OutOfMemory};
use lwkt_report::Page;
use lwkt_run::End;
use lwkt_show::{Options, Shown, show_script};
use lwkt_text::{Input, Names};
use std::alloc::Global;

// What is said where the run ended before the range that was chosen.
const PAST: &str = "the range lies behind the end of the run";

/// What came of a script that was to be shown.
#[derive(Clone, Copy, PartialEq, Eq)]
pub enum Showing {
    /// Its run is shown, and ended so.
    Shown(End),
    /// Its run ended before the first turn that was chosen.
    Past,
    /// The arguments are none of the program's that shows a run in rounds or along an order.
    Misused,
}

// The words of the arguments, if they are UTF-8.
fn words_read(alloc: Global, arguments: &[u8]) -> Result<Option<Vec<String>>, OutOfMemory>
    ensures some { IfOk result (λ found. IfSome found (λ words. map string_bytes words.items ≡ words_in arguments.now)) }
    ensures valid { IfOk result (λ found. IfSome found (λ words. IsUtf8 arguments.now)) }
    ensures none { IfOk result (λ found. found ≡ None → ¬ IsUtf8 arguments.now) }
{
    let Ok(text) = str::from_utf8(arguments) else {
        return Ok(None);
    };
    Ok(Some(words_of(alloc, text)?))
}

// The names in which the run of an input is shown: those of a text, if they are asked for.
fn names_shown(named: bool, input: &Input) -> Option<&Names>
    ensures { option_copied result ≡ names_shown named input.now }
{
    match &input.names {
        Some(names) if named => Some(names),
        _ => None,
    }
}

// Runs a script in either form, in rounds or along an order, to the text that shows the run, in the names of a text, if these are asked
// for; `None` where it ended before the first turn that was chosen. Why a script or the order is refused is put on a page.
fn shown_of(
    alloc: Global,
    named: bool,
    script: &[u8],
    options: Options,
    order: Option<&[u8]>,
    errors: &mut Page,
) -> Result<Option<Shown>, Fault>
    ensures shown { IfOk result (λ found. IfSome found (λ shown. ShowsIn named options (option_copied order.entry) script.now shown.end (string_bytes shown.text))) }
    ensures none { IfOk result (λ found. IsNone found → EndsBeforeIn options (option_copied order.entry) script.now) }
    ensures refused { IfErr result (λ fault. RefusesShow script.now (option_copied order.entry) fault) }
{
    let input = match input_onto(alloc, script, errors) {
        Ok(input) => input,
        Err(fault) => return Err(fault),
    };
    match show_script(
        alloc,
        names_shown(named, &input),
        &input.script,
        options,
        order,
    ) {
        Ok(found) => Ok(found),
        Err(fault) => {
            say_unmade(alloc, errors, script, &input, fault);
            Err(fault)
        }
    }
}

// Shows the run of a script on an empty page; why it isn't shown goes to the other page.
fn shown_onto(
    alloc: Global,
    named: bool,
    script: &[u8],
    options: Options,
    order: Option<&[u8]>,
    page: &mut Page,
    errors: &mut Page,
) -> Result<Showing, Fault>
    requires { page.old.text.items ≡ [] }
    ensures { Displays named options (option_copied order.entry) script.now result page.new.text.items }
{
    let Shown { text, end } = match shown_of(alloc, named, script, options, order, errors) {
        Ok(Some(shown)) => shown,
        Ok(None) => {
            say_whole(alloc, errors, PAST);
            return Ok(Showing::Past);
        }
        Err(fault) => return Err(fault),
    };
    match extend_from_slice(&mut page.text, text.as_bytes()) {
        Ok(()) => Ok(Showing::Shown(end)),
        Err(refused) => {
            say_memory(errors);
            Err(Fault::Memory(refused))
        }
    }
}

// Shows the run of a script on an empty page, or says there why it isn't shown.
fn show_asked(
    alloc: Global,
    named: bool,
    script: &[u8],
    options: Options,
    order: Option<&[u8]>,
    page: &mut Page,
) -> Result<Showing, Fault>
    requires { page.old.text.items ≡ [] }
    ensures { Displays named options (option_copied order.entry) script.now result page.new.text.items }
{
    let mut errors = blank(alloc);
    let outcome = shown_onto(alloc, named, script, options, order, page, &mut errors);
    if let Ok(Showing::Shown(end)) = outcome {
        return Ok(Showing::Shown(end));
    }
    *page = errors;
    outcome
}

// Says on a page why the arguments, with these words if they are UTF-8, ask for no run.
fn misused(alloc: Global, words: Option<&[String]>, page: &mut Page) -> Result<Showing, Fault>
    ensures { result ≡ Ok Showing.Misused }
{
    say_misused(alloc, page, words);
    Ok(Showing::Misused)
}

// Says on a page that there was no memory for the arguments.
fn unread(page: &mut Page, refused: OutOfMemory) -> Result<Showing, Fault>
    ensures { result ≡ Err no_memory }
{
    say_memory(page);
    Err(Fault::Memory(refused))
}

// Runs a script and shows the run on an empty page as the words ask for it, or says there why it isn't shown.
fn show_words(
    alloc: Global,
    named: bool,
    script: &[u8],
    words: &[String],
    page: &mut Page,
) -> Result<Showing, Fault>
    requires { page.old.text.items ≡ [] }
    ensures shows { (options : Options) → AreOptions (map string_bytes words.now) options → Displays named options None script.now result page.new.text.items }
    ensures along { (options : Options) (order : List ℕ) → AreAlong (map string_bytes words.now) options order → Displays named options (Some order) script.now result page.new.text.items }
    ensures misused { AskNothing (map string_bytes words.now) → (result ≡ Ok Showing.Misused) ⊎ (result ≡ Err no_memory) }
{
    if let Some(options) = options_of(words) {
        return show_asked(alloc, named, script, options, None, page);
    }
    match along_of(alloc, words) {
        Ok(Some(along)) => {
            show_asked(
                alloc,
                named,
                script,
                along.options,
                Some(along.order.as_slice()),
                page,
            )
        }
        Ok(None) => misused(alloc, Some(words), page),
        Err(refused) => unread(page, refused),
    }
}

// Runs a script and shows the run on an empty page as the arguments ask for it, or says there why it isn't shown.
fn show_onto(
    alloc: Global,
    script: &[u8],
    arguments: &[u8],
    page: &mut Page,
) -> Result<Showing, Fault>
    requires { page.old.text.items ≡ [] }
    ensures shows { IsUtf8 arguments.now → (options : Options) → AreOptions (words_asked arguments.now) options → Displays (in_names arguments.now) options None script.now result page.new.text.items }
    ensures along { IsUtf8 arguments.now → (options : Options) (order : List ℕ) → AreAlong (words_asked arguments.now) options order → Displays (in_names arguments.now) options (Some order) script.now result page.new.text.items }
    ensures misused { AskForNoRun arguments.now → (result ≡ Ok Showing.Misused) ⊎ (result ≡ Err no_memory) }
{
    match words_read(alloc, arguments) {
        Ok(Some(words)) => {
            let named = asks_names(&words);
            let words = without_names(words);
            show_words(alloc, named, script, &words, page)
        }
        Ok(None) => misused(alloc, None, page),
        Err(refused) => unread(page, refused),
    }
}

// The status of a script that was to be shown.
fn status_of(outcome: &Result<Showing, Fault>) -> u32
    ensures { result ≡ status_of_show outcome.now }
{
    match *outcome {
        Ok(Showing::Shown(end)) => status_of_end(end),
        Ok(Showing::Past) | Ok(Showing::Misused) => 1,
        Err(fault) => status_of_fault(fault),
    }
}

/// Runs a script in either form on this thread, in rounds or along an order, and shows the run as `show_script` of lwkt_show does with
/// what the arguments are, and puts the text into the buffer, or in words why there is none. The arguments are words with one blank
/// between each two, as `turns --svg` or `turns --order 0110 --svg`. A text is shown in its names if `--names` stands behind `turns`, and
/// else in numbers, as JSON is.
///
/// The status: 0 where every thread had ended, 2 where the turns were used up or the order was done, 4 where the run was unlawful; 1
/// with the fault 33, 39 or 40 for a script or an opening that was refused, with the fault 30 where the order names a processor that
/// the script doesn't have, and with no fault for other arguments, or where the run ended before the first turn that they choose; 3
/// with the fault 32 for want of memory.
#[unsafe(no_mangle)]
pub extern "C" fn lwkt_show_turns(
    alloc: Global,
    script: &[u8],
    arguments: &[u8],
    buffer: &mut [u8],
    answer: &mut LwktAnswer,
) -> u32
    ensures { AnswersShow script.now arguments.now buffer.old buffer.new answer.new result }
{
    let mut page = blank(alloc);
    let outcome = show_onto(alloc, script, arguments, &mut page);
    fill(buffer, &page.text);
    *answer = LwktAnswer::new(page.text.len(), outcome.err());
    status_of(&outcome)
}
