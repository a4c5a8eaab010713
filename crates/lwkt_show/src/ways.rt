//! What a thread computed on its way to an ask, in words.
ghost use Rattle.std.specs.Prelude.{◌≡◌, take, slice_get};
ghost use Rattle.std.specs.Option.{option_copied};
ghost use Rattle.lwkt_refusals.specs.Pages.{GrowsBy};
ghost use Rattle.lwkt_show.specs.Computed.{decision_text, outcome_text, made_text, all_text, cut_text, way_text};

use crate::conditions::{show_condition, show_variable};
use crate::walks::{Made, Way};
use lwkt_base::ThreadId;
use lwkt_code::Step;
use lwkt_refusals::Page;
use lwkt_text::Names;

// How much of a way is shown.
const SHOWN: usize = 32;

// Appends the condition that the step at a place decides.
fn show_decision(out: &mut Page, names: Option<&Names>, id: ThreadId, steps: &[Step], at: usize)
    ensures { GrowsBy out.old out.new (decision_text (option_copied names.entry) id (slice_get steps.now at)) }
{
    match steps.get(at) {
        Some(Step::Unless(_, cond, _)) => show_condition(out, names, id, cond),
        Some(Step::Assert(cond, _)) => show_condition(out, names, id, cond),
        _ => out.add(""),
    }
}

// Whether a condition holds, in words.
fn outcome_words(holds: bool) -> &'static str
    ensures { result.now ≡ outcome_text holds }
{
    if holds { "? yes; " } else { "? no; " }
}

// Appends what a thread made by one of its steps.
fn show_made(out: &mut Page, names: Option<&Names>, id: ThreadId, steps: &[Step], made: &Made)
    ensures { GrowsBy out.old out.new (made_text (option_copied names.entry) id steps.now made.now) }
{
    match *made {
        Made::Assigned(v, n) => {
            show_variable(out, names, id, v);
            out.number(" = ", n);
            out.add("; ")
        }
        Made::Decided(at, holds) => {
            show_decision(out, names, id, steps, at);
            out.add(outcome_words(holds))
        }
    }
}

// Appends what a thread made by several of its steps.
fn show_all(out: &mut Page, names: Option<&Names>, id: ThreadId, steps: &[Step], made: &[Made])
    ensures { GrowsBy out.old out.new (all_text (option_copied names.entry) id steps.now made.now) }
{
    for one in made {
        show_made(out, names, id, steps, one);
    }
}

// What is shown of it.
fn front_of(made: &[Made]) -> &[Made]
    ensures { result.now ≡ take 32 made.now }
{
    if made.len() > SHOWN {
        &made[..SHOWN]
    } else {
        made
    }
}

// That more was made than is shown, in words.
fn cut_words(made: &[Made]) -> &'static str
    ensures { result.now ≡ cut_text made.now }
{
    if made.len() > SHOWN { "...; " } else { "" }
}

/// Appends what a thread computed on its way to an ask, in names if some are given, the first 32 of it: `v0 = 1; v0 = 0? no; `.
pub(crate) fn show_way(out: &mut Page, names: Option<&Names>, id: ThreadId, way: &Way)
    ensures { GrowsBy out.old out.new (way_text (option_copied names.entry) id way.now) }
{
    show_all(out, names, id, way.steps, front_of(way.made));
    out.add(cut_words(way.made))
}
