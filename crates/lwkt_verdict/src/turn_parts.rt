ghost use Rattle.std.specs.Prelude.{◌≡◌, ◌↔◌, All, IsTrue, Bool, true, false, Option, None};
ghost use Rattle.lwkt_core.specs.Events.{cpu_of};
ghost use Rattle.lwkt_core.specs.Machine.{Needs, after};
ghost use Rattle.lwkt_verdict.specs.Asks.{makes_event};
ghost use Rattle.lwkt_verdict.specs.Owns.{IsQuiet, has_blocked};
ghost use Rattle.lwkt_verdict.specs.declared.expected.Expected.TheVariants.{Refusal};
ghost use Rattle.lwkt_verdict.specs.TurnParts.{after_all, GoesQuietly, GoesFrom, IsPartOf};
ghost use Rattle.lwkt_base.specs.declared.asks.Answer.{Answer};
ghost use Rattle.lwkt_verdict.specs.Follow.{is_expected};
ghost use Rattle.lwkt_verdict.specs.Followed.{expected_by, expected_without};

use crate::asks::makes_event;
use crate::expected::Expected;
use crate::owns::{is_own, is_quiet, own_place};
use lwkt_base::Ask;
use lwkt_core::{Event, State};

/// Whether each event of a part is of this processor.
pub fn are_of(cpu: usize, part: &[Event]) -> bool
    ensures { IsTrue result ↔ All (λ e. cpu_of e ≡ cpu) part.now }
{
    part.iter().all(|event| usize::from(event.cpu().0) == cpu)
}

// Makes an event happen, if it can and may happen unasked.
fn goes_quietly_by_one(state: &mut State, event: &Event) -> bool
    ensures right { IsTrue result ↔ (Needs state.old event.now × IsQuiet state.old event.now) }
    ensures moved { IsTrue result → state.new ≡ after state.old event.now }
{
    is_quiet(state, event) && state.step(event).is_ok()
}

// Makes events happen, if they can and each may happen unasked.
fn go_quietly(state: &mut State, events: &[Event]) -> bool
    ensures right { IsTrue result ↔ GoesQuietly state.old events.now }
    ensures moved { IsTrue result → state.new ≡ after_all state.old events.now }
{
    for event in events {
        if !goes_quietly_by_one(state, event) {
            return false;
        }
    }
    true
}

/// Makes events happen, if they can and each may happen unasked. Most often there are none.
#[inline(always)]
pub fn goes_quietly(state: &mut State, events: &[Event]) -> bool
    ensures right { IsTrue result ↔ GoesQuietly state.old events.now }
    ensures moved { IsTrue result → state.new ≡ after_all state.old events.now }
{
    events.is_empty() || go_quietly(state, events)
}

// Which answers an ask can have that made this event, by whether that may have happened unasked.
#[inline(always)]
fn note_event(expected: &mut Expected, unasked: bool, event: &Event)
    ensures { expected.new ≡ expected_by unasked event.now }
{
    match event {
        Event::Read { value, .. } => *expected = Expected::Value(*value),
        Event::ReadBlob { blob, .. } => *expected = Expected::Bytes(*blob),
        _ if unasked => *expected = Expected::Any,
        _ => *expected = Expected::NoRefusal,
    }
}

// Which answers an ask can have whose event isn't there.
#[inline(always)]
fn note_none(expected: &mut Expected, ask: &Ask)
    ensures { expected.new ≡ expected_without ask.now }
{
    if makes_event(ask) {
        *expected = Expected::Refusal;
    } else {
        *expected = Expected::Any;
    }
}

// Makes an ask's own event happen, if it can, and then what may happen unasked. If so, notes which answers the ask can have.
fn goes_by_own(state: &mut State, event: &Event, rest: &[Event], expected: &mut Expected) -> bool
    ensures noted { IsTrue result → (unasked : Bool) × ((IsTrue unasked ↔ IsQuiet state.old event.now) × (expected.new ≡ expected_by unasked event.now)) }
    ensures right { IsTrue result ↔ (Needs state.old event.now × GoesQuietly (after state.old event.now) rest.now) }
    ensures moved { IsTrue result → state.new ≡ after_all (after state.old event.now) rest.now }
{
    let unasked = is_quiet(state, event);
    if state.step(event).is_ok() && goes_quietly(state, rest) {
        note_event(expected, unasked, event);
        true
    } else {
        false
    }
}

// Makes the events happen, if they can, where the ask's own event isn't among them. If so, notes which answers the ask can have.
fn goes_without_own(state: &mut State, ask: &Ask, events: &[Event], expected: &mut Expected) -> bool
    ensures noted { IsTrue result → expected.new ≡ expected_without ask.now }
    ensures right { IsTrue result ↔ GoesQuietly state.old events.now }
    ensures moved { IsTrue result → state.new ≡ after_all state.old events.now }
{
    if goes_quietly(state, events) {
        note_none(expected, ask);
        true
    } else {
        false
    }
}

// Makes the events happen, if they can, from the place of an ask's own event on. If so, notes which answers the ask can have.
fn goes_from(state: &mut State, ask: &Ask, events: &[Event], expected: &mut Expected) -> bool
    ensures right { IsTrue result ↔ GoesFrom state.old ask.now None events.now }
    ensures makes { IsTrue result → (answer : Option Answer) → is_expected expected.new answer ≡ true → GoesFrom state.old ask.now answer events.now }
    ensures expects { IsTrue result → (answer : Option Answer) → GoesFrom state.old ask.now answer events.now → is_expected expected.new answer ≡ true }
    ensures unmade { IsTrue result → expected.new ≡ Refusal → (makes_event ask.now ≡ true) × GoesQuietly state.old events.now }
    ensures moved { IsTrue result → state.new ≡ after_all state.old events.now }
{
    match events {
        [] => goes_without_own(state, ask, events, expected),
        [event, rest @ ..] => {
            if makes_event(ask) && is_own(state, ask, event) {
                goes_by_own(state, event, rest, expected)
            } else {
                goes_without_own(state, ask, events, expected)
            }
        }
    }
}

/// Makes the events of a part happen, if they can and are what a turn that polled a thread with this ask can have made, whose answer isn't
/// known yet. If so, notes which answers it can have.
pub fn goes_by_ask(state: &mut State, ask: &Ask, part: &[Event], expected: &mut Expected) -> bool
    ensures right { IsTrue result ↔ IsPartOf state.old ask.now None part.now }
    ensures makes { IsTrue result → (answer : Option Answer) → is_expected expected.new answer ≡ true → IsPartOf state.old ask.now answer part.now }
    ensures expects { IsTrue result → (answer : Option Answer) → IsPartOf state.old ask.now answer part.now → is_expected expected.new answer ≡ true }
    ensures unblocked { IsTrue result → expected.new ≡ Refusal → has_blocked ask.now part.now ≡ false }
    ensures moved { IsTrue result → state.new ≡ after_all state.old part.now }
{
    let place = own_place(ask, part);
    goes_quietly(state, &part[..place]) && goes_from(state, ask, &part[place..], expected)
}
