ghost use Rattle.std.specs.Prelude.{◌≡◌, ℕ, take, OnOk, IfErr};
ghost use Rattle.lwkt_core.specs.Machine.{Machine};
ghost use Rattle.lwkt_core.specs.Trace.{Run, Closes, CanHappen, IsLawfulTrace, StopsAt, FailsAt, StopRefutes, FailureRefutes, FailureIsOnly};

use crate::events::Event;
use crate::finals::Final;
use crate::states::State;
use lwkt_base::Fault;

/// Makes the events happen one after another.
///
/// Refused with the index of the first that can't happen; the state is then the one before it.
pub fn play(state: &mut State, events: &[Event]) -> Result<(), usize>
    ensures played { OnOk result (Run state.old events.now state.new) }
    ensures stopped { IfErr result (λ index. StopsAt state.old events.now index state.new) }
{
    for (i, event) in events.iter().enumerate() {
        match state.step(event) {
            Ok(()) => {}
            Err(_) => return Err(i),
        }
    }
    Ok(())
}

/// Makes the events happen one after another, and looks whether the state that they lead to closes with these values.
///
/// Refused with the index of the first event that can't happen, or with the number of events if only the close differs: a
/// token still held, or other values. The state is then the one before that event, or the one at the end.
pub fn play_to_close(state: &mut State, events: &[Event], last: &Final) -> Result<(), usize>
    ensures lawful { OnOk result (IsLawfulTrace state.old events.now last.now) }
    ensures failed { IfErr result (λ index. FailsAt state.old events.now last.now index) }
    ensures closed { OnOk result (Run state.old events.now state.new × Closes state.new last.now) }
    ensures left { IfErr result (λ index. Run state.old (take index events.now) state.new) }
{
    match play(state, events) {
        Ok(()) => {}
        Err(index) => return Err(index),
    }
    if !state.closes(last) {
        return Err(events.len());
    }
    Ok(())
}

/// Whether the events are a lawful trace from the opening to the closing values.
///
/// If not, `Unlawful` with the index of the first event that can't happen, or with the number of events if only the
/// close differs: a token still held, or other values.
pub fn check(opening: State, events: &[Event], last: &Final) -> Result<(), Fault>
    ensures lawful { OnOk result (IsLawfulTrace opening events.now last.now) }
    ensures refused { IfErr result (λ f. (index : ℕ) × ((f ≡ Fault.Unlawful index) × FailsAt opening events.now last.now index)) }
{
    let mut state = opening;
    match play_to_close(&mut state, events, last) {
        Ok(()) => Ok(()),
        Err(index) => Err(Fault::Unlawful { index }),
    }
}

/// Whether the events can happen one after another from the opening, whatever the closing values.
///
/// If not, `Unlawful` with the index of the first that can't.
pub fn check_events(opening: State, events: &[Event]) -> Result<(), Fault>
    ensures can_happen { OnOk result (CanHappen opening events.now) }
    ensures refused { IfErr result (λ f. (index : ℕ) × ((f ≡ Fault.Unlawful index) × ((mid : Machine) × StopsAt opening events.now index mid))) }
{
    let mut state = opening;
    match play(&mut state, events) {
        Ok(()) => Ok(()),
        Err(index) => Err(Fault::Unlawful { index }),
    }
}

/// The theorem that an index at which a trace fails shows that it is not lawful.
pub fn failure_refutes()
    ensures { FailureRefutes }
{}

/// The theorem that a trace fails at one index only.
pub fn failure_is_only()
    ensures { FailureIsOnly }
{}

/// The theorem that an index at which events stop shows that they can't all happen.
pub fn stop_refutes()
    ensures { StopRefutes }
{}
