//! A run of a script that a check follows to its end, or up to the turn that it says no to.
ghost use Rattle.std.specs.Prelude.{◌≡◌, ◌⊎◌, ◌↔◌, IsTrue, false, IfOk, IfErr, IfSome, OnOk};
ghost use Rattle.lwkt_core.specs.Opening.{AreWithin, AllOpenLawfully};
ghost use Rattle.lwkt_machine.specs.Scripts.{AreFew, IsOpenedScript};
ghost use Rattle.lwkt_verdict.specs.Follow.{Follow, Begins};
ghost use Rattle.lwkt_run.specs.Checked.{FollowsCourse, EndsSo, DeclinesSo, LeavesChecked};
ghost use Rattle.lwkt_run.specs.Driving.{IsCourseOf, HasTurns, driver_state};
ghost use Rattle.lwkt_run.specs.Keeping.{no_story};
ghost use Rattle.lwkt_run.specs.Run.{opening_of_script, DeclinesRun};

use crate::endings::{Left, Remains, left_by};
use crate::keepers::Keeper;
use crate::rounds::{Course, drive};
use lwkt_base::{Fault, OutOfMemory};
use lwkt_core::{Event, State};
use lwkt_machine::{CloseRoom, Machine, ScriptBody};
use lwkt_report::Verdict;
use lwkt_script::Script;
use lwkt_verdict::Follower;
use std::alloc::Global;

/// What a run left that was checked, the events of its stop, what was kept of its turns, and the verdict.
#[derive(Drop)]
pub struct Checked<K: Keeper> {
    /// The closing values, and the lines of the threads.
    pub left: Left,
    /// The events of the stop.
    pub stops: Vec<Event>,
    /// What was kept of the turns.
    pub keeper: K,
    /// What the check says of the run.
    pub verdict: Verdict,
}

// The opening state of a script.
fn opened(alloc: Global, script: &Script) -> Result<State, Fault>
    requires few { AreFew script.now.cpus script.now.threads }
    ensures ok { IfOk result (λ state. state ≡ opening_of_script script.now) }
    ensures within { OnOk result (AreWithin script.now.cpus script.now.tokens script.now.messages) }
    ensures lawful { OnOk result (AllOpenLawfully script.now.tokens) }
    ensures refused { IfErr result (λ fault. DeclinesRun script.now fault) }
{
    State::open(
        alloc,
        script.tokens.as_slice(),
        script.messages.as_slice(),
        usize::from(script.cpus),
    )
}

// A check of a run of a script from this opening on.
fn follower_of(alloc: Global, script: &Script, opening: State) -> Result<Follower<'_>, OutOfMemory>
    ensures begins { IfOk result (λ f. Begins script.now.threads opening f) }
{
    Follower::new(alloc, script.threads.as_slice(), opening)
}

// Whether the check followed all turns of a course, and these are some, if they are rounds.
fn is_followed(fits: bool, course: Course<'_>) -> bool
    ensures { IsTrue result ↔ (IsTrue fits × HasTurns course.entry) }
{
    fits && course.has_turns()
}

// Whether the check of a run says that the run ends so: with these events of the stop, and with what is left.
fn ends_so(follower: Follower<'_>, left: &Left, stops: &[Event]) -> bool
    ensures ends { IsTrue result → EndsSo follower.entry left.now stops.now }
    ensures declines { result ≡ false → DeclinesSo follower.entry left.now stops.now }
{
    match follower.ends(&left.threads, stops) {
        Some(state) => state.closes(&left.last),
        None => false,
    }
}

// The verdict on a run, by whether the check followed its turns, whose events are so many, and by what is left.
fn verdict_of(
    follows: bool,
    events: usize,
    follower: Follower<'_>,
    left: &Left,
    stops: &[Event],
) -> Verdict
    ensures { ((result ≡ Verdict.Lawful) × (IsTrue follows × EndsSo follower.entry left.now stops.now)) ⊎ ((result ≡ Verdict.Unlawful events) × ((follows ≡ false) ⊎ DeclinesSo follower.entry left.now stops.now)) }
{
    if follows && ends_so(follower, left, stops) {
        Verdict::Lawful
    } else {
        Verdict::Unlawful { index: events }
    }
}

// What a check made of the turns of a run, and the room in which the run's machine closes.
#[derive(Drop)]
struct Followed<'p> {
    follower: Follower<'p>,
    // Whether it followed them all.
    fits: bool,
    // How many events the turns have that it followed.
    events: usize,
    close_room: CloseRoom<ScriptBody>,
}

// Makes the turns of a course on a machine of the script that was just opened. The keeper takes each turn, and a new check follows them.
fn follow<'p, K: Keeper>(
    alloc: Global,
    script: &'p Script,
    course: Course<'_>,
    machine: &mut Machine<ScriptBody>,
    keeper: &mut K,
) -> Result<Followed<'p>, Fault>
    requires course { IsCourseOf script.now course }
    requires opens { IsOpenedScript script.now machine.old }
    requires within { AreWithin script.now.cpus script.now.tokens script.now.messages }
    requires few { AreFew script.now.cpus script.now.threads }
    ensures follows { IfOk result (λ f. (begun : Follow) × FollowsCourse course.entry script.now (driver_state machine.old (K.kept keeper.old) 0 begun) (driver_state machine.new (K.kept keeper.new) f.events f.follower) f.fits f.close_room) }
    ensures refused { IfErr result (λ fault. DeclinesRun script.now fault) }
{
    let close_room = machine.room(alloc)?;
    let opening = opened(alloc, script)?;
    let mut follower = follower_of(alloc, script, opening)?;
    let mut room = Vec::new(alloc);
    let mut events = 0;
    let fits = drive(
        machine,
        course,
        &mut room,
        &mut follower,
        keeper,
        &mut events,
    )?;
    Ok(Followed {
        follower,
        fits,
        events,
        close_room,
    })
}

/// Runs a script along a course, which is one of it, and checks the run while it is made. The keeper, which has kept nothing yet, takes
/// each turn. If the check says no, the machine is stopped and closed where it stands then.
///
/// Refused with `Limits` or `LawBroken` for the script's opening, and with `Memory` if memory is refused.
pub fn checked_run<K: Keeper + Drop>(
    alloc: Global,
    script: &Script,
    course: Course<'_>,
    keeper: K,
) -> Result<Checked<K>, Fault>
    requires course { IsCourseOf script.now course }
    requires fresh { IfSome (K.kept keeper) (λ story. story ≡ no_story) }
    ensures leaves { IfOk result (λ run. LeavesChecked course.entry script.now (K.kept run.keeper) run.left run.stops.items run.verdict) }
    ensures refused { IfErr result (λ fault. DeclinesRun script.now fault) }
{
    let mut keeper = keeper;
    let mut machine = Machine::open_script(alloc, script)?;
    let followed = follow(alloc, script, course, &mut machine, &mut keeper)?;
    let Followed {
        follower,
        fits,
        events,
        close_room,
    } = followed;
    let Remains { left, stops, .. } = left_by(alloc, script, machine, close_room)?;
    let follows = is_followed(fits, course);
    let verdict = verdict_of(follows, events, follower, &left, stops.as_slice());
    Ok(Checked {
        left,
        stops,
        keeper,
        verdict,
    })
}
