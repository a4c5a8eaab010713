//! How the runs of calls on a hold go together, as theorems: a layer above puts its own calls' runs together by them.
ghost use Rattle.lwkt_hold.specs.Laws.{NothingRuns, RunsChain, RunsWiden, RoomIsNothing, FrontsAreHeld};

/// Runs go together: where nothing is done, one after another, within more fronts and a wider bound, and over a trace that
/// was given more room.
pub fn runs_go_together()
    ensures nothing { NothingRuns }
    ensures chain { RunsChain }
    ensures widen { RunsWiden }
    ensures room { RoomIsNothing }
{}

/// What a list holds is a front of it, and a front of its first few references is one of the whole list.
pub fn fronts_are_held()
    ensures { FrontsAreHeld }
{}
