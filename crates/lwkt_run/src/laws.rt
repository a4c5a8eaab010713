//! Laws of runs.
ghost use Rattle.lwkt_run.specs.Arriving.{NotesArrive};
ghost use Rattle.lwkt_run.specs.Joining.{RunsJoin};
ghost use Rattle.lwkt_run.specs.Orders.{RoundsAreAnOrder};

/// The theorem that a run in rounds is the run along an order that goes round the processors.
pub fn rounds_are_an_order()
    ensures { RoundsAreAnOrder }
{}

/// The theorem that events on tokens change only tokens and those on messages only messages: a run of the tokens alone and one of the
/// messages alone are, in whatever order between the two, one run of the whole machine.
pub fn runs_join()
    ensures { RunsJoin }
{}

/// The theorem that what a processor has put into the queue of its lane to one, another or itself, is received in each turn that
/// its target makes before the sender has made one again, in order, unless a note is kept that found its port's queue full, or the
/// turn took in its 16 notes. In rounds that is the target's next turn.
pub fn notes_arrive()
    ensures { NotesArrive }
{}
