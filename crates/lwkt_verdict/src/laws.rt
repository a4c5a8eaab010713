ghost use Rattle.lwkt_verdict.specs.Laws.{NoTurnsAreNoRun, RunsBeginWithAnAsk, TracesOfRunsHappen, AsksAreThoseOfTheScript, AllButTheLastAreAnswered, NothingFollowsAnEnd, LogsAreTheFirstEntries};

/// The theorem that no turn at all is no run in rounds.
pub fn no_turns_are_no_run()
    ensures { NoTurnsAreNoRun }
{}

/// The theorem that no run begins with a turn without an ask, where the processor of that turn has a thread.
pub fn runs_begin_with_an_ask()
    ensures { RunsBeginWithAnAsk }
{}

/// The theorem that the events of a run's trace can happen one after another, from the opening on.
pub fn traces_of_runs_happen()
    ensures { TracesOfRunsHappen }
{}

/// The theorem that what a thread asks is what its program asks, by the answers that the thread was given.
pub fn asks_are_those_of_the_script()
    ensures { AsksAreThoseOfTheScript }
{}

/// The theorem that each ask of a thread but its last has its answer, and the last has none.
pub fn all_but_the_last_are_answered()
    ensures { AllButTheLastAreAnswered }
{}

/// The theorem that an ask that ends its thread is the last one that the thread makes.
pub fn nothing_follows_an_end()
    ensures { NothingFollowsAnEnd }
{}

/// The theorem that a thread's printed log is the first 32 entries that its asks and their answers make.
pub fn logs_are_the_first_entries()
    ensures { LogsAreTheFirstEntries }
{}
