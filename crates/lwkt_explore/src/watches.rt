//! Who looks on at a search.
use lwkt_base::OutOfMemory;
use lwkt_run::TurnsRun;
use lwkt_script::Script;
use lwkt_search::Seen;
use std::alloc::Global;

/// Who looks on at a search, and knows the words for why a run is stuck.
pub trait Watch {
    /// Whether the search goes on. It asks before each random order, and before it goes on from a state, and ends at the first no.
    fn goes_on(&mut self, seen: Seen) -> bool;

    /// Of a stuck run what each thread that hasn't ended waits for, in one line without its end.
    ///
    /// Refused if memory is.
    fn why(alloc: Global, script: &Script, run: &TurnsRun) -> Result<String, OutOfMemory>;
}
