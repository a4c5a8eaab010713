//! Laws of what is written of a search.
ghost use Rattle.lwkt_explore.specs.Laws.{OutcomesAreNumbered, OutcomesAreWrittenOnce};

/// The theorem that the outcomes, in the order in which `text_of` writes them, are those that were found, each once.
pub fn outcomes_are_written_once()
    ensures { OutcomesAreWrittenOnce }
{}

/// The theorem that the lines of each of them stand in the text, under the number of its place, counted from 1.
pub fn outcomes_are_numbered()
    ensures { OutcomesAreNumbered }
{}
