ghost use Rattle.lwkt_core.specs.RunSections.{RunsWriteChains, TracesWriteChains, RunsNameSections};
ghost use Rattle.lwkt_core.specs.Headline.{RunsAreCompatible, RunsKeepLaws, TalliesAreRaises, CountsAreEvents, MessagesGoRound, EachSendIsAnsweredOnce, AnswersAreOfTheirSend, SectionsAreChain, RowsStandBetweenSections, RecordsAreChain, RecordsStandBetweenSections, RecordsAreLastWritten};

/// The theorem that in every machine of a run from a safe one each token has one exclusive holder or only shared ones.
pub fn runs_are_compatible()
    ensures { RunsAreCompatible }
{}

/// The theorem that in every machine of a run from a safe one a token that no exclusive holder is writing keeps its declared
/// law, and the cell of a Tally token is the parameter plus what all processors have added.
pub fn runs_keep_laws()
    ensures { RunsKeepLaws }
{}

/// The theorem that what a processor has added to a Tally token grows in a run by what its writes raise the cell.
pub fn tallies_are_raises()
    ensures { TalliesAreRaises }
{}

/// The theorem that how often a message was sent, taken, dropped, replied to and reaped grows in a run by the run's events that
/// did so.
pub fn counts_are_events()
    ensures { CountsAreEvents }
{}

/// The theorem that in a run a send lies between any two takes or drops of a message, a take between any two replies to it, and
/// a reap or drop between any two sends of it.
pub fn messages_go_round()
    ensures { MessagesGoRound }
{}

/// The theorem that in a run a message is taken or dropped at most once from one send of it to the next, and replied to at most
/// once.
pub fn each_send_is_answered_once()
    ensures { EachSendIsAnsweredOnce }
{}

/// The theorem that in a run a message is taken in the round of its last send, by the processor that it was sent to, which also
/// replies.
pub fn answers_are_of_their_send()
    ensures { AnswersAreOfTheirSend }
{}

/// The theorem that the written sections of a token in a run are a chain: each is of the next generation and begins with the
/// row that the last one left, and leaves another row or another record, and lawful ones.
pub fn sections_are_chain()
    ensures { SectionsAreChain }
{}

/// The theorem that the row that a written section left stands until the next one, where nobody holds the token exclusively.
pub fn rows_stand_between_sections()
    ensures { RowsStandBetweenSections }
{}

/// The theorem that the records of the written sections of a token in a run are a chain: each begins with the record that the
/// last one left.
pub fn records_are_chain()
    ensures { RecordsAreChain }
{}

/// The theorem that the record that a written section left stands until the next one, where nobody holds the token exclusively.
pub fn records_stand_between_sections()
    ensures { RecordsStandBetweenSections }
{}

/// The theorem that the record of a token is the one last written in a run, and each written section leaves the one last
/// written before its end.
pub fn records_are_last_written()
    ensures { RecordsAreLastWritten }
{}

/// The theorem that the written sections of a run pass the checker of sections: put by token and in order, they are chains from
/// the rows and generations at its beginning to those at its end, where nobody holds a token exclusively at either.
pub fn runs_write_chains()
    ensures { RunsWriteChains }
{}

/// The theorem that the written sections of a lawful trace pass the checker of sections, up to the closing rows and
/// generations.
pub fn traces_write_chains()
    ensures { TracesWriteChains }
{}

/// The theorem that the sections which the written gives of a run name are, token by token, its written sections.
pub fn runs_name_sections()
    ensures { RunsNameSections }
{}
