ghost use Rattle.lwkt_core.specs.FreeTokens.{OpeningsAreFree, FreeTokensCanBeTaken, OnlyMarksRefuseFreeTokens, MarksRefuseLoneReaders, TokensDeadlockAtMarksAlone, FreeWordsAreNotHeld, MarksStayUntilTaken, WornMarksStay, MarksMayBeLeft};

/// The theorem that nobody holds a token in an initial state.
pub fn openings_are_free()
    ensures { OpeningsAreFree }
{}

/// The theorem that where nobody holds a token, a processor can take a list whole, and then hold exactly it, exactly if the list's
/// tokens exist, it has at most 32 references, and none of its exclusive ones is to a token at the last generation.
pub fn free_tokens_can_be_taken()
    ensures { FreeTokensCanBeTaken }
{}

/// The theorem that where nobody holds a token, a processor that decides by the tokens' words takes such a list whole, unless a
/// word answers Marked, or Worn.
pub fn only_marks_refuse_free_tokens()
    ensures { OnlyMarksRefuseFreeTokens }
{}

/// The theorem that where nobody holds a token, a word answers a list Marked exactly if all its references are to one token, the
/// first of them shared, and that token is marked.
pub fn marks_refuse_lone_readers()
    ensures { MarksRefuseLoneReaders }
{}

/// The theorem that where nobody holds a token, threads that wait for their lists are in deadlock exactly if each is a lone reader at a
/// mark.
pub fn tokens_deadlock_at_marks_alone()
    ensures { TokensDeadlockAtMarksAlone }
{}

/// The theorem that the word of a token that nobody holds never answers Held.
pub fn free_words_are_not_held()
    ensures { FreeWordsAreNotHeld }
{}

/// The theorem that a mark stays in a run until somebody takes its token exclusively.
pub fn marks_stay_until_taken()
    ensures { MarksStayUntilTaken }
{}

/// The theorem that a mark of a token at its last generation stays in every run.
pub fn worn_marks_stay()
    ensures { WornMarksStay }
{}

/// The theorem that a run from an initial state leaves a token that nobody holds, and whose word answers a lone reader Marked.
pub fn marks_may_be_left()
    ensures { MarksMayBeLeft }
{}
