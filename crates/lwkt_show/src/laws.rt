//! What the lines are for. The functions do nothing: their contracts are the theorems.
ghost use Rattle.lwkt_show.specs.Apart.{LinesDecideTurns, TextsDecideAsks};

/// The theorem that two turns that have the same line have the same number, round and processor, and no poll, or polls of one
/// thread whose asks are the same step of a script: so different turns of a run have different lines.
pub fn lines_decide_turns()
    ensures { LinesDecideTurns }
{}

/// The theorem that two asks that are the same step of a script are the same ask, but for writes of records.
pub fn texts_decide_asks()
    ensures { TextsDecideAsks }
{}
