ghost use Rattle.lwkt_core.specs.Safety.{OpeningsAreSafe, RunsStaySafe, HoldersAreCompatible, UnwrittenRowsAreLawful, SendsAreAnsweredOnce};

/// The theorem that a machine that was opened within the limits and lawfully is safe.
pub fn openings_are_safe()
    ensures { OpeningsAreSafe }
{}

/// The theorem that a safe machine stays safe, whatever events happen, in whatever order.
pub fn runs_stay_safe()
    ensures { RunsStaySafe }
{}

/// The theorem that a safe token has one exclusive holder or only shared ones.
pub fn holders_are_compatible()
    ensures { HoldersAreCompatible }
{}

/// The theorem that a safe token that no processor is writing keeps its declared law: row and record obey it, and the cell of a
/// Tally token is the parameter plus what all processors have added.
pub fn unwritten_rows_are_lawful()
    ensures { UnwrittenRowsAreLawful }
{}

/// The theorem that each send of a safe message is taken or dropped at most once, and replied to at most once.
pub fn sends_are_answered_once()
    ensures { SendsAreAnsweredOnce }
{}
