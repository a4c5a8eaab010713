//! What the check of a run came to.
ghost use Rattle.std.specs.Prelude.{◌≡◌, ◌++◌, OnOk, string_bytes};
ghost use Rattle.lwkt_told.specs.Told.{verdict_told};

use lwkt_base::OutOfMemory;
use lwkt_base::memory::{push_str, put};
use lwkt_report::Verdict;

/// Appends what the check of a run came to.
pub(crate) fn show_verdict(verdict: Verdict, out: &mut String) -> Result<(), OutOfMemory>
    ensures { OnOk result (string_bytes out.new ≡ string_bytes out.old ++ verdict_told verdict) }
{
    match verdict {
        Verdict::Closed => push_str(
            out,
            "the run is closed: the sections of each token make one chain\n",
        ),
        Verdict::Lawful => push_str(out, "the run is lawful: checked against the model\n"),
        Verdict::Unlawful { index } => put(
            out,
            (
                "the run is unlawful at ",
                index,
                ": not a run of the model\n",
            ),
        ),
    }
}
