ghost use Rattle.std.specs.Prelude.{◌≡◌, ◌++◌, OnOk, string_bytes};
ghost use Rattle.lwkt_report.specs.Report.{spaced, spaced_or_dash};

use crate::shown::Shown;
use lwkt_base::OutOfMemory;
use lwkt_base::memory::push_str;

/// Appends the parts, each after a space.
pub(crate) fn show_spaced<S: Shown>(parts: &[S], out: &mut String) -> Result<(), OutOfMemory>
    ensures { OnOk result (string_bytes out.new ≡ string_bytes out.old ++ spaced S.text parts.now) }
{
    for part in parts {
        push_str(out, " ")?;
        part.show(out)?;
    }
    Ok(())
}

/// Appends the parts, each after a space, or a `-` after a space where there is no part.
pub(crate) fn show_listed<S: Shown>(parts: &[S], out: &mut String) -> Result<(), OutOfMemory>
    ensures { OnOk result (string_bytes out.new ≡ string_bytes out.old ++ spaced_or_dash S.text parts.now) }
{
    if parts.is_empty() {
        push_str(out, " -")
    } else {
        show_spaced(parts, out)
    }
}
