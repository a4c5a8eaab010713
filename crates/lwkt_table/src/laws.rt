ghost use Rattle.lwkt_table.specs.Sections.{PartsNameChains};

/// The theorem that the sections which the processors of a run name, each of what it did itself, put together, are chains from
/// the rows and generations at its beginning to those at its end, where nobody holds a token exclusively at either.
pub fn parts_name_chains()
    ensures { PartsNameChains }
{}
