//! A law on the definitions alone. The function is empty: it states as its `ensures` a law that is proved.

ghost use Rattle.map_report.specs.Reports.{NoneSaysMemory};

/// No note, no refusal of a map and no summary is the line `memory`, or begins with it.
pub fn report_law()
    ensures { NoneSaysMemory }
{}
