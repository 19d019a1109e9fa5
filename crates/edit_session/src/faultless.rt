//! Laws of runs without faults.

ghost use Rattle.edit_session.specs.Completeness.{QuietRunsEnd, QuietRunsMeetNoFault, QuietChecksEnd, QuietChecksMeetNoFault, QuietExportsEnd, QuietExportsMeetNoFault};

/// Where no count of faults rises, and the vault tells bytes under the map's name, within the limit, that open as a map, a
/// run ends with `Ended`, or with `Memory`: over the words `edit MAP OUT` where the script is told and within the limit, and
/// over the words `check MAP` or `export MAP OUT`. For any other map and script it meets no fault: it never ends with `ReadFault` or
/// `WriteFault`. The call itself does nothing.
pub fn quiet_runs_end()
    ensures ends { QuietRunsEnd }
    ensures faultless { QuietRunsMeetNoFault }
    ensures checks_end { QuietChecksEnd }
    ensures checks_faultless { QuietChecksMeetNoFault }
    ensures exports_end { QuietExportsEnd }
    ensures exports_faultless { QuietExportsMeetNoFault }
{}
