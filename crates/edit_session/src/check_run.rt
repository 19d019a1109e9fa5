//! A run over the words `check MAP`.

ghost use Rattle.std.specs.Prelude.{Option, List, ℕ};
ghost use Rattle.edit_session.specs.Devices.{told_of, counts_of};
ghost use Rattle.edit_session.specs.CheckRun.{CheckRun};

use crate::opening::open;
use crate::status::Status;
use crate::summing::sum_up;
use map_opening::{opens_for_all_law, opens_one_way_law, summary};
use outside_io::{Sink, Vault};
use std::alloc::Global;

/// Fetches and opens the map, and gives its notes and its summary. It has no script to take from, so its clause holds
/// whatever the script tells and counts.
pub(crate) fn run_check<V: Vault, R: Sink>(
    alloc: Global,
    map: &str,
    vault: &mut V,
    replies: &mut R,
) -> Status
    ensures { (left : Option (List ℕ)) (takes : ℕ) → CheckRun map.now result (V.texts vault.old)
        (told_of left (R.given replies.old) (V.kept vault.old))
        (told_of left (R.given replies.new) (V.kept vault.new))
        (counts_of (V.fetch_faults vault.old) (V.keep_faults vault.old)
        takes (R.faults replies.old))
        (counts_of (V.fetch_faults vault.new) (V.keep_faults vault.new)
        takes (R.faults replies.new)) }
{
    opens_for_all_law();
    opens_one_way_law();
    match open(alloc, map, vault, replies) {
        Ok(opened) => sum_up(summary(&opened), replies),
        Err(status) => status,
    }
}
