//! A run over the words `export MAP OUT`.

ghost use Rattle.std.specs.Prelude.{◌≡◌, ◌≤◌, Option, List, ℕ};
ghost use Rattle.outside_io.specs.Moved.{Rose};
ghost use Rattle.map_model.specs.Tree.{whole};
ghost use Rattle.obj_export.specs.Text.{obj_of};
ghost use Rattle.edit_session.specs.Tests.{Tests};
ghost use Rattle.edit_session.specs.Devices.{told_of, counts_of};
ghost use Rattle.edit_session.specs.ExportRun.{exported, Exports, ExportCause, KeptOnlyIf, ExportRun};

use crate::opening::open;
use crate::status::Status;
use crate::summing::sum_up;
use map_opening::{opens_for_all_law, opens_one_way_law};
use map_report::Summary;
use obj_export::{Obj, write_obj};
use outside_io::{Sink, Vault};
use std::alloc::Global;
use tree_node::Map;

// How much a text holds.
fn exported(obj: &Obj) -> Summary
    ensures { result ≡ exported obj.now }
{
    Summary::Exported {
        brushes: obj.brushes,
        vertices: obj.vertices,
        faces: obj.faces,
    }
}

// Keeps a text under the name, and gives its summary.
fn keep_text<V: Vault, R: Sink>(obj: &Obj, out: &str, vault: &mut V, replies: &mut R) -> Status
    ensures kept { Exports result out.now obj.now (R.given replies.old) (R.given replies.new)
        (V.kept vault.old) (V.kept vault.new) (Rose (R.faults replies.old) (R.faults replies.new)) }
    ensures unkept { KeptOnlyIf result (V.kept vault.old) (V.kept vault.new)
        (Rose (R.faults replies.old) (R.faults replies.new)) }
    ensures cause { ExportCause result (V.keep_faults vault.old) (V.keep_faults vault.new)
        (R.faults replies.old) (R.faults replies.new) }
    ensures fetches { V.fetch_faults vault.new ≡ V.fetch_faults vault.old }
    ensures keeps_later { V.keep_faults vault.old ≤ V.keep_faults vault.new }
    ensures gives_later { R.faults replies.old ≤ R.faults replies.new }
{
    match vault.keep(out, obj.text.bytes()) {
        Ok(()) => sum_up(exported(obj), replies),
        Err(_) => Status::WriteFault,
    }
}

// Writes the map as a text, keeps it under the name, and gives its summary.
fn export<V: Vault, R: Sink>(
    alloc: Global,
    map: &Map,
    out: &str,
    vault: &mut V,
    replies: &mut R,
) -> Status
    ensures says { (tests : Tests) → Exports result out.now (obj_of tests.below (whole map.now))
        (R.given replies.old) (R.given replies.new)
        (V.kept vault.old) (V.kept vault.new) (Rose (R.faults replies.old) (R.faults replies.new)) }
    ensures unkept { KeptOnlyIf result (V.kept vault.old) (V.kept vault.new)
        (Rose (R.faults replies.old) (R.faults replies.new)) }
    ensures cause { ExportCause result (V.keep_faults vault.old) (V.keep_faults vault.new)
        (R.faults replies.old) (R.faults replies.new) }
    ensures fetches { V.fetch_faults vault.new ≡ V.fetch_faults vault.old }
    ensures keeps_later { V.keep_faults vault.old ≤ V.keep_faults vault.new }
    ensures gives_later { R.faults replies.old ≤ R.faults replies.new }
{
    match write_obj(alloc, map) {
        Ok(obj) => keep_text(&obj, out, vault, replies),
        Err(_) => Status::Memory,
    }
}

/// Fetches and opens the map, gives its notes, keeps its text under the other name, and gives the summary. It has no script
/// to take from, so its clause holds whatever the script tells and counts.
pub(crate) fn run_export<V: Vault, R: Sink>(
    alloc: Global,
    map: &str,
    out: &str,
    vault: &mut V,
    replies: &mut R,
) -> Status
    ensures { (left : Option (List ℕ)) (takes : ℕ) → ExportRun map.now out.now result (V.texts vault.old)
        (told_of left (R.given replies.old) (V.kept vault.old))
        (told_of left (R.given replies.new) (V.kept vault.new))
        (counts_of (V.fetch_faults vault.old) (V.keep_faults vault.old)
        takes (R.faults replies.old))
        (counts_of (V.fetch_faults vault.new) (V.keep_faults vault.new)
        takes (R.faults replies.new)) }
{
    opens_for_all_law();
    opens_one_way_law();
    match open(alloc, map, vault, replies) {
        Ok(map) => export(alloc, &map, out, vault, replies),
        Err(status) => status,
    }
}
