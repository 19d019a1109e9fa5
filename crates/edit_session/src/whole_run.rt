//! A whole run.

ghost use Rattle.std.specs.Prelude.{◌≡◌, ◌↔◌, ℕ, List, map, string_bytes};
ghost use Rattle.edit_session.specs.Words.{IsEdit, IsCheck, IsExport, IsNoForm};
ghost use Rattle.edit_session.specs.Devices.{told_of, counts_of};
ghost use Rattle.edit_session.specs.EditRun.{EditRun};
ghost use Rattle.edit_session.specs.CheckRun.{CheckRun};
ghost use Rattle.edit_session.specs.ExportRun.{ExportRun};

use crate::check_run::run_check;
use crate::edit_run::run_edit;
use crate::export_run::run_export;
use crate::status::Status;
use crate::words::{read_check, read_edit, read_export};
use outside_io::{Sink, Source, Vault};
use std::alloc::Global;

/// A whole run. The words after the program's name are of one of these forms.
///
/// - `edit MAP OUT`: the map is fetched from the vault and opened, its notes are given, each line of the script is answered
///   as soon as it is whole, and the last map is kept under OUT.
/// - `check MAP`: the map is fetched and opened, and its notes and its summary are given.
/// - `export MAP OUT`: the map is fetched and opened, its notes are given, it is kept under OUT as a Wavefront OBJ text, and
///   the summary of the text is given.
///
/// Of a map that is refused the one line of the refusal is given. The status tells how the run ended; every one but `Ended`
/// keeps nothing, except that `export` has kept OUT where its summary couldn't be given. `Usage` comes exactly where the words are of no form, and leaves everything.
///
/// The map and the script have at most `LIMIT` bytes each. The script is taken at most 4,096 bytes at a time, and of a longer
/// one a single byte more than `LIMIT` is taken. An answer is given whole before the next line is read. A line for which
/// memory is wanting is answered `memory`, and changes nothing.
pub fn run<V: Vault, C: Source, R: Sink>(
    alloc: Global,
    words: &[String],
    vault: &mut V,
    script: &mut C,
    replies: &mut R,
) -> Status
    ensures usage { (result ≡ Status.Usage) ↔ IsNoForm (map string_bytes words.now) }
    ensures untouched { result ≡ Status.Usage →
        (vault.new ≡ vault.old) × (script.new ≡ script.old) × (replies.new ≡ replies.old) }
    ensures edit { (name out : List ℕ) → IsEdit (map string_bytes words.now) name out →
        EditRun name out result (V.texts vault.old)
        (told_of (C.left script.old) (R.given replies.old) (V.kept vault.old))
        (told_of (C.left script.new) (R.given replies.new) (V.kept vault.new))
        (counts_of (V.fetch_faults vault.old) (V.keep_faults vault.old)
        (C.faults script.old) (R.faults replies.old))
        (counts_of (V.fetch_faults vault.new) (V.keep_faults vault.new)
        (C.faults script.new) (R.faults replies.new)) }
    ensures check { (name : List ℕ) → IsCheck (map string_bytes words.now) name →
        CheckRun name result (V.texts vault.old)
        (told_of (C.left script.old) (R.given replies.old) (V.kept vault.old))
        (told_of (C.left script.new) (R.given replies.new) (V.kept vault.new))
        (counts_of (V.fetch_faults vault.old) (V.keep_faults vault.old)
        (C.faults script.old) (R.faults replies.old))
        (counts_of (V.fetch_faults vault.new) (V.keep_faults vault.new)
        (C.faults script.new) (R.faults replies.new)) }
    ensures export { (name out : List ℕ) → IsExport (map string_bytes words.now) name out →
        ExportRun name out result (V.texts vault.old)
        (told_of (C.left script.old) (R.given replies.old) (V.kept vault.old))
        (told_of (C.left script.new) (R.given replies.new) (V.kept vault.new))
        (counts_of (V.fetch_faults vault.old) (V.keep_faults vault.old)
        (C.faults script.old) (R.faults replies.old))
        (counts_of (V.fetch_faults vault.new) (V.keep_faults vault.new)
        (C.faults script.new) (R.faults replies.new)) }
{
    if let Some(edit) = read_edit(words) {
        return run_edit(alloc, edit.map, edit.out, vault, script, replies);
    }
    if let Some(map) = read_check(words) {
        return run_check(alloc, map, vault, replies);
    }
    if let Some(export) = read_export(words) {
        return run_export(alloc, export.map, export.out, vault, replies);
    }
    Status::Usage
}
