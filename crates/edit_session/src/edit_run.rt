//! A run over the words `edit MAP OUT`.

ghost use Rattle.std.specs.Prelude.{◌≡◌, ◌≢◌, ◌≤◌};
ghost use Rattle.outside_io.specs.Moved.{Rose};
ghost use Rattle.map_model.specs.Tree.{whole};
ghost use Rattle.tree_session.specs.Sitting.{state_of};
ghost use Rattle.edit_session.specs.Tests.{Tests, state_text};
ghost use Rattle.edit_session.specs.Devices.{NoneFell, told_of, counts_of};
ghost use Rattle.edit_session.specs.Keeping.{Keeps, KeepCause, ServeCause};
ghost use Rattle.edit_session.specs.EditRun.{ServedSays, EditRun};

use crate::opening::open;
use crate::serve::serve_script;
use crate::status::Status;
use map_opening::{opens_for_all_law, opens_one_way_law};
use map_write::write_map;
use outside_io::{Sink, Source, Vault};
use std::alloc::Global;
use tree_file::to_doc;
use tree_node::Map;
use tree_session::Session;

// Keeps the session's map under the name.
fn keep_map<V: Vault>(alloc: Global, session: &Session, name: &str, vault: &mut V) -> Status
    ensures kept { Keeps result name.now (state_text (state_of session.now))
        (V.kept vault.old) (V.kept vault.new) }
    ensures cause { KeepCause result (V.keep_faults vault.old) (V.keep_faults vault.new) }
    ensures fetches { V.fetch_faults vault.new ≡ V.fetch_faults vault.old }
    ensures later { V.keep_faults vault.old ≤ V.keep_faults vault.new }
{
    let doc = match to_doc(alloc, session.map()) {
        Ok(doc) => doc,
        Err(_) => return Status::Memory,
    };
    let text = match write_map(alloc, &doc) {
        Ok(text) => text,
        Err(_) => return Status::Memory,
    };
    match vault.keep(name, text.as_slice()) {
        Ok(()) => Status::Ended,
        Err(_) => Status::WriteFault,
    }
}

// Answers the script, and keeps the last map.
fn serve_and_keep<V: Vault, C: Source, R: Sink>(
    alloc: Global,
    map: Map,
    out: &str,
    vault: &mut V,
    script: &mut C,
    replies: &mut R,
) -> Status
    ensures says { (tests : Tests) → ServedSays tests (whole map) out.now result
        (told_of (C.left script.old) (R.given replies.old) (V.kept vault.old))
        (told_of (C.left script.new) (R.given replies.new) (V.kept vault.new))
        (Rose (R.faults replies.old) (R.faults replies.new)) }
    ensures cause { ServeCause result
        (counts_of (V.fetch_faults vault.old) (V.keep_faults vault.old)
        (C.faults script.old) (R.faults replies.old))
        (counts_of (V.fetch_faults vault.new) (V.keep_faults vault.new)
        (C.faults script.new) (R.faults replies.new)) }
    ensures unkept { result ≢ Status.Ended → V.kept vault.new ≡ V.kept vault.old }
    ensures later { NoneFell
        (counts_of (V.fetch_faults vault.old) (V.keep_faults vault.old)
        (C.faults script.old) (R.faults replies.old))
        (counts_of (V.fetch_faults vault.new) (V.keep_faults vault.new)
        (C.faults script.new) (R.faults replies.new)) }
{
    let mut session = Session::open(alloc, map);
    match serve_script(alloc, &mut session, script, replies) {
        Ok(()) => keep_map(alloc, &session, out, vault),
        Err(stop) => stop.status(),
    }
}

/// Fetches and opens the map, gives its notes, answers the script, and keeps the last map under the other name.
pub(crate) fn run_edit<V: Vault, C: Source, R: Sink>(
    alloc: Global,
    map: &str,
    out: &str,
    vault: &mut V,
    script: &mut C,
    replies: &mut R,
) -> Status
    ensures { EditRun map.now out.now result (V.texts vault.old)
        (told_of (C.left script.old) (R.given replies.old) (V.kept vault.old))
        (told_of (C.left script.new) (R.given replies.new) (V.kept vault.new))
        (counts_of (V.fetch_faults vault.old) (V.keep_faults vault.old)
        (C.faults script.old) (R.faults replies.old))
        (counts_of (V.fetch_faults vault.new) (V.keep_faults vault.new)
        (C.faults script.new) (R.faults replies.new)) }
{
    opens_for_all_law();
    opens_one_way_law();
    match open(alloc, map, vault, replies) {
        Ok(map) => serve_and_keep(alloc, map, out, vault, script, replies),
        Err(status) => status,
    }
}
