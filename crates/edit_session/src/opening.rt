//! Opens the map that a run works on, and gives the lines of its opening.

ghost use Rattle.std.specs.Prelude.{◌≡◌, ℕ, ◌≤◌, List, length, take, flat_map, Option, Some, IfOk, IfErr, OnOk, OnErr};
ghost use Rattle.outside_io.specs.Moved.{Grew, Rose};
ghost use Rattle.map_report.specs.Reports.{note_line};
ghost use Rattle.map_model.specs.Tree.{whole};
ghost use Rattle.edit_session.specs.Devices.{MayFind};
ghost use Rattle.edit_session.specs.Opening.{fetch_status, Refuses, IsRead, Unread, IsOpened, NotOpened, TellCause, OpenCause};

use crate::status::{LIMIT, Status, Which};
use cmd_text::ReplyBuf;
use map_opening::open_map;
use map_report::{MapFault, Note, fault_text, note_text};
use map_text::ReadFault;
use outside_io::{Failed, FetchEnd, Sink, Vault, give_all};
use std::alloc::Global;
use tree_node::Map;

// The status of a run whose map wasn't fetched.
fn unfetched(end: FetchEnd) -> Status
    ensures { result ≡ fetch_status end }
{
    match end {
        FetchEnd::Failed => Status::ReadFault,
        FetchEnd::TooLong => Status::TooLong(Which::Map),
        FetchEnd::Memory => Status::Memory,
    }
}

// Gives the notes, a line each.
fn give_notes<R: Sink>(notes: &[Note], replies: &mut R) -> Result<(), Failed>
    ensures ok { OnOk result
        (Grew (R.given replies.old) (R.given replies.new) (flat_map note_line notes.now)) }
    ensures err { OnErr result ((n : ℕ)
        × Grew (R.given replies.old) (R.given replies.new) (take n (flat_map note_line notes.now))) }
    ensures quiet { OnOk result (R.faults replies.new ≡ R.faults replies.old) }
    ensures later { R.faults replies.old ≤ R.faults replies.new }
    ensures cause { OnErr result (Rose (R.faults replies.old) (R.faults replies.new)) }
{
    let mut line = ReplyBuf::new();
    for note in notes {
        note_text(*note, &mut line);
        give_all(replies, line.text())?;
    }
    Ok(())
}

// Gives the one line of a refused map. Want of memory has none.
fn refuse<R: Sink>(fault: MapFault, replies: &mut R) -> Status
    ensures given { Refuses result fault (R.given replies.old) (R.given replies.new) }
    ensures cause { TellCause result (R.faults replies.old) (R.faults replies.new) }
    ensures later { R.faults replies.old ≤ R.faults replies.new }
{
    if fault == MapFault::Read(ReadFault::Memory) {
        return Status::Memory;
    }
    let mut line = ReplyBuf::new();
    fault_text(fault, &mut line);
    match give_all(replies, line.text()) {
        Ok(()) => Status::MapRefused(fault),
        Err(_) => Status::WriteFault,
    }
}

// Gives the notes of a map that was opened.
fn with_notes<R: Sink>(map: Map, notes: &[Note], replies: &mut R) -> Result<Map, Status>
    ensures ok { IfOk result (λ opened. (opened ≡ map)
        × Grew (R.given replies.old) (R.given replies.new) (flat_map note_line notes.now)) }
    ensures err { IfErr result (λ status. (status ≡ Status.WriteFault) × ((n : ℕ)
        × Grew (R.given replies.old) (R.given replies.new) (take n (flat_map note_line notes.now)))) }
    ensures quiet { OnOk result (R.faults replies.new ≡ R.faults replies.old) }
    ensures cause { IfErr result (λ status.
        TellCause status (R.faults replies.old) (R.faults replies.new)) }
    ensures later { R.faults replies.old ≤ R.faults replies.new }
{
    match give_notes(notes, replies) {
        Ok(()) => Ok(map),
        Err(_) => Err(Status::WriteFault),
    }
}

// Opens the bytes of a map and gives its notes, or the one line of its refusal.
fn read<R: Sink>(alloc: Global, bytes: &[u8], replies: &mut R) -> Result<Map, Status>
    requires short { length bytes.now ≤ LIMIT }
    ensures ok { IfOk result (λ map.
        IsRead bytes.now (whole map) (R.given replies.old) (R.given replies.new)) }
    ensures err { IfErr result (λ status.
        Unread status bytes.now (R.given replies.old) (R.given replies.new)) }
    ensures quiet { OnOk result (R.faults replies.new ≡ R.faults replies.old) }
    ensures cause { IfErr result (λ status.
        TellCause status (R.faults replies.old) (R.faults replies.new)) }
    ensures later { R.faults replies.old ≤ R.faults replies.new }
{
    match open_map(alloc, bytes) {
        Ok(opened) => with_notes(opened.0, opened.1.as_slice(), replies),
        Err(fault) => Err(refuse(fault, replies)),
    }
}

/// Fetches the map of this name and opens it. It gives the map's notes, or the one line of its refusal. The bytes are let
/// go before it returns.
pub(crate) fn open<V: Vault, R: Sink>(
    alloc: Global,
    name: &str,
    vault: &mut V,
    replies: &mut R,
) -> Result<Map, Status>
    ensures ok { IfOk result (λ map. (found : Option (List ℕ))
        × MayFind (V.texts vault.old) name.now found
        × IsOpened found (whole map) (R.given replies.old) (R.given replies.new)) }
    ensures err { IfErr result (λ status. (found : Option (List ℕ))
        × MayFind (V.texts vault.old) name.now found
        × NotOpened status found (R.given replies.old) (R.given replies.new)) }
    ensures kept { V.kept vault.new ≡ V.kept vault.old }
    ensures keeps { V.keep_faults vault.new ≡ V.keep_faults vault.old }
    ensures quiet { OnOk result ((V.fetch_faults vault.new ≡ V.fetch_faults vault.old)
        × (R.faults replies.new ≡ R.faults replies.old)) }
    ensures cause { IfErr result (λ status. OpenCause status (V.texts vault.old) name.now
        (V.fetch_faults vault.old) (V.fetch_faults vault.new)
        (R.faults replies.old) (R.faults replies.new)) }
    ensures fetches_later { V.fetch_faults vault.old ≤ V.fetch_faults vault.new }
    ensures gives_later { R.faults replies.old ≤ R.faults replies.new }
{
    let mut text = Vec::new(alloc);
    match vault.fetch(name, LIMIT, &mut text) {
        Ok(()) => read(alloc, text.as_slice(), replies),
        Err(end) => Err(unfetched(end)),
    }
}
