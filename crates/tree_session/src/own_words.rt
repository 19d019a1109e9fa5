//! The words that change the settings or the place among the maps.

ghost use Rattle.std.specs.Prelude.{◌≡◌};
ghost use Rattle.cmd_text.specs.Kept.{IsNameText};
ghost use Rattle.map_model.specs.Tree.{whole, format_of};
ghost use Rattle.undo_log.specs.Log.{Keeps};
ghost use Rattle.tree_session.specs.Words.{is_standard, TakesMaterial, SetsLock, GoesBackBy, GoesOnBy};

use cmd_text::{Refusal, Reply};
use fixed_num::Text;
use map_nodes::{Node, NodeId};
use std::alloc::Global;
use tree_node::Map;
use tree_ops::Settings;
use undo_log::History;
use uv_lock::Format;

// Whether the map has the standard format.
fn is_standard(map: &Map) -> bool
    ensures { result ≡ is_standard (format_of (whole map.now)) }
{
    match map.get(NodeId(0)) {
        Some(Node::World { format, .. }) => matches!(format, Format::Standard),
        _ => true,
    }
}

/// Takes another current material.
pub(crate) fn take_material(alloc: Global, settings: &mut Settings, name: &Text) -> Reply
    requires { IsNameText name.now }
    ensures { TakesMaterial name.now settings.old result settings.new }
{
    match Text::of(alloc, name.bytes()) {
        Ok(copy) => {
            settings.set_material(copy);
            Reply::Ok
        }
        Err(_) => Reply::Memory,
    }
}

/// Locks textures to faces that are moved, or doesn't. It is refused where they would be locked in a map of the standard
/// format.
pub(crate) fn lock(settings: &mut Settings, map: &Map, on: bool) -> Reply
    ensures { SetsLock (whole map.now) on settings.old result settings.new }
{
    if on && is_standard(map) {
        return Reply::No(Refusal::LockNeedsValve);
    }
    settings.set_lock(on);
    Reply::Ok
}

/// Goes to the map before. It is refused at the first.
pub(crate) fn undo(history: &mut History, map: &mut Map) -> Reply
    requires { Keeps history.old.records map.old }
    ensures answer { GoesBackBy history.old.records map.old result history.new.records map.new }
    ensures keeps { Keeps history.new.records map.new }
{
    if history.undo(map) {
        Reply::Ok
    } else {
        Reply::No(Refusal::NothingToUndo)
    }
}

/// Goes to the map after. It is refused at the last.
pub(crate) fn redo(history: &mut History, map: &mut Map) -> Reply
    requires { Keeps history.old.records map.old }
    ensures answer { GoesOnBy history.old.records map.old result history.new.records map.new }
    ensures keeps { Keeps history.new.records map.new }
{
    if history.redo(map) {
        Reply::Ok
    } else {
        Reply::No(Refusal::NothingToRedo)
    }
}
