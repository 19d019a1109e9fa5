//! The tree of a document.

ghost use Rattle.std.specs.Prelude.{◌≡◌, ◌<◌, ◌-◌, ◌^◌, false, IfOk, IfErr, IsTrue, OnOk};
ghost use Rattle.map_text.specs.Reads.{part_count};
ghost use Rattle.map_text.specs.Spelled.{is_spelled};
ghost use Rattle.map_model.specs.Tree.{whole};
ghost use Rattle.tree_file.specs.Promises.{Builds, IsRefusedFor, has_links};

use crate::fault::TreeFault;
use crate::keep::{Kept, keep};
use crate::reading::read_entities;
use crate::refusals::{begins_with_world, has_links};
use crate::slots::{slot_count, slots};
use crate::whole_map::map_of_slots;
use map_report::Note;
use map_text::MapDoc;
use std::alloc::Global;
use tree_node::Map;

/// The tree of a document, with notes on what was mended or left out. `NoWorld` where the first entity isn't the world,
/// `NotBuilt` where an entity names a link set or protects keys, `Full` where there would be more than 65,535 nodes: the first
/// that holds. `Memory` comes only where there is no memory for the tree.
pub fn to_tree(alloc: Global, doc: MapDoc) -> Result<(Map, Vec<Note>), TreeFault>
    requires spelled { IsTrue (is_spelled doc) }
    requires few { part_count doc < 2 ^ 32 - 1 }
    ensures built { IfOk result (λ r. Builds doc (whole r.0) r.1.items) }
    ensures plain { OnOk result (has_links doc ≡ false) }
    ensures refused { IfErr result (IsRefusedFor doc) }
{
    if !begins_with_world(doc.entities.list()) {
        return Err(TreeFault::NoWorld);
    }
    if has_links(doc.entities.list()) {
        return Err(TreeFault::NotBuilt);
    }
    let MapDoc { format, entities } = doc;
    let readings = read_entities(alloc, format, entities.into_vec())?;
    let places = readings.len();
    let Kept { items, notes } = keep(alloc, readings)?;
    let count = slot_count(&items);
    if count > 65536 {
        return Err(TreeFault::Full(count - 1));
    }
    let map = map_of_slots(alloc, slots(alloc, places, items)?)?;
    Ok((map, notes))
}
