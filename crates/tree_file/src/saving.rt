//! The document that a map is saved as.

ghost use Rattle.std.specs.Prelude.{◌≡◌, [], IfOk, IsTrue};
ghost use Rattle.map_text.specs.Reads.{Reads};
ghost use Rattle.map_text.specs.Spelled.{is_savable};
ghost use Rattle.map_write.specs.Written.{written_text};
ghost use Rattle.map_model.specs.Tree.{whole};
ghost use Rattle.map_model.specs.Promises.{Saves};
ghost use Rattle.file_laws.specs.Renumbered.{renumbered_map};
ghost use Rattle.tree_file.specs.Promises.{Builds};

use crate::entities::{saved_entities, saved_format};
use crate::ids::Ids;
use crate::order::{file_order, named_nodes};
use exact_geom::Rows;
use map_text::MapDoc;
use std::alloc::{AllocError, Global};
use tree_node::Map;

/// The document that a map is saved as: the world, and then in preorder all layers, groups and entities, each with its
/// brushes. It can be saved, reads as the same document, and builds the map again with its nodes numbered in the order
/// of the file, with no note. An error only where there is no memory for it.
pub fn to_doc(alloc: Global, map: &Map) -> Result<MapDoc, AllocError>
    ensures saves { IfOk result (Saves (whole map.now)) }
    ensures savable { IfOk result (λ doc. IsTrue (is_savable doc)) }
    ensures reads { IfOk result (λ doc. Reads (written_text doc) doc) }
    ensures back { IfOk result (λ doc. Builds doc (renumbered_map (whole map.now)) []) }
{
    map.is_map();
    let nodes = file_order(alloc, map)?;
    let ids = Ids::of(alloc, &named_nodes(alloc, map, &nodes)?)?;
    Ok(MapDoc {
        format: saved_format(map),
        entities: Rows::of(saved_entities(alloc, map, &ids, &nodes)?),
    })
}
