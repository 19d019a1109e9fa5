//! The entities that nodes are saved as.

ghost use Rattle.std.specs.Prelude.{◌≡◌, filter_map, option_map, IfOk, None, Some};
ghost use Rattle.map_model.specs.Tree.{whole, at, faces_at, format_of, link_of};
ghost use Rattle.map_model.specs.Saved.{saved_entity};
ghost use Rattle.tree_file.specs.Ids.{HasIds};
ghost use Rattle.tree_file.specs.Saving.{saved_brushes};

use crate::copies::copy_faces;
use crate::ids::Ids;
use crate::props::saved_props;
use exact_geom::Rows;
use map_nodes::{Node, NodeId};
use map_text::{RawBrush, RawEntity};
use std::alloc::{AllocError, Global};
use tree_node::Map;
use uv_lock::{Face, Format};

/// The format of a map.
pub(crate) fn saved_format(map: &Map) -> Format
    ensures { result ≡ format_of (whole map.now) }
{
    match map.get(NodeId(0)) {
        Some(Node::World { format, .. }) => *format,
        _ => Format::Standard,
    }
}

// The faces of a brush. Another node has none.
fn faces_at(map: &Map, id: NodeId) -> &[Face]
    ensures { result.now ≡ faces_at (whole map.now) id }
{
    match map.get(id) {
        Some(Node::Brush { body, .. }) => body.faces(),
        _ => &[],
    }
}

// The brushes, as they are saved.
fn saved_brushes(alloc: Global, map: &Map, brushes: &[NodeId]) -> Result<Rows<RawBrush>, AllocError>
    ensures { IfOk result (λ saved. saved ≡ saved_brushes (whole map.now) brushes.now) }
{
    let mut saved = Vec::with_capacity(alloc, brushes.len())?;
    for id in brushes {
        saved.push(RawBrush::Faces(copy_faces(alloc, faces_at(map, *id))?))?;
    }
    Ok(Rows::of(saved))
}

// The entity that a node is saved as.
fn saved_entity(
    alloc: Global,
    map: &Map,
    ids: &Ids,
    id: NodeId,
    node: &Node,
) -> Result<RawEntity, AllocError>
    requires ids { HasIds (whole map.now) ids.now }
    requires plain { link_of node.now ≡ None }
    requires there { at (whole map.now) id ≡ Some node.now }
    ensures { IfOk result (λ entity. entity ≡ saved_entity (whole map.now) id node.now) }
{
    Ok(RawEntity {
        props: saved_props(alloc, map, ids, id, node)?,
        brushes: saved_brushes(alloc, map, node.list(true))?,
    })
}

/// The entities that the nodes are saved as, in order. No group is linked.
pub(crate) fn saved_entities(
    alloc: Global,
    map: &Map,
    ids: &Ids,
    nodes: &[NodeId],
) -> Result<Vec<RawEntity>, AllocError>
    requires ids { HasIds (whole map.now) ids.now }
    ensures { IfOk result (λ saved. saved.items ≡ filter_map (λ n. option_map (saved_entity (whole map.now) n) (at (whole map.now) n)) nodes.now) }
{
    map.is_map();
    let mut saved = Vec::with_capacity(alloc, nodes.len())?;
    for id in nodes {
        match map.get(*id) {
            Some(node) => saved.push(saved_entity(alloc, map, ids, *id, node)?)?,
            None => {}
        }
    }
    Ok(saved)
}
