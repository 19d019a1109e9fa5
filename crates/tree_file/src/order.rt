//! The nodes that are entities of a file, in its order.

ghost use Rattle.std.specs.Prelude.{◌≡◌, ◌<◌, ◌≤◌, filter, length, IfOk};
ghost use Rattle.map_model.specs.Tree.{whole, layer, group};
ghost use Rattle.map_model.specs.Saved.{entities, has_id};

use map_nodes::{Node, NodeId};
use std::alloc::{AllocError, Global};
use tree_node::{Change, Map};

/// All nodes but the brushes, in preorder.
pub(crate) fn file_order(alloc: Global, map: &Map) -> Result<Vec<NodeId>, AllocError>
    ensures { IfOk result (λ nodes. nodes.items ≡ entities (whole map.now)) }
{
    let all = Change::new(alloc, map).preorder(alloc, map, NodeId(0))?;
    let mut nodes = Vec::new(alloc);
    for id in &all {
        if !is_brush(map, *id) {
            nodes.push(*id)?;
        }
    }
    Ok(nodes)
}

fn is_brush(map: &Map, id: NodeId) -> bool
    ensures { result ≡ Rattle.map_model.specs.Tree.is_brush (whole map.now) id }
{
    match map.get(id) {
        Some(node) => node.is_brush(),
        None => false,
    }
}

/// Those of the nodes that have an id: layers and groups.
pub(crate) fn named_nodes(
    alloc: Global,
    map: &Map,
    nodes: &[NodeId],
) -> Result<Vec<NodeId>, AllocError>
    ensures { IfOk result (λ named. named.items ≡ filter (has_id (whole map.now)) nodes.now) }
{
    let mut named = Vec::new(alloc);
    for id in nodes {
        if has_id(map, *id) {
            named.push(*id)?;
        }
    }
    Ok(named)
}

fn has_id(map: &Map, id: NodeId) -> bool
    ensures { result ≡ has_id (whole map.now) id }
{
    match map.get(id) {
        Some(Node::Layer { .. }) => true,
        Some(Node::Group { .. }) => true,
        _ => false,
    }
}
