//! Commands that make a node: `tie` and `group` gather nodes into it.

ghost use Rattle.std.specs.Prelude.{◌≡◌, ◌<◌, OnOk};
ghost use Rattle.map_model.specs.Tree.{container, is_kind, entity};
ghost use Rattle.map_model.specs.Edits.{put_last};
ghost use Rattle.map_model.specs.Own.{gather};
ghost use Rattle.map_model.specs.Rows.{first_of};
ghost use Rattle.tree_node.specs.Held.{changed};

use map_nodes::{Node, NodeId};
use std::alloc::{AllocError, Global};
use tree_node::{Change, Map};

/// A new node at the end of the container of the first of the nodes, and the nodes in it.
pub(crate) fn gather(
    alloc: Global,
    map: &Map,
    change: &mut Change,
    node: Node,
    ids: &[NodeId],
) -> Result<(), AllocError>
    requires { change.old.next < 65536 }
    ensures { OnOk result (changed map.now change.new ≡ gather node ids.now (changed map.now change.old)) }
{
    let place = container(map, change, first_of(ids));
    let made = change.put_last(alloc, map, place, node)?;
    change.move_all(alloc, map, made, ids)?;
    Ok(())
}

// The first of the numbers, or 0 where there is none.
fn first_of(ids: &[NodeId]) -> NodeId
    ensures { result ≡ first_of ids.now }
{
    match ids.first() {
        Some(id) => *id,
        None => NodeId(0),
    }
}

// What a brush in an entity has above the entity, and any other node above itself.
fn container(map: &Map, change: &Change, id: NodeId) -> NodeId
    ensures { result ≡ container (changed map.now change.now) id }
{
    let place = change.parent(map, id).unwrap_or(NodeId(0));
    if change.is_brush(map, id) && is_entity(map, change, place) {
        change.parent(map, place).unwrap_or(NodeId(0))
    } else {
        place
    }
}

fn is_entity(map: &Map, change: &Change, id: NodeId) -> bool
    ensures { result ≡ is_kind (changed map.now change.now) entity id }
{
    match change.view(map, id) {
        None => false,
        Some(Node::Entity { .. }) => true,
        Some(_) => false,
    }
}
