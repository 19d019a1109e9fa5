//! Pruning: what a command has left without a child goes.

ghost use Rattle.std.specs.Prelude.{◌≡◌, ◌==◌, ◌&&◌, ◌||◌, ◌++◌, [], ◌∷◌, not, length, OnOk};
ghost use Rattle.map_model.specs.Tree.{whole, above, entity, group, is_kind, is_linked, has_kind, children, brushes_of, others_of};
ghost use Rattle.map_model.specs.Edits.{each_in_turn};
ghost use Rattle.map_model.specs.Apply.{is_emptied, drop_emptied};
ghost use Rattle.tree_node.specs.Held.{changed};

use map_nodes::{Node, NodeId};
use std::alloc::{AllocError, Global};
use tree_node::{Change, Map};

/// Above each of the numbers, from below, an entity or a group goes that had a child in the map and has none with the change.
/// A linked group stays. After an error the change may be partly pruned, and is to be dropped.
pub fn prune(
    alloc: Global,
    map: &Map,
    change: &mut Change,
    named: &[NodeId],
) -> Result<(), AllocError>
    ensures { OnOk result (changed map.now change.new ≡ each_in_turn (λ n. each_in_turn (drop_emptied (whole map.now)) (above (whole map.now) n)) named.now (changed map.now change.old)) }
{
    for id in named {
        prune_above(alloc, map, change, *id)?;
    }
    Ok(())
}

// The same above one number.
fn prune_above(alloc: Global, map: &Map, change: &mut Change, id: NodeId) -> Result<(), AllocError>
    ensures { OnOk result (changed map.now change.new ≡ each_in_turn (drop_emptied (whole map.now)) (above (whole map.now) id) (changed map.now change.old)) }
{
    let mut below = id;
    for step in 0..map.next() {
        match map.parent(below) {
            None => return Ok(()),
            Some(place) => {
                drop_emptied(alloc, map, change, place)?;
                below = place;
            }
        }
    }
    Ok(())
}

// The node goes, if it has lost its last child and is no linked group.
fn drop_emptied(alloc: Global, map: &Map, change: &mut Change, id: NodeId) -> Result<(), AllocError>
    ensures { OnOk result (changed map.now change.new ≡ drop_emptied (whole map.now) id (changed map.now change.old)) }
{
    if is_emptied(map, change, id) && !is_linked(map, change, id) {
        change.take_out(alloc, map, id)?;
        change.forget(&[id])?;
    }
    Ok(())
}

// Whether it is an entity or a group that has lost its last child.
fn is_emptied(map: &Map, change: &Change, id: NodeId) -> bool
    ensures { result ≡ is_emptied (whole map.now) (changed map.now change.now) id }
{
    match change.view(map, id) {
        None => false,
        Some(node) => can_be_pruned(node) && had_child(map, id) && is_childless(node),
    }
}

fn had_child(map: &Map, id: NodeId) -> bool
    ensures { result ≡ not (length (children (whole map.now) id) == 0) }
{
    match map.get(id) {
        None => false,
        Some(node) => !is_childless(node),
    }
}

fn is_linked(map: &Map, change: &Change, id: NodeId) -> bool
    ensures { result ≡ is_linked (changed map.now change.now) id }
{
    match change.view(map, id) {
        None => false,
        Some(node) => node.is_linked(),
    }
}

// Whether nodes of this kind go where they have lost their last child.
fn can_be_pruned(node: &Node) -> bool
    ensures { result ≡ (has_kind entity node.now || has_kind group node.now) }
{
    match node {
        Node::World { .. } => false,
        Node::Layer { .. } => false,
        Node::Group { .. } => true,
        Node::Entity { .. } => true,
        Node::Brush { .. } => false,
    }
}

fn is_childless(node: &Node) -> bool
    ensures { result ≡ (length (brushes_of node.now ++ others_of node.now) == 0) }
{
    node.list(true).is_empty() && node.list(false).is_empty()
}
