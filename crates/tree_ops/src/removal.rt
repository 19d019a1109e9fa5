//! Commands that take nodes away: `delete`, `untie` and `ungroup`.

ghost use Rattle.std.specs.Prelude.{◌≡◌, OnOk, IfOk};
ghost use Rattle.map_model.specs.Tree.{children, brushes_at};
ghost use Rattle.map_model.specs.Edits.{each_in_turn, delete};
ghost use Rattle.map_model.specs.Own.{untie, ungroup};
ghost use Rattle.tree_node.specs.Held.{changed};

use map_nodes::NodeId;
use std::alloc::{AllocError, Global};
use tree_node::{Change, Map};

/// Each of the nodes is deleted with all beneath it.
pub(crate) fn delete_all(
    alloc: Global,
    map: &Map,
    change: &mut Change,
    ids: &[NodeId],
) -> Result<(), AllocError>
    ensures { OnOk result (changed map.now change.new ≡ each_in_turn delete ids.now (changed map.now change.old)) }
{
    for id in ids {
        change.delete(alloc, map, *id)?;
    }
    Ok(())
}

/// The brushes of each of the entities go to where the entity was, at the end, and the entity is deleted.
pub(crate) fn untie_all(
    alloc: Global,
    map: &Map,
    change: &mut Change,
    ids: &[NodeId],
) -> Result<(), AllocError>
    ensures { OnOk result (changed map.now change.new ≡ each_in_turn untie ids.now (changed map.now change.old)) }
{
    for id in ids {
        untie(alloc, map, change, *id)?;
    }
    Ok(())
}

fn untie(alloc: Global, map: &Map, change: &mut Change, id: NodeId) -> Result<(), AllocError>
    ensures { OnOk result (changed map.now change.new ≡ untie id (changed map.now change.old)) }
{
    let brushes = brushes_of(alloc, map, change, id)?;
    let place = change.parent(map, id).unwrap_or(NodeId(0));
    change.move_all(alloc, map, place, &brushes)?;
    change.delete(alloc, map, id)?;
    Ok(())
}

/// The children of each of the groups go to where the group was, at the end, and the group is deleted.
pub(crate) fn ungroup_all(
    alloc: Global,
    map: &Map,
    change: &mut Change,
    ids: &[NodeId],
) -> Result<(), AllocError>
    ensures { OnOk result (changed map.now change.new ≡ each_in_turn ungroup ids.now (changed map.now change.old)) }
{
    for id in ids {
        ungroup(alloc, map, change, *id)?;
    }
    Ok(())
}

fn ungroup(alloc: Global, map: &Map, change: &mut Change, id: NodeId) -> Result<(), AllocError>
    ensures { OnOk result (changed map.now change.new ≡ ungroup id (changed map.now change.old)) }
{
    let children = children_of(alloc, map, change, id)?;
    let place = change.parent(map, id).unwrap_or(NodeId(0));
    change.move_all(alloc, map, place, &children)?;
    change.delete(alloc, map, id)?;
    Ok(())
}

// The brushes that stand in a node, with the change.
fn brushes_of(
    alloc: Global,
    map: &Map,
    change: &Change,
    id: NodeId,
) -> Result<Vec<NodeId>, AllocError>
    ensures { IfOk result (λ ids. ids.items ≡ brushes_at (changed map.now change.now) id) }
{
    match change.view(map, id) {
        None => Ok(Vec::new(alloc)),
        Some(node) => Vec::from_slice(alloc, node.list(true)),
    }
}

// The nodes that stand in a node, with the change: the brushes first.
fn children_of(
    alloc: Global,
    map: &Map,
    change: &Change,
    id: NodeId,
) -> Result<Vec<NodeId>, AllocError>
    ensures { IfOk result (λ ids. ids.items ≡ children (changed map.now change.now) id) }
{
    let mut ids = brushes_of(alloc, map, change, id)?;
    match change.view(map, id) {
        None => {}
        Some(node) => ids.extend_from_slice(node.list(false))?,
    }
    Ok(ids)
}
