//! The rows on all nodes that a motion moves.

ghost use Rattle.std.specs.Prelude.{◌≡◌, true, None, Some, IsTrue};
ghost use Rattle.map_model.specs.Motions.{is_signed_permutation};
ghost use Rattle.map_model.specs.Tree.{whole, at};
ghost use Rattle.map_model.specs.Rows.{first};
ghost use Rattle.tree_ops.specs.Passing.{passes};
ghost use Rattle.brush_plans.specs.Saying.{Says};
ghost use Rattle.edit_ops.specs.Moving.{points_of, world_of, offsets_of, origin_of, points_row, world_row, offsets_row, origins_row, motion_rows};

use crate::faces::{beyond, lost};
use crate::places::is_stuck;
use crate::solids::leaves_world;
use cmd_text::Refusal;
use map_nodes::{Node, NodeId};
use orient48::Motion;
use std::alloc::Global;
use tree_node::Map;
use tree_ops::OpFault;

/// The first of the rows on motions that refuses to move these nodes.
pub(crate) fn refuse_motion(
    alloc: Global,
    map: &Map,
    motion: &Motion,
    lock: bool,
    ids: &[NodeId],
) -> Result<(), OpFault>
    requires turns { IsTrue (is_signed_permutation motion.now.matrix) }
    ensures { Says (λ b. first (motion_rows lock motion.now (whole map.now) ids.now b)) result }
{
    points(map, motion, ids)?;
    world(alloc, map, motion, ids)?;
    offsets(map, motion, lock, ids)?;
    origins(map, motion, ids)?;
    Ok(())
}

// `PointRange` with the first node and its first face that goes beyond the range of points.
fn points(map: &Map, motion: &Motion, ids: &[NodeId]) -> Result<(), Refusal>
    ensures { result ≡ passes (points_row motion.now (whole map.now) ids.now) }
{
    for id in ids {
        points_of(map, motion, *id)?;
    }
    Ok(())
}

fn points_of(map: &Map, motion: &Motion, id: NodeId) -> Result<(), Refusal>
    ensures { result ≡ passes (points_of motion.now id (at (whole map.now) id)) }
{
    match map.get(id) {
        None => Ok(()),
        Some(node) => points_of_node(motion, id, node),
    }
}

fn points_of_node(motion: &Motion, id: NodeId, node: &Node) -> Result<(), Refusal>
    ensures { result ≡ passes (points_of motion.now id (Some node.now)) }
{
    match node {
        Node::Brush { body, .. } => {
            body.is_valid();
            beyond(motion, id, body.faces())
        }
        _ => Ok(()),
    }
}

// `OutOfWorld` with the first brush that leaves the world.
fn world(alloc: Global, map: &Map, motion: &Motion, ids: &[NodeId]) -> Result<(), OpFault>
    requires turns { IsTrue (is_signed_permutation motion.now.matrix) }
    requires points { points_row motion.now (whole map.now) ids.now ≡ None }
    ensures { Says (world_row motion.now (whole map.now) ids.now) result }
{
    for id in ids {
        world_of(alloc, map, motion, *id)?;
    }
    Ok(())
}

fn world_of(alloc: Global, map: &Map, motion: &Motion, id: NodeId) -> Result<(), OpFault>
    requires turns { IsTrue (is_signed_permutation motion.now.matrix) }
    requires points { points_of motion.now id (at (whole map.now) id) ≡ None }
    ensures { Says (world_of motion.now id (at (whole map.now) id)) result }
{
    match map.get(id) {
        None => Ok(()),
        Some(node) => world_of_node(alloc, map, motion, id, node),
    }
}

fn world_of_node(
    alloc: Global,
    map: &Map,
    motion: &Motion,
    id: NodeId,
    node: &Node,
) -> Result<(), OpFault>
    requires turns { IsTrue (is_signed_permutation motion.now.matrix) }
    requires there { at (whole map.now) id ≡ Some node.now }
    requires points { points_of motion.now id (at (whole map.now) id) ≡ None }
    ensures { Says (world_of motion.now id (at (whole map.now) id)) result }
{
    match node {
        Node::Brush { body, .. } => {
            map.is_map();
            let leaves = leaves_world(alloc, motion, body)?;
            if leaves {
                return Err(OpFault::No(Refusal::OutOfWorld(id.number())));
            }
            Ok(())
        }
        _ => Ok(()),
    }
}

// With lock, `LockOffset` with the first node and its first face that loses an offset.
fn offsets(map: &Map, motion: &Motion, lock: bool, ids: &[NodeId]) -> Result<(), Refusal>
    ensures { result ≡ passes (offsets_row lock motion.now (whole map.now) ids.now) }
{
    if lock {
        locked_offsets(map, motion, ids)
    } else {
        Ok(())
    }
}

fn locked_offsets(map: &Map, motion: &Motion, ids: &[NodeId]) -> Result<(), Refusal>
    ensures { result ≡ passes (offsets_row true motion.now (whole map.now) ids.now) }
{
    for id in ids {
        offsets_of(map, motion, *id)?;
    }
    Ok(())
}

fn offsets_of(map: &Map, motion: &Motion, id: NodeId) -> Result<(), Refusal>
    ensures { result ≡ passes (offsets_of motion.now id (at (whole map.now) id)) }
{
    match map.get(id) {
        None => Ok(()),
        Some(node) => offsets_of_node(motion, id, node),
    }
}

fn offsets_of_node(motion: &Motion, id: NodeId, node: &Node) -> Result<(), Refusal>
    ensures { result ≡ passes (offsets_of motion.now id (Some node.now)) }
{
    match node {
        Node::Brush { body, .. } => {
            body.is_valid();
            lost(motion, id, body.faces())
        }
        _ => Ok(()),
    }
}

// `Origin` with the first entity whose origin can't be moved.
fn origins(map: &Map, motion: &Motion, ids: &[NodeId]) -> Result<(), Refusal>
    ensures { result ≡ passes (origins_row motion.now (whole map.now) ids.now) }
{
    for id in ids {
        origin_of(map, motion, *id)?;
    }
    Ok(())
}

fn origin_of(map: &Map, motion: &Motion, id: NodeId) -> Result<(), Refusal>
    ensures { result ≡ passes (origin_of motion.now id (at (whole map.now) id)) }
{
    match map.get(id) {
        None => Ok(()),
        Some(node) => origin_of_node(motion, id, node),
    }
}

fn origin_of_node(motion: &Motion, id: NodeId, node: &Node) -> Result<(), Refusal>
    ensures { result ≡ passes (origin_of motion.now id (Some node.now)) }
{
    match node {
        Node::Entity { props, .. } => {
            if is_stuck(props, motion) {
                return Err(Refusal::Origin(id.number()));
            }
            Ok(())
        }
        _ => Ok(()),
    }
}
