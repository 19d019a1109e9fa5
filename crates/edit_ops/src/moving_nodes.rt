//! Nodes, moved.

ghost use Rattle.std.specs.Prelude.{◌≡◌, ℕ, ◌≤◌, ◌==◌, count_by, unwrap_or, Bool, None, Some, IfOk, OnOk};
ghost use Rattle.algebra.specs.Members.{◌∈◌};
ghost use Rattle.map_model.specs.Tree.{whole, at, link_of, kind_of, entity, props_of};
ghost use Rattle.map_model.specs.Edits.{each_in_turn, renew};
ghost use Rattle.map_model.specs.Own.{moved_node};
ghost use Rattle.tree_node.specs.Held.{changed};
ghost use Rattle.edit_ops.specs.Moving.{CanMoveNode};

use crate::places::moved_origin;
use crate::solids::moved_body;
use map_nodes::{Node, NodeId, Props};
use orient48::Motion;
use std::alloc::{AllocError, Global};
use tree_node::{Change, Map};

/// Each of the nodes goes where the motion takes it. None is named twice.
pub(crate) fn move_nodes(
    alloc: Global,
    map: &Map,
    change: &mut Change,
    motion: &Motion,
    lock: bool,
    ids: &[NodeId],
) -> Result<(), AllocError>
    requires begins { changed map.now change.old ≡ whole map.now }
    requires once { (q : ℕ) → count_by (λ k. k == q) ids.now ≤ 1 }
    requires can { (q : ℕ) → q ∈ ids.now → CanMoveNode lock motion.now (at (whole map.now) q) }
    ensures { OnOk result (changed map.now change.new ≡ each_in_turn (λ q. renew q (moved_node lock motion.now)) ids.now (whole map.now)) }
{
    map.is_map();
    for id in ids {
        move_node(alloc, map, change, motion, lock, *id)?;
    }
    Ok(())
}

// One node goes where the motion takes it. The change has left it as it is.
fn move_node(
    alloc: Global,
    map: &Map,
    change: &mut Change,
    motion: &Motion,
    lock: bool,
    id: NodeId,
) -> Result<(), AllocError>
    requires same { at (changed map.now change.old) id ≡ at (whole map.now) id }
    requires can { CanMoveNode lock motion.now (at (whole map.now) id) }
    ensures { OnOk result (changed map.now change.new ≡ renew id (moved_node lock motion.now) (changed map.now change.old)) }
{
    map.is_map();
    let Some(node) = map.get(id) else {
        return Ok(());
    };
    let Some(new) = moved(alloc, motion, lock, node)? else {
        return Ok(());
    };
    change.put(id, Some(new))?;
    Ok(())
}

/// The node where the motion takes it, or nothing where it stays as it is.
pub(crate) fn moved(
    alloc: Global,
    motion: &Motion,
    lock: bool,
    node: &Node,
) -> Result<Option<Node>, AllocError>
    requires unlinked { link_of node.now ≡ None }
    requires can { CanMoveNode lock motion.now (Some node.now) }
    ensures { IfOk result (λ new. unwrap_or new node.now ≡ moved_node lock motion.now node.now) }
{
    match node {
        Node::Brush { parent, mark, body } => Ok(Some(Node::Brush {
            parent: *parent,
            mark: *mark,
            body: moved_body(alloc, motion, lock, body)?,
        })),
        Node::Entity { props, .. } => moved_entity(alloc, motion, node, props),
        _ => Ok(None),
    }
}

// The entity with its origin moved, or nothing where it has none that can be moved.
fn moved_entity(
    alloc: Global,
    motion: &Motion,
    node: &Node,
    props: &Props,
) -> Result<Option<Node>, AllocError>
    requires entity { kind_of node.now ≡ entity }
    requires props { props.now ≡ props_of node.now }
    ensures { IfOk result (λ new. (lock : Bool) → unwrap_or new node.now ≡ moved_node lock motion.now node.now) }
{
    props.are_distinct();
    let Some(text) = props.value(b"origin") else {
        return Ok(None);
    };
    let Some(origin) = moved_origin(alloc, text, motion)? else {
        return Ok(None);
    };
    let mut new = node.copy(alloc)?;
    new.set_value(alloc, b"origin", origin.bytes())?;
    Ok(Some(new))
}
