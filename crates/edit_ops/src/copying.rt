//! `copy`: nodes copied with all beneath them.

ghost use Rattle.std.specs.Prelude.{◌≡◌, ℕ, ◌+◌, ◌<◌, ◌≤◌, length, get_or, take, flat_map, unwrap_or, is_some, true, None, Some, IsTrue, IfOk, IfErr, OnOk};
ghost use Rattle.algebra.specs.Members.{◌∈◌};
ghost use Rattle.map_model.specs.Commands.{IsGood};
ghost use Rattle.map_model.specs.Edits.{swap, each_in_turn};
ghost use Rattle.map_model.specs.Motions.{is_signed_permutation};
ghost use Rattle.map_model.specs.Own.{copied_node, moved_node};
ghost use Rattle.map_model.specs.Promises.{Plans};
ghost use Rattle.map_model.specs.Rows.{named, motion_of};
ghost use Rattle.map_model.specs.Tree.{whole, at, up, preorder, link_of, with_link, with_mark};
ghost use Rattle.tree_node.specs.Held.{IsMap, changed};
ghost use Rattle.tree_ops.specs.Faults.{RefusesRightly};
ghost use Rattle.edit_ops.specs.Moving.{CanMoveNode};
ghost use Rattle.edit_ops.specs.Copying.{is_copy, copied_by, copies_of, IsNext};

use crate::motion_rows::refuse_motion;
use crate::motions::{is_rigid, motion_of, nodes_of};
use crate::moving::all_beneath;
use crate::moving_nodes::moved;
use brush_plans::refuse_nodes;
use cmd_text::{Command, Reply};
use map_nodes::{Node, NodeId};
use orient48::Motion;
use std::alloc::{AllocError, Global};
use tree_node::{Change, Map};
use tree_ops::{OpFault, Planned, Settings, ids};

/// Plans `copy`: the first refusal of the one order, or a change that names exactly the nodes that differ, with the reply. The
/// map after the change is one again. Nothing is said where there is no memory for it.
pub(crate) fn plan_copy(
    alloc: Global,
    map: &Map,
    set: &Settings,
    c: &Command,
) -> Result<Planned, OpFault>
    requires own { IsTrue (is_copy c.now) }
    requires good { IsGood c.now }
    ensures planned { IfOk result (λ p. Plans set.now (whole map.now) c.now p.change p.reply) }
    ensures sound { IfOk result (λ p. IsMap (swap (whole map.now) p.change)) }
    ensures refused { IfErr result (RefusesRightly set.now (whole map.now) c.now) }
{
    let motion = motion_of(c);
    let ids = ids(alloc, nodes_of(c))?;
    is_rigid(&motion);
    plan_copies(alloc, map, set, c, &motion, &ids)
}

// Plans it by its motion and the nodes that it names.
fn plan_copies(
    alloc: Global,
    map: &Map,
    set: &Settings,
    c: &Command,
    motion: &Motion,
    ids: &[NodeId],
) -> Result<Planned, OpFault>
    requires own { IsTrue (is_copy c.now) }
    requires good { IsGood c.now }
    requires motion { motion.now ≡ motion_of c.now }
    requires turns { IsTrue (is_signed_permutation motion.now.matrix) }
    requires these { ids.now ≡ named c.now }
    ensures planned { IfOk result (λ p. Plans set.now (whole map.now) c.now p.change p.reply) }
    ensures sound { IfOk result (λ p. IsMap (swap (whole map.now) p.change)) }
    ensures refused { IfErr result (RefusesRightly set.now (whole map.now) c.now) }
{
    map.is_map();
    refuse_nodes(map, ids)?;
    let mut change = Change::new(alloc, map);
    let copied = all_beneath(alloc, map, &change, ids)?;
    let lock = set.lock();
    refuse_motion(alloc, map, motion, lock, &copied)?;
    change.room(copied.len() as u64)?;
    copy_nodes(alloc, map, &mut change, motion, lock, ids)?;
    change.tighten(map);
    let reply = Reply::Made {
        count: copied.len() as u32,
        first: map.next(),
    };
    Ok(Planned { change, reply })
}

// A copy of each of the nodes, with all beneath it, stands at the end of the node's parent.
fn copy_nodes(
    alloc: Global,
    map: &Map,
    change: &mut Change,
    motion: &Motion,
    lock: bool,
    ids: &[NodeId],
) -> Result<(), AllocError>
    requires begins { changed map.now change.old ≡ whole map.now }
    requires next { (i n : ℕ) → i < length ids.now → n ≡ get_or ids.now i n → IsNext (whole map.now) ids.now n (each_in_turn (copied_by lock motion.now) (take i ids.now) (whole map.now)) }
    requires can { (q : ℕ) → q ∈ flat_map (preorder (whole map.now)) ids.now → CanMoveNode lock motion.now (at (whole map.now) q) }
    requires room { map.now.next + length (flat_map (preorder (whole map.now)) ids.now) ≤ 65536 }
    ensures { OnOk result (changed map.now change.new ≡ each_in_turn (copied_by lock motion.now) ids.now (whole map.now)) }
{
    map.is_map();
    for id in ids {
        copy_node(alloc, map, change, motion, lock, *id)?;
    }
    Ok(())
}

// A copy of one node, with all beneath it, which the change has left as they are.
fn copy_node(
    alloc: Global,
    map: &Map,
    change: &mut Change,
    motion: &Motion,
    lock: bool,
    id: NodeId,
) -> Result<(), AllocError>
    requires same { (q : ℕ) → q ∈ preorder (changed map.now change.old) id → at (changed map.now change.old) q ≡ at (whole map.now) q }
    requires there { (q : ℕ) → q ∈ preorder (changed map.now change.old) id → is_some (at (whole map.now) q) ≡ true }
    requires can { (q : ℕ) → q ∈ preorder (changed map.now change.old) id → CanMoveNode lock motion.now (at (whole map.now) q) }
    requires room { change.old.next + length (preorder (changed map.now change.old) id) ≤ 65536 }
    ensures { OnOk result (changed map.now change.new ≡ copied_by lock motion.now id (changed map.now change.old)) }
{
    let beneath = change.preorder(alloc, map, id)?;
    let nodes = copies(alloc, map, motion, lock, &beneath)?;
    let place = place_of(change, map, id);
    change.put_copies(alloc, map, place, &beneath, nodes)
}

// Where a node stands, with the change.
fn place_of(change: &Change, map: &Map, id: NodeId) -> NodeId
    ensures { result ≡ unwrap_or (up (changed map.now change.now) id) 0 }
{
    match change.parent(map, id) {
        Some(place) => place,
        None => NodeId(0),
    }
}

// Copies of nodes, where the motion takes them.
fn copies(
    alloc: Global,
    map: &Map,
    motion: &Motion,
    lock: bool,
    ids: &[NodeId],
) -> Result<Vec<Node>, AllocError>
    requires there { (q : ℕ) → q ∈ ids.now → is_some (at (whole map.now) q) ≡ true }
    requires can { (q : ℕ) → q ∈ ids.now → CanMoveNode lock motion.now (at (whole map.now) q) }
    ensures count { IfOk result (λ nodes. length nodes.items ≡ length ids.now) }
    ensures nodes { IfOk result (λ nodes. nodes.items ≡ copies_of lock motion.now (whole map.now) ids.now) }
{
    map.is_map();
    let mut nodes = Vec::with_capacity(alloc, ids.len())?;
    for id in ids {
        let Some(node) = map.get(*id) else {
            unreachable!()
        };
        nodes.push(copied(alloc, motion, lock, node)?)?;
    }
    Ok(nodes)
}

// A copy of a node, where the motion takes it, with no mark and no link.
fn copied(alloc: Global, motion: &Motion, lock: bool, node: &Node) -> Result<Node, AllocError>
    requires unlinked { link_of node.now ≡ None }
    requires can { CanMoveNode lock motion.now (Some node.now) }
    ensures { IfOk result (λ new. new ≡ copied_node lock motion.now node.now) }
{
    let mut new = moved_copy(alloc, motion, lock, node)?;
    let_go(&mut new);
    Ok(new)
}

fn moved_copy(alloc: Global, motion: &Motion, lock: bool, node: &Node) -> Result<Node, AllocError>
    requires unlinked { link_of node.now ≡ None }
    requires can { CanMoveNode lock motion.now (Some node.now) }
    ensures { IfOk result (λ new. new ≡ moved_node lock motion.now node.now) }
{
    match moved(alloc, motion, lock, node)? {
        Some(new) => Ok(new),
        None => node.copy(alloc),
    }
}

// The node has no mark and no link.
fn let_go(node: &mut Node)
    ensures { node.new ≡ with_mark None (with_link None node.old) }
{
    match node {
        Node::World { .. } => {}
        Node::Layer { .. } => {}
        Node::Group { mark, link, .. } => {
            *mark = None;
            *link = None;
        }
        Node::Entity { mark, .. } => *mark = None,
        Node::Brush { mark, .. } => *mark = None,
    }
}
