//! Commands that move nodes as they stand, planned.

ghost use Rattle.std.specs.Prelude.{◌≡◌, flat_map, IsTrue, IfOk, IfErr};
ghost use Rattle.map_model.specs.Tree.{whole, preorder};
ghost use Rattle.map_model.specs.Edits.{swap};
ghost use Rattle.map_model.specs.Commands.{IsGood};
ghost use Rattle.map_model.specs.Motions.{is_signed_permutation};
ghost use Rattle.map_model.specs.Rows.{named, motion_of};
ghost use Rattle.map_model.specs.Promises.{Plans};
ghost use Rattle.tree_node.specs.Held.{IsMap, changed};
ghost use Rattle.tree_ops.specs.Faults.{RefusesRightly};
ghost use Rattle.edit_ops.specs.Moving.{is_motion};

use crate::motion_rows::refuse_motion;
use crate::motions::{is_rigid, motion_of, nodes_of};
use crate::moving_nodes::move_nodes;
use brush_plans::refuse_nodes;
use cmd_text::{Command, Reply};
use map_nodes::NodeId;
use orient48::Motion;
use std::alloc::{AllocError, Global};
use tree_node::{Change, Map};
use tree_ops::{OpFault, Planned, Settings, ids};

/// Plans `move`, `turn` and `flip`: the first refusal of the one order, or a change that names exactly the nodes that differ,
/// with the reply. The map after the change is one again. Nothing is said where there is no memory for it.
pub(crate) fn plan_moving(
    alloc: Global,
    map: &Map,
    set: &Settings,
    c: &Command,
) -> Result<Planned, OpFault>
    requires own { IsTrue (is_motion c.now) }
    requires good { IsGood c.now }
    ensures planned { IfOk result (λ p. Plans set.now (whole map.now) c.now p.change p.reply) }
    ensures sound { IfOk result (λ p. IsMap (swap (whole map.now) p.change)) }
    ensures refused { IfErr result (RefusesRightly set.now (whole map.now) c.now) }
{
    let motion = motion_of(c);
    let ids = ids(alloc, nodes_of(c))?;
    is_rigid(&motion);
    plan_motion(alloc, map, set, c, &motion, &ids)
}

// Plans such a command by its motion and the nodes that it names.
fn plan_motion(
    alloc: Global,
    map: &Map,
    set: &Settings,
    c: &Command,
    motion: &Motion,
    ids: &[NodeId],
) -> Result<Planned, OpFault>
    requires own { IsTrue (is_motion c.now) }
    requires good { IsGood c.now }
    requires motion { motion.now ≡ motion_of c.now }
    requires turns { IsTrue (is_signed_permutation motion.now.matrix) }
    requires these { ids.now ≡ named c.now }
    ensures planned { IfOk result (λ p. Plans set.now (whole map.now) c.now p.change p.reply) }
    ensures sound { IfOk result (λ p. IsMap (swap (whole map.now) p.change)) }
    ensures refused { IfErr result (RefusesRightly set.now (whole map.now) c.now) }
{
    map.is_map();
    refuse_nodes(map, ids)?;
    let mut change = Change::new(alloc, map);
    let moved = all_beneath(alloc, map, &change, ids)?;
    let lock = set.lock();
    refuse_motion(alloc, map, motion, lock, &moved)?;
    move_nodes(alloc, map, &mut change, motion, lock, &moved)?;
    change.tighten(map);
    let reply = Reply::Ok;
    Ok(Planned { change, reply })
}

/// The nodes with all beneath them, in preorder.
pub(crate) fn all_beneath(
    alloc: Global,
    map: &Map,
    change: &Change,
    ids: &[NodeId],
) -> Result<Vec<NodeId>, AllocError>
    ensures { IfOk result (λ all. all.items ≡ flat_map (preorder (changed map.now change.now)) ids.now) }
{
    let mut all = Vec::new(alloc);
    for id in ids {
        let beneath = change.preorder(alloc, map, *id)?;
        all.extend_from_slice(&beneath)?;
    }
    Ok(all)
}
