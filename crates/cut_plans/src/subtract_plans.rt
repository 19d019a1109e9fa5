//! `subtract`, planned.

ghost use Rattle.std.specs.Prelude.{◌≡◌, ℕ, ◌+◌, ◌<◌, ◌≤◌, ◌∷◌, [], ◌++◌, length, IfOk, IfErr, OnOk};
ghost use Rattle.map_model.specs.Tree.{whole};
ghost use Rattle.map_model.specs.Edits.{swap, each_in_turn};
ghost use Rattle.map_model.specs.Commands.{Subtract, IsGood};
ghost use Rattle.map_model.specs.Promises.{Plans};
ghost use Rattle.map_model.specs.Replies.{Made};
ghost use Rattle.tree_node.specs.Held.{IsMap, changed};
ghost use Rattle.tree_ops.specs.Faults.{RefusesRightly};
ghost use Rattle.cut_plans.specs.Ending.{Ends};
ghost use Rattle.cut_plans.specs.Subtracts.{put_parted, drawn_by, HaveFewPieces, subtracted, IsSubtracted};

use crate::cutter::cutter_at;
use crate::subtracting::{Parted, part_all, refuse_apart};
use brush_plans::refuse_brushes;
use cmd_text::Reply;
use exact_geom::Rows;
use map_nodes::NodeId;
use std::alloc::{AllocError, Global};
use tree_node::{Change, Map};
use tree_ops::{OpFault, Planned, Settings, ids, prune};

/// Plans `subtract`: the first refusal of the one order, or a change that names exactly the nodes that differ, with the reply.
/// The map after the change is one again. Nothing is said where there is no memory for it.
pub(crate) fn plan_subtract(
    alloc: Global,
    map: &Map,
    set: &Settings,
    by: u32,
    nodes: &Rows<u32>,
) -> Result<Planned, OpFault>
    requires good { IsGood (Subtract by nodes.now) }
    ensures planned { IfOk result (λ p. Plans set.now (whole map.now) (Subtract by nodes.now) p.change p.reply) }
    ensures sound { IfOk result (λ p. IsMap (swap (whole map.now) p.change)) }
    ensures refused { IfErr result (RefusesRightly set.now (whole map.now) (Subtract by nodes.now)) }
{
    map.is_map();
    set.has_material();
    let by = NodeId(by);
    let ids = ids(alloc, nodes)?;
    let named = with_first(alloc, by, &ids)?;
    let parted = subtracted(alloc, map, set, by, &ids, &named)?;
    let planned = put_all(alloc, map, by, &named, parted)?;
    Ok(planned)
}

fn with_first(alloc: Global, first: NodeId, others: &[NodeId]) -> Result<Vec<NodeId>, AllocError>
    ensures { IfOk result (λ named. named.items ≡ first ∷ others.now) }
{
    let mut named = Vec::with_capacity(alloc, 1)?;
    named.push(first)?;
    named.extend_from_slice(others)?;
    Ok(named)
}

// The pieces of the brushes, or the first row that refuses the command.
fn subtracted(
    alloc: Global,
    map: &Map,
    set: &Settings,
    by: NodeId,
    ids: &[NodeId],
    named: &[NodeId],
) -> Result<Rows<Parted>, OpFault>
    requires named { named.now ≡ by ∷ ids.now }
    ensures { IsSubtracted set.now (whole map.now) by ids.now result }
{
    refuse_brushes(map, named)?;
    let cutter = cutter_at(alloc, map, by)?;
    cutter.body.is_valid();
    refuse_apart(alloc, map, &cutter, ids)?;
    part_all(alloc, map, &cutter, ids)
}

// Puts the pieces in place, and deletes the brush that cut. `Full` where there are no numbers for the pieces.
fn put_all(
    alloc: Global,
    map: &Map,
    by: NodeId,
    named: &[NodeId],
    parted: Rows<Parted>,
) -> Result<Planned, OpFault>
    requires brushes { length parted < 4096 }
    requires pieces { HaveFewPieces parted }
    ensures { Ends (whole map.now) named.now (subtracted by parted (whole map.now)) (drawn_by parted) (Made (drawn_by parted) map.now.next) result }
{
    let made = drawn_by(parted.list());
    let mut change = Change::new(alloc, map);
    change.room(u64::from(made))?;
    put_parted(alloc, map, &mut change, parted.into_vec())?;
    change.delete(alloc, map, by)?;
    prune(alloc, map, &mut change, named)?;
    change.tighten(map);
    let reply = Reply::Made {
        count: made,
        first: map.next(),
    };
    Ok(Planned { change, reply })
}

// How many numbers are drawn.
fn drawn_by(parted: &[Parted]) -> u32
    requires brushes { length parted.now < 4096 }
    requires pieces { HaveFewPieces parted.now }
    ensures { result ≡ drawn_by parted.now }
{
    let mut made = 0;
    for one in parted {
        made += one.pieces.list().len() as u32;
    }
    made
}

// Puts the pieces of brushes in their places, one brush after another.
fn put_parted(
    alloc: Global,
    map: &Map,
    change: &mut Change,
    parted: Vec<Parted>,
) -> Result<(), AllocError>
    requires room { change.old.next + drawn_by parted.items ≤ 65536 }
    ensures { OnOk result (changed map.now change.new ≡ each_in_turn put_parted parted.items (changed map.now change.old)) }
{
    for one in parted {
        put_one(alloc, map, change, one)?;
    }
    Ok(())
}

fn put_one(alloc: Global, map: &Map, change: &mut Change, one: Parted) -> Result<(), AllocError>
    requires room { change.old.next + length one.pieces ≤ 65536 }
    ensures { OnOk result (changed map.now change.new ≡ put_parted one (changed map.now change.old)) }
{
    let Parted { id, pieces } = one;
    change.replace_by(alloc, map, id, pieces.into_vec())
}
