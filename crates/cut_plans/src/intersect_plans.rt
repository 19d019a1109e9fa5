//! `intersect`, planned.

ghost use Rattle.std.specs.Prelude.{◌≡◌, ℕ, ◌<◌, ◌≤◌, length, drop, IfOk, IfErr, OnOk};
ghost use Rattle.map_model.specs.Tree.{whole};
ghost use Rattle.map_model.specs.Edits.{swap, each_in_turn, delete};
ghost use Rattle.map_model.specs.Commands.{Intersect, IsGood};
ghost use Rattle.map_model.specs.Promises.{Plans};
ghost use Rattle.map_model.specs.Replies.{Done};
ghost use Rattle.map_model.specs.Own.{keep_first};
ghost use Rattle.tree_node.specs.Held.{IsMap, changed};
ghost use Rattle.tree_ops.specs.Faults.{RefusesRightly};
ghost use Rattle.cut_plans.specs.Ending.{Ends};
ghost use Rattle.cut_plans.specs.Intersects.{IsIntersected};

use crate::intersecting::{all_faces, body_of_all, solids_in_turn};
use brush_plans::refuse_brushes;
use cmd_text::{Refusal, Reply};
use csg_ops::{IntersectFault, intersect};
use exact_geom::Rows;
use map_nodes::{Body, NodeId};
use std::alloc::{AllocError, Global};
use tree_node::{Change, Map};
use tree_ops::{OpFault, Planned, Settings, ids, prune};

/// Plans `intersect`: the first refusal of the one order, or a change that names exactly the nodes that differ, with the reply.
/// The map after the change is one again. Nothing is said where there is no memory for it.
pub(crate) fn plan_intersect(
    alloc: Global,
    map: &Map,
    set: &Settings,
    nodes: &Rows<u32>,
) -> Result<Planned, OpFault>
    requires good { IsGood (Intersect nodes.now) }
    ensures planned { IfOk result (λ p. Plans set.now (whole map.now) (Intersect nodes.now) p.change p.reply) }
    ensures sound { IfOk result (λ p. IsMap (swap (whole map.now) p.change)) }
    ensures refused { IfErr result (RefusesRightly set.now (whole map.now) (Intersect nodes.now)) }
{
    map.is_map();
    set.has_material();
    let ids = ids(alloc, nodes)?;
    let body = intersected(alloc, map, set, &ids)?;
    let planned = put_all(alloc, map, &ids, body)?;
    Ok(planned)
}

// The common part of the brushes, or the first row that refuses the command.
fn intersected(alloc: Global, map: &Map, set: &Settings, ids: &[NodeId]) -> Result<Body, OpFault>
    requires some { 0 < length ids.now }
    requires few { length ids.now < 4096 }
    ensures { IsIntersected set.now (whole map.now) ids.now result }
{
    map.is_map();
    refuse_brushes(map, ids)?;
    let faces = all_faces(alloc, map, ids)?;
    let solids = solids_in_turn(alloc, map, ids)?;
    match intersect(alloc, &solids) {
        Ok(solid) => {
            let body = body_of_all(alloc, &faces, &solid)?;
            Ok(body)
        }
        Err(IntersectFault::Apart(place)) => {
            Err(OpFault::No(Refusal::Apart(ids[place as usize].number())))
        }
        Err(IntersectFault::TooManyFaces(count)) => Err(OpFault::No(Refusal::TooManyFaces(
            ids[0].number(),
            u64::from(count),
        ))),
        Err(IntersectFault::Memory) => Err(OpFault::Memory),
    }
}

// The first brush becomes the common part, and the others are deleted.
fn put_all(alloc: Global, map: &Map, ids: &[NodeId], body: Body) -> Result<Planned, OpFault>
    requires some { 0 < length ids.now }
    ensures { Ends (whole map.now) ids.now (keep_first body ids.now (whole map.now)) 0 Done result }
{
    let mut change = Change::new(alloc, map);
    change.room(0)?;
    keep_first(alloc, map, &mut change, ids, body)?;
    prune(alloc, map, &mut change, ids)?;
    change.tighten(map);
    let reply = Reply::Ok;
    Ok(Planned { change, reply })
}

fn keep_first(
    alloc: Global,
    map: &Map,
    change: &mut Change,
    ids: &[NodeId],
    body: Body,
) -> Result<(), AllocError>
    requires some { 0 < length ids.now }
    ensures { OnOk result (changed map.now change.new ≡ keep_first body ids.now (changed map.now change.old)) }
{
    change.put_body(alloc, map, ids[0], body)?;
    delete_all(alloc, map, change, &ids[1..])?;
    Ok(())
}

fn delete_all(
    alloc: Global,
    map: &Map,
    change: &mut Change,
    ids: &[NodeId],
) -> Result<(), AllocError>
    ensures { OnOk result (changed map.now change.new ≡ each_in_turn delete ids.now (changed map.now change.old)) }
{
    for id in ids {
        change.delete(alloc, map, *id)?;
    }
    Ok(())
}
