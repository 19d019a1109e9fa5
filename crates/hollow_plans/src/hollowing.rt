//! `hollow`, planned.

ghost use Rattle.std.specs.Prelude.{IfOk, IfErr};
ghost use Rattle.map_model.specs.Tree.{whole};
ghost use Rattle.map_model.specs.Edits.{swap};
ghost use Rattle.map_model.specs.Commands.{Hollow, IsGood};
ghost use Rattle.map_model.specs.Promises.{Plans};
ghost use Rattle.tree_node.specs.Held.{IsMap};
ghost use Rattle.tree_ops.specs.Faults.{RefusesRightly};
ghost use Rattle.csg_ops.specs.Hollows.{IsThickness};
ghost use Rattle.hollow_plans.specs.Walls.{IsHollow};

use crate::boxes::refuse_other_brushes;
use crate::placing::put_all;
use crate::walls::{Hollowed, hollow_all};
use brush_plans::refuse_brushes;
use exact_geom::Rows;
use map_nodes::NodeId;
use std::alloc::Global;
use tree_node::Map;
use tree_ops::{OpFault, Planned, Settings, ids};

/// Plans `hollow`: the first refusal of the one order, or a change that names exactly the nodes that differ, with the reply. The
/// map after the change is one again. Nothing is said where there is no memory for it.
pub(crate) fn plan_hollow(
    alloc: Global,
    map: &Map,
    set: &Settings,
    thickness: i32,
    nodes: &Rows<u32>,
) -> Result<Planned, OpFault>
    requires good { IsGood (Hollow thickness nodes.now) }
    ensures planned { IfOk result (λ p. Plans set.now (whole map.now) (Hollow thickness nodes.now) p.change p.reply) }
    ensures sound { IfOk result (λ p. IsMap (swap (whole map.now) p.change)) }
    ensures refused { IfErr result (RefusesRightly set.now (whole map.now) (Hollow thickness nodes.now)) }
{
    map.is_map();
    set.has_material();
    let ids = ids(alloc, nodes)?;
    let hollowed = hollowed(alloc, map, thickness, &ids)?;
    let planned = put_all(alloc, map, &ids, hollowed)?;
    Ok(planned)
}

// The boxes with their walls, or the first row that refuses it.
fn hollowed(
    alloc: Global,
    map: &Map,
    thickness: i32,
    ids: &[NodeId],
) -> Result<Rows<Hollowed>, OpFault>
    requires thickness { IsThickness thickness }
    ensures { IsHollow (whole map.now) thickness ids.now result }
{
    refuse_brushes(map, ids)?;
    refuse_other_brushes(map, ids)?;
    hollow_all(alloc, map, thickness, ids)
}
