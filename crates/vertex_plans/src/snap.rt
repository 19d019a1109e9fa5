//! `snap`, planned.

ghost use Rattle.std.specs.Prelude.{IfOk, IfErr};
ghost use Rattle.map_model.specs.Tree.{whole};
ghost use Rattle.map_model.specs.Edits.{swap};
ghost use Rattle.map_model.specs.Commands.{Snap, IsGood};
ghost use Rattle.map_model.specs.Promises.{Plans};
ghost use Rattle.exact_geom.specs.Rounding.{IsGrid};
ghost use Rattle.tree_node.specs.Held.{IsMap};
ghost use Rattle.tree_ops.specs.Faults.{RefusesRightly};
ghost use Rattle.vertex_plans.specs.Snaps.{IsRounded};

use crate::putting::{NewBody, put_all};
use crate::snapping::snap_all;
use crate::sorting::few;
use brush_plans::refuse_brushes;
use exact_geom::Rows;
use map_nodes::NodeId;
use std::alloc::Global;
use tree_node::Map;
use tree_ops::{OpFault, Planned, Settings, ids};

/// Plans `snap`: the first refusal of the one order, or a change that names exactly the nodes that differ, with the reply.
/// The map after the change is one again. Nothing is said where there is no memory for it.
pub(crate) fn plan_snap(
    alloc: Global,
    map: &Map,
    set: &Settings,
    grid: &i32,
    nodes: &Rows<u32>,
) -> Result<Planned, OpFault>
    requires good { IsGood (Snap grid.now nodes.now) }
    ensures planned { IfOk result (λ p. Plans set.now (whole map.now) (Snap grid.now nodes.now) p.change p.reply) }
    ensures sound { IfOk result (λ p. IsMap (swap (whole map.now) p.change)) }
    ensures refused { IfErr result (RefusesRightly set.now (whole map.now) (Snap grid.now nodes.now)) }
{
    map.is_map();
    set.has_material();
    let ids = ids(alloc, nodes)?;
    let bodies = rounded(alloc, map, set, grid, &ids)?;
    let planned = put_all(alloc, map, &ids, bodies.into_vec())?;
    Ok(planned)
}

// The brushes with their vertices rounded, or the first row that refuses it.
fn rounded(
    alloc: Global,
    map: &Map,
    set: &Settings,
    grid: &i32,
    ids: &[NodeId],
) -> Result<Rows<NewBody>, OpFault>
    requires grid { IsGrid grid.now }
    ensures { IsRounded set.now (whole map.now) grid.now ids.now result }
{
    refuse_brushes(map, ids)?;
    let list = snap_all(alloc, map, grid, ids)?;
    few(alloc, list)
}
