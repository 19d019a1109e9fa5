//! `vertex`, planned.

ghost use Rattle.std.specs.Prelude.{IfOk, IfErr};
ghost use Rattle.map_model.specs.Tree.{whole};
ghost use Rattle.map_model.specs.Edits.{swap};
ghost use Rattle.map_model.specs.Commands.{Vertex, IsGood};
ghost use Rattle.map_model.specs.Promises.{Plans};
ghost use Rattle.tree_node.specs.Held.{IsMap};
ghost use Rattle.tree_ops.specs.Faults.{RefusesRightly};
ghost use Rattle.vertex_plans.specs.Moves.{IsVertexMoved};

use crate::moving::moved_body;
use crate::points::points;
use crate::putting::{one, put_all};
use brush_plans::refuse_brushes;
use cut_plans::body_at;
use exact_geom::Rows;
use map_nodes::{Body, NodeId};
use std::alloc::Global;
use tree_node::Map;
use tree_ops::{OpFault, Planned, Settings};

/// Plans `vertex`: the first refusal of the one order, or a change that names exactly the nodes that differ, with the reply.
/// The map after the change is one again. Nothing is said where there is no memory for it.
pub(crate) fn plan_vertex(
    alloc: Global,
    map: &Map,
    set: &Settings,
    node: u32,
    shift: [i32; 3],
    picks: &Rows<[i32; 3]>,
) -> Result<Planned, OpFault>
    requires good { IsGood (Vertex node shift picks.now) }
    ensures planned { IfOk result (λ p. Plans set.now (whole map.now) (Vertex node shift picks.now) p.change p.reply) }
    ensures sound { IfOk result (λ p. IsMap (swap (whole map.now) p.change)) }
    ensures refused { IfErr result (RefusesRightly set.now (whole map.now) (Vertex node shift picks.now)) }
{
    map.is_map();
    set.has_material();
    let id = NodeId(node);
    let body = moved(alloc, map, set, id, shift, picks)?;
    let bodies = one(alloc, id, body)?;
    let planned = put_all(alloc, map, &[id], bodies)?;
    Ok(planned)
}

// The brush with its vertices moved, or the first row that refuses it.
fn moved(
    alloc: Global,
    map: &Map,
    set: &Settings,
    id: NodeId,
    shift: [i32; 3],
    picks: &Rows<[i32; 3]>,
) -> Result<Body, OpFault>
    requires good { IsGood (Vertex id shift picks.now) }
    ensures { IsVertexMoved set.now (whole map.now) id shift picks.now result }
{
    refuse_brushes(map, &[id])?;
    let points = points(alloc, picks)?;
    moved_body(alloc, body_at(map, id), id, shift, &points)
}
