//! `merge`, planned.

ghost use Rattle.std.specs.Prelude.{◌≡◌, ◌<◌, length, IfOk, IfErr};
ghost use Rattle.map_model.specs.Tree.{whole};
ghost use Rattle.map_model.specs.Edits.{swap};
ghost use Rattle.map_model.specs.Commands.{Merge, IsGood};
ghost use Rattle.map_model.specs.Promises.{Plans};
ghost use Rattle.tree_node.specs.Held.{IsMap};
ghost use Rattle.tree_ops.specs.Faults.{RefusesRightly};
ghost use Rattle.hull_plans.specs.Merges.{IsMerged};

use crate::corners::corners_of;
use crate::fields::faces_on;
use crate::keeping::keep_first;
use crate::solids::{hull_at, planes_of};
use brush_plans::refuse_brushes;
use exact_geom::Rows;
use map_nodes::{Body, NodeId};
use std::alloc::Global;
use tree_node::Map;
use tree_ops::{OpFault, Planned, Settings, ids};

/// Plans `merge`: the first of the brushes becomes the hull of the vertices of all, and the others go.
pub(crate) fn plan_merge(
    alloc: Global,
    map: &Map,
    set: &Settings,
    nodes: &Rows<u32>,
) -> Result<Planned, OpFault>
    requires good { IsGood (Merge nodes.now) }
    ensures planned { IfOk result (λ p. Plans set.now (whole map.now) (Merge nodes.now) p.change p.reply) }
    ensures sound { IfOk result (λ p. IsMap (swap (whole map.now) p.change)) }
    ensures refused { IfErr result (RefusesRightly set.now (whole map.now) (Merge nodes.now)) }
{
    map.is_map();
    set.has_material();
    let ids = ids(alloc, nodes)?;
    let body = merged(alloc, map, set, &ids)?;
    let planned = keep_first(alloc, map, &ids, body)?;
    Ok(planned)
}

// The merged brush, or the first row that refuses it.
fn merged(alloc: Global, map: &Map, set: &Settings, ids: &[NodeId]) -> Result<Body, OpFault>
    requires some { 0 < length ids.now }
    requires few { length ids.now < 4096 }
    ensures { IsMerged set.now (whole map.now) ids.now result }
{
    map.is_map();
    refuse_brushes(map, ids)?;
    let corners = corners_of(alloc, map, ids)?;
    let solid = hull_at(alloc, corners.list(), ids[0].number())?;
    let planes = planes_of(alloc, solid.sides())?;
    let faces = faces_on(alloc, map, set, ids, &planes)?;
    let rows = Rows::of(faces);
    Ok(Body::of(rows, solid))
}
