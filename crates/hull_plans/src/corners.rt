//! The vertices of brushes as points.

ghost use Rattle.std.specs.Prelude.{◌≡◌, ℕ, ◌<◌, ◌++◌, length, IsTrue, OnOk};
ghost use Rattle.algebra.specs.Members.{◌∈◌};
ghost use Rattle.map_model.specs.Tree.{whole, is_brush};
ghost use Rattle.hull_plans.specs.Merges.{IsCornersAt, IsCorners};

use cmd_text::Refusal;
use cut_plans::body_at;
use exact_geom::{Point, Rows};
use hull_merge::{vertices_of, whole_points};
use map_nodes::NodeId;
use std::alloc::{AllocError, Global};
use tree_node::Map;
use tree_ops::OpFault;

/// The vertices of the brushes as points, one brush after another. `FractionalVertex` with the first brush that has one that
/// isn't whole.
pub(crate) fn corners_of(alloc: Global, map: &Map, ids: &[NodeId]) -> Result<Rows<Point>, OpFault>
    requires brushes { (n : ℕ) → n ∈ ids.now → IsTrue (is_brush (whole map.now) n) }
    requires few { length ids.now < 4096 }
    ensures { IsCorners (whole map.now) ids.now result }
{
    let mut all = Vec::new(alloc);
    for id in ids {
        let points = corners_at(alloc, map, *id)?;
        add(&mut all, points.list())?;
    }
    Ok(Rows::of(all))
}

fn add(all: &mut Vec<Point>, points: &[Point]) -> Result<(), AllocError>
    ensures { OnOk result (all.new.items ≡ all.old.items ++ points.now) }
{
    all.extend_from_slice(points)?;
    Ok(())
}

fn corners_at(alloc: Global, map: &Map, id: NodeId) -> Result<Rows<Point>, OpFault>
    requires brush { IsTrue (is_brush (whole map.now) id) }
    ensures { IsCornersAt (whole map.now) id result }
{
    let body = body_at(map, id);
    body.is_valid();
    let vertices = vertices_of(alloc, body.solid())?;
    let found = whole_points(alloc, &vertices)?;
    match found {
        Some(points) => Ok(Rows::of(points)),
        None => Err(OpFault::No(Refusal::FractionalVertex(id.number()))),
    }
}
