//! `hull`, planned.

ghost use Rattle.std.specs.Prelude.{◌≡◌, IfOk, IfErr};
ghost use Rattle.map_model.specs.Tree.{whole};
ghost use Rattle.map_model.specs.Edits.{swap};
ghost use Rattle.map_model.specs.Commands.{Hull, IsGood, point_in, points_in};
ghost use Rattle.map_model.specs.Promises.{Plans};
ghost use Rattle.cmd_text.specs.Kept.{ArePoints};
ghost use Rattle.tree_node.specs.Held.{IsMap};
ghost use Rattle.tree_ops.specs.Faults.{RefusesRightly};
ghost use Rattle.hull_plans.specs.Hulled.{IsHulled};

use crate::solids::{hull_at, planes_of};
use brush_plans::{plain_faces, put_brush};
use exact_geom::{Point, Rows};
use map_nodes::Body;
use std::alloc::{AllocError, Global};
use tree_node::Map;
use tree_ops::{OpFault, Planned, Settings};

/// Plans `hull`: a brush with plain fields, with a face for each facet of the points, at the end of the world's brushes.
pub(crate) fn plan_hull(
    alloc: Global,
    map: &Map,
    set: &Settings,
    points: &Rows<[i32; 3]>,
) -> Result<Planned, OpFault>
    requires good { IsGood (Hull points.now) }
    ensures planned { IfOk result (λ p. Plans set.now (whole map.now) (Hull points.now) p.change p.reply) }
    ensures sound { IfOk result (λ p. IsMap (swap (whole map.now) p.change)) }
    ensures refused { IfErr result (RefusesRightly set.now (whole map.now) (Hull points.now)) }
{
    map.is_map();
    set.has_material();
    let body = hull_body(alloc, map, set, points)?;
    let planned = put_brush(alloc, map, body)?;
    Ok(planned)
}

// The brush, or the first row that refuses it.
fn hull_body(
    alloc: Global,
    map: &Map,
    set: &Settings,
    points: &Rows<[i32; 3]>,
) -> Result<Body, OpFault>
    requires good { ArePoints points.now }
    ensures { IsHulled set.now (whole map.now) points.now result }
{
    let corners = points_in(alloc, points.list())?;
    let solid = hull_at(alloc, &corners, 0)?;
    let planes = planes_of(alloc, solid.sides())?;
    let faces = plain_faces(alloc, map, set, &planes)?;
    let rows = Rows::of(faces);
    Ok(Body::of(rows, solid))
}

// The points of their numbers, in order.
fn points_in(alloc: Global, list: &[[i32; 3]]) -> Result<Vec<Point>, AllocError>
    ensures { IfOk result (λ points. points.items ≡ points_in list.now) }
{
    let mut points = Vec::with_capacity(alloc, list.len())?;
    for numbers in list {
        points.push(point(*numbers))?;
    }
    Ok(points)
}

fn point(numbers: [i32; 3]) -> Point
    ensures { result ≡ point_in numbers }
{
    let [x, y, z] = numbers;
    Point { x, y, z }
}
