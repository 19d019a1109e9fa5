//! The vertices of solids, and those that are whole as points.

ghost use Rattle.std.specs.Prelude.{◌≡◌, ◌≤◌, length, map, pos, IfOk, IfSome, IsNone};
ghost use Rattle.algebra.specs.Members.{Every};
ghost use Rattle.algebra.specs.World.{InCube, world};
ghost use Rattle.solid_laws.specs.Names.{AreVertices};
ghost use Rattle.solid_brush.specs.Sides.{half_spaces};
ghost use Rattle.hull_merge.specs.Gathered.{whole_of, HasWeight};

use exact_geom::{HVertex, Point, whole};
use solid_brush::Solid;
use std::alloc::{AllocError, Global};

/// The vertices of a solid in the order of their names, at most one for each three of 128 faces. It fails only for want of memory.
pub fn vertices_of(alloc: Global, solid: &Solid) -> Result<Vec<HVertex>, AllocError>
    ensures vertices { IfOk result (λ list. AreVertices (half_spaces solid.now) list.items) }
    ensures world { IfOk result (λ list. Every (InCube world) list.items) }
    ensures few { IfOk result (λ list. length list.items ≤ 1040384) }
{
    // What it reads tells that the solid is a valid brush.
    let _sides = solid.sides();
    let mut list = Vec::new(alloc);
    for k in 0..solid.vertex_count() {
        let Some(vertex) = solid.vertex(k) else {
            unreachable!()
        };
        list.push(vertex)?;
    }
    Ok(list)
}

// The vertex as a point, if it is whole.
fn point_of(vertex: &HVertex) -> Option<Point>
    requires { InCube world vertex.now }
    ensures some { IfSome result (λ p. whole_of p ≡ vertex.now) }
    ensures none { IsNone result → ¬ (vertex.now.weight ≡ pos 1) }
{
    whole(vertex)
}

/// The vertices as points, or none where one of them isn't whole. It fails only for want of memory.
pub fn whole_points(alloc: Global, vertices: &[HVertex]) -> Result<Option<Vec<Point>>, AllocError>
    requires { Every (InCube world) vertices.now }
    ensures some { IfOk result (λ points. IfSome points (λ list. map whole_of list.items ≡ vertices.now)) }
    ensures none { IfOk result (λ points. IsNone points → HasWeight vertices.now) }
{
    let mut points = Vec::new(alloc);
    for vertex in vertices {
        let Some(point) = point_of(vertex) else {
            return Ok(None);
        };
        points.push(point)?;
    }
    Ok(Some(points))
}
