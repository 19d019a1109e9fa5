//! The arenas of a polyhedron, and what a cut leaves of them.

ghost use Rattle.std.specs.Prelude.{◌≤◌, ◌+◌, IfOk, count_by};
ghost use Rattle.half_arena.specs.Slots.{contents};
ghost use Rattle.exact_geom.specs.Planes.{half_space};
ghost use Rattle.vertex_laws.specs.Vertex.{VertexBehind};
ghost use Rattle.half_poly.specs.Signs.{AreSigns};
ghost use Rattle.half_poly.specs.Made.{counts_through};
ghost use Rattle.half_poly.specs.Shapes.{IsShape, IsHalved, SomeInFront, sides_of, solid_of};
ghost use Rattle.half_poly.specs.Readings.{IsSameShape};

use crate::cutting::{After, cut_arenas};
use crate::links::{Edges, Faces, Vertices, copy_edges, copy_faces, copy_vertices};
use crate::ordering::order_after;
use exact_geom::{Plane, Sign, Steps};
use half_arena::FaceId;
use std::alloc::{AllocError, Global};
use std::sync::ledger::Ledger;

/// The arenas of a polyhedron, and its faces in order.
#[derive(Drop)]
pub(crate) struct Shape {
    pub vertices: Vertices,
    pub edges: Edges,
    pub faces: Faces,
    pub order: Vec<FaceId>,
}

/// The part behind the plane, where some vertices are behind it and some in front.
pub(crate) fn halved<L: Ledger>(
    alloc: Global,
    vertices: &Vertices,
    edges: &Edges,
    faces: &Faces,
    order: &[FaceId],
    signs: &[Sign],
    plane: &Plane,
    tag: u32,
    steps: &mut Steps<L>,
) -> Result<Shape, AllocError>
    requires shape { IsShape (contents vertices.now) (contents edges.now) (contents faces.now) order.now }
    requires signs { AreSigns (half_space plane.now) (contents vertices.now) signs.now }
    requires front { SomeInFront (solid_of (sides_of (contents faces.now) order.now)) (half_space plane.now) }
    requires behind { VertexBehind (solid_of (sides_of (contents faces.now) order.now)) (half_space plane.now) }
    ensures shape { IfOk result (λ after. IsShape (contents after.vertices) (contents after.edges) (contents after.faces) after.order.items) }
    ensures halved { IfOk result (λ after. IsHalved (sides_of (contents faces.now) order.now) (record { plane = plane.now; tag = tag })
        (sides_of (contents after.faces) after.order.items)) }
    ensures steps { steps.new ≤ steps.old + count_by (counts_through (contents edges.now) signs.now) edges.now.slots }
{
    // What it reads tells that the normal isn't zero.
    let _points = plane.points();
    let After {
        vertices: vertices_after,
        edges: edges_after,
        faces: faces_after,
        begin,
        wall,
    } = cut_arenas(alloc, vertices, edges, faces, signs, plane, tag, steps)?;
    let order_after = order_after(alloc, order, &begin, wall)?;
    Ok(Shape {
        vertices: vertices_after,
        edges: edges_after,
        faces: faces_after,
        order: order_after,
    })
}

/// The same arenas again, or an error for want of memory.
pub(crate) fn copy_shape(alloc: Global, shape: &Shape) -> Result<Shape, AllocError>
    ensures { IfOk result (IsSameShape shape.now) }
{
    Ok(Shape {
        vertices: copy_vertices(&shape.vertices)?,
        edges: copy_edges(&shape.edges)?,
        faces: copy_faces(&shape.faces)?,
        order: Vec::from_slice(alloc, &shape.order)?,
    })
}
