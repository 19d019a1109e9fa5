//! Polyhedra that a motion moves.

ghost use Rattle.std.specs.Prelude.{◌≡◌, ℕ, map, IfOk, IsTrue, None, Some};
ghost use Rattle.algebra.specs.Members.{Every};
ghost use Rattle.exact_geom.specs.Planes.{first_out_of_range};
ghost use Rattle.half_arena.specs.Slots.{contents};
ghost use Rattle.orient48.specs.Motions.{moved_plane, is_flip, is_signed_permutation};
ghost use Rattle.half_poly.specs.declared.links.Face.{Face};
ghost use Rattle.half_poly.specs.Places.{AreDistinct};
ghost use Rattle.half_poly.specs.Shapes.{IsShape};
ghost use Rattle.half_poly.specs.Turned.{AreMovedEdges};
ghost use Rattle.half_poly.specs.Moving.{IsMovedShape, IsMovedTo};

use crate::links::{Edges, copy_edges, copy_faces, copy_vertices};
use crate::moving::{move_faces, move_vertices};
use crate::names::slot_names;
use crate::poly::{Poly, of_shape};
use crate::shape::Shape;
use crate::turning::turned_edges;
use orient48::Motion;
use std::alloc::{AllocError, Global};

// The half-edges, which a flip turns round.
fn moved_edges(alloc: Global, flips: bool, edges: &Edges) -> Result<Edges, AllocError>
    ensures { IfOk result (λ after. AreMovedEdges flips (contents edges.now) (contents after)) }
{
    if flips {
        turned_edges(alloc, edges)
    } else {
        copy_edges(edges)
    }
}

// Whether the motion turns left into right.
fn is_flip(motion: &Motion) -> bool
    ensures flip { result ≡ is_flip motion.now.matrix }
    ensures signed { IsTrue (is_signed_permutation motion.now.matrix) }
{
    motion.orient().is_flip()
}

// The arenas, moved, or `None` where a vertex leaves the world.
fn moved_shape(alloc: Global, motion: &Motion, shape: &Shape) -> Result<Option<Shape>, AllocError>
    requires shape { IsShape (contents shape.now.vertices) (contents shape.now.edges) (contents shape.now.faces) shape.now.order.items }
    requires once { AreDistinct (map (λ id. id.0) shape.now.order.items) }
    requires in_range { (k : ℕ) (f : Face) → contents shape.now.faces k ≡ Some f → first_out_of_range (moved_plane motion.now f.plane) ≡ None }
    ensures moved { IfOk result (IsMovedShape motion.now shape.now) }
{
    let edges = moved_edges(alloc, is_flip(motion), &shape.edges)?;
    let names = slot_names(
        alloc,
        &shape.vertices,
        &shape.edges,
        &shape.faces,
        &shape.order,
    )?;
    let mut vertices = copy_vertices(&shape.vertices)?;
    let mut faces = copy_faces(&shape.faces)?;
    let order = Vec::from_slice(alloc, &shape.order)?;
    move_faces(motion, &mut faces);
    if !move_vertices(&names, &faces, &order, &mut vertices) {
        return Ok(None);
    }
    Ok(Some(Shape {
        vertices,
        edges,
        faces,
        order,
    }))
}

impl Poly {
    /// The polyhedron of the moved planes, each with its tag, where the points of all moved planes are in range. `None` exactly
    /// where a vertex leaves the world, the cube from -4096 to 4096. An error comes for want of memory alone.
    ///
    /// It takes time in the number of slots of vertices, edges and faces, times a logarithm at most.
    pub fn moved(&self, alloc: Global, motion: &Motion) -> Result<Option<Poly>, AllocError>
        requires in_range { Every (λ s. first_out_of_range (moved_plane motion.now s.plane) ≡ None) self.now }
        ensures moved { IfOk result (IsMovedTo motion.now self.now) }
        ensures signed { IsTrue (is_signed_permutation motion.now.matrix) }
    {
        is_flip(motion);
        let Some(shape) = moved_shape(alloc, motion, &self.shape)? else {
            return Ok(None);
        };
        Ok(Some(of_shape(alloc, shape)?))
    }
}
