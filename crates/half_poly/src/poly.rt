//! Polyhedra.

ghost use Rattle.std.specs.Prelude.{◌≡◌, ◌≤◌, ◌<◌, ◌+◌, ◌^◌, ◌↔◌, ℕ, false, map, length, slice_get, IfOk, OnErr, IsTrue};
ghost use Rattle.std.specs.Option.{option_and_then, option_map};
ghost use Rattle.algebra.specs.Members.{Every};
ghost use Rattle.half_arena.specs.Slots.{contents};
ghost use Rattle.exact_geom.specs.Planes.{half_space};
ghost use Rattle.solid_laws.specs.FaceLoop.{HasVertexCount, HasVertex, HasLoopVertex};
ghost use Rattle.poly_laws.specs.Counts.{AmongVertices, AmongEdges};
ghost use Rattle.half_poly.specs.Shapes.{IsShape, Says, DistinctTags, sides_of, solid_of};
ghost use Rattle.half_poly.specs.Edges.{HasEdgeCount};
ghost use Rattle.half_poly.specs.Parts.{SaysPart};
ghost use Rattle.half_poly.specs.Polyhedron.{HasPolyhedron};
ghost use Rattle.half_poly.specs.Tags.{HasTaggedLoopVertex, with_base};

use crate::cut::Cut;
use crate::judging::{has_behind, has_front};
use crate::links::{Face, Faces, Vertices};
use crate::loops::loops_of;
use crate::names::named;
use crate::shape::{Shape, copy_shape, halved};
use crate::signs::signs_of;
use crate::tags::{face_with, retag_all};
use exact_geom::{HVertex, Plane, Steps};
use half_arena::{FaceId, VertId};
use std::alloc::{AllocError, Global};
use std::marker::Model;
use std::sync::ledger::Ledger;

/// A convex polyhedron: the vertices, half-edges and loops of a trimmed list of tagged planes. A contract sees that list.
#[derive(Drop)]
pub struct Poly {
    pub(crate) shape: Shape,
    // The vertices in the order of their names.
    pub(crate) named: Vec<VertId>,
    // For each face, in order, the numbers of the vertices round it.
    pub(crate) loops: Vec<Vec<usize>>,
}

impl Model for Poly {
    ghost use Rattle.std.specs.Prelude.{List, map};
    ghost use Rattle.half_arena.specs.Slots.{contents};
    ghost use Rattle.half_poly.specs.Shapes.{Tagged, sides_of};
    ghost use Rattle.half_poly.specs.Readings.{IsPoly};

    ghost Value = { List Tagged };

    ghost view = { λ p. sides_of (contents p.shape.faces) p.shape.order.items };

    ghost invariant = { λ p. IsPoly p.shape p.named.items (map (λ l. l.items) p.loops.items) };
}

/// What a plane leaves of a polyhedron.
#[derive(Drop)]
pub(crate) enum Part {
    /// No vertex is in front of the plane.
    Missed,
    /// A part is cut off, and this stays.
    Halved(Poly),
    /// No vertex is behind the plane, though some are in front.
    Gone,
}

/// The polyhedron of these arenas.
pub(crate) fn of_shape(alloc: Global, shape: Shape) -> Result<Poly, AllocError>
    requires shape { IsShape (contents shape.vertices) (contents shape.edges) (contents shape.faces) shape.order.items }
    requires tags { DistinctTags (sides_of (contents shape.faces) shape.order.items) }
    ensures { IfOk result (λ poly. poly ≡ sides_of (contents shape.faces) shape.order.items) }
{
    let named = named(
        alloc,
        &shape.vertices,
        &shape.edges,
        &shape.faces,
        &shape.order,
    )?;
    let loops = loops_of(alloc, &shape, &named)?;
    Ok(Poly {
        shape,
        named,
        loops,
    })
}

impl Poly {
    // What the plane leaves of it. The plane's face gets the tag.
    fn part<L: Ledger>(
        &self,
        alloc: Global,
        plane: &Plane,
        tag: u32,
        steps: &mut Steps<L>,
    ) -> Result<Part, AllocError>
        requires new { Every (λ s. ¬ (s.tag ≡ tag)) self.now }
        ensures says { IfOk result (SaysPart self.now (record { plane = plane.now; tag = tag })) }
        ensures steps { (v e : ℕ) → AmongVertices (solid_of self.now) v → AmongEdges (solid_of self.now) e → steps.new ≤ steps.old + v + e }
    {
        let signs = signs_of(alloc, &self.shape.vertices, plane, steps)?;
        if !has_front(&signs) {
            return Ok(Part::Missed);
        }
        if !has_behind(&signs) {
            return Ok(Part::Gone);
        }
        let after = halved(
            alloc,
            &self.shape.vertices,
            &self.shape.edges,
            &self.shape.faces,
            &self.shape.order,
            &signs,
            plane,
            tag,
            steps,
        )?;
        Ok(Part::Halved(of_shape(alloc, after)?))
    }

    /// Cuts off what lies in front of the plane. The plane's face comes last and gets the tag, which must be new. `Missed`
    /// exactly where no vertex is in front, `Gone` exactly where none is behind; then nothing changes, and neither does it for
    /// want of memory. It counts at most one step for each vertex and one for each edge.
    pub fn cut<L: Ledger>(
        &mut self,
        alloc: Global,
        plane: &Plane,
        tag: u32,
        steps: &mut Steps<L>,
    ) -> Result<Cut, AllocError>
        requires new { Every (λ s. ¬ (s.tag ≡ tag)) self.old }
        ensures says { IfOk result (Says self.old (record { plane = plane.now; tag = tag }) self.new) }
        ensures err { OnErr result (self.new ≡ self.old) }
        ensures steps { (v e : ℕ) → AmongVertices (solid_of self.old) v → AmongEdges (solid_of self.old) e → steps.new ≤ steps.old + v + e }
    {
        match self.part(alloc, plane, tag, steps)? {
            Part::Missed => Ok(Cut::Missed),
            Part::Gone => Ok(Cut::Gone),
            Part::Halved(after) => {
                *self = after;
                Ok(Cut::Halved)
            }
        }
    }

    /// How many faces there are. The polyhedron's arenas hold each vertex and each face once, and each edge as two half-edges,
    /// one in each direction.
    pub fn faces(&self) -> usize
        ensures count { result ≡ length self.now }
        ensures polyhedron { HasPolyhedron self.now }
    {
        self.shape.order.len()
    }

    /// The plane of the face with this number, in their order. `None` exactly past the end.
    pub fn plane(&self, face: usize) -> Option<Plane>
        ensures plane { result ≡ option_map (λ s. s.plane) (slice_get self.now face) }
    {
        plane_of(face_at(&self.shape.faces, &self.shape.order, face))
    }

    /// The tag of the face with this number. `None` exactly past the end.
    pub fn tag(&self, face: usize) -> Option<u32>
        ensures tag { result ≡ option_map (λ s. s.tag) (slice_get self.now face) }
    {
        tag_of(face_at(&self.shape.faces, &self.shape.order, face))
    }

    /// How many vertices there are.
    pub fn vertex_count(&self) -> usize
        ensures count { HasVertexCount (solid_of self.now) result }
    {
        self.named.len()
    }

    /// How many edges there are.
    pub fn edge_count(&self) -> usize
        ensures count { HasEdgeCount (solid_of self.now) result }
    {
        self.shape.edges.len() / 2
    }

    /// The vertex with number k, of the vertices in the order of their names: a vertex is named by the first three faces, by
    /// their numbers, that meet there. `None` exactly past the end.
    pub fn vertex(&self, k: usize) -> Option<HVertex>
        ensures vertex { HasVertex (solid_of self.now) k result }
    {
        vertex_at(&self.shape.vertices, &self.named, k)
    }

    /// The number of the vertex at place k of the loop of the face with this number: its vertices clockwise, seen from outside,
    /// from the one with the least number on. `None` exactly past the end, or where there is no such face.
    pub fn loop_of_face(&self, face: usize, k: usize) -> Option<usize>
        ensures vertex { HasLoopVertex (solid_of self.now) face k result }
    {
        number_at(&self.loops, face, k)
    }

    /// Whether a face has this tag.
    pub fn has_tag(&self, tag: u32) -> bool
        ensures tag { IsTrue result ↔ ¬ (Every (λ s. ¬ (s.tag ≡ tag)) self.now) }
        ensures new { result ≡ false → Every (λ s. ¬ (s.tag ≡ tag)) self.now }
    {
        face_with(&self.shape.faces, &self.shape.order, tag).is_some()
    }

    /// The same of the face with this tag. `None` exactly past the end, or where no face has the tag.
    pub fn loop_vertex(&self, tag: u32, k: usize) -> Option<usize>
        ensures vertex { HasTaggedLoopVertex self.now tag k result }
    {
        match face_with(&self.shape.faces, &self.shape.order, tag) {
            Some(face) => number_at(&self.loops, face, k),
            None => None,
        }
    }

    /// Adds a number to each tag below 2^31. It takes no memory.
    pub fn retag(&mut self, base: u32)
        requires room { Every (λ s. s.tag < 2 ^ 31 → s.tag + base < 2 ^ 31) self.old }
        ensures tags { self.new ≡ map (with_base base) self.old }
    {
        retag_all(&mut self.shape.faces, base);
    }

    /// An equal polyhedron, or an error for want of memory.
    pub fn copy(&self, alloc: Global) -> Result<Poly, AllocError>
        ensures equal { IfOk result (λ copy. copy ≡ self.now) }
    {
        Ok(Poly {
            shape: copy_shape(alloc, &self.shape)?,
            named: Vec::from_slice(alloc, &self.named)?,
            loops: copy_loops(alloc, &self.loops)?,
        })
    }
}

/// The face with this number, if there is one.
pub(crate) fn face_at(faces: &Faces, order: &[FaceId], number: usize) -> Option<Face>
    ensures { result ≡ option_and_then (λ id. contents faces.now id.0) (slice_get order.now number) }
{
    faces.get(*order.get(number)?).copied()
}

/// The plane of a face, if there is one.
pub(crate) fn plane_of(face: Option<Face>) -> Option<Plane>
    ensures { result ≡ option_map (λ f. f.plane) face }
{
    Some(face?.plane)
}

// The tag of a face, if there is one.
fn tag_of(face: Option<Face>) -> Option<u32>
    ensures { result ≡ option_map (λ f. f.tag) face }
{
    Some(face?.tag)
}

// The vertex with number k, if there is one.
fn vertex_at(vertices: &Vertices, named: &[VertId], k: usize) -> Option<HVertex>
    ensures { result ≡ option_and_then (λ id. contents vertices.now id.0) (slice_get named.now k) }
{
    vertices.get(*named.get(k)?).copied()
}

// The number at place k of the loop of a face, if both are there.
fn number_at(loops: &[Vec<usize>], face: usize, k: usize) -> Option<usize>
    ensures { result ≡ option_and_then (λ numbers. slice_get numbers k) (slice_get (map (λ l. l.items) loops.now) face) }
{
    loops.get(face)?.get(k).copied()
}

// The loops again.
fn copy_loops(alloc: Global, loops: &[Vec<usize>]) -> Result<Vec<Vec<usize>>, AllocError>
    ensures { IfOk result (λ copied. map (λ l. l.items) copied.items ≡ map (λ l. l.items) loops.now) }
{
    let mut copied = Vec::new(alloc);
    for numbers in loops {
        copied.push(Vec::from_slice(alloc, numbers)?)?;
    }
    Ok(copied)
}
