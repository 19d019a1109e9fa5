//! The vertices of a polyhedron in the order of their names.

ghost use Rattle.std.specs.Prelude.{◌≡◌, ◌+◌, ◌<◌, ℕ, length, get_or, map, IfOk, OnOk, IsOk, Some};
ghost use Rattle.algebra.specs.Space.{Homogeneous};
ghost use Rattle.exact_geom.specs.Vertices.{IsReduced};
ghost use Rattle.half_arena.specs.Slots.{contents};
ghost use Rattle.half_poly.specs.declared.links.HalfEdge.{HalfEdge};
ghost use Rattle.half_poly.specs.Names.{with_number, NamesBelow, HasNames, AreCorners, InOrder, corner_id, AreNamed, no_name};
ghost use Rattle.half_poly.specs.Moving.{AreSlotNames};
ghost use Rattle.half_poly.specs.Places.{AreDistinct};
ghost use Rattle.half_poly.specs.Shapes.{IsShape, sides_of, solid_of};

use crate::links::{Edges, Faces, Vertices};
use crate::places::{number_at, places_of};
use half_arena::{EdgeId, FaceId, SlotId, VertId};
use std::alloc::{AllocError, Global};

/// The three least numbers of faces of a vertex. Where fewer were met, the count of all faces stands in their places.
#[derive(Clone, Copy, Debug, PartialEq, Eq, PartialOrd, Ord)]
pub(crate) struct Name {
    pub first: usize,
    pub second: usize,
    pub third: usize,
}

/// A vertex by its slot, with its name.
#[derive(Clone, Copy, Debug, PartialEq, Eq, PartialOrd, Ord)]
pub(crate) struct Corner {
    pub name: Name,
    pub slot: usize,
}

// The three least with one number more.
fn with_number(name: Name, number: usize) -> Name
    ensures { result ≡ with_number name number }
{
    let Name {
        first,
        second,
        third,
    } = name;
    if number < first {
        Name {
            first: number,
            second: first,
            third: second,
        }
    } else if number == first {
        name
    } else if number < second {
        Name {
            first,
            second: number,
            third: second,
        }
    } else if number == second {
        name
    } else if number < third {
        Name {
            first,
            second,
            third: number,
        }
    } else {
        name
    }
}

/// The name in a table, or one of zeros past its end.
pub(crate) fn name_at(names: &[Name], place: usize) -> Name
    ensures { result ≡ get_or names.now place no_name }
{
    match names.get(place) {
        Some(name) => *name,
        None => Name {
            first: 0,
            second: 0,
            third: 0,
        },
    }
}

// Counts the face of the half-edge in a slot for the vertex where it begins.
fn count_face(edges: &Edges, numbers: &[usize], place: usize, names: &mut [Name])
    ensures length { length names.new ≡ length names.old }
    ensures names { (count : ℕ) →
        ((e : ℕ) (h : HalfEdge) → contents edges.now e ≡ Some h → get_or numbers.now h.face.0 0 < count) →
        NamesBelow (contents edges.now) numbers.now count names.old place → NamesBelow (contents edges.now) numbers.now count names.new (place + 1) }
{
    if let Some(edge) = edges.get(EdgeId::at(place)) {
        let vertex = edge.origin.place();
        if vertex < names.len() {
            names[vertex] = with_number(names[vertex], number_at(numbers, edge.face.place()));
        }
    }
}

// Counts the faces of all half-edges.
fn count_faces(edges: &Edges, numbers: &[usize], count: usize, names: &mut [Name])
    requires within { (e : ℕ) (h : HalfEdge) → contents edges.now e ≡ Some h → get_or numbers.now h.face.0 0 < count }
    requires none { NamesBelow (contents edges.now) numbers.now count names.old 0 }
    ensures length { length names.new ≡ length names.old }
    ensures names { HasNames (contents edges.now) numbers.now count names.new }
{
    for place in 0..edges.place_limit() {
        count_face(edges, numbers, place, names);
    }
}

// The names of the vertices, by their slots: `numbers` has the number of each face, by its slot, below the count.
fn names_of(
    alloc: Global,
    edges: &Edges,
    numbers: &[usize],
    count: usize,
    vertex_limit: usize,
) -> Result<Vec<Name>, AllocError>
    requires within { (e : ℕ) (h : HalfEdge) → contents edges.now e ≡ Some h → get_or numbers.now h.face.0 0 < count }
    ensures length { IfOk result (λ names. length names.items ≡ vertex_limit) }
    ensures names { IfOk result (λ names. HasNames (contents edges.now) numbers.now count names.items) }
{
    let unmet = Name {
        first: count,
        second: count,
        third: count,
    };
    let mut names = vec![in alloc; unmet; vertex_limit]?;
    count_faces(edges, numbers, count, &mut names);
    Ok(names)
}

// Adds the vertex in a slot, if there is one.
fn add_corner(
    vertices: &Vertices,
    names: &[Name],
    place: usize,
    corners: &mut Vec<Corner>,
) -> Result<(), AllocError>
    requires within { place < length names.now }
    ensures corners { OnOk result (AreCorners (contents vertices.now) names.now place corners.old.items
        → AreCorners (contents vertices.now) names.now (place + 1) corners.new.items) }
    ensures reduced { (v : Homogeneous) → contents vertices.now place ≡ Some v → IsReduced v }
{
    if let Some(vertex) = vertices.get(VertId::at(place)) {
        // What it reads tells that the vertex is reduced.
        let _parts = vertex.parts();
        corners.push(Corner {
            name: names[place],
            slot: place,
        })?;
    }
    Ok(())
}

// The vertices with their names, in the order of their slots.
fn corners_of(alloc: Global, vertices: &Vertices, names: &[Name]) -> Result<Vec<Corner>, AllocError>
    ensures corners { IfOk result (λ corners. AreCorners (contents vertices.now) names.now (length names.now) corners.items) }
    ensures reduced { IsOk result → (x : ℕ) (v : Homogeneous) → x < length names.now → contents vertices.now x ≡ Some v → IsReduced v }
{
    let mut corners = Vec::new(alloc);
    for place in 0..names.len() {
        add_corner(vertices, names, place, &mut corners)?;
    }
    Ok(corners)
}

// The vertices with their names, in the order of their names.
fn sorted_corners(
    alloc: Global,
    vertices: &Vertices,
    names: &[Name],
) -> Result<Vec<Corner>, AllocError>
    ensures corners { IfOk result (λ corners. AreCorners (contents vertices.now) names.now (length names.now) corners.items) }
    ensures reduced { IsOk result → (x : ℕ) (v : Homogeneous) → x < length names.now → contents vertices.now x ≡ Some v → IsReduced v }
    ensures order { IfOk result (λ corners. InOrder corners.items) }
{
    let mut corners = corners_of(alloc, vertices, names)?;
    corners.sort()?;
    Ok(corners)
}

// The numbers of the vertices.
fn ids_of(alloc: Global, corners: &[Corner]) -> Result<Vec<VertId>, AllocError>
    ensures { IfOk result (λ ids. ids.items ≡ map corner_id corners.now) }
{
    let mut ids = Vec::new(alloc);
    for corner in corners {
        ids.push(VertId::at(corner.slot))?;
    }
    Ok(ids)
}

/// The vertices of a polyhedron in the order of their names.
pub(crate) fn named(
    alloc: Global,
    vertices: &Vertices,
    edges: &Edges,
    faces: &Faces,
    order: &[FaceId],
) -> Result<Vec<VertId>, AllocError>
    requires shape { IsShape (contents vertices.now) (contents edges.now) (contents faces.now) order.now }
    requires once { AreDistinct (map (λ id. id.0) order.now) }
    ensures { IfOk result (λ ids. AreNamed (contents vertices.now) (solid_of (sides_of (contents faces.now) order.now)) ids.items) }
{
    let numbers = places_of(alloc, order, faces.place_limit())?;
    let names = names_of(alloc, edges, &numbers, order.len(), vertices.place_limit())?;
    let corners = sorted_corners(alloc, vertices, &names)?;
    let ids = ids_of(alloc, &corners)?;
    Ok(ids)
}

/// The names of the vertices, by their slots.
pub(crate) fn slot_names(
    alloc: Global,
    vertices: &Vertices,
    edges: &Edges,
    faces: &Faces,
    order: &[FaceId],
) -> Result<Vec<Name>, AllocError>
    requires shape { IsShape (contents vertices.now) (contents edges.now) (contents faces.now) order.now }
    requires once { AreDistinct (map (λ id. id.0) order.now) }
    ensures { IfOk result (λ names. AreSlotNames (contents vertices.now) (solid_of (sides_of (contents faces.now) order.now)) names.items) }
{
    let numbers = places_of(alloc, order, faces.place_limit())?;
    names_of(alloc, edges, &numbers, order.len(), vertices.place_limit())
}
