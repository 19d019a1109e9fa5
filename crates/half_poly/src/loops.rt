//! The loops of the faces of a polyhedron, by the numbers of the vertices.

ghost use Rattle.std.specs.Prelude.{◌≡◌, ◌+◌, length, map, IfOk, Some};
ghost use Rattle.half_arena.specs.Slots.{contents};
ghost use Rattle.solid_laws.specs.FaceLoop.{IsNumberedLoop};
ghost use Rattle.half_poly.specs.declared.links.HalfEdge.{HalfEdge};
ghost use Rattle.half_poly.specs.Names.{AreNamed};
ghost use Rattle.half_poly.specs.Rounds.{begin_number, is_less, LeastBelow, Least, OfFace, GoesOn, IsFirstOn, AreLoops};
ghost use Rattle.half_poly.specs.Shapes.{IsShape};
ghost use Rattle.half_poly.specs.Readings.{faces_of, points_of, face_at};

use crate::links::{Edges, entry, note};
use crate::places::{number_at, places_of};
use crate::shape::Shape;
use half_arena::{EdgeId, FaceId, SlotId, VertId};
use std::alloc::{AllocError, Global};

// The number of the vertex where a half-edge begins.
fn begin_number(edges: &Edges, numbers: &[usize], id: EdgeId) -> usize
    ensures { result ≡ begin_number (contents edges.now) numbers.now id.0 }
{
    match edges.get(id) {
        Some(edge) => number_at(numbers, edge.origin.place()),
        None => 0,
    }
}

// Whether the half-edge begins at a lesser number than the one in the table, if there is one.
fn is_less(edges: &Edges, numbers: &[usize], id: EdgeId, noted: Option<EdgeId>) -> bool
    ensures { result ≡ is_less (contents edges.now) numbers.now id.0 noted }
{
    match noted {
        Some(other) => begin_number(edges, numbers, id) < begin_number(edges, numbers, other),
        None => true,
    }
}

// Notes the half-edge in a slot where it begins at a lesser number than the one in the table.
fn note_least(edges: &Edges, numbers: &[usize], place: usize, table: &mut [Option<EdgeId>])
    ensures length { length table.new ≡ length table.old }
    ensures least { LeastBelow (contents edges.now) numbers.now table.old place → LeastBelow (contents edges.now) numbers.now table.new (place + 1) }
{
    let id = EdgeId::at(place);
    if let Some(edge) = edges.get(id) {
        let face = edge.face.place();
        if is_less(edges, numbers, id, entry(table, face)) {
            note(table, face, id);
        }
    }
}

// Notes the half-edges that begin at the least numbers.
fn note_all_least(edges: &Edges, numbers: &[usize], table: &mut [Option<EdgeId>])
    requires none { LeastBelow (contents edges.now) numbers.now table.old 0 }
    ensures length { length table.new ≡ length table.old }
    ensures least { Least (contents edges.now) numbers.now table.new }
{
    for place in 0..edges.place_limit() {
        note_least(edges, numbers, place, table);
    }
}

// For each face, by its slot, its half-edge from the vertex with the least number.
fn least_edges(
    alloc: Global,
    edges: &Edges,
    numbers: &[usize],
    face_limit: usize,
) -> Result<Vec<Option<EdgeId>>, AllocError>
    ensures length { IfOk result (λ table. length table.items ≡ face_limit) }
    ensures least { IfOk result (λ table. Least (contents edges.now) numbers.now table.items) }
{
    let mut table = vec![in alloc; None; face_limit]?;
    note_all_least(edges, numbers, &mut table);
    Ok(table)
}

// What comes next to a half-edge.
fn next_of(edges: &Edges, id: EdgeId) -> EdgeId
    ensures { (h : HalfEdge) → contents edges.now id.0 ≡ Some h → result ≡ h.next }
{
    match edges.get(id) {
        Some(edge) => edge.next,
        None => id,
    }
}

// The numbers of the vertices round a face, from the half-edge on.
fn walk(
    alloc: Global,
    shape: &Shape,
    named: &[VertId],
    numbers: &[usize],
    face: FaceId,
    first: EdgeId,
) -> Result<Vec<usize>, AllocError>
    requires goes_on { GoesOn (faces_of shape.now) (points_of shape.now named.now) (face_at shape.now face) (contents shape.now.edges) numbers.now face.0 }
    requires of_face { OfFace (contents shape.now.edges) first.0 face.0 }
    requires least { IsFirstOn (points_of shape.now named.now) (face_at shape.now face) (begin_number (contents shape.now.edges) numbers.now first.0) }
    ensures { IfOk result (λ found. IsNumberedLoop (faces_of shape.now) (face_at shape.now face) (points_of shape.now named.now) found.items) }
{
    let mut found = Vec::new(alloc);
    let mut at = first;
    loop {
        found.push(begin_number(&shape.edges, numbers, at))?;
        at = next_of(&shape.edges, at);
        if at == first {
            return Ok(found);
        }
    }
}

/// The loop of each face, in the order of the faces: the numbers of its vertices from the least one on, clockwise seen from
/// outside.
pub(crate) fn loops_of(
    alloc: Global,
    shape: &Shape,
    named: &[VertId],
) -> Result<Vec<Vec<usize>>, AllocError>
    requires shape { IsShape (contents shape.now.vertices) (contents shape.now.edges) (contents shape.now.faces) shape.now.order.items }
    requires named { AreNamed (contents shape.now.vertices) (faces_of shape.now) named.now }
    ensures { IfOk result (λ loops. AreLoops (faces_of shape.now) (points_of shape.now named.now) (map (λ l. l.items) loops.items)) }
{
    let numbers = places_of(alloc, named, shape.vertices.place_limit())?;
    let firsts = least_edges(alloc, &shape.edges, &numbers, shape.faces.place_limit())?;
    let mut loops = Vec::new(alloc);
    let order: &[FaceId] = &shape.order;
    for place in 0..order.len() {
        let face = order[place];
        let Some(first) = entry(&firsts, face.place()) else {
            unreachable!()
        };
        loops.push(walk(alloc, shape, named, &numbers, face, first)?)?;
    }
    Ok(loops)
}
