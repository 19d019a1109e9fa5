//! The picked vertices, and where they go.

ghost use Rattle.std.specs.Prelude.{◌≡◌, ◌↔◌, IsTrue, IsNone, IfSome};
ghost use Rattle.algebra.specs.Members.{◌∈◌, Every};
ghost use Rattle.exact_geom.specs.Planes.{is_in_range};
ghost use Rattle.hull_merge.specs.Gathered.{whole_of};
ghost use Rattle.vertex_edit.specs.Places.{moved, place_of, GoesInRange, IsSmall, IsInWorld};
ghost use Rattle.vertex_edit.specs.MoveFaults.{IsFirstAt};

use exact_geom::{HVertex, Point};

// The greatest size of a coordinate of a point.
const LIMIT: u32 = 4352;

// Whether the vertex is at the point.
fn is_at(vertex: &HVertex, p: &Point) -> bool
    ensures { IsTrue result ↔ (vertex.now ≡ whole_of p.now) }
{
    vertex.parts() == [i128::from(p.x), i128::from(p.y), i128::from(p.z), 1]
}

// Whether one of the vertices is at the point.
fn is_vertex(vertices: &[HVertex], p: &Point) -> bool
    ensures { IsTrue result ↔ (whole_of p.now ∈ vertices.now) }
{
    for vertex in vertices {
        if is_at(vertex, p) {
            return true;
        }
    }
    false
}

/// The place of the first pick that is none of the vertices.
pub(crate) fn first_stranger(vertices: &[HVertex], picks: &[Point]) -> Option<usize>
    ensures some { IfSome result (IsFirstAt (λ q. whole_of q ∈ vertices.now) picks.now) }
    ensures none { IsNone result → Every (λ q. whole_of q ∈ vertices.now) picks.now }
{
    for k in 0..picks.len() {
        if !is_vertex(vertices, &picks[k]) {
            return Some(k);
        }
    }
    None
}

// Whether a plane may be given by the point.
fn is_in_range(p: &Point) -> bool
    ensures { result ≡ is_in_range p.now }
{
    p.x.unsigned_abs() <= LIMIT && p.y.unsigned_abs() <= LIMIT && p.z.unsigned_abs() <= LIMIT
}

// The point moved by the shift.
fn moved(p: &Point, shift: &[i32; 3]) -> Point
    requires small { IsSmall shift.now }
    requires world { IsInWorld p.now }
    ensures { result ≡ moved shift.now p.now }
{
    Point {
        x: p.x + shift[0],
        y: p.y + shift[1],
        z: p.z + shift[2],
    }
}

/// The place of the first pick that goes out of range.
pub(crate) fn first_far(picks: &[Point], shift: &[i32; 3]) -> Option<usize>
    requires small { IsSmall shift.now }
    requires world { Every IsInWorld picks.now }
    ensures some { IfSome result (IsFirstAt (GoesInRange shift.now) picks.now) }
    ensures none { IsNone result → Every (GoesInRange shift.now) picks.now }
{
    for k in 0..picks.len() {
        if !is_in_range(&moved(&picks[k], shift)) {
            return Some(k);
        }
    }
    None
}

/// Where a vertex goes.
pub(crate) fn place_of(picks: &[Point], shift: &[i32; 3], p: &Point) -> Point
    requires small { IsSmall shift.now }
    requires world { IsInWorld p.now }
    ensures { result ≡ place_of picks.now shift.now p.now }
{
    if picks.contains(p) {
        moved(p, shift)
    } else {
        *p
    }
}
