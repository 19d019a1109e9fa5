//! The face from which a facet comes.

ghost use Rattle.std.specs.Prelude.{◌≡◌, ◌↔◌, ◌+◌, ◌<◌, ◌≤◌, length, get_or, pos, IsTrue};
ghost use Rattle.algebra.specs.Space.{side};
ghost use Rattle.exact_geom.specs.Planes.{half_space};
ghost use Rattle.hull_laws.specs.Moved.{nowhere};
ghost use Rattle.solid_brush.specs.Sides.{half_spaces};
ghost use Rattle.vertex_edit.specs.Carrying.{count_on, IsFullest};

use exact_geom::{HVertex, Plane, Sign, uncounted};
use solid_brush::Side;

// Whether the vertex is on the plane.
fn is_on(plane: &Plane, vertex: &HVertex) -> bool
    ensures { IsTrue result ↔ (side (half_space plane.now) vertex.now ≡ pos 0) }
{
    matches!(uncounted::side(plane, vertex), Sign::On)
}

// How many of the vertices are on the plane.
fn count_on(plane: &Plane, vertices: &[HVertex]) -> usize
    ensures { result ≡ count_on vertices.now (half_space plane.now) }
{
    let mut count = 0;
    for vertex in vertices {
        count += usize::from(is_on(plane, vertex));
    }
    count
}

// A face with its count of vertices.
#[derive(Clone, Copy)]
struct Fullest {
    face: usize,
    count: usize,
}

// The fuller one of a face and the next one, of two that are as full the first.
fn fuller(sides: &[Side], vertices: &[HVertex], best: Fullest, k: usize) -> Fullest
    requires k_in { k < length sides.now }
    requires counted { best.count ≡ count_on vertices.now (get_or (half_spaces sides.now) best.face nowhere) }
    requires fullest { IsFullest (half_spaces sides.now) vertices.now k best.face }
    ensures counted { result.count ≡ count_on vertices.now (get_or (half_spaces sides.now) result.face nowhere) }
    ensures fullest { IsFullest (half_spaces sides.now) vertices.now (k + 1) result.face }
{
    let count = count_on(&sides[k].plane, vertices);
    if count > best.count {
        Fullest { face: k, count }
    } else {
        best
    }
}

/// The number of the side with the most of the vertices on it, the first one in a tie.
pub(crate) fn old_face(sides: &[Side], vertices: &[HVertex]) -> u32
    requires some { 0 < length sides.now }
    requires few { length sides.now ≤ 128 }
    ensures { IsFullest (half_spaces sides.now) vertices.now (length sides.now) result }
{
    let mut best = Fullest {
        face: 0,
        count: count_on(&sides[0].plane, vertices),
    };
    for k in 1..sides.len() {
        best = fuller(sides, vertices, best, k);
    }
    best.face as u32
}
