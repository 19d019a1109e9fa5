//! The edge of a face from one of its corners.

ghost use Rattle.std.specs.Prelude.{◌≡◌, ◌+◌, ◌<◌, ℕ, length, false, true, IsNone, IfSome, pos, ◌<ℤ◌};
ghost use Rattle.algebra.specs.Members.{Every};
ghost use Rattle.algebra.specs.Space.{dot};
ghost use Rattle.hull_laws.specs.Pivots.{Edge, On};
ghost use Rattle.hull_search.specs.Slopes.{face, ramp, spots};
ghost use Rattle.hull_search.specs.Places.{point, number, same_place, AreOn, IsOtherOn, IsWay, IsEdgeEnd};

use crate::border::Ramp;
use crate::face::Face;
use crate::spot::Spot;
use crate::turn::{is_same, spot_at};

// The first place on the face whose point isn't that of another place.
fn other_on(points: &[Spot], on: &[usize], a: usize) -> Option<usize>
    requires on { Every (λ i. i < length points.now) on.now }
    requires a_in { a < length points.now }
    ensures some { IfSome result (IsOtherOn (spots points.now) on.now a) }
    ensures none { IsNone result → (k : ℕ) → k < length on.now
        → same_place (point (spots points.now) a) (point (spots points.now) (number on.now k)) ≡ true }
{
    for k in 0..on.len() {
        let p = spot_at(points, a);
        let q = spot_at(points, on[k]);
        if !is_same(&p, &q) {
            return Some(on[k]);
        }
    }
    None
}

// A way on a face from one place to another, with what is at its left in front of the border.
#[derive(Clone, Copy)]
struct Way {
    to: usize,
    border: Ramp,
}

// The way from one place to another.
fn way_to(points: &[Spot], f: &Face, a: usize, to: usize) -> Way
    requires a_in { a < length points.now }
    requires to_in { to < length points.now }
    ensures to { result.to ≡ to }
    ensures border { IsWay (spots points.now) (face f.now) a result.to (ramp result.border) }
{
    let p = spot_at(points, a);
    let q = spot_at(points, to);
    let border = f.border(&p, &q);
    Way { to, border }
}

// The way to another place, if that is at the left of the given way.
fn leftmost(points: &[Spot], on: &[usize], f: &Face, a: usize, way: Way, k: usize) -> Way
    requires on { AreOn (spots points.now) (face f.now) on.now }
    requires proper { pos 0 <ℤ dot (face f.now).normal (face f.now).normal }
    requires a_in { a < length points.now }
    requires k_in { k < length on.now }
    requires border { IsWay (spots points.now) (face f.now) a way.to (ramp way.border) }
    requires end { IsEdgeEnd (spots points.now) (face f.now) on.now k a way.to }
    ensures border { IsWay (spots points.now) (face f.now) a result.to (ramp result.border) }
    ensures end { IsEdgeEnd (spots points.now) (face f.now) on.now (k + 1) a result.to }
{
    let q = spot_at(points, on[k]);
    if way.border.side(&q) > 0 {
        way_to(points, f, a, on[k])
    } else {
        way
    }
}

/// The place to which the edge of the face from another place runs, if that is where the edge's line begins. There is none only
/// where no edge begins there.
pub(crate) fn edge_from(points: &[Spot], on: &[usize], f: &Face, a: usize) -> Option<usize>
    requires on { AreOn (spots points.now) (face f.now) on.now }
    requires proper { pos 0 <ℤ dot (face f.now).normal (face f.now).normal }
    requires a_in { a < length points.now }
    ensures some { IfSome result (IsEdgeEnd (spots points.now) (face f.now) on.now (length on.now) a) }
    ensures none { IsNone result → (k : ℕ) → k < length on.now
        → ¬ (Edge (spots points.now) (face f.now) (point (spots points.now) a) (point (spots points.now) (number on.now k))) }
{
    let Some(first) = other_on(points, on, a) else {
        return None;
    };
    let mut way = way_to(points, f, a, first);
    for k in 0..on.len() {
        way = leftmost(points, on, f, a, way, k);
    }
    Some(way.to)
}
