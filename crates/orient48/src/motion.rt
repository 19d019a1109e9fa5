//! Motions: an orientation and then a shift.

ghost use Rattle.std.specs.Prelude.{◌≡◌, ◌≢◌, ◌≤◌, ◌+ℤ◌, ◌*ℤ◌, negsuc, Err, IsTrue, unsigned_abs};
ghost use Rattle.std.specs.Bool.{Decides};
ghost use Rattle.algebra.specs.Space.{plus, scale};
ghost use Rattle.exact_geom.specs.Planes.{is_in_range, parts};
ghost use Rattle.orient48.specs.Kept.{motion_at, place_of_fault, vector_in, within_limit, within_reach};
ghost use Rattle.orient48.specs.Motions.{after, back, is_short, is_signed_permutation, moved_plane, moved_point, shift_limit, turned};
ghost use Rattle.orient48.specs.Orients.{matrix_of};

use crate::orient::Orient;
use exact_geom::{Plane, PlaneFault, Point};
use std::marker::Model;

/// The greatest size of a coordinate of a shift, in map units.
const SHIFT_LIMIT: u32 = 1_000_000;

/// A point x goes to M x + t, where M is the matrix of the orientation and t is the shift, at most 1,000,000 map units in
/// each coordinate. A contract sees the matrix and the shift.
#[derive(Debug, Drop)]
pub struct Motion {
    orient: Orient,
    shift: [i32; 3],
}

impl Model for Motion {
    ghost use Rattle.orient48.specs.Motions.{Motion as Moving};
    ghost use Rattle.orient48.specs.Kept.{motion_at, IsShift};

    ghost Value = { Moving };

    ghost view = { λ m. motion_at m.orient m.shift };

    ghost invariant = { λ m. IsShift m.shift };
}

impl Motion {
    /// The motion of an orientation and a shift. `None` exactly where a coordinate of the shift is above 1,000,000 in
    /// size.
    pub fn of(orient: Orient, shift: [i32; 3]) -> Option<Motion>
        ensures { result ≡ within_limit (motion_at orient shift) }
    {
        if is_short(shift) {
            Some(Motion { orient, shift })
        } else {
            None
        }
    }

    /// An equal motion.
    pub fn copy(&self) -> Motion
        ensures { result ≡ self.now }
    {
        Motion {
            orient: self.orient,
            shift: self.shift,
        }
    }

    /// Whether two motions have the same matrix and the same shift.
    pub fn is_same(&self, other: &Motion) -> bool
        ensures { Decides result (self.now ≡ other.now) }
    {
        (self.orient.number() == other.orient.number()) & (self.shift == other.shift)
    }

    /// Its orientation.
    pub fn orient(&self) -> Orient
        ensures { matrix_of result ≡ self.now.matrix }
    {
        self.orient
    }

    /// Its shift, in map units: at most 1,000,000 in each coordinate.
    pub fn shift(&self) -> [i32; 3]
        ensures shift { result ≡ parts self.now.shift }
        ensures short { IsTrue (is_short self.now.shift) }
    {
        self.shift
    }

    /// First this motion, then `next`. `None` exactly where a coordinate of the shift would be above 1,000,000 in size.
    pub fn then(&self, next: &Motion) -> Option<Motion>
        ensures { result ≡ within_limit (after next.now self.now) }
    {
        let shift = moved(next.orient, self.shift, next.shift);
        Motion::of(next.orient.compose(self.orient), shift)
    }

    /// The way back.
    pub fn undo(&self) -> Motion
        ensures { result ≡ back self.now }
    {
        let orient = self.orient.inverse();
        let shift = moved(orient, minus(self.shift), [0, 0, 0]);
        Motion { orient, shift }
    }

    // Where a point in the range of planes goes.
    fn point(&self, p: Point) -> Point
        requires { IsTrue (is_in_range p) }
        ensures { result ≡ moved_point self.now p }
    {
        let moved = moved(self.orient, [p.x, p.y, p.z], self.shift);
        Point {
            x: moved[0],
            y: moved[1],
            z: moved[2],
        }
    }

    /// The plane of the moved points; a flip also swaps the first and the last, so that the front stays in front.
    /// `Err(k)` names the first point of the result, 0 to 2, with a coordinate above 4352 in size.
    pub fn plane(&self, p: &Plane) -> Result<Plane, u8>
        ensures { result ≡ within_reach (moved_plane self.now p.now) }
    {
        let [p0, p1, p2] = p.points();
        let (first, second, third) = (self.point(p0), self.point(p1), self.point(p2));
        if self.orient.is_flip() {
            unless_flat(Plane::of(third, second, first))
        } else {
            unless_flat(Plane::of(first, second, third))
        }
    }
}

// Whether each coordinate is at most 1,000,000 in size.
fn is_short(shift: [i32; 3]) -> bool
    ensures { result ≡ is_short (vector_in shift) }
{
    shift[0].unsigned_abs() <= SHIFT_LIMIT
        && shift[1].unsigned_abs() <= SHIFT_LIMIT
        && shift[2].unsigned_abs() <= SHIFT_LIMIT
}

// The vector turned, and then shifted.
fn moved(orient: Orient, v: [i32; 3], shift: [i32; 3]) -> [i32; 3]
    requires v { IsTrue (is_short (vector_in v)) }
    requires shift { IsTrue (is_short (vector_in shift)) }
    ensures moved { vector_in result ≡ plus (turned (matrix_of orient) (vector_in v)) (vector_in shift) }
    ensures signed { IsTrue (is_signed_permutation (matrix_of orient)) }
{
    let [x, y, z] = orient.apply([i64::from(v[0]), i64::from(v[1]), i64::from(v[2])]);
    [sum(x, shift[0]), sum(y, shift[1]), sum(z, shift[2])]
}

fn sum(turned: i64, shift: i32) -> i32
    requires turned { unsigned_abs turned ≤ shift_limit }
    requires shift { unsigned_abs shift ≤ shift_limit }
    ensures { result ≡ turned +ℤ shift }
{
    (turned + i64::from(shift)) as i32
}

fn minus(shift: [i32; 3]) -> [i32; 3]
    requires { IsTrue (is_short (vector_in shift)) }
    ensures { vector_in result ≡ scale (negsuc 0) (vector_in shift) }
{
    [opposite(shift[0]), opposite(shift[1]), opposite(shift[2])]
}

fn opposite(shift: i32) -> i32
    requires { unsigned_abs shift ≤ shift_limit }
    ensures { result ≡ negsuc 0 *ℤ shift }
{
    -shift
}

// The plane, or the place of the point that is out of range.
fn unless_flat(plane: Result<Plane, PlaneFault>) -> Result<Plane, u8>
    requires { plane ≢ Err PlaneFault.Flat }
    ensures { result ≡ place_of_fault plane }
{
    match plane {
        Ok(plane) => Ok(plane),
        Err(PlaneFault::PointRange(place)) => Err(place),
        Err(PlaneFault::Flat) => unreachable!(),
    }
}
