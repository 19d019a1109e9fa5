//! How a ray passes a plane.

ghost use Rattle.std.specs.Prelude.{◌≡◌, ◌^◌, ◌<◌, ◌≤◌, ◌*ℤ◌, ◌-ℤ◌, ◌<ℤ◌, unsigned_abs, IsTrue};
ghost use Rattle.std.specs.Bool.{Decides};
ghost use Rattle.algebra.specs.Space.{dot, minus};
ghost use Rattle.exact_geom.specs.Planes.{half_space, is_in_range, vector};
ghost use Rattle.ray_pick.specs.Passings.{Passes, IsSmall, way_limit};

use exact_geom::{Plane, Point};

/// How a ray passes a plane: the side of the ray's first point, and by how much less the side of its second point is. Both are
/// below 2^42 in size.
#[derive(Clone, Copy)]
pub(crate) struct Passing {
    pub(crate) start: i128,
    pub(crate) fall: i128,
}

// The plane's normal times the way from b to a.
fn normal_times(plane: &Plane, a: &Point, b: &Point) -> i64
    requires a_in_range { IsTrue (is_in_range a.now) }
    requires b_in_range { IsTrue (is_in_range b.now) }
    ensures value { result ≡ dot (half_space plane.now).normal (minus (vector a.now) (vector b.now)) }
    ensures size { unsigned_abs result ≤ way_limit }
{
    let [x, y, z] = plane.normal();
    x * (i64::from(a.x) - i64::from(b.x))
        + y * (i64::from(a.y) - i64::from(b.y))
        + z * (i64::from(a.z) - i64::from(b.z))
}

impl Passing {
    /// How the ray through two points passes the plane.
    pub(crate) fn of(plane: &Plane, from: &Point, to: &Point) -> Passing
        requires from_in_range { IsTrue (is_in_range from.now) }
        requires to_in_range { IsTrue (is_in_range to.now) }
        ensures passes { Passes (half_space plane.now) (vector from.now) (vector to.now) result }
        ensures small { IsSmall result }
    {
        let [_, p1, _] = plane.points();
        Passing {
            start: i128::from(normal_times(plane, from, &p1)),
            fall: i128::from(normal_times(plane, from, to)),
        }
    }

    /// The side of the ray's point at the fraction num / den of its way: below 2^85 in size.
    pub(crate) fn side_at(&self, num: i128, den: i128) -> i128
        requires small { IsSmall self.now }
        requires num_size { unsigned_abs num < 2 ^ 42 }
        requires den_size { unsigned_abs den < 2 ^ 42 }
        ensures { result ≡ den *ℤ self.now.start -ℤ num *ℤ self.now.fall }
    {
        den * self.start - num * self.fall
    }

    /// Whether the plane's place on the ray, start / fall, is behind another one.
    pub(crate) fn is_later(&self, other: &Passing) -> bool
        requires small { IsSmall self.now }
        requires other_small { IsSmall other.now }
        ensures { Decides result ((other.now.start *ℤ self.now.fall) <ℤ (self.now.start *ℤ other.now.fall)) }
    {
        self.start * other.fall > other.start * self.fall
    }
}
