//! Vectors and half-spaces in numbers of 64 bits.

ghost use Rattle.std.specs.Prelude.{◌≡◌, ◌≤◌, ◌*ℤ◌, ◌+ℤ◌, ◌-ℤ◌, unsigned_abs, IsTrue};
ghost use Rattle.algebra.specs.Space.{cross, dot, minus, side};
ghost use Rattle.exact_geom.specs.Limits.{cross_limit, dist_limit, normal_limit};
ghost use Rattle.exact_geom.specs.Machine.{vector64, is_along, is_level, is_parallel, is_same, IsSmall, IsWithin, half_space64};
ghost use Rattle.exact_geom.specs.Planes.{half_space, is_in_range, is_zero, vector};
ghost use Rattle.exact_geom.specs.Vertices.{homogeneous, IsBounded};

use crate::point::Point;

/// A vector in numbers of 64 bits.
#[derive(Clone, Copy, Debug)]
pub(crate) struct Vector64 {
    pub(crate) x: i64,
    pub(crate) y: i64,
    pub(crate) z: i64,
}

// The determinant of (a, b) and (c, d).
fn minor(a: i64, b: i64, c: i64, d: i64) -> i64
    requires a_size { unsigned_abs a ≤ normal_limit }
    requires b_size { unsigned_abs b ≤ normal_limit }
    requires c_size { unsigned_abs c ≤ normal_limit }
    requires d_size { unsigned_abs d ≤ normal_limit }
    ensures { result ≡ a *ℤ d -ℤ b *ℤ c }
{
    a * d - b * c
}

/// a * x + b * y + c * z
pub(crate) fn sum_of_products(a: i64, x: i64, b: i64, y: i64, c: i64, z: i64) -> i128
    requires a_size { unsigned_abs a ≤ dist_limit }
    requires x_size { unsigned_abs x ≤ cross_limit }
    requires b_size { unsigned_abs b ≤ dist_limit }
    requires y_size { unsigned_abs y ≤ cross_limit }
    requires c_size { unsigned_abs c ≤ dist_limit }
    requires z_size { unsigned_abs z ≤ cross_limit }
    ensures { result ≡ a *ℤ x +ℤ b *ℤ y +ℤ c *ℤ z }
{
    i128::from(a) * i128::from(x) + i128::from(b) * i128::from(y) + i128::from(c) * i128::from(z)
}

impl Vector64 {
    /// The difference a - b.
    pub(crate) fn between(a: &Point, b: &Point) -> Vector64
        requires a_in_range { IsTrue (is_in_range a.now) }
        requires b_in_range { IsTrue (is_in_range b.now) }
        ensures { vector64 result ≡ minus (vector a.now) (vector b.now) }
    {
        Vector64 {
            x: i64::from(a.x) - i64::from(b.x),
            y: i64::from(a.y) - i64::from(b.y),
            z: i64::from(a.z) - i64::from(b.z),
        }
    }

    /// The point as a vector.
    pub(crate) fn of_point(p: &Point) -> Vector64
        ensures { vector64 result ≡ vector p.now }
    {
        Vector64 {
            x: i64::from(p.x),
            y: i64::from(p.y),
            z: i64::from(p.z),
        }
    }

    /// The cross product.
    pub(crate) fn cross(&self, other: &Vector64) -> Vector64
        requires size { IsWithin normal_limit (vector64 self.now) }
        requires other_size { IsWithin normal_limit (vector64 other.now) }
        ensures { vector64 result ≡ cross (vector64 self.now) (vector64 other.now) }
    {
        Vector64 {
            x: minor(self.y, self.z, other.y, other.z),
            y: minor(self.z, self.x, other.z, other.x),
            z: minor(self.x, self.y, other.x, other.y),
        }
    }

    /// The dot product.
    pub(crate) fn dot(&self, other: &Vector64) -> i64
        requires size { IsWithin normal_limit (vector64 self.now) }
        requires other_size { IsWithin normal_limit (vector64 other.now) }
        ensures { result ≡ dot (vector64 self.now) (vector64 other.now) }
    {
        self.x * other.x + self.y * other.y + self.z * other.z
    }

    // The dot product, of greater numbers.
    pub(crate) fn wide_dot(&self, other: &Vector64) -> i128
        requires size { IsWithin dist_limit (vector64 self.now) }
        requires other_size { IsWithin cross_limit (vector64 other.now) }
        ensures { result ≡ dot (vector64 self.now) (vector64 other.now) }
    {
        sum_of_products(self.x, other.x, self.y, other.y, self.z, other.z)
    }

    pub(crate) fn is_zero(&self) -> bool
        ensures { result ≡ is_zero (vector64 self.now) }
    {
        self.x == 0 && self.y == 0 && self.z == 0
    }
}

/// A half-space in numbers of 64 bits: the points p with normal . p at most distance.
#[derive(Clone, Copy, Debug)]
pub(crate) struct HalfSpace64 {
    pub(crate) normal: Vector64,
    pub(crate) distance: i64,
}

impl HalfSpace64 {
    /// The half-space of three points in range.
    pub(crate) fn through(p0: &Point, p1: &Point, p2: &Point) -> HalfSpace64
        requires p0_in_range { IsTrue (is_in_range p0.now) }
        requires p1_in_range { IsTrue (is_in_range p1.now) }
        requires p2_in_range { IsTrue (is_in_range p2.now) }
        ensures { half_space64 result ≡ half_space (record { p0 = p0.now; p1 = p1.now; p2 = p2.now }) }
    {
        let normal = Vector64::between(p0, p1).cross(&Vector64::between(p2, p1));
        let distance = normal.dot(&Vector64::of_point(p1));
        HalfSpace64 { normal, distance }
    }

    // The side of a point by its coordinates and its weight.
    pub(crate) fn side_of(&self, x: i128, y: i128, z: i128, w: i128) -> i128
        requires size { IsSmall (half_space64 self.now) }
        requires bounded { IsBounded (homogeneous x y z w) }
        ensures { result ≡ side (half_space64 self.now) (homogeneous x y z w) }
    {
        i128::from(self.normal.x) * x
            + i128::from(self.normal.y) * y
            + i128::from(self.normal.z) * z
            - i128::from(self.distance) * w
    }

    // Whether the normals lie along one line.
    pub(crate) fn is_parallel(&self, other: &HalfSpace64) -> bool
        requires size { IsSmall (half_space64 self.now) }
        requires other_size { IsSmall (half_space64 other.now) }
        ensures { result ≡ is_parallel (half_space64 self.now) (half_space64 other.now) }
    {
        self.normal.cross(&other.normal).is_zero()
    }

    // Whether the normals don't point away from one another.
    pub(crate) fn is_along(&self, other: &HalfSpace64) -> bool
        requires size { IsSmall (half_space64 self.now) }
        requires other_size { IsSmall (half_space64 other.now) }
        ensures { result ≡ is_along (half_space64 self.now) (half_space64 other.now) }
    {
        self.normal.dot(&other.normal) > 0
    }

    // Whether the planes of parallel normals are one.
    pub(crate) fn is_level(&self, other: &HalfSpace64) -> bool
        requires size { IsSmall (half_space64 self.now) }
        requires other_size { IsSmall (half_space64 other.now) }
        ensures { result ≡ is_level (half_space64 self.now) (half_space64 other.now) }
    {
        let own = i128::from(self.distance) * i128::from(other.normal.dot(&other.normal));
        own == i128::from(other.distance) * i128::from(self.normal.dot(&other.normal))
    }

    // Whether the two are one half-space.
    pub(crate) fn is_same(&self, other: &HalfSpace64) -> bool
        requires size { IsSmall (half_space64 self.now) }
        requires other_size { IsSmall (half_space64 other.now) }
        ensures { result ≡ is_same (half_space64 self.now) (half_space64 other.now) }
    {
        self.is_parallel(other) && self.is_along(other) && self.is_level(other)
    }
}
