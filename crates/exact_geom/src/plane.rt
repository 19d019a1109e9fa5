//! Planes by three whole points on them.

ghost use Rattle.std.specs.Prelude.{◌≡◌, [], ◌∷◌};
ghost use Rattle.algebra.specs.Space.{reverse};
ghost use Rattle.exact_geom.specs.Machine.{IsSmall, half_space64};
ghost use Rattle.exact_geom.specs.Planes.{half_space, plane_of, IsPlane, parts, ThreePoints};

use crate::half_space::HalfSpace64;
use crate::point::Point;
use std::marker::Model;

/// Why three points are no plane.
#[derive(Clone, Copy, Debug, PartialEq, Eq)]
pub enum PlaneFault {
    /// The first point, 0 to 2, with a coordinate beyond 4352 in size.
    PointRange(u8),
    /// The three points lie on a line.
    Flat,
}

/// A plane by three points on it that don't lie on a line, each coordinate at most 4352 in size.
/// A contract sees the three points. Planes are equal where their points are, in the same order.
#[derive(Clone, Copy, Debug, PartialEq, Eq)]
pub struct Plane {
    p0: Point,
    p1: Point,
    p2: Point,
}

impl Model for Plane {
    ghost use Rattle.std.specs.Prelude.{◌≡◌};
    ghost use Rattle.exact_geom.specs.Planes.{ThreePoints, IsPlane};

    ghost Value = { ThreePoints };

    ghost view = { λ p. record { p0 = p.p0; p1 = p.p1; p2 = p.p2 } };

    ghost invariant = { λ p. IsPlane (record { p0 = p.p0; p1 = p.p1; p2 = p.p2 }) };

    ghost inverse = { λ t. record { p0 = t.p0; p1 = t.p1; p2 = t.p2 } };
}

impl Plane {
    /// The plane of three points, in the order in which a face of a map names them.
    pub fn of(p0: Point, p1: Point, p2: Point) -> Result<Plane, PlaneFault>
        ensures { result ≡ plane_of (record { p0 = p0; p1 = p1; p2 = p2 }) }
    {
        if !p0.is_in_range() {
            return Err(PlaneFault::PointRange(0));
        }
        if !p1.is_in_range() {
            return Err(PlaneFault::PointRange(1));
        }
        if !p2.is_in_range() {
            return Err(PlaneFault::PointRange(2));
        }
        if HalfSpace64::through(&p0, &p1, &p2).normal.is_zero() {
            return Err(PlaneFault::Flat);
        }
        Ok(Plane { p0, p1, p2 })
    }

    /// The three points, in their order.
    pub fn points(&self) -> [Point; 3]
        ensures points { result ≡ self.now.p0 ∷ self.now.p1 ∷ self.now.p2 ∷ [] }
        ensures plane { IsPlane self.now }
    {
        [self.p0, self.p1, self.p2]
    }

    /// The normal (p0 - p1) x (p2 - p1), which points to the front.
    /// It isn't zero, and its parts are at most 151,519,232 in size.
    pub fn normal(&self) -> [i64; 3]
        ensures normal { result ≡ parts (half_space self.now).normal }
        ensures size { IsSmall (half_space self.now) }
        ensures plane { IsPlane self.now }
    {
        let normal = self.half_space64().normal;
        [normal.x, normal.y, normal.z]
    }

    /// The distance, normal . p1, at most 1,978,235,092,992 in size.
    pub fn dist(&self) -> i64
        ensures distance { result ≡ (half_space self.now).distance }
        ensures size { IsSmall (half_space self.now) }
        ensures plane { IsPlane self.now }
    {
        self.half_space64().distance
    }

    // Its half-space in numbers of 64 bits.
    pub(crate) fn half_space64(&self) -> HalfSpace64
        ensures half_space { half_space64 result ≡ half_space self.now }
        ensures size { IsSmall (half_space64 result) }
        ensures plane { IsPlane self.now }
    {
        HalfSpace64::through(&self.p0, &self.p1, &self.p2)
    }

    /// The same plane seen from the other side: the first and the last point are swapped.
    pub fn reverse(&self) -> Plane
        ensures points { result ≡ record { p0 = self.now.p2; p1 = self.now.p1; p2 = self.now.p0 } }
        ensures half_space { half_space result ≡ reverse (half_space self.now) }
    {
        Plane {
            p0: self.p2,
            p1: self.p1,
            p2: self.p0,
        }
    }
}
