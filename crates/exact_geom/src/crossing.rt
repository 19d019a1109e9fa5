//! The point that three planes share, before it is reduced.

ghost use Rattle.std.specs.Prelude.{◌≡◌, ◌≢◌, ◌≤◌, pos, unsigned_abs};
ghost use Rattle.algebra.specs.Space.{meet};
ghost use Rattle.exact_geom.specs.Machine.{IsMultiple, IsSignedDivisor, IsSmall, half_space64};
ghost use Rattle.exact_geom.specs.Vertices.{homogeneous, IsBounded, IsReducedVertex};

use crate::divisor::gcd;
use crate::half_space::{HalfSpace64, sum_of_products};
use crate::vertex::HVertex;

/// The point that three planes share by Cramer's rule. Its weight may be below 0, and is 0 where the normals are dependent.
#[derive(Clone, Copy, Debug)]
pub(crate) struct Crossing {
    pub(crate) x: i128,
    pub(crate) y: i128,
    pub(crate) z: i128,
    pub(crate) w: i128,
}

impl Crossing {
    /// The common point of three half-spaces.
    pub(crate) fn of(f: &HalfSpace64, g: &HalfSpace64, h: &HalfSpace64) -> Crossing
        requires f_size { IsSmall (half_space64 f.now) }
        requires g_size { IsSmall (half_space64 g.now) }
        requires h_size { IsSmall (half_space64 h.now) }
        ensures point { homogeneous result.x result.y result.z result.w ≡ meet (half_space64 f.now) (half_space64 g.now) (half_space64 h.now) }
        ensures bounded { IsBounded (homogeneous result.x result.y result.z result.w) }
    {
        let gh = g.normal.cross(&h.normal);
        let hf = h.normal.cross(&f.normal);
        let fg = f.normal.cross(&g.normal);
        Crossing {
            x: sum_of_products(f.distance, gh.x, g.distance, hf.x, h.distance, fg.x),
            y: sum_of_products(f.distance, gh.y, g.distance, hf.y, h.distance, fg.y),
            z: sum_of_products(f.distance, gh.z, g.distance, hf.z, h.distance, fg.z),
            w: f.normal.wide_dot(&gh),
        }
    }

    // The greatest common divisor of the four numbers, below 0 where the weight is.
    fn divisor(&self) -> i128
        requires bounded { IsBounded (homogeneous self.now.x self.now.y self.now.z self.now.w) }
        requires weight { self.now.w ≢ pos 0 }
        ensures { IsSignedDivisor (homogeneous self.now.x self.now.y self.now.z self.now.w) result }
    {
        let spread = gcd(
            gcd(self.x.unsigned_abs(), self.y.unsigned_abs()),
            self.z.unsigned_abs(),
        );
        let size = gcd(spread, self.w.unsigned_abs()) as i128;
        if self.w < 0 { -size } else { size }
    }

    /// The same point by its reduced numbers.
    pub(crate) fn reduced(&self) -> HVertex
        requires bounded { IsBounded (homogeneous self.now.x self.now.y self.now.z self.now.w) }
        requires weight { self.now.w ≢ pos 0 }
        ensures multiple { IsMultiple (homogeneous self.now.x self.now.y self.now.z self.now.w) result }
        ensures vertex { IsReducedVertex result }
    {
        let divisor = self.divisor();
        HVertex {
            x: self.x / divisor,
            y: self.y / divisor,
            z: self.z / divisor,
            w: self.w / divisor,
        }
    }
}
