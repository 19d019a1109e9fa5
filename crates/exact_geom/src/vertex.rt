//! Vertices: the points where three planes meet.

ghost use Rattle.std.specs.Prelude.{◌≡◌, ◌+◌, ◌↔◌, [], ◌∷◌, pos, IsNone, IfSome};
ghost use Rattle.algebra.specs.Space.{det};
ghost use Rattle.exact_geom.specs.Planes.{half_space};
ghost use Rattle.exact_geom.specs.Vertices.{IsVertexOf, IsReducedVertex};

use crate::crossing::Crossing;
use crate::plane::Plane;
use crate::steps::Steps;
use std::marker::Model;
use std::sync::ledger::Ledger;

/// A point by reduced homogeneous coordinates: it lies at (x / w, y / w, z / w), the weight w is at least 1,
/// and no number above 1 divides all four.
/// The weight is below 2.09 * 10^25, and x, y and z are below 2.73 * 10^29 in size.
/// A contract sees the homogeneous point. Only `HVertex::meet` makes one.
#[derive(Clone, Copy, Debug, PartialEq, Eq)]
pub struct HVertex {
    pub(crate) x: i128,
    pub(crate) y: i128,
    pub(crate) z: i128,
    pub(crate) w: i128,
}

impl Model for HVertex {
    ghost use Rattle.algebra.specs.Space.{Homogeneous, Vector};
    ghost use Rattle.exact_geom.specs.Vertices.{homogeneous, IsReducedVertex};

    ghost Value = { Homogeneous };

    ghost view = { λ v. homogeneous v.x v.y v.z v.w };

    ghost invariant = { λ v. IsReducedVertex (homogeneous v.x v.y v.z v.w) };

    ghost inverse = { λ p. record { x = p.vector.x; y = p.vector.y; z = p.vector.z; w = p.weight } };
}

impl HVertex {
    /// The point that lies on three planes. `None` exactly where their normals are dependent.
    /// It counts one step for either answer.
    pub fn meet<L: Ledger>(a: &Plane, b: &Plane, c: &Plane, steps: &mut Steps<L>) -> Option<HVertex>
        ensures none { IsNone result
            ↔ (det (half_space a.now).normal (half_space b.now).normal (half_space c.now).normal ≡ pos 0) }
        ensures some { IfSome result (IsVertexOf a.now b.now c.now) }
        ensures steps { steps.new ≡ steps.old + 1 }
    {
        steps.tick();
        let crossing = Crossing::of(&a.half_space64(), &b.half_space64(), &c.half_space64());
        if crossing.w == 0 {
            None
        } else {
            Some(crossing.reduced())
        }
    }

    /// The coordinates x, y, z and the weight w.
    pub fn parts(&self) -> [i128; 4]
        ensures parts { result ≡ self.now.vector.x ∷ self.now.vector.y ∷ self.now.vector.z ∷ self.now.weight ∷ [] }
        ensures vertex { IsReducedVertex self.now }
    {
        [self.x, self.y, self.z, self.w]
    }
}
