//! On which side of a plane a vertex lies, and which planes bound the same half-space.

ghost use Rattle.std.specs.Prelude.{◌≡◌, ◌+◌, ◌↔◌, IsTrue};
ghost use Rattle.algebra.specs.Space.{side, SameHalfSpace};
ghost use Rattle.exact_geom.specs.Planes.{half_space};
ghost use Rattle.exact_geom.specs.Sides.{sign_of};

use crate::plane::Plane;
use crate::sign::Sign;
use crate::steps::Steps;
use crate::vertex::HVertex;
use std::sync::ledger::Ledger;

/// On which side of the plane the vertex lies. It counts one step.
pub fn side<L: Ledger>(p: &Plane, v: &HVertex, steps: &mut Steps<L>) -> Sign
    ensures sign { result ≡ sign_of (side (half_space p.now) v.now) }
    ensures steps { steps.new ≡ steps.old + 1 }
{
    steps.tick();
    Sign::of(p.half_space64().side_of(v.x, v.y, v.z, v.w))
}

/// Whether every point lies in both half-spaces or in neither.
pub fn same_halfspace(a: &Plane, b: &Plane) -> bool
    ensures { IsTrue result ↔ SameHalfSpace (half_space a.now) (half_space b.now) }
{
    a.half_space64().is_same(&b.half_space64())
}
