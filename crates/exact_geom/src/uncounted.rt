//! `side` and `meet` for callers that count no steps.

ghost use Rattle.std.specs.Prelude.{◌≡◌, ◌↔◌, ◌<◌, pos, IsNone, IfSome};
ghost use Rattle.algebra.specs.Space.{det, side};
ghost use Rattle.exact_geom.specs.Planes.{half_space};
ghost use Rattle.exact_geom.specs.Sides.{sign_of};
ghost use Rattle.exact_geom.specs.Vertices.{IsVertexOf};

use crate::plane::Plane;
use crate::sides;
use crate::sign::Sign;
use crate::steps::Steps;
use crate::vertex::HVertex;
use std::marker::Brand;
use std::sync::ledger::{Blank, Ledger};

// The point on three planes, with a count of steps of its own.
fn meet_once<L: Ledger>(a: &Plane, b: &Plane, c: &Plane, blank: Blank) -> Option<HVertex>
    requires name { blank.name ≡ L.name }
    requires parts { blank.parts ≡ L.parts }
    requires some { 0 < L.parts }
    ensures none { IsNone result
        ↔ (det (half_space a.now).normal (half_space b.now).normal (half_space c.now).normal ≡ pos 0) }
    ensures some { IfSome result (IsVertexOf a.now b.now c.now) }
{
    HVertex::meet(a, b, c, &mut Steps::<L>::new(blank))
}

/// The point that lies on three planes. `None` exactly where their normals are dependent.
pub fn meet(a: &Plane, b: &Plane, c: &Plane) -> Option<HVertex>
    ensures none { IsNone result
        ↔ (det (half_space a.now).normal (half_space b.now).normal (half_space c.now).normal ≡ pos 0) }
    ensures some { IfSome result (IsVertexOf a.now b.now c.now) }
{
    meet_once::<Brand>(a, b, c, Blank::new(1))
}

// The side of a vertex, with a count of steps of its own.
fn side_once<L: Ledger>(plane: &Plane, vertex: &HVertex, blank: Blank) -> Sign
    requires name { blank.name ≡ L.name }
    requires parts { blank.parts ≡ L.parts }
    requires some { 0 < L.parts }
    ensures { result ≡ sign_of (side (half_space plane.now) vertex.now) }
{
    sides::side(plane, vertex, &mut Steps::<L>::new(blank))
}

/// On which side of the plane the vertex lies.
pub fn side(plane: &Plane, vertex: &HVertex) -> Sign
    ensures { result ≡ sign_of (side (half_space plane.now) vertex.now) }
{
    side_once::<Brand>(plane, vertex, Blank::new(1))
}
