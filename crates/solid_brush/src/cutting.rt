//! The polyhedron behind sides.

ghost use Rattle.std.specs.Prelude.{◌≡◌, ◌<◌, map, IfOk, OnErr};
ghost use Rattle.algebra.specs.Members.{Every};
ghost use Rattle.exact_geom.specs.Planes.{IsPlane};
ghost use Rattle.half_poly.specs.Shapes.{Says};
ghost use Rattle.solid_brush.specs.Sides.{HaveTags};
ghost use Rattle.solid_brush.specs.Cutting.{tagged, is_gone, IsBehind};

use crate::side::Side;
use exact_geom::Steps;
use half_poly::{Cut, Poly};
use std::alloc::{AllocError, Global};
use std::marker::Brand;
use std::sync::ledger::{Blank, Ledger};

/// Whether nothing is left.
pub(crate) fn is_gone(cut: Cut) -> bool
    ensures { result ≡ is_gone cut }
{
    matches!(cut, Cut::Gone)
}

// Cuts the polyhedron, with a count of steps of its own.
fn cut_once<L: Ledger>(
    alloc: Global,
    poly: &mut Poly,
    side: &Side,
    blank: Blank,
) -> Result<Cut, AllocError>
    requires name { blank.name ≡ L.name }
    requires parts { blank.parts ≡ L.parts }
    requires some { 0 < L.parts }
    requires new { Every (λ s. ¬ (s.tag ≡ side.now.tag)) poly.old }
    ensures proper { IsPlane side.now.plane }
    ensures says { IfOk result (Says poly.old (tagged side.now) poly.new) }
    ensures err { OnErr result (poly.new ≡ poly.old) }
{
    // What it reads tells that the normal isn't zero.
    let _points = side.plane.points();
    poly.cut(alloc, &side.plane, side.tag, &mut Steps::<L>::new(blank))
}

/// Cuts the polyhedron by a side.
pub(crate) fn cut_poly(alloc: Global, poly: &mut Poly, side: &Side) -> Result<Cut, AllocError>
    requires new { Every (λ s. ¬ (s.tag ≡ side.now.tag)) poly.old }
    ensures proper { IsPlane side.now.plane }
    ensures says { IfOk result (Says poly.old (tagged side.now) poly.new) }
    ensures err { OnErr result (poly.new ≡ poly.old) }
{
    cut_once::<Brand>(alloc, poly, side, Blank::new(1))
}

/// What is left of the cube from -4352 to 4352 behind the sides, or `None` where nothing is inside.
pub(crate) fn behind(alloc: Global, sides: &[Side]) -> Result<Option<Poly>, AllocError>
    requires tags { HaveTags sides.now }
    ensures { IfOk result (IsBehind sides.now) }
{
    let mut poly = Poly::cube(alloc)?;
    for side in sides {
        let cut = cut_poly(alloc, &mut poly, side)?;
        if is_gone(cut) {
            return Ok(None);
        }
    }
    Ok(Some(poly))
}

/// The sides that are the faces of the polyhedron, in order.
pub(crate) fn sides_of(alloc: Global, poly: &Poly) -> Result<Vec<Side>, AllocError>
    ensures { IfOk result (λ sides. map tagged sides.items ≡ poly.now) }
{
    let mut sides = Vec::new(alloc);
    for face in 0..poly.faces() {
        let Some(plane) = poly.plane(face) else {
            unreachable!()
        };
        let Some(tag) = poly.tag(face) else {
            unreachable!()
        };
        sides.push(Side { plane, tag })?;
    }
    Ok(sides)
}
