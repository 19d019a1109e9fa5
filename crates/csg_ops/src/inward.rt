//! Sides moved inward.

ghost use Rattle.std.specs.Prelude.{◌≡◌, ◌<◌, ◌≤◌, ◌^◌, unsigned_abs, true, IfOk, IsTrue};
ghost use Rattle.std.specs.Option.{option_map};
ghost use Rattle.algebra.specs.Members.{Every};
ghost use Rattle.algebra.specs.World.{point_limit};
ghost use Rattle.exact_geom.specs.Planes.{half_space, is_in_range};
ghost use Rattle.solid_brush.specs.Sides.{bounds};
ghost use Rattle.csg_ops.specs.Hollows.{against, inward_point, inward, is_along_axis, are_along_axes, IsThickness, IsInward, IsInnerBox};

use exact_geom::{Plane, Point};
use solid_brush::Side;
use std::alloc::{AllocError, Global};

// How much higher the tag of a side moved inward is.
const INNER_TAG: u32 = 1 << 30;

// The coordinate moved by the thickness, against a part of a normal.
fn against(thickness: i32, part: i64, coordinate: i32) -> i32
    requires thickness { IsThickness thickness }
    requires range { unsigned_abs coordinate ≤ point_limit }
    ensures { result ≡ against thickness part coordinate }
{
    if part > 0 {
        coordinate - thickness
    } else if part < 0 {
        coordinate + thickness
    } else {
        coordinate
    }
}

// The point moved by the thickness, against the normal of the plane.
fn inward_point(plane: &Plane, thickness: i32, p: Point) -> Point
    requires thickness { IsThickness thickness }
    requires range { IsTrue (is_in_range p) }
    ensures { result ≡ inward_point thickness (half_space plane.now).normal p }
{
    let [x, y, z] = plane.normal();
    Point {
        x: against(thickness, x, p.x),
        y: against(thickness, y, p.y),
        z: against(thickness, z, p.z),
    }
}

// The side moved inward, or `None` where no point of the world is behind it then and it can't be given by points in range.
fn inward(side: &Side, thickness: i32) -> Option<Side>
    requires thickness { IsThickness thickness }
    requires along { is_along_axis (bounds side.now).normal ≡ true }
    requires small { side.now.tag < 2 ^ 30 }
    ensures { IsInward (inward thickness side.now) result }
{
    let [p0, p1, p2] = side.plane.points();
    let Ok(plane) = Plane::of(
        inward_point(&side.plane, thickness, p0),
        inward_point(&side.plane, thickness, p1),
        inward_point(&side.plane, thickness, p2),
    ) else {
        return None;
    };
    Some(Side {
        plane,
        tag: side.tag + INNER_TAG,
    })
}

/// The sides moved inward. `None` only where no point of the world is behind all of them then.
pub(crate) fn inner_box(
    alloc: Global,
    sides: &[Side],
    thickness: i32,
) -> Result<Option<Vec<Side>>, AllocError>
    requires thickness { IsThickness thickness }
    requires along { are_along_axes sides.now ≡ true }
    requires small { Every (λ s. s.tag < 2 ^ 30) sides.now }
    ensures { IfOk result (λ inner. IsInnerBox thickness sides.now (option_map (λ sides. sides.items) inner)) }
{
    let mut inner = Vec::new(alloc);
    for side in sides {
        let Some(moved) = inward(side, thickness) else {
            return Ok(None);
        };
        inner.push(moved)?;
    }
    Ok(Some(inner))
}
