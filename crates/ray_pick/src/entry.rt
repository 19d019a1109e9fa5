//! Where a ray is past all planes that it passes inward.

ghost use Rattle.std.specs.Prelude.{IsTrue};
ghost use Rattle.exact_geom.specs.Planes.{is_in_range, vector};
ghost use Rattle.solid_brush.specs.Sides.{half_spaces};
ghost use Rattle.ray_pick.specs.Passings.{IsEntry};

use crate::passing::Passing;
use exact_geom::Point;
use solid_brush::Side;

/// The last plane that the ray passes inward, or its first point where none of them lies ahead: there all of these planes are
/// passed, and at no earlier point are they.
pub(crate) fn entry(sides: &[Side], from: &Point, to: &Point) -> Passing
    requires from_in_range { IsTrue (is_in_range from.now) }
    requires to_in_range { IsTrue (is_in_range to.now) }
    ensures { IsEntry (half_spaces sides.now) (vector from.now) (vector to.now) result }
{
    let mut entry = Passing { start: 0, fall: 1 };
    for side in sides {
        let passing = Passing::of(&side.plane, from, to);
        if passing.fall > 0 && passing.is_later(&entry) {
            entry = passing;
        }
    }
    entry
}
