//! The first point of a ray that is in a solid.

ghost use Rattle.std.specs.Prelude.{◌≡◌, ◌≤◌, ◌≤ℤ◌, pos, length, IsTrue};
ghost use Rattle.std.specs.Bool.{Decides};
ghost use Rattle.algebra.specs.Members.{Every};
ghost use Rattle.algebra.specs.Space.{side};
ghost use Rattle.exact_geom.specs.Planes.{is_in_range, vector};
ghost use Rattle.trim_laws.specs.Solid.{IsIn};
ghost use Rattle.solid_brush.specs.Sides.{half_spaces};
ghost use Rattle.ray_pick.specs.Rays.{point_at, IsFaceAt};
ghost use Rattle.ray_pick.specs.Hits.{IsHit};
ghost use Rattle.ray_pick.specs.Passings.{IsSmall, place};

use crate::entry::entry;
use crate::passing::Passing;
use crate::ratio::Ratio;
use exact_geom::Point;
use solid_brush::{Side, Solid};

/// Where a ray is in a solid for the first time: at this fraction of its way, and on this face, the first one whose plane it is
/// on there, by its number from 0. There is no face where the ray begins inside.
#[derive(Clone, Copy, Debug, PartialEq, Eq)]
pub struct Hit {
    pub at: Ratio,
    pub face: Option<u32>,
}

/// The first point of the ray that is in the solid, its boundary included. `None` exactly where no point of the ray is in it.
/// The ray begins at `from` and runs through `to`; where the two are one point, it is that point alone.
pub fn first_hit(s: &Solid, from: Point, to: Point) -> Option<Hit>
    requires from_in_range { IsTrue (is_in_range from) }
    requires to_in_range { IsTrue (is_in_range to) }
    ensures { IsHit (half_spaces s.now) (vector from) (vector to) result }
{
    let sides = s.sides();
    let entry = entry(sides, &from, &to);
    if !is_in(sides, &from, &to, &entry) {
        return None;
    }
    let at = Ratio::of(entry.start, entry.fall);
    let face = first_on(sides, &from, &to, &at);
    Some(Hit { at, face })
}

// Whether no side has the ray's point at a place in front of it.
fn is_in(sides: &[Side], from: &Point, to: &Point, at: &Passing) -> bool
    requires from_in_range { IsTrue (is_in_range from.now) }
    requires to_in_range { IsTrue (is_in_range to.now) }
    requires small { IsSmall at.now }
    ensures { Decides result (Every (λ f. side f (point_at (vector from.now) (vector to.now) (place at.now)) ≤ℤ pos 0) (half_spaces sides.now)) }
{
    for side in sides {
        let passing = Passing::of(&side.plane, from, to);
        let in_front = passing.side_at(at.start, at.fall) > 0;
        if in_front {
            return false;
        }
    }
    true
}

// The first side whose plane the ray's point at a fraction is on, by its place.
fn first_on(sides: &[Side], from: &Point, to: &Point, at: &Ratio) -> Option<u32>
    requires few { length sides.now ≤ 128 }
    requires from_in_range { IsTrue (is_in_range from.now) }
    requires to_in_range { IsTrue (is_in_range to.now) }
    requires is_in { IsIn (half_spaces sides.now) (point_at (vector from.now) (vector to.now) at.now) }
    ensures { IsFaceAt (half_spaces sides.now) (point_at (vector from.now) (vector to.now) at.now) result }
{
    let mut place = 0;
    for side in sides {
        let passing = Passing::of(&side.plane, from, to);
        if passing.side_at(at.num(), at.den()) == 0 {
            return Some(place);
        }
        place += 1;
    }
    None
}
