//! The walls of boxes.

ghost use Rattle.std.specs.Prelude.{◌≡◌};
ghost use Rattle.map_model.specs.Rows.{is_below_each};
ghost use Rattle.exact_geom.specs.Planes.{vector};
ghost use Rattle.edit_ops.specs.Walls.{IsNear, beside, wall, IsWallOf, AreWalls};

use cmd_text::Refusal;
use exact_geom::{Axis, Plane, Point};

/// The planes of the walls of the box from `a` to `b`: at `a` those that look against x, y and z, and then at `b` those that
/// look along z, y and x. `PointRange` with the first of them that has a point beyond 4352.
pub(crate) fn box_planes(a: Point, b: Point) -> Result<[Plane; 6], Refusal>
    requires low { IsNear a }
    requires high { IsNear b }
    ensures { AreWalls a b result }
{
    let low_x = wall(0, a, Axis::Y, Axis::Z)?;
    let low_y = wall(1, a, Axis::Z, Axis::X)?;
    let low_z = wall(2, a, Axis::X, Axis::Y)?;
    let high_z = wall(3, b, Axis::Y, Axis::X)?;
    let high_y = wall(4, b, Axis::X, Axis::Z)?;
    let high_x = wall(5, b, Axis::Z, Axis::Y)?;
    Ok([low_x, low_y, low_z, high_z, high_y, high_x])
}

// The plane of a corner and of the points beside it along two axes.
fn wall(face: u32, corner: Point, first: Axis, second: Axis) -> Result<Plane, Refusal>
    requires near { IsNear corner }
    ensures { IsWallOf face (wall first second corner) result }
{
    match Plane::of(corner, beside(corner, first), beside(corner, second)) {
        Ok(plane) => Ok(plane),
        Err(_) => Err(Refusal::PointRange(0, face)),
    }
}

// The point that is one further along an axis.
fn beside(point: Point, axis: Axis) -> Point
    requires near { IsNear point }
    ensures { result ≡ beside axis point }
{
    let Point { x, y, z } = point;
    match axis {
        Axis::X => Point { x: x + 1, y, z },
        Axis::Y => Point { x, y: y + 1, z },
        Axis::Z => Point { x, y, z: z + 1 },
    }
}

/// Whether each coordinate of the first point is below that of the second.
pub(crate) fn is_below_each(a: Point, b: Point) -> bool
    ensures { result ≡ is_below_each (vector a) (vector b) }
{
    a.x < b.x && a.y < b.y && a.z < b.z
}
