//! The texture axes that a plane has by its direction.

ghost use Rattle.std.specs.Prelude.{◌≡◌};
ghost use Rattle.exact_geom.specs.Planes.{half_space};
ghost use Rattle.uv_lock.specs.BaseAxes.{base_axes_of, WinnerGivesAxes};

use exact_geom::Plane;

const EAST: [i64; 3] = [1, 0, 0];

const NORTH: [i64; 3] = [0, 1, 0];

const SOUTH: [i64; 3] = [0, -1, 0];

const DOWN: [i64; 3] = [0, 0, -1];

/// The axes U and V of a face on the plane, as unit vectors: those of the main direction that is nearest to its
/// normal. Of directions that are equally near, up and down (along z) come before east and west (along x), and
/// these before north and south (along y). A Standard face turns them by its rotation.
pub fn base_axes(p: &Plane) -> [[i64; 3]; 2]
    ensures { base_axes_of (half_space p.now).normal ≡ Some result }
{
    let [x, y, z] = p.normal();
    let (x, y, z) = (x.unsigned_abs(), y.unsigned_abs(), z.unsigned_abs());
    // Opposite directions have the same axes, so the greatest part in size decides.
    if z >= x.max(y) {
        [EAST, SOUTH]
    } else if x >= y {
        [NORTH, DOWN]
    } else {
        [EAST, DOWN]
    }
}

/// At each normal one main direction wins: its dot product with the normal is at least that of each, and greater
/// than that of each earlier one. The base axes are those of the direction that wins.
pub fn base_axes_law()
    ensures { WinnerGivesAxes }
{}
