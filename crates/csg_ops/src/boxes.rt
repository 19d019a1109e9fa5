//! Which brushes are boxes along the axes.

ghost use Rattle.std.specs.Prelude.{◌≡◌};
ghost use Rattle.exact_geom.specs.Planes.{half_space};
ghost use Rattle.csg_ops.specs.Hollows.{is_along_axis, are_along_axes, is_box};

use exact_geom::Plane;
use solid_brush::Side;

// Whether two parts of the normal are 0.
fn is_along_axis(plane: &Plane) -> bool
    ensures { result ≡ is_along_axis (half_space plane.now).normal }
{
    let [x, y, z] = plane.normal();
    (y == 0 && z == 0) || (z == 0 && x == 0) || (x == 0 && y == 0)
}

// Whether each normal is along an axis.
fn are_along_axes(sides: &[Side]) -> bool
    ensures { result ≡ are_along_axes sides.now }
{
    for side in sides {
        if !is_along_axis(&side.plane) {
            return false;
        }
    }
    true
}

/// Whether the sides are six with normals along the axes.
pub(crate) fn is_box(sides: &[Side]) -> bool
    ensures { result ≡ is_box sides.now }
{
    sides.len() == 6 && are_along_axes(sides)
}
