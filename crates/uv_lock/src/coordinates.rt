//! The texture coordinates of points on a face.

ghost use Rattle.std.specs.Prelude.{◌≡◌, IsTrue, map, option_map};
ghost use Rattle.algebra.specs.Space.{whole_point};
ghost use Rattle.exact_geom.specs.Planes.{is_in_range, vector};
ghost use Rattle.uv_lock.specs.Coordinates.{coordinate_along, coordinates};
ghost use Rattle.uv_lock.specs.Carry.{axis_vector};
ghost use Rattle.orient48.specs.Kept.{vector_in};
ghost use Rattle.orient48.specs.Motions.{is_short};
ghost use Rattle.uv_lock.specs.Fractions.{fraction_of};

use crate::face::Face;
use crate::fraction::reduced;
use crate::numbers::{OFFSET_UNIT, along, scale_count, scaled_offset};
use crate::standard::valve_fields;
use exact_geom::Point;
use fixed_num::{Frac, Nano, Pico};

/// The texture coordinates u and v of a point on the face, in texels; the point is at most 4352 map units in size in each
/// coordinate. `None` exactly where a Standard face has a rotation that is no multiple of 90 degrees.
pub fn uv_at(f: &Face, at: Point) -> Option<[Frac; 2]>
    requires { IsTrue (is_in_range at) }
    ensures { option_map (map fraction_of) result ≡ coordinates f.now (whole_point (vector at)) }
{
    let tex = valve_fields(f)?;
    let at = [at.x, at.y, at.z];
    Some([
        coordinate(tex.axis[0], tex.off[0], tex.scale[0], at),
        coordinate(tex.axis[1], tex.off[1], tex.scale[1], at),
    ])
}

// Along one axis.
fn coordinate(axis: [Nano; 3], off: Pico, scale: Nano, at: [i32; 3]) -> Frac
    requires { IsTrue (is_short (vector_in at)) }
    ensures { fraction_of result ≡ coordinate_along off scale (axis_vector axis) (whole_point (vector_in at)) }
{
    let texels = along(at, axis) * OFFSET_UNIT + scaled_offset(off, scale);
    reduced(texels, scale_count(scale) * OFFSET_UNIT)
}
