//! The texture axes of Standard faces, which follow from the plane and the rotation.

ghost use Rattle.std.specs.Prelude.{◌≡◌, ◌≤◌, ◌*ℤ◌, if◌then◌else◌, All, map, option_map, neg_ℤ, None, Some, pos, unsigned_abs};
ghost use Rattle.exact_geom.specs.Planes.{half_space};
ghost use Rattle.uv_lock.specs.BaseAxes.{base_axes_of};
ghost use Rattle.uv_lock.specs.Coordinates.{in_units, is_quarter, quarters_of, standard_axes, valve_tex};
ghost use Rattle.uv_lock.specs.Units.{axis_unit};

use crate::axes::base_axes;
use crate::face::Face;
use crate::numbers::AXIS_UNIT;
use crate::texture::{Tex, ValveTex};
use exact_geom::Plane;
use fixed_num::{Micro, Nano};

/// A quarter turn, in millionths of a degree.
const QUARTER: i64 = 90_000_000;

/// The texture fields of the face with its axes written out, in the Valve format: those of a Standard face are the base
/// axes of its plane, turned by its rotation, and its other fields stay. A Valve face's fields are as they are. `None`
/// exactly where a Standard face has a rotation that is no multiple of 90 degrees.
pub fn to_valve(f: &Face) -> Option<Tex>
    ensures { result ≡ valve_tex f.now.plane f.now.tex }
{
    Some(Tex::Valve(valve_fields(f)?))
}

/// The same fields by themselves.
pub(crate) fn valve_fields(f: &Face) -> Option<ValveTex>
    ensures { option_map Tex.Valve result ≡ valve_tex f.now.plane f.now.tex }
{
    match f.tex {
        Tex::Valve(tex) => Some(tex),
        Tex::Standard(tex) => Some(ValveTex {
            axis: standard_axes(&f.plane, tex.rotation)?,
            off: tex.off,
            rotation: tex.rotation,
            scale: tex.scale,
            surface: tex.surface,
        }),
    }
}

fn standard_axes(plane: &Plane, rotation: Micro) -> Option<[[Nano; 3]; 2]>
    ensures { result ≡ standard_axes plane.now rotation }
{
    let quarters = quarters(rotation)?;
    let [u, v] = unit_axes(plane);
    // A quarter turn leads from the axes U and V to -V and U.
    Some(match quarters {
        0 => [u, v],
        1 => [opposite(v), u],
        2 => [opposite(u), opposite(v)],
        _ => [v, opposite(u)],
    })
}

// The quarter turns of a rotation, 0 to 3.
fn quarters(rotation: Micro) -> Option<i64>
    ensures { result ≡ (if is_quarter rotation then Some (pos (quarters_of rotation)) else None) }
{
    if rotation.0 % QUARTER != 0 {
        return None;
    }
    Some((rotation.0 / QUARTER).rem_euclid(4))
}

// The base axes of the plane, as counts.
fn unit_axes(plane: &Plane) -> [[Nano; 3]; 2]
    ensures { option_map in_units (base_axes_of (half_space plane.now).normal) ≡ Some result }
{
    let [u, v] = base_axes(plane);
    [counts(u), counts(v)]
}

fn counts(axis: [i64; 3]) -> [Nano; 3]
    requires { All (λ part. unsigned_abs part ≤ 1) axis }
    ensures { result ≡ map (λ part. part *ℤ pos axis_unit) axis }
{
    [
        Nano(axis[0] * AXIS_UNIT),
        Nano(axis[1] * AXIS_UNIT),
        Nano(axis[2] * AXIS_UNIT),
    ]
}

fn opposite(axis: [Nano; 3]) -> [Nano; 3]
    ensures { result ≡ map neg_ℤ axis }
{
    let [x, y, z] = axis;
    [Nano(-x.0), Nano(-y.0), Nano(-z.0)]
}
