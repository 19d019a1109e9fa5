//! On which side of a plane, and the sign of a determinant.

ghost use Rattle.std.specs.Prelude.{◌≡◌};
ghost use Rattle.algebra.specs.Space.{det};
ghost use Rattle.exact_geom.specs.Planes.{half_space};
ghost use Rattle.exact_geom.specs.Sides.{sign_of};

use crate::plane::Plane;

/// On which side of a plane a point lies, and the sign of a number: below 0, 0, above 0.
#[derive(Clone, Copy, Debug, PartialEq, Eq, Hash)]
pub enum Sign {
    Behind,
    On,
    Front,
}

impl Sign {
    /// The sign of a number.
    pub(crate) fn of(number: i128) -> Sign
        ensures { result ≡ sign_of number }
    {
        if number < 0 {
            Sign::Behind
        } else if number == 0 {
            Sign::On
        } else {
            Sign::Front
        }
    }
}

/// The sign of the determinant of three planes' normals. It is `On` exactly where the normals are dependent.
pub fn det_sign(a: &Plane, b: &Plane, c: &Plane) -> Sign
    ensures { result ≡ sign_of (det (half_space a.now).normal (half_space b.now).normal (half_space c.now).normal) }
{
    let normals = [
        a.half_space64().normal,
        b.half_space64().normal,
        c.half_space64().normal,
    ];
    Sign::of(normals[0].wide_dot(&normals[1].cross(&normals[2])))
}
