//! Sides of solids.

ghost use Rattle.std.specs.Prelude.{◌≡◌, ◌+◌, ◌^◌, ◌<◌, map};
ghost use Rattle.algebra.specs.Members.{Every};
ghost use Rattle.solid_brush.specs.Sides.{with_base};

use exact_geom::Plane;

/// One side of a solid: the solid lies behind its plane. The tag tells it apart from other sides, and stays with it when
/// solids are cut and joined.
#[derive(Clone, Copy, Debug, PartialEq, Eq)]
pub struct Side {
    pub plane: Plane,
    pub tag: u32,
}

/// Adds a number to the tag of each side.
pub(crate) fn add_to_tags(sides: &mut [Side], base: u32)
    requires room { Every (λ s. s.tag + base < 2 ^ 31) sides.old }
    ensures { sides.new ≡ map (with_base base) sides.old }
{
    for side in sides {
        side.tag += base;
    }
}
