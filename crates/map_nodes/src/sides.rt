//! The sides of faces.

ghost use Rattle.std.specs.Prelude.{◌≡◌, ◌≤◌, length, IfOk};
ghost use Rattle.map_nodes.specs.Seen.{sides_of};

use solid_brush::Side;
use std::alloc::{AllocError, Global};
use uv_lock::Face;

/// The sides of faces: each has its place as its tag. An error comes for want of memory alone.
pub fn sides_of(alloc: Global, faces: &[Face]) -> Result<Vec<Side>, AllocError>
    requires few { length faces.now ≤ 256 }
    ensures { IfOk result (λ sides. sides.items ≡ sides_of faces.now) }
{
    let mut sides = Vec::with_capacity(alloc, faces.len())?;
    let mut place = 0;
    for face in faces {
        sides.push(Side {
            plane: face.plane,
            tag: place,
        })?;
        place += 1;
    }
    Ok(sides)
}
