//! Solids as brushes.

ghost use Rattle.std.specs.Prelude.{◌≡◌, IfOk};
ghost use Rattle.algebra.specs.Members.{Every};
ghost use Rattle.cut_plans.specs.Told.{faces_of, IsTold};

use crate::told::faces_of;
use brush_plans::body_of;
use map_nodes::Body;
use solid_brush::Solid;
use std::alloc::{AllocError, Global};
use tree_ops::OpFault;
use uv_lock::Face;

/// The brush of a solid, whose sides tell its faces. It fails for want of memory alone.
pub fn body_of_solid(
    alloc: Global,
    base: u32,
    old: &[Face],
    new: &[Face],
    solid: &Solid,
) -> Result<Body, AllocError>
    requires { Every (IsTold base old.now new.now) solid.now }
    ensures { IfOk result (λ body. body ≡ faces_of base old.now new.now solid.now) }
{
    let faces = faces_of(alloc, base, old, new, solid.sides())?;
    match body_of(alloc, faces, 0) {
        Ok(body) => Ok(body),
        Err(OpFault::No(_)) => unreachable!(),
        Err(OpFault::Memory) => Err(AllocError),
    }
}
