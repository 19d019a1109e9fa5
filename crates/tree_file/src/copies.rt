//! Copies of faces.

ghost use Rattle.std.specs.Prelude.{◌≡◌, ◌<◌, length, map, slice_index_or, IfOk};
ghost use Rattle.algebra.specs.Members.{Every};
ghost use Rattle.uv_lock.specs.declared.face.Face.{Face as PlainFace};

use exact_geom::Rows;
use solid_brush::Side;
use std::alloc::{AllocError, Global};
use uv_lock::Face;

/// Equal faces.
pub(crate) fn copy_faces(alloc: Global, faces: &[Face]) -> Result<Rows<Face>, AllocError>
    ensures { IfOk result (λ copies. copies ≡ faces.now) }
{
    let mut copies = Vec::with_capacity(alloc, faces.len())?;
    for face in faces {
        copies.push(face.copy(alloc)?)?;
    }
    Ok(Rows::of(copies))
}

/// Copies of the faces that sides stand for: the tag of each is the place of its face.
pub(crate) fn copy_faces_of(
    alloc: Global,
    faces: &[Face],
    sides: &[Side],
) -> Result<Rows<Face>, AllocError>
    requires { Every (λ s. s.tag < length faces.now) sides.now }
    ensures { IfOk result (λ copies. (d : PlainFace) → copies ≡ map (λ s. slice_index_or faces.now s.tag d) sides.now) }
{
    let mut copies = Vec::with_capacity(alloc, sides.len())?;
    for side in sides {
        copies.push(faces[side.tag as usize].copy(alloc)?)?;
    }
    Ok(Rows::of(copies))
}
