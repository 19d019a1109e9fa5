//! The faces of sides, by what their tags tell.

ghost use Rattle.std.specs.Prelude.{◌≡◌, IfOk};
ghost use Rattle.algebra.specs.Members.{Every};
ghost use Rattle.cut_plans.specs.Told.{told, face_of, faces_of, IsTold};

use fixed_num::Text;
use solid_brush::Side;
use std::alloc::{AllocError, Global};
use uv_lock::Face;

// The face that the tag of a side tells: below the base one of the old faces, and from there on one of the new ones.
fn told<'a>(base: u32, old: &'a [Face], new: &'a [Face], side: &Side) -> &'a Face
    requires { IsTold base old.now new.now side.now }
    ensures { result.now ≡ told base old.now new.now side.now }
{
    if side.tag < base {
        &old[side.tag as usize]
    } else {
        &new[(side.tag - base) as usize]
    }
}

// The fields of that face on the side's own plane.
fn face_of(
    alloc: Global,
    base: u32,
    old: &[Face],
    new: &[Face],
    side: &Side,
) -> Result<Face, AllocError>
    requires { IsTold base old.now new.now side.now }
    ensures { IfOk result (λ face. face ≡ face_of base old.now new.now side.now) }
{
    let face = told(base, old, new, side);
    Ok(Face {
        plane: side.plane,
        material: Text::of(alloc, face.material.bytes())?,
        tex: face.tex,
    })
}

/// The faces of sides, in order. It fails for want of memory alone.
pub fn faces_of(
    alloc: Global,
    base: u32,
    old: &[Face],
    new: &[Face],
    sides: &[Side],
) -> Result<Vec<Face>, AllocError>
    requires { Every (IsTold base old.now new.now) sides.now }
    ensures { IfOk result (λ faces. faces.items ≡ faces_of base old.now new.now sides.now) }
{
    let mut faces = Vec::with_capacity(alloc, sides.len())?;
    for side in sides {
        faces.push(face_of(alloc, base, old, new, side)?)?;
    }
    Ok(faces)
}
