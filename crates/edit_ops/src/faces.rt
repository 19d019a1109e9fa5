//! Faces that a motion moves.

ghost use Rattle.std.specs.Prelude.{◌≡◌, ◌≤◌, length, map, not, is_none, option_map, None, true, IfOk};
ghost use Rattle.algebra.specs.Members.{◌∈◌};
ghost use Rattle.exact_geom.specs.Planes.{first_out_of_range};
ghost use Rattle.uv_lock.specs.declared.face.Face.{Face as PlainFace};
ghost use Rattle.uv_lock.specs.Fractions.{fraction_of};
ghost use Rattle.map_model.specs.Carry.{lost_offset};
ghost use Rattle.map_model.specs.Motions.{moved_plane};
ghost use Rattle.map_model.specs.Rows.{beyond, at_each_face_from};
ghost use Rattle.tree_ops.specs.Passing.{passes};
ghost use Rattle.edit_ops.specs.Moving.{lost_of, carried};

use cmd_text::Refusal;
use exact_geom::{Plane, Rows};
use fixed_num::{Frac, Text};
use map_nodes::NodeId;
use orient48::Motion;
use std::alloc::{AllocError, Global};
use uv_lock::{Face, carry};

/// `PointRange` with the first face of a node that goes beyond the range of points.
pub(crate) fn beyond(motion: &Motion, id: NodeId, faces: &[Face]) -> Result<(), Refusal>
    requires few { length faces.now ≤ 128 }
    ensures { result ≡ passes (beyond id (moved_plane motion.now) faces.now) }
{
    for (place, face) in faces.iter().enumerate() {
        if is_beyond(motion, face) {
            return Err(Refusal::PointRange(id.number(), place as u32));
        }
    }
    Ok(())
}

fn is_beyond(motion: &Motion, face: &Face) -> bool
    ensures { result ≡ not (is_none (first_out_of_range (moved_plane motion.now face.now.plane))) }
{
    motion.plane(&face.plane).is_err()
}

/// `LockOffset` with the first face of a node that loses an offset with lock.
pub(crate) fn lost(motion: &Motion, id: NodeId, faces: &[Face]) -> Result<(), Refusal>
    requires few { length faces.now ≤ 128 }
    ensures { result ≡ passes (at_each_face_from 0 faces.now (lost_of motion.now id)) }
{
    for (place, face) in faces.iter().enumerate() {
        match lost_offset(motion, face) {
            None => {}
            Some(offset) => {
                return Err(Refusal::LockOffset(id.number(), place as u32, offset));
            }
        }
    }
    Ok(())
}

// The offset that has no count.
fn lost_offset(motion: &Motion, face: &Face) -> Option<Frac>
    ensures { option_map fraction_of result ≡ lost_offset motion.now face.now.tex }
{
    match carry(face, motion, true) {
        Ok(_) => None,
        Err(fault) => Some(fault.offset),
    }
}

/// The plane of a face, moved.
pub(crate) fn moved_plane(motion: &Motion, face: &Face) -> Plane
    requires in_range { first_out_of_range (moved_plane motion.now face.now.plane) ≡ None }
    ensures { result ≡ moved_plane motion.now face.now.plane }
{
    let Ok(plane) = motion.plane(&face.plane) else {
        unreachable!()
    };
    plane
}

/// The faces, moved.
pub(crate) fn carried_faces(
    alloc: Global,
    motion: &Motion,
    lock: bool,
    faces: &[Face],
) -> Result<Rows<Face>, AllocError>
    requires in_range { (f : PlainFace) → f ∈ faces.now → first_out_of_range (moved_plane motion.now f.plane) ≡ None }
    requires offsets { (f : PlainFace) → f ∈ faces.now → lock ≡ true → lost_offset motion.now f.tex ≡ None }
    ensures { IfOk result (λ moved. moved ≡ map (carried lock motion.now) faces.now) }
{
    let mut moved = Vec::with_capacity(alloc, faces.len())?;
    for face in faces {
        moved.push(carried_face(alloc, motion, lock, face)?)?;
    }
    Ok(Rows::of(moved))
}

fn carried_face(alloc: Global, motion: &Motion, lock: bool, face: &Face) -> Result<Face, AllocError>
    requires in_range { first_out_of_range (moved_plane motion.now face.now.plane) ≡ None }
    requires offsets { lock ≡ true → lost_offset motion.now face.now.tex ≡ None }
    ensures { IfOk result (λ moved. moved ≡ carried lock motion.now face.now) }
{
    let plane = moved_plane(motion, face);
    let Ok(tex) = carry(face, motion, lock) else {
        unreachable!()
    };
    Ok(Face {
        plane,
        material: Text::of(alloc, face.material.bytes())?,
        tex,
    })
}
