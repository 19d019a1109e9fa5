//! Solids that a motion moves.

ghost use Rattle.std.specs.Prelude.{◌≡◌, map, None, IfOk};
ghost use Rattle.std.specs.Bool.{Decides};
ghost use Rattle.algebra.specs.Members.{◌∈◌};
ghost use Rattle.exact_geom.specs.Planes.{first_out_of_range};
ghost use Rattle.trim_laws.specs.Valid.{OutOfWorld};
ghost use Rattle.uv_lock.specs.declared.face.Face.{Face as PlainFace};
ghost use Rattle.map_model.specs.Motions.{moved_plane};
ghost use Rattle.edit_ops.specs.Moving.{moved_spaces, carried, CanMove};

use crate::faces::carried_faces;
use map_nodes::Body;
use orient48::Motion;
use std::alloc::{AllocError, Global};

/// Whether a brush leaves the world, once it is moved.
pub(crate) fn leaves_world(alloc: Global, motion: &Motion, body: &Body) -> Result<bool, AllocError>
    requires in_range { (f : PlainFace) → f ∈ body.now → first_out_of_range (moved_plane motion.now f.plane) ≡ None }
    ensures { IfOk result (λ leaves. Decides leaves (OutOfWorld (moved_spaces motion.now body.now))) }
{
    match body.solid().moved(alloc, motion)? {
        Some(solid) => {
            drop(solid);
            Ok(false)
        }
        None => Ok(true),
    }
}

/// The body of a brush, moved. It is refused for want of memory alone.
pub(crate) fn moved_body(
    alloc: Global,
    motion: &Motion,
    lock: bool,
    body: &Body,
) -> Result<Body, AllocError>
    requires can { CanMove lock motion.now body.now }
    ensures { IfOk result (λ moved. moved ≡ map (carried lock motion.now) body.now) }
{
    let faces = carried_faces(alloc, motion, lock, body.faces())?;
    match body.solid().moved(alloc, motion)? {
        Some(solid) => Ok(Body::of(faces, solid)),
        None => unreachable!(),
    }
}
