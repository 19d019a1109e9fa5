//! Which brushes of a file are brushes of a map.

ghost use Rattle.std.specs.Prelude.{◌≡◌, ◌<◌, ◌≤◌, length, map, slice_index_or, IfOk, IsTrue};
ghost use Rattle.algebra.specs.Members.{Every};
ghost use Rattle.trim_laws.specs.Trim.{TrimFaces};
ghost use Rattle.trim_laws.specs.Valid.{Valid};
ghost use Rattle.solid_brush.specs.Sides.{IsBuiltOf, IsSolid};
ghost use Rattle.uv_lock.specs.declared.face.Face.{Face as PlainFace};
ghost use Rattle.map_text.specs.declared.document.RawBrush.TheVariants.{Faces};
ghost use Rattle.map_text.specs.Spelled.{is_spelled_brush};
ghost use Rattle.map_nodes.specs.Seen.{sides_of};
ghost use Rattle.map_model.specs.Shape.{half_spaces};
ghost use Rattle.map_model.specs.Meant.{plane_of};
ghost use Rattle.tree_file.specs.Judging.{AreFacesJudged, IsJudged};

use crate::copies::copy_faces_of;
use exact_geom::Rows;
use map_nodes::{Body, sides_of};
use map_text::{RawBrush, Reason};
use solid_brush::{BuildFault, Solid};
use std::alloc::{AllocError, Global};
use uv_lock::Face;

// The solid of the faces of a brush. A brush is refused for want of memory alone.
fn solid_of(alloc: Global, faces: &[Face]) -> Result<Solid, AllocError>
    requires few { length faces.now ≤ 256 }
    requires valid { Valid (half_spaces faces.now) }
    ensures { IfOk result (λ solid. solid ≡ sides_of faces.now) }
{
    let sides = sides_of(alloc, faces)?;
    match Solid::build(alloc, &sides) {
        Ok(solid) => Ok(solid),
        Err(_) => Err(AllocError),
    }
}

// The faces that a solid needs, with the solid.
fn body_of(alloc: Global, faces: Rows<Face>, solid: Solid) -> Result<Body, AllocError>
    requires few { length faces ≤ 256 }
    requires built { IsBuiltOf (sides_of faces) solid }
    requires solid { IsSolid solid }
    ensures needed { IfOk result (λ body. TrimFaces plane_of faces body) }
    ensures most { IfOk result (λ body. length body ≤ 128) }
{
    if solid.sides().len() == faces.list().len() {
        return Ok(Body::of(faces, solid));
    }
    let kept = copy_faces_of(alloc, faces.list(), solid.sides())?;
    let again = solid_of(alloc, kept.list())?;
    Ok(Body::of(kept, again))
}

// Faces with the solid that they bound, or why they bound none.
fn judge_faces(alloc: Global, faces: Rows<Face>) -> Result<Result<Body, Reason>, AllocError>
    requires spelled { IsTrue (is_spelled_brush (Faces faces)) }
    ensures { IfOk result (AreFacesJudged faces) }
{
    let sides = sides_of(alloc, faces.list())?;
    match Solid::build(alloc, &sides) {
        Ok(solid) => Ok(Ok(body_of(alloc, faces, solid)?)),
        Err(BuildFault::NoVolume) => Ok(Err(Reason::Volume)),
        Err(BuildFault::OutOfWorld) => Ok(Err(Reason::World)),
        Err(BuildFault::TooManyFaces(_)) => Ok(Err(Reason::Faces)),
        Err(BuildFault::Memory) => Err(AllocError),
    }
}

/// A brush of a map, or why a brush of a text is none.
pub(crate) fn judge(alloc: Global, brush: RawBrush) -> Result<Result<Body, Reason>, AllocError>
    requires spelled { IsTrue (is_spelled_brush brush) }
    ensures { IfOk result (IsJudged brush) }
{
    match brush {
        RawBrush::Faces(faces) => judge_faces(alloc, faces),
        RawBrush::Bad(reason) => Ok(Err(reason)),
    }
}
