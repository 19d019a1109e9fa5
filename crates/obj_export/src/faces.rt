//! The lines of faces.

ghost use Rattle.std.specs.Prelude.{◌≡◌, ◌<◌, ◌^◌, OnOk, Some, slice_get};
ghost use Rattle.exact_geom.specs.Planes.{half_space};
ghost use Rattle.solid_brush.specs.Sides.{half_spaces};
ghost use Rattle.obj_export.specs.Adding.{AddsFace, AddsFaces};

use crate::corners::put_loop;
use crate::materials::put_name;
use map_nodes::Body;
use solid_brush::Solid;
use std::alloc::AllocError;
use uv_lock::Face;

// Adds the two lines of a face: its material, and its loop.
fn put_face(
    text: &mut Vec<u8>,
    solid: &Solid,
    number: u32,
    face: &Face,
    before: u64,
) -> Result<(), AllocError>
    requires bounds { slice_get (half_spaces solid.now) number ≡ Some (half_space face.now.plane) }
    requires room { before < 2 ^ 63 }
    ensures { OnOk result (AddsFace (half_spaces solid.now) face.now before text.old.items text.new.items) }
{
    text.extend_from_slice(b"usemtl ")?;
    put_name(text, face.material.bytes())?;
    text.extend_from_slice(b"\nf")?;
    put_loop(text, solid, number, before)?;
    text.extend_from_slice(b"\n")
}

/// Adds the lines of the faces of a brush, in order, behind so many vertices of earlier brushes.
pub(crate) fn put_faces(text: &mut Vec<u8>, body: &Body, before: u64) -> Result<(), AllocError>
    requires room { before < 2 ^ 63 }
    ensures { OnOk result (AddsFaces body.now before text.old.items text.new.items) }
{
    body.is_valid();
    let faces = body.faces();
    let solid = body.solid();
    for k in 0..faces.len() {
        put_face(text, solid, k as u32, &faces[k], before)?;
    }
    Ok(())
}
