//! The listing of a brush: its faces with their loops.

ghost use Rattle.std.specs.Prelude.{◌≡◌, ◌++◌, OnOk, Some, slice_get};
ghost use Rattle.exact_geom.specs.Planes.{half_space};
ghost use Rattle.solid_brush.specs.Sides.{half_spaces};
ghost use Rattle.map_nodes.specs.Seen.{sides_of};
ghost use Rattle.tree_session.specs.Brushes.{AddsFace, AddsFaces, AddsBrush};

use crate::listing::Listing;
use crate::material::put_material;
use crate::vertex_words::put_loop;
use map_nodes::{Body, NodeId};
use solid_brush::Solid;
use std::alloc::AllocError;
use uv_lock::Face;

// Adds the line of a face: its number, its material, and its loop.
fn put_face(
    listing: &mut Listing,
    solid: &Solid,
    number: u32,
    face: &Face,
) -> Result<(), AllocError>
    requires { slice_get (half_spaces solid.now) number ≡ Some (half_space face.now.plane) }
    ensures { OnOk result (AddsFace (half_spaces solid.now) number face.now listing.old listing.new) }
{
    listing.put(b"face ")?;
    listing.number(u64::from(number))?;
    listing.put(b" ")?;
    put_material(listing, face.material.bytes())?;
    put_loop(listing, solid, number)?;
    listing.put(b"\n")
}

// Adds the lines of the faces, in order.
fn put_faces(listing: &mut Listing, body: &Body) -> Result<(), AllocError>
    ensures { OnOk result (AddsFaces body.now listing.old listing.new) }
{
    body.is_valid();
    let faces = body.faces();
    let solid = body.solid();
    for k in 0..faces.len() {
        put_face(listing, solid, k as u32, &faces[k])?;
    }
    Ok(())
}

/// Adds the lines of a brush: how many faces and vertices it has, and then each face.
pub(crate) fn put_brush(listing: &mut Listing, id: NodeId, body: &Body) -> Result<(), AllocError>
    ensures { OnOk result (AddsBrush id body.now listing.old listing.new) }
{
    body.is_valid();
    listing.put(b"brush ")?;
    listing.number(u64::from(id.number()))?;
    listing.put(b" ")?;
    listing.number(body.faces().len() as u64)?;
    listing.put(b" ")?;
    listing.number(u64::from(body.solid().vertex_count()))?;
    listing.put(b"\n")?;
    put_faces(listing, body)
}
