//! Vertices in a listing, and the loop of a face.

ghost use Rattle.std.specs.Prelude.{◌≡◌, ◌++◌, OnOk, pos, ◌<ℤ◌};
ghost use Rattle.solid_brush.specs.Sides.{half_spaces};
ghost use Rattle.map_model.specs.Listings.{point_words};
ghost use Rattle.tree_session.specs.Lines.{three_words, point_text, weight_text};
ghost use Rattle.tree_session.specs.Brushes.{AddsVertex, AddsLoop};

use crate::listing::Listing;
use exact_geom::HVertex;
use solid_brush::Solid;
use std::alloc::AllocError;

fn put_numbers(listing: &mut Listing, x: i128, y: i128, z: i128) -> Result<(), AllocError>
    ensures { OnOk result (listing.new ≡ listing.old ++ three_words x y z) }
{
    listing.signed(x)?;
    listing.put(b" ")?;
    listing.signed(y)?;
    listing.put(b" ")?;
    listing.signed(z)
}

fn put_point(listing: &mut Listing, x: i128, y: i128, z: i128) -> Result<(), AllocError>
    ensures { OnOk result (listing.new ≡ listing.old ++ point_text x y z) }
{
    listing.put(b"(")?;
    put_numbers(listing, x, y, z)?;
    listing.put(b")")
}

// Adds a weight that is not 1, behind a slash.
fn put_weight(listing: &mut Listing, weight: i128) -> Result<(), AllocError>
    requires { pos 0 <ℤ weight }
    ensures { OnOk result (listing.new ≡ listing.old ++ weight_text weight) }
{
    if weight.unsigned_abs() == 1 {
        return Ok(());
    }
    listing.put(b"/")?;
    listing.signed(weight)
}

fn put_vertex(listing: &mut Listing, vertex: HVertex) -> Result<(), AllocError>
    ensures { OnOk result (listing.new ≡ (listing.old ++ point_words vertex) ++ weight_text vertex.weight) }
{
    let [x, y, z, weight] = vertex.parts();
    put_point(listing, x, y, z)?;
    put_weight(listing, weight)
}

// Adds a blank and the vertex of a number.
fn put_vertex_of(listing: &mut Listing, solid: &Solid, number: u32) -> Result<(), AllocError>
    ensures { OnOk result (AddsVertex (half_spaces solid.now) number listing.old listing.new) }
{
    listing.put(b" ")?;
    match solid.vertex(number) {
        None => Ok(()),
        Some(vertex) => put_vertex(listing, vertex),
    }
}

/// Adds the vertices of the loop of a face, each with a blank before.
pub(crate) fn put_loop(listing: &mut Listing, solid: &Solid, face: u32) -> Result<(), AllocError>
    ensures { OnOk result (AddsLoop (half_spaces solid.now) face listing.old listing.new) }
{
    for k in 0..solid.vertex_count() {
        match solid.loop_vertex(face, k) {
            None => return Ok(()),
            Some(number) => put_vertex_of(listing, solid, number)?,
        }
    }
    Ok(())
}
