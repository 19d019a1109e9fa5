//! Vertices that are carried onto a plane.

ghost use Rattle.std.specs.Prelude.{◌≡◌, ◌++◌, ◌∷◌, [], length, pos, IfOk, OnOk, IsTrue};
ghost use Rattle.std.specs.Ordering.{int_eq};
ghost use Rattle.algebra.specs.Members.{Every};
ghost use Rattle.algebra.specs.Space.{side, whole_point};
ghost use Rattle.exact_geom.specs.Planes.{is_in_range, vector};
ghost use Rattle.hull_search.specs.Slopes.{face};
ghost use Rattle.vertex_edit.specs.Carrying.{carry, onto};

use exact_geom::{HVertex, Point};
use hull_search::{Face, spot_of};
use std::alloc::{AllocError, AllocFailed, Global};

// Whether a point is on the plane of the face.
fn lies_on(f: &Face, p: &Point) -> bool
    requires range { IsTrue (is_in_range p.now) }
    ensures { result ≡ int_eq (side (face f.now) (whole_point (vector p.now))) (pos 0) }
{
    f.side(&spot_of(p)) == 0
}

// Adds a vertex, if its new place is on the face.
fn add_if_onto(
    list: &mut Vec<HVertex>,
    f: &Face,
    vertex: &HVertex,
    place: &Point,
) -> Result<(), AllocFailed<HVertex>>
    requires range { IsTrue (is_in_range place.now) }
    ensures { OnOk result (list.new.items ≡ list.old.items ++ onto (face f.now) (carry (vertex.now ∷ []) (place.now ∷ []))) }
{
    if !lies_on(f, place) {
        return Ok(());
    }
    list.push(*vertex)?;
    Ok(())
}

/// The vertices whose new places are on the face.
pub(crate) fn carried_onto(
    alloc: Global,
    vertices: &[HVertex],
    places: &[Point],
    f: &Face,
) -> Result<Vec<HVertex>, AllocError>
    requires count { length places.now ≡ length vertices.now }
    requires range { Every (λ p. IsTrue (is_in_range p)) places.now }
    ensures { IfOk result (λ list. list.items ≡ onto (face f.now) (carry vertices.now places.now)) }
{
    let mut list = Vec::new(alloc);
    for k in 0..vertices.len() {
        add_if_onto(&mut list, f, &vertices[k], &places[k])?;
    }
    Ok(list)
}
