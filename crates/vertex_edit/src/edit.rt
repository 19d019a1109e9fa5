//! The brush of moved vertices.

ghost use Rattle.std.specs.Prelude.{◌≡◌, ◌^◌, ◌<◌, length, IfOk, IfErr, IsTrue};
ghost use Rattle.algebra.specs.Members.{Every};
ghost use Rattle.exact_geom.specs.Planes.{half_space, is_in_range};
ghost use Rattle.solid_brush.specs.Sides.{half_spaces, IsSolid};
ghost use Rattle.hull_search.specs.Slopes.{face};
ghost use Rattle.hull_merge.specs.Hulls.{IsNoHullFor, distinct};
ghost use Rattle.vertex_edit.specs.Carrying.{carry};
ghost use Rattle.vertex_edit.specs.Edits.{IsEdit, AreFrom, IsOldOf};

use crate::carried::carried_onto;
use crate::old_face::old_face;
use crate::shape::{FromFace, Moved};
use exact_geom::{HVertex, Plane, Point, Rows};
use hull_merge::{HullFault, hull_core};
use hull_search::{Face, spot_of};
use solid_brush::{Side, Solid};
use std::alloc::{AllocError, Global};

// The half-space of a plane.
fn face_of(plane: &Plane) -> Face
    ensures { face result ≡ half_space plane.now }
{
    let points = plane.points();
    Face::through(
        &spot_of(&points[0]),
        &spot_of(&points[1]),
        &spot_of(&points[2]),
    )
}

// The facet of a new side, with the old face from which it comes.
fn from_side(
    alloc: Global,
    old: &[Side],
    vertices: &[HVertex],
    places: &[Point],
    side: &Side,
) -> Result<FromFace, AllocError>
    requires old { IsSolid old.now }
    requires count { length places.now ≡ length vertices.now }
    requires range { Every (λ p. IsTrue (is_in_range p)) places.now }
    ensures { IfOk result (IsOldOf (half_spaces old.now) (carry vertices.now places.now) side.now) }
{
    let face = face_of(&side.plane);
    let carried = carried_onto(alloc, vertices, places, &face)?;
    Ok(FromFace {
        points: side.plane.points(),
        old: old_face(old, &carried),
    })
}

// The facets of the new sides, with the old faces from which they come.
fn from_sides(
    alloc: Global,
    old: &[Side],
    vertices: &[HVertex],
    places: &[Point],
    sides: &[Side],
) -> Result<Vec<FromFace>, AllocError>
    requires old { IsSolid old.now }
    requires count { length places.now ≡ length vertices.now }
    requires range { Every (λ p. IsTrue (is_in_range p)) places.now }
    ensures { IfOk result (λ facets. AreFrom (half_spaces old.now) (carry vertices.now places.now) sides.now facets.items) }
{
    let mut facets = Vec::new(alloc);
    for side in sides {
        facets.push(from_side(alloc, old, vertices, places, side)?)?;
    }
    Ok(facets)
}

/// The brush whose vertices are moved to places.
pub(crate) fn moved_to(
    alloc: Global,
    old: &Solid,
    vertices: &[HVertex],
    places: &[Point],
) -> Result<Moved, HullFault>
    requires count { length places.now ≡ length vertices.now }
    requires few { length places.now < 2 ^ 32 }
    requires range { Every (λ p. IsTrue (is_in_range p)) places.now }
    ensures edit { IfOk result (λ moved. IsEdit (half_spaces old.now) (carry vertices.now places.now) moved.facets moved.solid) }
    ensures fault { IfErr result (IsNoHullFor (distinct places.now)) }
{
    let hull = hull_core(alloc, places)?;
    let facets = from_sides(alloc, old.sides(), vertices, places, hull.solid.sides())?;
    Ok(Moved {
        facets: Rows::of(facets),
        solid: hull.solid,
    })
}
