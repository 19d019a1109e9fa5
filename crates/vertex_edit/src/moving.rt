//! Moving picked vertices.

ghost use Rattle.std.specs.Prelude.{◌≡◌, ◌^◌, ◌<◌, length, map, IfOk, IfErr, IsTrue};
ghost use Rattle.algebra.specs.Members.{Every};
ghost use Rattle.exact_geom.specs.Planes.{is_in_range};
ghost use Rattle.solid_brush.specs.Sides.{half_spaces};
ghost use Rattle.hull_merge.specs.Hulls.{distinct};
ghost use Rattle.vertex_edit.specs.Carrying.{carry};
ghost use Rattle.vertex_edit.specs.Edits.{IsEdit};
ghost use Rattle.vertex_edit.specs.Places.{IsSmall, IsInWorld, place_of, IsMoved};
ghost use Rattle.vertex_edit.specs.MoveFaults.{IsNoEditFor, IsNoMoveFor};

use crate::edit::moved_to;
use crate::fault::MoveFault;
use crate::picks::{first_far, first_stranger, place_of};
use crate::shape::Moved;
use exact_geom::{HVertex, Point};
use hull_merge::{HullFault, vertices_of, whole_points};
use solid_brush::Solid;
use std::alloc::{AllocError, Global};

// Where the vertices go.
fn places_of(
    alloc: Global,
    points: &[Point],
    picks: &[Point],
    shift: &[i32; 3],
) -> Result<Vec<Point>, AllocError>
    requires small { IsSmall shift.now }
    requires world { Every IsInWorld points.now }
    ensures { IfOk result (λ places. places.items ≡ map (place_of picks.now shift.now) points.now) }
{
    let mut places = Vec::new(alloc);
    for point in points {
        places.push(place_of(picks, shift, point))?;
    }
    Ok(places)
}

// The brush whose vertices are moved to places.
fn edited(
    alloc: Global,
    old: &Solid,
    vertices: &[HVertex],
    places: &[Point],
) -> Result<Moved, MoveFault>
    requires count { length places.now ≡ length vertices.now }
    requires few { length places.now < 2 ^ 32 }
    requires range { Every (λ p. IsTrue (is_in_range p)) places.now }
    ensures edit { IfOk result (λ m. IsEdit (half_spaces old.now) (carry vertices.now places.now) m.facets m.solid) }
    ensures fault { IfErr result (IsNoEditFor (distinct places.now)) }
{
    match moved_to(alloc, old, vertices, places) {
        Ok(moved) => Ok(moved),
        Err(HullFault::NoVolume) => Err(MoveFault::NoVolume),
        Err(HullFault::TooManyFaces(n)) => Err(MoveFault::TooManyFaces(n)),
        Err(HullFault::OutOfWorld) => Err(MoveFault::OutOfWorld),
        Err(HullFault::Memory) => Err(MoveFault::Memory),
        Err(HullFault::TooManyPoints(_)) => unreachable!(),
    }
}

/// The brush whose picked vertices are moved by the shift, while the others stay; a vertex that is picked twice is moved once. Each
/// coordinate of the shift is at most 8704 in size.
///
/// The picks are refused exactly for the first cause of `MoveFault` that holds, but that `Memory`, for want of memory, may come in
/// place of any answer.
pub fn move_vertices(
    alloc: Global,
    a: &Solid,
    picks: &[Point],
    shift: [i32; 3],
) -> Result<Moved, MoveFault>
    requires small { IsSmall shift }
    ensures moved { IfOk result (λ m. IsMoved (half_spaces a.now) picks.now shift m.facets m.solid) }
    ensures fault { IfErr result (IsNoMoveFor (half_spaces a.now) picks.now shift) }
{
    let vertices = vertices_of(alloc, a)?;
    if let Some(k) = first_stranger(&vertices, picks) {
        return Err(MoveFault::NoVertex(k + 1));
    }
    let Some(points) = whole_points(alloc, &vertices)? else {
        return Err(MoveFault::Fractional);
    };
    if let Some(k) = first_far(picks, &shift) {
        return Err(MoveFault::PointRange(k + 1));
    }
    let places = places_of(alloc, &points, picks, &shift)?;
    edited(alloc, a, &vertices, &places)
}
