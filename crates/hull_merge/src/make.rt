//! Hulls of points.

ghost use Rattle.std.specs.Prelude.{◌^◌, ◌<◌, ◌≤◌, length, IsTrue, IsOk, IfOk, IfErr};
ghost use Rattle.algebra.specs.Members.{Every};
ghost use Rattle.exact_geom.specs.Planes.{is_in_range};
ghost use Rattle.hull_merge.specs.Hulls.{AreFirstPlaces, IsHull, HasTheHeld, IsNoHullFor, IsRefusedHull, distinct};

use crate::build::hull_of;
use crate::fault::HullFault;
use crate::outside::leaves_world;
use crate::places::{first_places, spots_at};
use crate::shape::Hull;
use exact_geom::Point;
use hull_search::facets_of;
use std::alloc::Global;

const MOST_POINTS: usize = 512;

const MOST_FACES: usize = 128;

// The hull of points whose first places are known.
fn hull_at(alloc: Global, points: &[Point], places: &[u32]) -> Result<Hull, HullFault>
    requires range { Every (λ p. IsTrue (is_in_range p)) points.now }
    requires places { AreFirstPlaces points.now places.now }
    ensures hull { IfOk result (λ hull. IsHull points.now hull.facets hull.solid) }
    ensures fault { IfErr result (IsNoHullFor (distinct points.now)) }
{
    let spots = spots_at(alloc, points, places)?;
    let Some(facets) = facets_of(alloc, &spots)? else {
        return Err(HullFault::NoVolume);
    };
    if facets.len() > MOST_FACES {
        return Err(HullFault::TooManyFaces(facets.len() as u64));
    }
    if leaves_world(&spots) {
        return Err(HullFault::OutOfWorld);
    }
    let hull = hull_of(alloc, points, places, &facets)?;
    Ok(hull)
}

/// The hull of points, however many they are. The points have coordinates at most 4352 in size.
///
/// The points are refused exactly for the first cause of `HullFault` that holds, but that the number of points is not counted, and
/// that `Memory`, for want of memory, may come in place of any answer.
pub fn hull_core(alloc: Global, points: &[Point]) -> Result<Hull, HullFault>
    requires few { length points.now < 2 ^ 32 }
    requires range { Every (λ p. IsTrue (is_in_range p)) points.now }
    ensures hull { IfOk result (λ hull. IsHull points.now hull.facets hull.solid) }
    ensures law { IfOk result (λ hull. HasTheHeld points.now hull.solid) }
    ensures fault { IfErr result (IsNoHullFor (distinct points.now)) }
{
    let places = first_places(alloc, points)?;
    let hull = hull_at(alloc, points, &places)?;
    Ok(hull)
}

/// The hull of at most 512 distinct points with coordinates at most 4352 in size.
///
/// The points are refused exactly for the first cause of `HullFault` that holds, but that `Memory`, for want of memory, may come in
/// place of any answer.
pub fn hull(alloc: Global, points: &[Point]) -> Result<Hull, HullFault>
    requires few { length points.now < 2 ^ 32 }
    requires range { Every (λ p. IsTrue (is_in_range p)) points.now }
    ensures hull { IfOk result (λ hull. IsHull points.now hull.facets hull.solid) }
    ensures law { IfOk result (λ hull. HasTheHeld points.now hull.solid) }
    ensures few { IsOk result → length (distinct points.now) ≤ 512 }
    ensures fault { IfErr result (IsRefusedHull (distinct points.now)) }
{
    let places = first_places(alloc, points)?;
    if places.len() > MOST_POINTS {
        return Err(HullFault::TooManyPoints(places.len() as u32));
    }
    let hull = hull_at(alloc, points, &places)?;
    Ok(hull)
}
