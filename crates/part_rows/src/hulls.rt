//! Convex hulls of whole points.

ghost use Rattle.std.specs.Prelude.{◌≡◌, ◌↔◌, ◌<◌, ◌^◌, length, IsTrue};
ghost use Rattle.algebra.specs.Members.{Every};
ghost use Rattle.exact_geom.specs.Planes.{is_in_range};

use crate::row::points;
use crate::shown::add_shown;
use case_text::CaseFault;
use exact_geom::Point;
use hull_merge::hull;
use std::alloc::Global;

/// Whether each coordinate is at most 4352 in size.
pub fn is_in_range(point: &Point) -> bool
    ensures { result ≡ is_in_range point.now }
{
    point.x.unsigned_abs() <= 4352
        && point.y.unsigned_abs() <= 4352
        && point.z.unsigned_abs() <= 4352
}

fn are_in_range(points: &[Point]) -> bool
    ensures { IsTrue result ↔ Every (λ p. IsTrue (is_in_range p)) points.now }
{
    points.iter().all(|point| is_in_range(point))
}

// Adds the facets of points, or why they have no hull.
fn add_facets(alloc: Global, out: &mut String, points: &[Point]) -> Result<(), CaseFault>
    requires few { length points.now < 2 ^ 32 }
    requires range { Every (λ p. IsTrue (is_in_range p)) points.now }
{
    match hull(alloc, points) {
        Ok(hull) => add_shown(out, &hull.facets.list()),
        Err(fault) => add_shown(out, &fault),
    }
}

// How many facets points have, if they have a hull.
fn facet_count(alloc: Global, points: &[Point]) -> Option<usize>
    requires few { length points.now < 2 ^ 32 }
    requires range { Every (λ p. IsTrue (is_in_range p)) points.now }
{
    match hull(alloc, points) {
        Ok(hull) => Some(hull.facets.list().len()),
        Err(_) => None,
    }
}

// Adds how many facets there are each time, where it is the same so many times.
fn add_count(alloc: Global, out: &mut String, points: &[Point], times: u32) -> Result<(), CaseFault>
    requires few { length points.now < 2 ^ 32 }
    requires range { Every (λ p. IsTrue (is_in_range p)) points.now }
{
    let count = facet_count(alloc, points);
    for _ in 1..times {
        if facet_count(alloc, points) != count {
            return Err(CaseFault::Number);
        }
    }
    Ok(writeln!(out, "= {times} times {count:?}")?)
}

/// Adds the facets of the points of a row, by the places of points, or why they have no hull. Of `5 times` and points it adds how many
/// facets they have each time.
pub fn add_hull(alloc: Global, out: &mut String, spelled: &str) -> Result<(), CaseFault> {
    let (times, spelled) = spelled.split_once(" times ").unwrap_or(("", spelled));
    let points = points(alloc, spelled)?;
    if points.len() > 10_000 || !are_in_range(&points) {
        return Err(CaseFault::Number);
    }
    match times.parse() {
        Ok(times) => add_count(alloc, out, &points, times),
        Err(_) => add_facets(alloc, out, &points),
    }
}
