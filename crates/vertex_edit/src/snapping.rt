//! Rounding vertices to a grid.

ghost use Rattle.std.specs.Prelude.{◌≡◌, ◌^◌, ◌<◌, length, IfOk, IfErr};
ghost use Rattle.algebra.specs.Members.{Every};
ghost use Rattle.exact_geom.specs.Rounding.{IsGrid};
ghost use Rattle.solid_brush.specs.Sides.{half_spaces};
ghost use Rattle.algebra.specs.World.{InCube, world};
ghost use Rattle.hull_merge.specs.Hulls.{distinct};
ghost use Rattle.vertex_edit.specs.Carrying.{carry};
ghost use Rattle.vertex_edit.specs.Edits.{IsEdit};
ghost use Rattle.vertex_edit.specs.Places.{IsInWorld, IsRoundedTo, AreRoundedTo, IsSnapped};
ghost use Rattle.vertex_edit.specs.SnapFaults.{IsNoEditFor, IsNoSnapFor};

use crate::edit::moved_to;
use crate::shape::Moved;
use crate::snap_fault::SnapFault;
use exact_geom::{HVertex, Point, round};
use hull_merge::{HullFault, vertices_of};
use solid_brush::Solid;
use std::alloc::{AllocError, Global};

// The vertex at the nearest point of the grid.
fn rounded(vertex: &HVertex, grid: i32) -> Point
    requires grid { IsGrid grid }
    requires world { InCube world vertex.now }
    ensures rounded { IsRoundedTo grid vertex.now result }
    ensures world { IsInWorld result }
{
    round(vertex, grid)
}

// The vertices at the nearest points of the grid.
fn rounded_all(alloc: Global, vertices: &[HVertex], grid: i32) -> Result<Vec<Point>, AllocError>
    requires grid { IsGrid grid }
    requires world { Every (InCube world) vertices.now }
    ensures { IfOk result (λ places. AreRoundedTo grid vertices.now places.items) }
{
    let mut places = Vec::new(alloc);
    for vertex in vertices {
        places.push(rounded(vertex, grid))?;
    }
    Ok(places)
}

// The brush whose vertices are moved to places in the world.
fn edited(
    alloc: Global,
    old: &Solid,
    vertices: &[HVertex],
    places: &[Point],
) -> Result<Moved, SnapFault>
    requires count { length places.now ≡ length vertices.now }
    requires few { length places.now < 2 ^ 32 }
    requires world { Every IsInWorld places.now }
    ensures edit { IfOk result (λ m. IsEdit (half_spaces old.now) (carry vertices.now places.now) m.facets m.solid) }
    ensures fault { IfErr result (IsNoEditFor (distinct places.now)) }
{
    match moved_to(alloc, old, vertices, places) {
        Ok(moved) => Ok(moved),
        Err(HullFault::NoVolume) => Err(SnapFault::NoVolume),
        Err(HullFault::TooManyFaces(n)) => Err(SnapFault::TooManyFaces(n)),
        Err(HullFault::Memory) => Err(SnapFault::Memory),
        Err(HullFault::OutOfWorld) => unreachable!(),
        Err(HullFault::TooManyPoints(_)) => unreachable!(),
    }
}

/// The brush whose vertices are rounded to a grid of 1, 2, 4, 8, 16, 32 or 64 map units, each coordinate to the nearest multiple,
/// half away from zero.
///
/// The rounded vertices are refused exactly for the first cause of `SnapFault` that holds, but that `Memory`, for want of memory,
/// may come in place of any answer.
pub fn snap(alloc: Global, a: &Solid, grid: i32) -> Result<Moved, SnapFault>
    requires grid { IsGrid grid }
    ensures moved { IfOk result (λ m. IsSnapped (half_spaces a.now) grid m.facets m.solid) }
    ensures fault { IfErr result (IsNoSnapFor (half_spaces a.now) grid) }
{
    let vertices = vertices_of(alloc, a)?;
    let places = rounded_all(alloc, &vertices, grid)?;
    edited(alloc, a, &vertices, &places)
}
