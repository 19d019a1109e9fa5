//! Hulls of points as solids.

ghost use Rattle.std.specs.Prelude.{◌≡◌, ◌^◌, ◌<◌, length, map, IfOk, IsTrue};
ghost use Rattle.algebra.specs.Members.{Every};
ghost use Rattle.exact_geom.specs.Planes.{is_in_range};
ghost use Rattle.hull_plans.specs.Hulls.{IsHullAt};

use cmd_text::Refusal;
use exact_geom::{Plane, Point};
use hull_merge::{HullFault, hull};
use solid_brush::{Side, Solid};
use std::alloc::{AllocError, Global};
use tree_ops::OpFault;

/// The solid behind the facets of points, a side for each facet in their order; or the first row on the points that refuses
/// the brush of that node.
pub(crate) fn hull_at(alloc: Global, points: &[Point], node: u32) -> Result<Solid, OpFault>
    requires few { length points.now < 2 ^ 32 }
    requires range { Every (λ p. IsTrue (is_in_range p)) points.now }
    ensures { IsHullAt node points.now result }
{
    match hull(alloc, points) {
        Ok(found) => Ok(found.solid),
        Err(HullFault::TooManyPoints(count)) => Err(OpFault::No(Refusal::TooManyPoints(count))),
        Err(HullFault::NoVolume) => Err(OpFault::No(Refusal::NoVolume(node))),
        Err(HullFault::TooManyFaces(count)) => Err(OpFault::No(Refusal::TooManyFaces(node, count))),
        Err(HullFault::OutOfWorld) => Err(OpFault::No(Refusal::OutOfWorld(node))),
        Err(HullFault::Memory) => Err(OpFault::Memory),
    }
}

/// The planes of sides, in order.
pub(crate) fn planes_of(alloc: Global, sides: &[Side]) -> Result<Vec<Plane>, AllocError>
    ensures { IfOk result (λ planes. planes.items ≡ map (λ side. side.plane) sides.now) }
{
    let mut planes = Vec::with_capacity(alloc, sides.len())?;
    for side in sides {
        planes.push(side.plane)?;
    }
    Ok(planes)
}
