//! The intersection of brushes.

ghost use Rattle.std.specs.Prelude.{◌<◌, length, IfOk, IfErr};
ghost use Rattle.solid_brush.specs.Sides.{HaveTags, IsSolid};
ghost use Rattle.solid_brush.specs.Blocks.{IsTrimmedTo};
ghost use Rattle.csg_ops.specs.Cuts.{all_sides, IsNoIntersectionFor};

use crate::intersect_fault::IntersectFault;
use solid_brush::{Block, Solid};
use std::alloc::Global;

// What is left of the first brush behind all others.
fn common(alloc: Global, list: &[Solid]) -> Result<Block, IntersectFault>
    requires some { 0 < length list.now }
    requires tags { HaveTags (all_sides list.now) }
    ensures common { IfOk result (IsTrimmedTo (all_sides list.now)) }
    ensures fault { IfErr result (IsNoIntersectionFor list.now) }
{
    let mut block = list[0].block(alloc)?;
    for k in 1..list.len() {
        let Some(met) = block.meet(alloc, list[k].sides())? else {
            return Err(IntersectFault::Apart(k as u32));
        };
        block = met;
    }
    Ok(block)
}

/// The intersection of one or more brushes: of all their sides, in order, those that are needed. No two sides may have the same
/// tag.
///
/// It is refused exactly for the first cause of `IntersectFault` that holds, but that `Memory`, for want of memory, may come in
/// place of any answer.
pub fn intersect(alloc: Global, list: &[Solid]) -> Result<Solid, IntersectFault>
    requires some { 0 < length list.now }
    requires tags { HaveTags (all_sides list.now) }
    ensures common { IfOk result (IsTrimmedTo (all_sides list.now)) }
    ensures solid { IfOk result IsSolid }
    ensures fault { IfErr result (IsNoIntersectionFor list.now) }
{
    let block = common(alloc, list)?;
    Ok(block.solid(alloc)?)
}
