//! A brush split by a plane.

ghost use Rattle.std.specs.Prelude.{◌++◌, ◌∷◌, [], IfOk, IfErr};
ghost use Rattle.solid_brush.specs.Sides.{HaveTags, IsSolid};
ghost use Rattle.solid_brush.specs.Blocks.{IsTrimmedTo};
ghost use Rattle.csg_ops.specs.Cuts.{reversed, IsNotSplitFor};

use crate::carving::reversed;
use crate::split_fault::SplitFault;
use solid_brush::{Side, Solid};
use std::alloc::Global;

/// The two halves of a split brush: what lies behind the plane, and what lies in front of it.
#[derive(Drop)]
pub struct Halves {
    pub back: Solid,
    pub front: Solid,
}

/// The halves of a brush behind and in front of the plane of a side. The tag of the side must be none of the brush's; in each half
/// it tells the new face, which looks to the other half.
///
/// It is refused exactly for the first cause of `SplitFault` that holds, but that `Memory`, for want of memory, may come in place
/// of any answer.
pub fn split(alloc: Global, a: &Solid, cut: Side) -> Result<Halves, SplitFault>
    requires tags { HaveTags (a.now ++ cut ∷ []) }
    ensures back { IfOk result (λ halves. IsTrimmedTo (a.now ++ cut ∷ []) halves.back) }
    ensures front { IfOk result (λ halves. IsTrimmedTo (a.now ++ reversed cut ∷ []) halves.front) }
    ensures solids { IfOk result (λ halves. IsSolid halves.back × IsSolid halves.front) }
    ensures fault { IfErr result (IsNotSplitFor a.now cut) }
{
    let block = a.block(alloc)?;
    let Some(back) = block.meet(alloc, &[cut])? else {
        return Err(SplitFault::PlaneMisses);
    };
    let other = a.block(alloc)?;
    let Some(front) = other.meet(alloc, &[reversed(&cut)])? else {
        return Err(SplitFault::PlaneMisses);
    };
    Ok(Halves {
        back: back.solid(alloc)?,
        front: front.solid(alloc)?,
    })
}
