//! A brush without another.

ghost use Rattle.std.specs.Prelude.{◌++◌, map, IfOk, IfErr};
ghost use Rattle.algebra.specs.Members.{Every};
ghost use Rattle.trim_laws.specs.Valid.{HasInside};
ghost use Rattle.piece_laws.specs.Pieces.{ArePieces, Remainder};
ghost use Rattle.solid_brush.specs.Sides.{bounds, half_spaces, HaveTags, IsSolid};
ghost use Rattle.csg_ops.specs.Cuts.{reversed, IsNoDifferenceFor};

use crate::carving::carve;
use crate::solids::solids_of;
use crate::subtract_fault::SubtractFault;
use solid_brush::Solid;
use std::alloc::Global;

/// The pieces of the brush `a` without the brush `b`, of which some point must be inside both: for each side of b that cuts
/// something off, what is in front of it and behind the earlier ones. They cover each point of a that isn't in b, hold no point
/// outside a or inside b, and no point is inside two of them. No two sides of both brushes may have the same tag; a piece's new
/// face has the tag of the side that cut it off.
///
/// It is refused exactly for the first cause of `SubtractFault` that holds, but that `Memory`, for want of memory, may come in place
/// of any answer.
pub fn subtract(alloc: Global, a: &Solid, b: &Solid) -> Result<Vec<Solid>, SubtractFault>
    requires tags { HaveTags (a.now ++ b.now) }
    ensures common { IfOk result (λ _. HasInside (half_spaces (a.now ++ b.now))) }
    ensures pieces { IfOk result (λ pieces. ArePieces bounds reversed a.now b.now pieces.items) }
    ensures remainder { IfOk result (λ pieces. Remainder (half_spaces a.now) (half_spaces b.now) (map half_spaces pieces.items)) }
    ensures solids { IfOk result (λ pieces. Every IsSolid pieces.items) }
    ensures fault { IfErr result (IsNoDifferenceFor a.now b.now) }
{
    let block = a.block(alloc)?;
    let Some(blocks) = carve(alloc, block, b.sides())? else {
        return Err(SubtractFault::Apart);
    };
    Ok(solids_of(alloc, blocks)?)
}
