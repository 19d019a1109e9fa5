//! Boxes made hollow.

ghost use Rattle.std.specs.Prelude.{◌≡◌, ◌++◌, ◌<◌, ◌^◌, ◌+ℤ◌, map, true, IfOk, IfErr};
ghost use Rattle.algebra.specs.Members.{Every};
ghost use Rattle.trim_laws.specs.Valid.{HasInside};
ghost use Rattle.piece_laws.specs.Pieces.{ArePieces, Remainder};
ghost use Rattle.solid_brush.specs.Sides.{bounds, half_spaces, IsSolid};
ghost use Rattle.csg_ops.specs.Cuts.{reversed};
ghost use Rattle.csg_ops.specs.Hollows.{is_box, inner_box, HasShortSide, IsThickness, IsNotHollowedFor};

use crate::boxes::is_box;
use crate::carving::carve;
use crate::hollow_fault::HollowFault;
use crate::inward::inner_box;
use crate::solids::few_solids_of;
use solid_brush::Solid;
use std::alloc::Global;

/// The walls of a box, so thick, from 1 to 4096: the pieces of the box, six faces with normals along the axes, without the inner
/// box, the same faces moved inward. Each side of the box must be longer than twice the thickness. The tags of the box are below
/// 2^30; a piece's new face has the tag of the face of the box that was moved to it, 2^30 higher.
///
/// It is refused exactly for the first cause of `HollowFault` that holds, but that `Memory`, for want of memory, may come in place
/// of any answer.
pub fn hollow(alloc: Global, a: &Solid, thickness: i32) -> Result<Vec<Solid>, HollowFault>
    requires thickness { IsThickness thickness }
    requires tags { Every (λ s. s.tag < 2 ^ 30) a.now }
    ensures shape { IfOk result (λ _. is_box a.now ≡ true) }
    ensures long { IfOk result (λ _. ¬ (HasShortSide (thickness +ℤ thickness) (half_spaces a.now))) }
    ensures common { IfOk result (λ _. HasInside (half_spaces (a.now ++ inner_box thickness a.now))) }
    ensures pieces { IfOk result (λ pieces. ArePieces bounds reversed a.now (inner_box thickness a.now) pieces.items) }
    ensures remainder { IfOk result (λ pieces. Remainder (half_spaces a.now) (half_spaces (inner_box thickness a.now)) (map half_spaces pieces.items)) }
    ensures solids { IfOk result (λ pieces. Every IsSolid pieces.items) }
    ensures fault { IfErr result (IsNotHollowedFor thickness a.now) }
{
    let sides = a.sides();
    if !is_box(sides) {
        return Err(HollowFault::NotBox);
    }
    let Some(inner) = inner_box(alloc, sides, thickness)? else {
        return Err(HollowFault::Thick);
    };
    let block = a.block(alloc)?;
    let Some(blocks) = carve(alloc, block, &inner)? else {
        return Err(HollowFault::Thick);
    };
    Ok(few_solids_of(alloc, blocks)?)
}
