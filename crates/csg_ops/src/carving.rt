//! What is left of a block, and the pieces that are cut off.

ghost use Rattle.std.specs.Prelude.{◌≡◌, ◌++◌, IfOk};
ghost use Rattle.std.specs.Option.{option_map};
ghost use Rattle.solid_brush.specs.Sides.{HaveTags};
ghost use Rattle.solid_brush.specs.Blocks.{IsTrimmedTo};
ghost use Rattle.csg_ops.specs.Cuts.{reversed, IsCarved};

use solid_brush::{Block, Side};
use std::alloc::{AllocError, Global};

/// The side seen from its other side.
pub(crate) fn reversed(side: &Side) -> Side
    ensures { result ≡ reversed side.now }
{
    Side {
        plane: side.plane.reverse(),
        tag: side.tag,
    }
}

/// The pieces of the block without the solid behind the sides. What is left of the block is cut by each side in turn, and a piece is
/// what the side cuts off. `None` exactly where no point is inside both.
pub(crate) fn carve(
    alloc: Global,
    mut left: Block,
    sides: &[Side],
) -> Result<Option<Vec<Block>>, AllocError>
    requires block { IsTrimmedTo left left }
    requires tags { HaveTags (left ++ sides.now) }
    ensures { IfOk result (λ pieces. IsCarved left sides.now (option_map (λ blocks. blocks.items) pieces)) }
{
    let mut pieces = Vec::new(alloc);
    for side in sides {
        let mut piece = left.copy(alloc)?;
        if piece.cut(alloc, &reversed(side))? {
            pieces.push(piece)?;
        }
        if !left.cut(alloc, side)? {
            return Ok(None);
        }
    }
    Ok(Some(pieces))
}
