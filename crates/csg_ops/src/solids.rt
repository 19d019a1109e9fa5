//! Blocks as brushes.

ghost use Rattle.std.specs.Prelude.{◌≡◌, ◌≤◌, length, IfOk, IfErr};
ghost use Rattle.algebra.specs.Members.{Every};
ghost use Rattle.solid_brush.specs.Sides.{IsSolid};
ghost use Rattle.csg_ops.specs.Faults.{IsOneOverfull};

use solid_brush::{Block, MeetFault, Solid};
use std::alloc::{AllocError, Global};

/// The blocks as brushes. The first with too many faces is refused.
pub(crate) fn solids_of(alloc: Global, blocks: Vec<Block>) -> Result<Vec<Solid>, MeetFault>
    ensures same { IfOk result (λ solids. solids.items ≡ blocks.items) }
    ensures solids { IfOk result (λ solids. Every IsSolid solids.items) }
    ensures fault { IfErr result (IsOneOverfull blocks.items) }
{
    let mut solids = Vec::new(alloc);
    for block in blocks {
        let solid = block.solid(alloc)?;
        solids.push(solid)?;
    }
    Ok(solids)
}

/// The blocks, none of which has too many faces, as brushes.
pub(crate) fn few_solids_of(alloc: Global, blocks: Vec<Block>) -> Result<Vec<Solid>, AllocError>
    requires few { Every (λ block. length block ≤ 128) blocks.items }
    ensures same { IfOk result (λ solids. solids.items ≡ blocks.items) }
    ensures solids { IfOk result (λ solids. Every IsSolid solids.items) }
{
    match solids_of(alloc, blocks) {
        Ok(solids) => Ok(solids),
        Err(MeetFault::TooManyFaces(_)) => unreachable!(),
        Err(MeetFault::Memory) => Err(AllocError),
    }
}
