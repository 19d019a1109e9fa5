//! The parts of a brush behind a plane and in front of it.

ghost use Rattle.std.specs.Prelude.{◌≡◌, ◌++◌, length, true, IfOk};
ghost use Rattle.solid_brush.specs.Sides.{half_spaces};
ghost use Rattle.solid_brush.specs.Blocks.{IsLeft};
ghost use Rattle.trim_laws.specs.Solid.{Proper};
ghost use Rattle.map_nodes.specs.Seen.{sides_of};
ghost use Rattle.map_model.specs.Below.{Below, IsRight};
ghost use Rattle.map_model.specs.Brushes.{has_inside, trimmed};
ghost use Rattle.cut_plans.specs.Results.{IsResult};

use crate::solid_bodies::body_of_solid;
use cmd_text::Refusal;
use map_nodes::{Body, NodeId};
use solid_brush::{Block, MeetFault, Side};
use std::alloc::{AllocError, Global};
use tree_ops::OpFault;
use uv_lock::Face;

// What is left of a brush behind one new face.
fn half(alloc: Global, body: &Body, new: &[Face]) -> Result<Option<Block>, AllocError>
    requires one { length new.now ≡ 1 }
    ensures left { IfOk result (IsLeft (sides_of (body.now ++ new.now))) }
    ensures proper { IfOk result (λ left. Proper (half_spaces (sides_of (body.now ++ new.now)))) }
{
    body.is_valid();
    let plane = new[0].plane;
    let _points = plane.points();
    let tag = body.faces().len() as u32;
    let block = body.solid().block(alloc)?;
    block.meet(alloc, &[Side { plane, tag }])
}

/// Whether some point of a brush lies behind one new face.
pub(crate) fn has_half(alloc: Global, body: &Body, new: &[Face]) -> Result<bool, AllocError>
    requires one { length new.now ≡ 1 }
    ensures { IfOk result (λ some. (b : Below) → IsRight b → has_inside b (body.now ++ new.now) ≡ some) }
{
    body.is_valid();
    let left = half(alloc, body, new)?;
    Ok(left.is_some())
}

/// The part of a brush behind one new face, as a brush. `TooManyFaces` with the number of the brush.
pub(crate) fn half_body(
    alloc: Global,
    body: &Body,
    new: &[Face],
    id: NodeId,
) -> Result<Body, OpFault>
    requires one { length new.now ≡ 1 }
    requires some { (b : Below) → IsRight b → has_inside b (body.now ++ new.now) ≡ true }
    ensures { IsResult id (λ b. trimmed b (body.now ++ new.now)) result }
{
    body.is_valid();
    let Some(block) = half(alloc, body, new)? else {
        unreachable!()
    };
    match block.solid(alloc) {
        Ok(solid) => {
            let old = body.faces();
            Ok(body_of_solid(alloc, old.len() as u32, old, new, &solid)?)
        }
        Err(MeetFault::TooManyFaces(count)) => Err(OpFault::No(Refusal::TooManyFaces(
            id.number(),
            u64::from(count),
        ))),
        Err(MeetFault::Memory) => Err(OpFault::Memory),
    }
}
