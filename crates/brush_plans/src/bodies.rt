//! Brushes of faces that are all needed.

ghost use Rattle.std.specs.Prelude.{◌≡◌, ◌≤◌, length, IfOk};
ghost use Rattle.map_nodes.specs.Seen.{sides_of};
ghost use Rattle.brush_plans.specs.Bodies.{AreNeeded, IsBodyOf};

use cmd_text::Refusal;
use exact_geom::Rows;
use map_nodes::Body;
use solid_brush::{BuildFault, Side, Solid};
use std::alloc::{AllocError, Global};
use tree_ops::OpFault;
use uv_lock::Face;

// The sides of faces: each has its place as its tag.
fn sides_of(alloc: Global, faces: &[Face]) -> Result<Vec<Side>, AllocError>
    requires few { length faces.now ≤ 128 }
    ensures { IfOk result (λ sides. sides.items ≡ sides_of faces.now) }
{
    let mut sides = Vec::with_capacity(alloc, faces.len())?;
    let mut place = 0;
    for face in faces {
        sides.push(Side {
            plane: face.plane,
            tag: place,
        })?;
        place += 1;
    }
    Ok(sides)
}

/// The brush of faces that are all needed and bound a volume. `OutOfWorld` with the node where it leaves the world.
pub fn body_of(alloc: Global, faces: Vec<Face>, node: u32) -> Result<Body, OpFault>
    requires needed { AreNeeded faces.items }
    ensures { IsBodyOf faces.items node result }
{
    let sides = sides_of(alloc, &faces)?;
    match Solid::build(alloc, &sides) {
        Ok(solid) => Ok(Body::of(Rows::of(faces), solid)),
        Err(BuildFault::NoVolume) => unreachable!(),
        Err(BuildFault::OutOfWorld) => Err(OpFault::No(Refusal::OutOfWorld(node))),
        Err(BuildFault::TooManyFaces(_)) => unreachable!(),
        Err(BuildFault::Memory) => Err(OpFault::Memory),
    }
}
