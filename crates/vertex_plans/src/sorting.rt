//! Rounded brushes with few faces.

ghost use Rattle.std.specs.Prelude.{◌≡◌, ◌++◌, [], ◌∷◌, OnOk};
ghost use Rattle.vertex_plans.specs.Snaps.{AreFew, IsKept};

use crate::putting::NewBody;
use crate::snapping::Snapped;
use cmd_text::Refusal;
use exact_geom::Rows;
use std::alloc::{AllocError, Global};
use tree_ops::OpFault;

/// The brushes with their new faces. `TooManyFaces` with the first of them that has too many.
pub(crate) fn few(alloc: Global, list: Rows<Snapped>) -> Result<Rows<NewBody>, OpFault>
    ensures { AreFew list result }
{
    let mut bodies = Vec::new(alloc);
    for one in list.into_vec() {
        keep(&mut bodies, one)?;
    }
    Ok(Rows::of(bodies))
}

// Keeps a brush with few faces.
fn keep(bodies: &mut Vec<NewBody>, one: Snapped) -> Result<(), OpFault>
    ensures { IsKept one bodies.old.items bodies.new.items result }
{
    match one {
        Snapped::Few(new) => Ok(push(bodies, new)?),
        Snapped::Many(id, count) => Err(OpFault::No(Refusal::TooManyFaces(id.number(), count))),
    }
}

fn push(bodies: &mut Vec<NewBody>, new: NewBody) -> Result<(), AllocError>
    ensures { OnOk result (bodies.new.items ≡ bodies.old.items ++ new ∷ []) }
{
    bodies.push(new)?;
    Ok(())
}
