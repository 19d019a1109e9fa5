//! Whether two solids overlap.

ghost use Rattle.std.specs.Prelude.{◌≡◌, ◌+◌, IfOk};
ghost use Rattle.std.specs.Bool.{Decides};
ghost use Rattle.solid_brush.specs.Sides.{half_spaces, IsSolid};
ghost use Rattle.touch_laws.specs.Boxes.{ShareInside};

use crate::joining::joined;
use exact_geom::{HVertex, Steps};
use solid_brush::{BuildFault, Solid};
use std::alloc::{AllocError, Global};
use std::sync::ledger::Ledger;

// Counts one step. Only calls of exact geometry count, so it makes the cheapest one.
fn count_step<L: Ledger>(a: &Solid, steps: &mut Steps<L>)
    ensures { steps.new ≡ steps.old + 1 }
{
    let plane = a.sides()[0].plane;
    let _none = HVertex::meet(&plane, &plane, &plane, steps);
}

// Whether some point is inside both solids.
fn share_inside(alloc: Global, a: &Solid, b: &Solid) -> Result<bool, AllocError>
    ensures { IfOk result (λ some. Decides some (ShareInside (half_spaces a.now) (half_spaces b.now))) }
{
    let sides = joined(alloc, a.sides(), b.sides())?;
    match Solid::build(alloc, &sides) {
        Ok(solid) => {
            drop(solid);
            Ok(true)
        }
        Err(BuildFault::NoVolume) => Ok(false),
        Err(BuildFault::OutOfWorld) => Ok(true),
        Err(BuildFault::TooManyFaces(_)) => Ok(true),
        Err(BuildFault::Memory) => Err(AllocError),
    }
}

/// Whether some point is inside both solids. It counts one step, also where it fails, which is for want of memory alone.
pub fn overlap<L: Ledger>(
    alloc: Global,
    a: &Solid,
    b: &Solid,
    steps: &mut Steps<L>,
) -> Result<bool, AllocError>
    ensures overlap { IfOk result (λ some. Decides some (ShareInside (half_spaces a.now) (half_spaces b.now))) }
    ensures steps { steps.new ≡ steps.old + 1 }
{
    count_step(a, steps);
    share_inside(alloc, a, b)
}
