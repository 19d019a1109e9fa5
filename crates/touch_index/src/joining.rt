//! The sides of two solids together.

ghost use Rattle.std.specs.Prelude.{◌≡◌, ◌+◌, ◌≤◌, ◌++◌, length, IfOk, OnOk};
ghost use Rattle.touch_index.specs.Joined.{retagged};

use solid_brush::Side;
use std::alloc::{AllocError, Global};

// Adds sides, each with its place as its tag.
fn add_sides(sides: &mut Vec<Side>, more: &[Side]) -> Result<(), AllocError>
    requires few { length sides.old.items + length more.now ≤ 256 }
    ensures { OnOk result (sides.new.items ≡ sides.old.items ++ retagged (length sides.old.items) more.now) }
{
    for side in more {
        let tag = sides.len() as u32;
        sides.push(Side {
            plane: side.plane,
            tag,
        })?;
    }
    Ok(())
}

/// The sides of both, each with its place as its tag.
pub(crate) fn joined(alloc: Global, a: &[Side], b: &[Side]) -> Result<Vec<Side>, AllocError>
    requires few { length a.now + length b.now ≤ 256 }
    ensures { IfOk result (λ sides. sides.items ≡ retagged 0 (a.now ++ b.now)) }
{
    let mut sides = Vec::new(alloc);
    add_sides(&mut sides, a)?;
    add_sides(&mut sides, b)?;
    Ok(sides)
}
