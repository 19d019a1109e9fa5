//! Brushes in rows.

ghost use Rattle.std.specs.Prelude.{◌↔◌, ◌+◌, ◌^◌, ◌<◌, IsTrue};
ghost use Rattle.algebra.specs.Members.{Every};
ghost use Rattle.part_rows.specs.Numbered.{AreNumbered};

use crate::sides::sides_of_part;
use crate::vertices::add_parts;
use case_text::CaseFault;
use solid_brush::{Side, Solid};
use std::alloc::{AllocError, Global};

fn fits(side: &Side, base: u32) -> bool
    ensures { IsTrue result ↔ (side.now.tag + base < 2 ^ 31) }
{
    u64::from(side.tag) + u64::from(base) < 1 << 31
}

/// Whether the number may be added to each tag.
pub fn has_room(sides: &[Side], base: u32) -> bool
    ensures { IsTrue result ↔ Every (λ s. s.tag + base < 2 ^ 31) sides.now }
{
    sides.iter().all(|side| fits(side, base))
}

// The brush of sides, with a number added to their tags.
fn built(alloc: Global, sides: &[Side], base: u32) -> Result<Solid, CaseFault>
    requires numbered { AreNumbered sides.now }
{
    let Ok(mut solid) = Solid::build(alloc, sides) else {
        return Err(CaseFault::Number);
    };
    if !has_room(solid.sides(), base) {
        return Err(CaseFault::Number);
    }
    solid.retag(base);
    Ok(solid)
}

/// The brush of the sides that a part of a row spells. They are tagged one after another from `base` on.
pub fn brush(alloc: Global, part: &str, base: u32) -> Result<Solid, CaseFault> {
    built(alloc, &sides_of_part(alloc, part)?, base)
}

/// Adds a name, and the tags of the sides of a brush.
pub fn add_tags(out: &mut String, name: &str, solid: &Solid) -> Result<(), AllocError> {
    write!(out, "= {name}")?;
    for side in solid.sides() {
        write!(out, " {}", side.tag)?;
    }
    Ok(())
}

/// Adds the vertices of a brush, and ends the line.
pub fn add_corners(out: &mut String, solid: &Solid) -> Result<(), AllocError> {
    for number in 0..solid.vertex_count() {
        if let Some(vertex) = solid.vertex(number) {
            out.push(' ')?;
            add_parts(out, &vertex)?;
        }
    }
    out.push('\n')
}

/// Adds a brush: a name, the tags of its sides, and its vertices.
pub fn add_brush(out: &mut String, name: &str, solid: &Solid) -> Result<(), AllocError> {
    add_tags(out, name, solid)?;
    out.push(':')?;
    add_corners(out, solid)
}
