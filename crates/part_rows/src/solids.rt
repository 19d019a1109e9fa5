//! Solids by their sides: those that they need, their vertices, and the loop of each side.

ghost use Rattle.part_rows.specs.Numbered.{AreNumbered};

use crate::brushes::{add_tags, has_room};
use crate::shown::add_shown;
use crate::sides::sides;
use crate::vertices::add_parts;
use case_text::{Case, CaseFault};
use solid_brush::{Side, Solid};
use std::alloc::{AllocError, Global};

fn add_vertices(out: &mut String, solid: &Solid) -> Result<(), AllocError> {
    for number in 0..solid.vertex_count() {
        if let Some(vertex) = solid.vertex(number) {
            write!(out, "= vertex {number} ")?;
            add_parts(out, &vertex)?;
            out.push('\n')?;
        }
    }
    Ok(())
}

// Adds the loop of a side: its tag, and the numbers of its vertices.
fn add_loop(out: &mut String, solid: &Solid, face: u32) -> Result<(), AllocError> {
    write!(out, "= loop {face}:")?;
    for place in 0..solid.vertex_count() {
        if let Some(number) = solid.loop_vertex(face, place) {
            write!(out, " {number}")?;
        }
    }
    out.push('\n')
}

fn add_solid(out: &mut String, solid: &Solid) -> Result<(), AllocError> {
    add_tags(out, "sides", solid)?;
    out.push('\n')?;
    add_vertices(out, solid)?;
    for face in 0..solid.sides().len() {
        add_loop(out, solid, face as u32)?;
    }
    Ok(())
}

// Adds a copy of a solid, and the tags of the solid itself with a number added to each.
fn add_retagged(alloc: Global, solid: Solid, base: u32, out: &mut String) -> Result<(), CaseFault> {
    let mut solid = solid;
    let copy = solid.copy(alloc)?;
    if !has_room(solid.sides(), base) {
        return Err(CaseFault::Number);
    }
    solid.retag(base);
    add_solid(out, &copy)?;
    add_tags(out, "tags", &solid)?;
    Ok(out.push('\n')?)
}

// Adds what the solid of the sides is, or why there is none.
fn add_built(
    alloc: Global,
    case: &Case<'_>,
    sides: &[Side],
    out: &mut String,
) -> Result<(), CaseFault>
    requires numbered { AreNumbered sides.now }
{
    match (Solid::build(alloc, sides), case.field("retag")) {
        (Ok(solid), None) => Ok(add_solid(out, &solid)?),
        (Ok(solid), Some(base)) => {
            let base = base.parse().ok().ok_or(CaseFault::Number)?;
            add_retagged(alloc, solid, base, out)
        }
        (Err(fault), _) => add_shown(out, &fault),
    }
}

/// Adds what the solid of the sides of a case is, or why there is none.
pub fn answer(alloc: Global, case: &Case<'_>, out: &mut String) -> Result<(), CaseFault> {
    case.add_to(out)?;
    add_built(alloc, case, &sides(alloc, case)?, out)
}
