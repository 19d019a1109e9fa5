//! The sides of a case, each tagged by its number.

ghost use Rattle.std.specs.Prelude.{OnOk, IfOk};
ghost use Rattle.part_rows.specs.Numbered.{AreNumbered};

use crate::row::Row;
use case_text::{Case, CaseFault};
use exact_geom::{Plane, Point};
use solid_brush::Side;
use std::alloc::Global;

// Adds a side, tagged by the number of the sides before it.
fn add_side(sides: &mut Vec<Side>, plane: Plane) -> Result<(), CaseFault>
    requires numbered { AreNumbered sides.old.items }
    ensures numbered { OnOk result (AreNumbered sides.new.items) }
{
    let tag = sides.len();
    if tag >= 256 {
        return Err(CaseFault::Number);
    }
    sides.push(Side {
        plane,
        tag: tag as u32,
    })?;
    Ok(())
}

// Adds the side by three points.
fn add_by_points(sides: &mut Vec<Side>, p0: Point, p1: Point, p2: Point) -> Result<(), CaseFault>
    requires numbered { AreNumbered sides.old.items }
    ensures numbered { OnOk result (AreNumbered sides.new.items) }
{
    match Plane::of(p0, p1, p2) {
        Ok(plane) => add_side(sides, plane),
        Err(_) => Err(CaseFault::Number),
    }
}

fn ahead(p: Point, x: i32, y: i32, z: i32) -> Point {
    Point {
        x: p.x.wrapping_add(x),
        y: p.y.wrapping_add(y),
        z: p.z.wrapping_add(z),
    }
}

// Adds the three sides of a box at its least corner.
fn add_least(sides: &mut Vec<Side>, a: Point) -> Result<(), CaseFault>
    requires numbered { AreNumbered sides.old.items }
    ensures numbered { OnOk result (AreNumbered sides.new.items) }
{
    let (x, y, z) = (ahead(a, 1, 0, 0), ahead(a, 0, 1, 0), ahead(a, 0, 0, 1));
    add_by_points(sides, a, y, z)?;
    add_by_points(sides, a, z, x)?;
    add_by_points(sides, a, x, y)
}

// Adds the three sides of a box at its greatest corner.
fn add_greatest(sides: &mut Vec<Side>, b: Point) -> Result<(), CaseFault>
    requires numbered { AreNumbered sides.old.items }
    ensures numbered { OnOk result (AreNumbered sides.new.items) }
{
    let (x, y, z) = (ahead(b, 1, 0, 0), ahead(b, 0, 1, 0), ahead(b, 0, 0, 1));
    add_by_points(sides, b, y, x)?;
    add_by_points(sides, b, x, z)?;
    add_by_points(sides, b, z, y)
}

// Adds the side that a row spells by three points, or the six of `box` and two corners.
fn add_row(sides: &mut Vec<Side>, spelled: &str) -> Result<(), CaseFault>
    requires numbered { AreNumbered sides.old.items }
    ensures numbered { OnOk result (AreNumbered sides.new.items) }
{
    match spelled.strip_prefix("box ") {
        Some(corners) => {
            let mut row = Row::of(corners);
            add_least(sides, row.point()?)?;
            add_greatest(sides, row.point()?)
        }
        None => add_side(sides, Row::of(spelled).plane()?),
    }
}

// No side at all.
fn no_sides(alloc: Global) -> Vec<Side>
    ensures numbered { AreNumbered result.items }
{
    Vec::new(alloc)
}

/// The sides that the rows of a case spell.
pub fn sides(alloc: Global, case: &Case<'_>) -> Result<Vec<Side>, CaseFault>
    ensures numbered { IfOk result (λ sides. AreNumbered sides.items) }
{
    let mut sides = no_sides(alloc);
    for line in case.lines() {
        if let Some(spelled) = line.strip_prefix("> ") {
            add_row(&mut sides, spelled)?;
        }
    }
    Ok(sides)
}

/// The sides that a part of a row spells, one behind another with a `/` between.
pub fn sides_of_part(alloc: Global, part: &str) -> Result<Vec<Side>, CaseFault>
    ensures numbered { IfOk result (λ sides. AreNumbered sides.items) }
{
    let mut sides = no_sides(alloc);
    for spelled in part.split('/') {
        add_row(&mut sides, spelled.trim())?;
    }
    Ok(sides)
}
