//! Brushes whose vertices are moved or rounded.

ghost use Rattle.std.specs.Prelude.{IfOk, IfSome};
ghost use Rattle.exact_geom.specs.Rounding.{IsGrid};
ghost use Rattle.vertex_edit.specs.Places.{IsSmall};

use crate::brushes::{add_corners, brush};
use crate::row::{Row, points};
use crate::shown::add_shown;
use crate::vertices::add_point;
use case_text::CaseFault;
use exact_geom::Point;
use solid_brush::Solid;
use std::alloc::{AllocError, Global};
use vertex_edit::{FromFace, Moved, move_vertices, snap};

// Adds a facet: the number of the face from which it comes, and its points.
fn add_facet(out: &mut String, facet: &FromFace) -> Result<(), AllocError> {
    write!(out, "= from {}:", facet.old)?;
    let [first, second, third] = facet.points;
    add_point(out, first)?;
    add_point(out, second)?;
    add_point(out, third)?;
    out.push('\n')
}

// Adds the facets and the vertices of a brush whose vertices moved.
fn add_moved(out: &mut String, moved: &Moved) -> Result<(), AllocError> {
    for facet in moved.facets.list() {
        add_facet(out, facet)?;
    }
    out.push_str("= vertices")?;
    add_corners(out, &moved.solid)
}

// The shift that a part of a row spells.
fn shift(spelled: &str) -> Result<[i32; 3], CaseFault>
    ensures { IfOk result IsSmall }
{
    let Point { x, y, z } = Row::of(spelled).point()?;
    if x.unsigned_abs() > 8704 || y.unsigned_abs() > 8704 || z.unsigned_abs() > 8704 {
        return Err(CaseFault::Number);
    }
    Ok([x, y, z])
}

fn add_edit(
    alloc: Global,
    out: &mut String,
    a: &Solid,
    picks: &[Point],
    shift: [i32; 3],
) -> Result<(), CaseFault>
    requires { IsSmall shift }
{
    match move_vertices(alloc, a, picks, shift) {
        Ok(moved) => Ok(add_moved(out, &moved)?),
        Err(fault) => add_shown(out, &fault),
    }
}

/// Adds a brush whose picked vertices are moved by a shift, or why they aren't.
pub fn add_move_row(alloc: Global, out: &mut String, spelled: &str) -> Result<(), CaseFault> {
    let (part, rest) = spelled.split_once('|').ok_or(CaseFault::Number)?;
    let (picks, rest) = rest.split_once('|').ok_or(CaseFault::Number)?;
    let shift = shift(rest)?;
    let picks = points(alloc, picks)?;
    let a = brush(alloc, part, 0)?;
    add_edit(alloc, out, &a, &picks, shift)
}

// The grid of so many map units, if there is one.
fn grid(units: i32) -> Option<i32>
    ensures { IfSome result IsGrid }
{
    match units {
        1 => Some(1),
        2 => Some(2),
        4 => Some(4),
        8 => Some(8),
        16 => Some(16),
        32 => Some(32),
        64 => Some(64),
        _ => None,
    }
}

fn add_snap(alloc: Global, out: &mut String, a: &Solid, grid: i32) -> Result<(), CaseFault>
    requires { IsGrid grid }
{
    match snap(alloc, a, grid) {
        Ok(moved) => Ok(add_moved(out, &moved)?),
        Err(fault) => add_shown(out, &fault),
    }
}

/// Adds a brush whose vertices are rounded to a grid, or why they aren't.
pub fn add_snap_row(alloc: Global, out: &mut String, spelled: &str) -> Result<(), CaseFault> {
    let (part, units) = spelled.split_once('|').ok_or(CaseFault::Number)?;
    let grid = grid(Row::of(units).number()?).ok_or(CaseFault::Number)?;
    let a = brush(alloc, part, 0)?;
    add_snap(alloc, out, &a, grid)
}
