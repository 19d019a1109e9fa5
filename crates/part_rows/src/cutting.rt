//! Brushes that are cut by planes and by one another.

ghost use Rattle.std.specs.Prelude.{◌≡◌, ◌++◌, ◌∷◌, [], IsTrue, IfOk};
ghost use Rattle.solid_brush.specs.Sides.{HaveTags};
ghost use Rattle.csg_ops.specs.Cuts.{all_sides};

use crate::brushes::{add_brush, brush, has_room};
use crate::row::Row;
use crate::shown::add_shown;
use case_text::CaseFault;
use csg_ops::{Halves, hollow, intersect, split, subtract};
use exact_geom::Plane;
use solid_brush::{Side, Solid};
use std::alloc::{AllocError, Global};

// Whether the tags of sides rise, and are below 2^31.
fn tags_rise(sides: &[Side]) -> bool
    ensures { IsTrue result → HaveTags sides.now }
{
    let mut least = 0u64;
    for side in sides {
        let tag = u64::from(side.tag);
        if tag < least || tag >= 1 << 31 {
            return false;
        }
        least = tag + 1;
    }
    true
}

// A fault of the case where the tags of two lists of sides don't tell them apart.
fn have_tags(alloc: Global, first: &[Side], more: &[Side]) -> Result<(), CaseFault>
    ensures { IfOk result (λ _. HaveTags (first.now ++ more.now)) }
{
    let mut sides = Vec::from_slice(alloc, first)?;
    sides.extend_from_slice(more)?;
    if tags_rise(&sides) {
        Ok(())
    } else {
        Err(CaseFault::Number)
    }
}

// The brushes that the parts of a row spell, each with tags of its own.
fn brushes(alloc: Global, spelled: &str) -> Result<Vec<Solid>, CaseFault> {
    let mut brushes = Vec::new(alloc);
    let mut base = 0u32;
    for part in spelled.split('|') {
        brushes.push(brush(alloc, part, base)?)?;
        base = base.wrapping_add(256);
    }
    Ok(brushes)
}

fn add_halves(out: &mut String, halves: &Halves) -> Result<(), AllocError> {
    add_brush(out, "back", &halves.back)?;
    add_brush(out, "front", &halves.front)
}

fn add_pieces(out: &mut String, pieces: &[Solid]) -> Result<(), AllocError> {
    for piece in pieces {
        add_brush(out, "piece", piece)?;
    }
    writeln!(out, "= {} pieces", pieces.len())
}

// The same of a further side, tagged 256.
fn is_new(alloc: Global, sides: &[Side], plane: &Plane) -> Result<(), CaseFault>
    ensures { IfOk result (λ _. HaveTags (sides.now ++ record { plane = plane.now; tag = 256 } ∷ [])) }
{
    let mut all = Vec::from_slice(alloc, sides)?;
    all.push(Side {
        plane: *plane,
        tag: 256,
    })?;
    if tags_rise(&all) {
        Ok(())
    } else {
        Err(CaseFault::Number)
    }
}

fn add_split(alloc: Global, out: &mut String, a: &Solid, plane: &Plane) -> Result<(), CaseFault> {
    is_new(alloc, a.sides(), plane)?;
    let cut = Side {
        plane: *plane,
        tag: 256,
    };
    match split(alloc, a, cut) {
        Ok(halves) => Ok(add_halves(out, &halves)?),
        Err(fault) => add_shown(out, &fault),
    }
}

/// Adds the halves of a brush, behind and in front of a plane, or why it isn't split.
pub fn add_split_row(alloc: Global, out: &mut String, spelled: &str) -> Result<(), CaseFault> {
    let (part, plane) = spelled.split_once('|').ok_or(CaseFault::Number)?;
    let plane = Row::of(plane).plane()?;
    let a = brush(alloc, part, 0)?;
    add_split(alloc, out, &a, &plane)
}

// The sides of all brushes, one after another.
fn all_sides(alloc: Global, list: &[Solid]) -> Result<Vec<Side>, AllocError>
    ensures { IfOk result (λ sides. sides.items ≡ all_sides list.now) }
{
    let mut sides = Vec::new(alloc);
    for solid in list {
        sides.extend_from_slice(solid.sides())?;
    }
    Ok(sides)
}

fn add_common(alloc: Global, out: &mut String, brushes: &[Solid]) -> Result<(), CaseFault> {
    if brushes.is_empty() || !tags_rise(&all_sides(alloc, brushes)?) {
        return Err(CaseFault::Number);
    }
    match intersect(alloc, brushes) {
        Ok(common) => Ok(add_brush(out, "common", &common)?),
        Err(fault) => add_shown(out, &fault),
    }
}

/// Adds the intersection of brushes, or why they have none.
pub fn add_common_row(alloc: Global, out: &mut String, spelled: &str) -> Result<(), CaseFault> {
    add_common(alloc, out, &brushes(alloc, spelled)?)
}

fn add_difference(alloc: Global, out: &mut String, a: &Solid, b: &Solid) -> Result<(), CaseFault> {
    have_tags(alloc, a.sides(), b.sides())?;
    match subtract(alloc, a, b) {
        Ok(pieces) => Ok(add_pieces(out, &pieces)?),
        Err(fault) => add_shown(out, &fault),
    }
}

/// Adds the pieces of a brush without another, or why there are none.
pub fn add_difference_row(alloc: Global, out: &mut String, spelled: &str) -> Result<(), CaseFault> {
    match brushes(alloc, spelled)?.as_slice() {
        [a, b] => add_difference(alloc, out, a, b),
        _ => Err(CaseFault::Number),
    }
}

fn add_walls(alloc: Global, out: &mut String, a: &Solid, thickness: i32) -> Result<(), CaseFault> {
    if thickness < 1 || thickness > 4096 || !has_room(a.sides(), 1 << 30) {
        return Err(CaseFault::Number);
    }
    match hollow(alloc, a, thickness) {
        Ok(walls) => Ok(add_pieces(out, &walls)?),
        Err(fault) => add_shown(out, &fault),
    }
}

/// Adds the walls of a box that is hollowed, or why it isn't.
pub fn add_hollow_row(alloc: Global, out: &mut String, spelled: &str) -> Result<(), CaseFault> {
    let (part, thickness) = spelled.split_once('|').ok_or(CaseFault::Number)?;
    let thickness = Row::of(thickness).number()?;
    let a = brush(alloc, part, 0)?;
    add_walls(alloc, out, &a, thickness)
}
