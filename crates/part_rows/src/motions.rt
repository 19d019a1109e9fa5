//! Orientations and motions.

use crate::row::Row;
use crate::shown::add_shown;
use crate::vertices::add_point;
use case_text::{CaseFault, add_line};
use exact_geom::{Axis, Point};
use orient48::{Motion, Orient, read_motion, write_motion};
use std::alloc::{AllocError, Global};

fn axis(word: &str) -> Option<Axis> {
    match word {
        "x" => Some(Axis::X),
        "y" => Some(Axis::Y),
        "z" => Some(Axis::Z),
        _ => None,
    }
}

// So many quarter turns about an axis, if it is one and they are at most three.
fn turn(name: &str, quarters: &str) -> Option<Orient> {
    let axis = axis(name)?;
    let quarters: u8 = quarters.parse().ok()?;
    if quarters > 3 {
        return None;
    }
    Some(Orient::turn(axis, quarters))
}

// The orientation of `identity`, `turn z 1`, `flip x` or of a number, if it is one.
fn orient(spelled: &str) -> Option<Orient> {
    if let Some(turned) = spelled.strip_prefix("turn ") {
        let (name, quarters) = turned.split_once(' ')?;
        return turn(name, quarters);
    }
    if spelled == "identity" {
        return Some(Orient::identity());
    }
    if let Some(name) = spelled.strip_prefix("flip ") {
        return Some(Orient::flip(axis(name)?));
    }
    Orient::of(spelled.parse().ok()?)
}

/// Adds an orientation: its number and its matrix, the number of the way back, and whether it is a flip.
pub fn add_orient(out: &mut String, spelled: &str) -> Result<(), CaseFault> {
    let Some(orient) = orient(spelled) else {
        return Ok(out.push_str("= None\n")?);
    };
    let (matrix, back, flip) = (orient.matrix(), orient.inverse(), orient.is_flip());
    writeln!(
        out,
        "= {} {matrix:?}, back {}, flip {flip}",
        orient.number(),
        back.number()
    )?;
    Ok(())
}

// The orientation of the next number of a row.
fn next_orient(row: &mut Row<'_>) -> Result<Orient, CaseFault> {
    Orient::of(row.number()?).ok_or(CaseFault::Number)
}

/// Adds the product of two orientations.
pub fn add_product(out: &mut String, spelled: &str) -> Result<(), CaseFault> {
    let mut row = Row::of(spelled);
    let (a, b) = (next_orient(&mut row)?, next_orient(&mut row)?);
    add_shown(out, &a.compose(b).number())
}

/// Adds what an orientation makes of a vector.
pub fn add_applied(out: &mut String, spelled: &str) -> Result<(), CaseFault> {
    let mut row = Row::of(spelled);
    let orient = next_orient(&mut row)?;
    let Point { x, y, z } = row.point()?;
    add_shown(
        out,
        &orient.apply([i64::from(x), i64::from(y), i64::from(z)]),
    )
}

// The motion of the next four numbers of a row: its orientation's and its shift.
fn next_motion(row: &mut Row<'_>) -> Result<Motion, CaseFault> {
    let orient = next_orient(row)?;
    let Point { x, y, z } = row.point()?;
    Motion::of(orient, [x, y, z]).ok_or(CaseFault::Number)
}

/// The motion that a row spells.
pub fn motion(spelled: &str) -> Result<Motion, CaseFault> {
    next_motion(&mut Row::of(spelled))
}

fn add_motion(out: &mut String, name: &str, motion: &Motion) -> Result<(), AllocError> {
    let [x, y, z] = motion.shift();
    writeln!(out, "= {name}{} {x} {y} {z}", motion.orient().number())
}

/// Adds the way back of a motion, and the motion and then another.
pub fn add_chain(out: &mut String, spelled: &str) -> Result<(), CaseFault> {
    let mut row = Row::of(spelled);
    let (first, next) = (next_motion(&mut row)?, next_motion(&mut row)?);
    add_motion(out, "back ", &first.undo())?;
    match first.then(&next) {
        Some(both) => add_motion(out, "both ", &both)?,
        None => out.push_str("= None\n")?,
    }
    Ok(())
}

/// Adds the points of a plane that a motion moves, or which is out of range.
pub fn add_moved_plane(out: &mut String, spelled: &str) -> Result<(), CaseFault> {
    let mut row = Row::of(spelled);
    let motion = next_motion(&mut row)?;
    match motion.plane(&row.plane()?) {
        Ok(plane) => {
            out.push('=')?;
            let [a, b, c] = plane.points();
            add_point(out, a)?;
            add_point(out, b)?;
            add_point(out, c)?;
            out.push('\n')?;
        }
        Err(place) => writeln!(out, "= Err({place})")?,
    }
    Ok(())
}

/// Adds the motion that a text stands for and the text that it is written as, if there is one.
pub fn add_text(alloc: Global, out: &mut String, text: &[u8]) -> Result<(), CaseFault> {
    let Some(motion) = read_motion(text) else {
        return Ok(out.push_str("= None\n")?);
    };
    add_motion(out, "", &motion)?;
    let written = write_motion(alloc, &motion)?;
    Ok(add_line(out, "= ", written.bytes())?)
}
