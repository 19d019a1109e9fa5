//! Faces that motions carry, and their texture coordinates.

use crate::documents::read;
use crate::hulls::is_in_range;
use crate::motions::motion;
use crate::row::Row;
use case_text::{CaseFault, add_line};
use exact_geom::{Plane, Rows};
use fixed_num::{Frac, Text};
use map_text::{MapDoc, RawBrush, RawEntity};
use map_write::{all_good, write_map};
use std::alloc::{AllocError, Global};
use uv_lock::{Face, Format, Tex, carry, to_valve, uv_at};

// The face that is the only one of a text's first brush.
fn only_face(doc: &MapDoc) -> Option<&Face> {
    match doc.entities.list().first()?.brushes.list().first()? {
        RawBrush::Faces(faces) => faces.list().first(),
        RawBrush::Bad(_) => None,
    }
}

// The face of a line of a map text.
fn face(alloc: Global, line: &str) -> Result<Face, CaseFault> {
    let text = format!(in alloc; "{{ {{ {line} }} }}\n")?;
    let Ok(doc) = read(alloc, text.as_bytes())? else {
        return Err(CaseFault::Line);
    };
    Ok(only_face(&doc).ok_or(CaseFault::Line)?.copy(alloc)?)
}

// A list of one item.
fn only<T: Drop>(alloc: Global, item: T) -> Result<Rows<T>, CaseFault> {
    let mut list = Vec::new(alloc);
    list.push(item)?;
    Ok(Rows::of(list))
}

// The document with a face alone.
fn document(alloc: Global, format: Format, face: Face) -> Result<MapDoc, CaseFault> {
    let entity = RawEntity {
        props: Rows::of(Vec::new(alloc)),
        brushes: only(alloc, RawBrush::Faces(only(alloc, face)?))?,
    };
    Ok(MapDoc {
        format,
        entities: only(alloc, entity)?,
    })
}

const BEFORE: &[u8] = b"// entity 0\n{\n// brush 0\n{\n";

const BEHIND: &[u8] = b"\n}\n}\n";

// The line of the only face in what a document is written as.
fn only_line(written: &[u8]) -> Option<&[u8]> {
    written.strip_prefix(BEFORE)?.strip_suffix(BEHIND)
}

// Adds the line of a map text that has the face.
fn add_face(
    alloc: Global,
    out: &mut String,
    plane: Plane,
    material: &Text,
    tex: Tex,
) -> Result<(), CaseFault> {
    let material = Text::of(alloc, material.bytes())?;
    let doc = document(
        alloc,
        Format::Valve,
        Face {
            plane,
            material,
            tex,
        },
    )?;
    if !all_good(&doc) {
        return Err(CaseFault::Line);
    }
    let written = write_map(alloc, &doc)?;
    Ok(add_line(out, "= ", only_line(&written).ok_or(CaseFault::Line)?)?)
}

fn add_fraction(out: &mut String, number: &Frac) -> Result<(), AllocError> {
    write!(out, " {}", number.num)?;
    if number.den != 1 {
        write!(out, "/{}", number.den)?;
    }
    Ok(())
}

fn add_lost(out: &mut String, offset: &Frac) -> Result<(), AllocError> {
    out.push_str("= no offset")?;
    add_fraction(out, offset)?;
    out.push('\n')
}

/// Adds the face that a motion makes of a face, with or without lock, or why there is none.
pub fn add_carried(
    alloc: Global,
    out: &mut String,
    spelled: &str,
    lock: bool,
) -> Result<(), CaseFault> {
    let (motion_part, line) = spelled.split_once('|').ok_or(CaseFault::Line)?;
    let motion = motion(motion_part)?;
    let face = face(alloc, line)?;
    match (motion.plane(&face.plane), carry(&face, &motion, lock)) {
        (_, Err(lost)) => Ok(add_lost(out, &lost.offset)?),
        (Err(place), _) => Ok(writeln!(out, "= Err({place})")?),
        (Ok(plane), Ok(tex)) => add_face(alloc, out, plane, &face.material, tex),
    }
}

fn add_coordinates(out: &mut String, found: &Option<[Frac; 2]>) -> Result<(), AllocError> {
    match found {
        Some([u, v]) => {
            out.push('=')?;
            add_fraction(out, u)?;
            add_fraction(out, v)?;
            out.push('\n')
        }
        None => out.push_str("= None\n"),
    }
}

/// Adds the texture coordinates of a point on a face, if it has any.
pub fn add_uv(alloc: Global, out: &mut String, spelled: &str) -> Result<(), CaseFault> {
    let (point, line) = spelled.split_once('|').ok_or(CaseFault::Line)?;
    let at = Row::of(point).point()?;
    if !is_in_range(&at) {
        return Err(CaseFault::Number);
    }
    Ok(add_coordinates(out, &uv_at(&face(alloc, line)?, at))?)
}

/// Adds a face in the Valve format, if it can be.
pub fn add_valve(alloc: Global, out: &mut String, line: &str) -> Result<(), CaseFault> {
    let face = face(alloc, line)?;
    match to_valve(&face) {
        Some(tex) => add_face(alloc, out, face.plane, &face.material, tex),
        None => Ok(out.push_str("= None\n")?),
    }
}
