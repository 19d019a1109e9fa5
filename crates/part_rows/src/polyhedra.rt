//! Polyhedra that planes cut.

ghost use Rattle.std.specs.Prelude.{◌≡◌, ◌<◌};

use crate::row::Row;
use crate::vertices::add_parts;
use case_text::{Case, CaseFault};
use exact_geom::{Plane, Steps};
use half_poly::{Cut, Poly};
use std::alloc::{AllocError, Global};
use std::marker::Brand;
use std::sync::ledger::{Blank, Ledger};

// Cuts the polyhedron, with a count of steps of its own.
fn cut_once<L: Ledger>(
    alloc: Global,
    poly: &mut Poly,
    plane: &Plane,
    tag: u32,
    blank: Blank,
) -> Result<Cut, CaseFault>
    requires name { blank.name ≡ L.name }
    requires parts { blank.parts ≡ L.parts }
    requires some { 0 < L.parts }
{
    if poly.has_tag(tag) {
        return Err(CaseFault::Number);
    }
    Ok(poly.cut(alloc, plane, tag, &mut Steps::<L>::new(blank))?)
}

// What the plane does to the polyhedron, and how many faces, vertices and edges there are then.
fn said_of_cut(
    alloc: Global,
    poly: &mut Poly,
    plane: &Plane,
    tag: u32,
) -> Result<String, CaseFault> {
    let cut = cut_once::<Brand>(alloc, poly, plane, tag, Blank::new(1))?;
    let (faces, vertices, edges) = (poly.faces(), poly.vertex_count(), poly.edge_count());
    Ok(format!(in alloc; "{cut:?}: {faces} faces, {vertices} vertices, {edges} edges")?)
}

// The same of a copy.
fn said_of_copy(alloc: Global, poly: &Poly, plane: &Plane, tag: u32) -> Result<String, CaseFault> {
    let mut copy = poly.copy(alloc)?;
    said_of_cut(alloc, &mut copy, plane, tag)
}

// What a cut does to so many copies, one after another, where it is the same each time.
fn said_of_copies(
    alloc: Global,
    poly: &Poly,
    plane: &Plane,
    tag: u32,
    times: u32,
) -> Result<String, CaseFault> {
    let said = said_of_copy(alloc, poly, plane, tag)?;
    for _ in 1..times {
        if said_of_copy(alloc, poly, plane, tag)? != said {
            return Err(CaseFault::Number);
        }
    }
    Ok(said)
}

// Adds the vertex with this number, if there is one.
fn add_vertex(out: &mut String, poly: &Poly, number: usize) -> Result<(), AllocError> {
    match poly.vertex(number) {
        Some(vertex) => {
            out.push(' ')?;
            add_parts(out, &vertex)
        }
        None => Ok(()),
    }
}

fn add_vertices(out: &mut String, poly: &Poly) -> Result<(), AllocError> {
    out.push_str("= vertices:")?;
    for number in 0..poly.vertex_count() {
        add_vertex(out, poly, number)?;
    }
    out.push('\n')
}

// Adds the vertices of the loop of the face with this tag.
fn add_loop(out: &mut String, poly: &Poly, tag: u32) -> Result<(), AllocError> {
    write!(out, "= face {tag}:")?;
    for place in 0..poly.vertex_count() {
        if let Some(number) = poly.loop_vertex(tag, place) {
            add_vertex(out, poly, number)?;
        }
    }
    out.push('\n')
}

fn add_listing(out: &mut String, poly: &Poly) -> Result<(), AllocError> {
    add_vertices(out, poly)?;
    for face in 0..poly.faces() {
        if let Some(tag) = poly.tag(face) {
            add_loop(out, poly, tag)?;
        }
    }
    Ok(())
}

// Adds what a row asks: `listing`, a plane that cuts, or `5 times` and a plane that cuts so many copies.
fn add_row(
    alloc: Global,
    out: &mut String,
    poly: &mut Poly,
    tag: u32,
    spelled: &str,
) -> Result<(), CaseFault> {
    if spelled == "listing" {
        return Ok(add_listing(out, poly)?);
    }
    match spelled.split_once(" times ") {
        Some((times, plane)) => {
            let count = times.parse().ok().ok_or(CaseFault::Number)?;
            let plane = Row::of(plane).plane()?;
            let said = said_of_copies(alloc, poly, &plane, tag, count)?;
            writeln!(out, "= {times} times {said}")?;
        }
        None => {
            let plane = Row::of(spelled).plane()?;
            writeln!(out, "= {}", said_of_cut(alloc, poly, &plane, tag)?)?;
        }
    }
    Ok(())
}

/// Adds a case, and behind each row what becomes of the cube that the rows cut one after another. A row's number, from 0, is the tag of its plane.
pub fn answer(alloc: Global, case: &Case<'_>, out: &mut String) -> Result<(), CaseFault> {
    let mut poly = Poly::cube(alloc)?;
    let mut tag = 0u32;
    for line in case.lines() {
        writeln!(out, "{line}")?;
        if let Some(spelled) = line.strip_prefix("> ") {
            add_row(alloc, out, &mut poly, tag, spelled)?;
            tag = tag.wrapping_add(1);
        }
    }
    Ok(())
}
