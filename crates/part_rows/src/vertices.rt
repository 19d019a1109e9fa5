//! Vertices of three planes, the sides of other planes on which they lie, and their places on grids.

ghost use Rattle.algebra.specs.World.{InCube, world};
ghost use Rattle.exact_geom.specs.Rounding.{IsGrid};

use crate::row::Row;
use case_text::CaseFault;
use exact_geom::uncounted::{meet, side};
use exact_geom::{HVertex, Plane, Point, det_sign, in_world, round, whole};
use std::alloc::AllocError;

/// Adds a point, as `(0 64 192)/3`.
pub fn add_parts(out: &mut String, vertex: &HVertex) -> Result<(), AllocError> {
    let [x, y, z, w] = vertex.parts();
    write!(out, "({x} {y} {z})")?;
    if w != 1 {
        write!(out, "/{w}")?;
    }
    Ok(())
}

/// Adds a whole point, as ` (0 64 192)`.
pub fn add_point(out: &mut String, point: Point) -> Result<(), AllocError> {
    write!(out, " ({} {} {})", point.x, point.y, point.z)
}

fn add_on_grid(out: &mut String, vertex: &HVertex, grid: i32) -> Result<(), AllocError>
    requires grid { IsGrid grid }
    requires world { InCube world vertex.now }
{
    let point = round(vertex, grid);
    writeln!(out, "= on {grid} ({} {} {})", point.x, point.y, point.z)
}

fn add_on_grids(out: &mut String, vertex: &HVertex) -> Result<(), AllocError>
    requires world { InCube world vertex.now }
{
    writeln!(out, "= whole {:?}", whole(vertex))?;
    add_on_grid(out, vertex, 1)?;
    add_on_grid(out, vertex, 2)?;
    add_on_grid(out, vertex, 4)?;
    add_on_grid(out, vertex, 8)?;
    add_on_grid(out, vertex, 16)?;
    add_on_grid(out, vertex, 32)?;
    add_on_grid(out, vertex, 64)
}

// Adds what three planes meet in.
fn add_meeting(out: &mut String, planes: &[Plane; 3], probe: &Plane) -> Result<(), AllocError> {
    let [a, b, c] = planes;
    let Some(vertex) = meet(a, b, c) else {
        return out.push_str("= none\n");
    };
    write!(out, "= {:?} ", side(probe, &vertex))?;
    add_parts(out, &vertex)?;
    out.push('\n')?;
    if in_world(&vertex) {
        add_on_grids(out, &vertex)
    } else {
        out.push_str("= out of the world\n")
    }
}

/// Adds the point where three planes meet, the side of a fourth on which it lies, and its places on the grids.
pub fn add_vertex(out: &mut String, spelled: &str) -> Result<(), CaseFault> {
    let mut row = Row::of(spelled);
    let planes = [row.plane()?, row.plane()?, row.plane()?];
    let probe = row.plane()?;
    let [a, b, c] = &planes;
    writeln!(out, "= normals {:?}", det_sign(a, b, c))?;
    add_meeting(out, &planes, &probe)?;
    Ok(())
}
