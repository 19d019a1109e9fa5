//! The lines of vertices.

ghost use Rattle.std.specs.Prelude.{◌≡◌, ◌∷◌, ◌++◌, OnOk};
ghost use Rattle.algebra.specs.World.{InCube, world};
ghost use Rattle.fixed_num.specs.Decimals.{point_decimals};
ghost use Rattle.fixed_num.specs.Shortest.{shortest_decimal};
ghost use Rattle.solid_brush.specs.Sides.{half_spaces};
ghost use Rattle.obj_export.specs.Text.{vertex_line};
ghost use Rattle.obj_export.specs.Adding.{AddsVertices};

use crate::micro::to_micro;
use exact_geom::HVertex;
use fixed_num::{Micro, NumBuf, write_micro};
use solid_brush::Solid;
use std::alloc::AllocError;

// Adds a blank and a count of millionths as its shortest decimal.
fn put_coordinate(text: &mut Vec<u8>, count: Micro) -> Result<(), AllocError>
    ensures { OnOk result (text.new.items ≡ text.old.items ++ 32 ∷ shortest_decimal point_decimals count) }
{
    let mut buffer = NumBuf::new();
    write_micro(count, &mut buffer);
    text.extend_from_slice(b" ")?;
    text.extend_from_slice(buffer.text())
}

fn put_vertex(text: &mut Vec<u8>, vertex: HVertex) -> Result<(), AllocError>
    requires in_world { InCube world vertex }
    ensures { OnOk result (text.new.items ≡ text.old.items ++ vertex_line vertex) }
{
    let [x, y, z] = to_micro(&vertex);
    text.extend_from_slice(b"v")?;
    put_coordinate(text, x)?;
    put_coordinate(text, y)?;
    put_coordinate(text, z)?;
    text.extend_from_slice(b"\n")
}

/// Adds a line for each vertex of a brush, in the order of their names.
pub(crate) fn put_vertices(text: &mut Vec<u8>, solid: &Solid) -> Result<(), AllocError>
    ensures { OnOk result (AddsVertices (half_spaces solid.now) text.old.items text.new.items) }
{
    let _sides = solid.sides();
    for k in 0..solid.vertex_count() {
        match solid.vertex(k) {
            None => return Ok(()),
            Some(vertex) => put_vertex(text, vertex)?,
        }
    }
    Ok(())
}
