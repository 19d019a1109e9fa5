//! The loops of faces, by the numbers of their vertices in the text.

ghost use Rattle.std.specs.Prelude.{◌≡◌, ◌∷◌, ◌++◌, ◌<◌, ◌^◌, OnOk, decimal};
ghost use Rattle.solid_brush.specs.Sides.{half_spaces};
ghost use Rattle.obj_export.specs.Adding.{HasLoopLength, AddsCorner, AddsLoop};

use itoa::Buffer;
use solid_brush::Solid;
use std::alloc::AllocError;

// How many vertices the loop of a face has.
fn loop_length(solid: &Solid, face: u32) -> u32
    ensures { HasLoopLength (half_spaces solid.now) face result }
{
    for k in 0..solid.vertex_count() {
        if solid.loop_vertex(face, k).is_none() {
            return k;
        }
    }
    solid.vertex_count()
}

// Adds a blank and a number.
fn put_number(text: &mut Vec<u8>, number: u64) -> Result<(), AllocError>
    ensures { OnOk result (text.new.items ≡ text.old.items ++ 32 ∷ decimal number) }
{
    let mut buffer = Buffer::new();
    text.extend_from_slice(b" ")?;
    text.extend_from_slice(buffer.format(number).as_bytes())
}

// Adds the number of the vertex at place k of the loop, if there is one.
fn put_corner(
    text: &mut Vec<u8>,
    solid: &Solid,
    face: u32,
    k: u32,
    before: u64,
) -> Result<(), AllocError>
    requires room { before < 2 ^ 63 }
    ensures { OnOk result (AddsCorner (half_spaces solid.now) face k before text.old.items text.new.items) }
{
    match solid.loop_vertex(face, k) {
        None => Ok(()),
        Some(number) => put_number(text, before + 1 + u64::from(number)),
    }
}

/// Adds the loop of a face: the first vertex, and then from the last to the second, each as its number behind those of earlier
/// brushes.
pub(crate) fn put_loop(
    text: &mut Vec<u8>,
    solid: &Solid,
    face: u32,
    before: u64,
) -> Result<(), AllocError>
    requires room { before < 2 ^ 63 }
    ensures { OnOk result (AddsLoop (half_spaces solid.now) face before text.old.items text.new.items) }
{
    put_corner(text, solid, face, 0, before)?;
    let mut left = loop_length(solid, face);
    while left > 1 {
        left -= 1;
        put_corner(text, solid, face, left, before)?;
    }
    Ok(())
}
