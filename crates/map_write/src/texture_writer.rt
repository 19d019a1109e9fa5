//! Writes the texture of a face, in the two formats.

ghost use Rattle.std.specs.Prelude.{◌≡◌, ◌++◌, [], ◌∷◌, OnOk, slice_index_or};
ghost use Rattle.fixed_num.specs.Decimals.{offset_decimals, rotation_decimals, scale_decimals};
ghost use Rattle.fixed_num.specs.Shortest.{shortest_decimal};
ghost use Rattle.map_text.specs.Grammar.{axis_symbols, texture_symbols};
ghost use Rattle.map_write.specs.Written.{at, axis_text, kept, line_of, surface_end, surface_of_tex, texture_text};

use crate::numbers::{write_micro_number, write_nano_number, write_pico_number};
use crate::surface_writer::write_surface;
use fixed_num::{Micro, Nano, Pico};
use std::alloc::AllocError;
use uv_lock::{Surface, Tex};

// The offsets along U and V.
fn write_offsets(text: &mut Vec<u8>, offsets: [Pico; 2]) -> Result<(), AllocError>
    ensures { OnOk result (text.new.items ≡ text.old.items
        ++ (shortest_decimal offset_decimals (at offsets 0) ++ 32 ∷ shortest_decimal offset_decimals (at offsets 1))) }
{
    let [u, v] = offsets;
    write_pico_number(text, u)?;
    text.push(b' ')?;
    write_pico_number(text, v)?;
    Ok(())
}

fn write_axis(text: &mut Vec<u8>, axis: [Nano; 3], offset: Pico) -> Result<(), AllocError>
    ensures { OnOk result (text.new.items ≡ text.old.items ++ line_of (axis_symbols (axis_text kept axis offset))) }
{
    let [x, y, z] = axis;
    text.extend_from_slice(b"[ ")?;
    write_nano_number(text, x)?;
    text.push(b' ')?;
    write_nano_number(text, y)?;
    text.push(b' ')?;
    write_nano_number(text, z)?;
    text.push(b' ')?;
    write_pico_number(text, offset)?;
    text.extend_from_slice(b" ]")?;
    Ok(())
}

// The two axes U and V, with their offsets.
fn write_axes(
    text: &mut Vec<u8>,
    axes: [[Nano; 3]; 2],
    offsets: [Pico; 2],
) -> Result<(), AllocError>
    ensures { OnOk result (text.new.items
        ≡ text.old.items ++ (line_of (axis_symbols (axis_text kept (slice_index_or axes 0 []) (at offsets 0)))
        ++ 32 ∷ line_of (axis_symbols (axis_text kept (slice_index_or axes 1 []) (at offsets 1))))) }
{
    let [u, v] = axes;
    let [u_offset, v_offset] = offsets;
    write_axis(text, u, u_offset)?;
    text.push(b' ')?;
    write_axis(text, v, v_offset)?;
    Ok(())
}

// What follows the offsets in both formats: the rotation and the scales, with a space before each.
fn write_rotation_and_scales(
    text: &mut Vec<u8>,
    rotation: Micro,
    scale: [Nano; 2],
) -> Result<(), AllocError>
    ensures { OnOk result (text.new.items ≡ text.old.items
        ++ 32 ∷ (shortest_decimal rotation_decimals rotation
        ++ 32 ∷ (shortest_decimal scale_decimals (at scale 0) ++ 32 ∷ shortest_decimal scale_decimals (at scale 1)))) }
{
    let [u, v] = scale;
    text.push(b' ')?;
    write_micro_number(text, rotation)?;
    text.push(b' ')?;
    write_nano_number(text, u)?;
    text.push(b' ')?;
    write_nano_number(text, v)?;
    Ok(())
}

// The offsets, or the axes with them, the rotation and the scales.
fn write_fields(text: &mut Vec<u8>, tex: &Tex) -> Result<(), AllocError>
    ensures { OnOk result (text.new.items ≡ text.old.items ++ line_of (texture_symbols (texture_text kept tex.now))) }
{
    match tex {
        Tex::Standard(fields) => {
            write_offsets(text, fields.off)?;
            write_rotation_and_scales(text, fields.rotation, fields.scale)
        }
        Tex::Valve(fields) => {
            write_axes(text, fields.axis, fields.off)?;
            write_rotation_and_scales(text, fields.rotation, fields.scale)
        }
    }
}

fn surface_of(tex: &Tex) -> Option<Surface>
    ensures { result ≡ surface_of_tex tex.now }
{
    match tex {
        Tex::Standard(fields) => fields.surface,
        Tex::Valve(fields) => fields.surface,
    }
}

/// Appends the texture of a face: its offsets, or its axes with them, the rotation and the scales, and the surface numbers
/// where it has them.
pub(crate) fn write_texture(text: &mut Vec<u8>, tex: &Tex) -> Result<(), AllocError>
    ensures { OnOk result (text.new.items
        ≡ text.old.items ++ (line_of (texture_symbols (texture_text kept tex.now)) ++ surface_end (surface_of_tex tex.now))) }
{
    write_fields(text, tex)?;
    write_surface(text, surface_of(tex))?;
    Ok(())
}
