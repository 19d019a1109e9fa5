//! The texture of a face, in the two formats.

ghost use Rattle.std.specs.Prelude.{◌≡◌, [], ◌∷◌, IfOk, IfErr};
ghost use Rattle.map_text.specs.Judged.{axis_from, turn_from, standard_from, valve_from};
ghost use Rattle.map_text.specs.Parts.{BeginsTexture, axis_part, turn_part, turn_places, texture_part};
ghost use Rattle.map_text.specs.Reading.{IsRead, IsRefused};
ghost use Rattle.map_text.specs.Refusals.{a_face, a_surface, a_texture, rest_of_axis};

use crate::document::Reason;
use crate::judged::Judged;
use crate::number_text::{pico_in, read_micro_number, read_nano_number, read_pico_number};
use crate::read_fault::{ReadFault, What};
use crate::reader::{Reader, is_bracket};
use crate::surface_text::read_surface;
use fixed_num::{Micro, Nano, Pico};
use uv_lock::{Format, StandardTex, Surface, Tex, ValveTex};

/// How a texture begins.
#[derive(Clone, Copy, Drop)]
pub(crate) enum TextureStart {
    /// With the bracket of its first axis.
    Axes,
    /// With its first offset.
    Offset(Judged<Pico>),
}

/// An axis and its offset.
type AxisFields = ([Nano; 3], Pico);

/// A rotation and the scales along U and V.
type TurnFields = (Micro, [Nano; 2]);

#[inline(always)]
fn axis_from(
    x: Judged<Nano>,
    y: Judged<Nano>,
    z: Judged<Nano>,
    offset: Judged<Pico>,
) -> Judged<AxisFields>
    ensures { result ≡ axis_from x y z offset }
{
    Ok(([x?, y?, z?], offset?))
}

#[inline(always)]
fn turn_from(
    rotation: Judged<Micro>,
    u_scale: Judged<Nano>,
    v_scale: Judged<Nano>,
) -> Judged<TurnFields>
    ensures { result ≡ turn_from rotation u_scale v_scale }
{
    Ok((rotation?, [u_scale?, v_scale?]))
}

#[inline(always)]
fn standard_from(
    u: Judged<Pico>,
    v: Judged<Pico>,
    turn: Judged<TurnFields>,
    surface: Judged<Option<Surface>>,
) -> Judged<Tex>
    ensures { result ≡ standard_from u v turn surface }
{
    let off = [u?, v?];
    let (rotation, scale) = turn?;
    Ok(Tex::Standard(StandardTex {
        off,
        rotation,
        scale,
        surface: surface?,
    }))
}

#[inline(always)]
fn valve_from(
    u: Judged<AxisFields>,
    v: Judged<AxisFields>,
    turn: Judged<TurnFields>,
    surface: Judged<Option<Surface>>,
) -> Judged<Tex>
    ensures { result ≡ valve_from u v turn surface }
{
    let (u_axis, u_offset) = u?;
    let (v_axis, v_offset) = v?;
    let (rotation, scale) = turn?;
    Ok(Tex::Valve(ValveTex {
        axis: [u_axis, v_axis],
        off: [u_offset, v_offset],
        rotation,
        scale,
        surface: surface?,
    }))
}

// Reads an axis behind its first bracket.
fn read_axis(reader: &mut Reader<'_>) -> Result<Judged<AxisFields>, ReadFault>
    ensures read { IfOk result (IsRead axis_part rest_of_axis [] reader.old reader.new) }
    ensures fault { IfErr result (IsRefused reader.old rest_of_axis) }
{
    let x = read_nano_number(reader)?;
    let y = read_nano_number(reader)?;
    let z = read_nano_number(reader)?;
    let offset = read_pico_number(reader)?;
    reader.expect(b']', What::Axis)?;
    Ok(axis_from(x, y, z, offset))
}

// Reads the rotation and the scales.
fn read_turn(reader: &mut Reader<'_>) -> Result<Judged<TurnFields>, ReadFault>
    ensures read { IfOk result (IsRead turn_part turn_places [] reader.old reader.new) }
    ensures fault { IfErr result (IsRefused reader.old turn_places) }
{
    let rotation = read_micro_number(reader, Reason::Texture)?;
    let u_scale = read_nano_number(reader)?;
    let v_scale = read_nano_number(reader)?;
    Ok(turn_from(rotation, u_scale, v_scale))
}

// Reads the first token of a texture, which tells its format.
fn read_start(reader: &mut Reader<'_>) -> Result<TextureStart, ReadFault>
    ensures read { IfOk result (BeginsTexture reader.old reader.new) }
    ensures fault { IfErr result (IsRefused reader.old (a_texture ∷ [])) }
{
    let token = reader.token()?;
    if is_bracket(&token, b'[') {
        reader.settle(Format::Valve, token.line)?;
        return Ok(TextureStart::Axes);
    }
    let Some(number) = pico_in(&token) else {
        return Err(ReadFault::Expected(What::Number, token.line));
    };
    reader.settle(Format::Standard, token.line)?;
    Ok(TextureStart::Offset(number))
}

/// Reads the texture of a face, in the format of the first face, and the surface numbers behind it where they stand there.
pub(crate) fn read_texture(reader: &mut Reader<'_>) -> Result<Judged<Tex>, ReadFault>
    ensures read { IfOk result (IsRead texture_part (a_texture ∷ a_surface ∷ []) (a_face ∷ []) reader.old reader.new) }
    ensures fault { IfErr result (IsRefused reader.old (a_texture ∷ a_surface ∷ [])) }
{
    match read_start(reader)? {
        TextureStart::Axes => {
            let u = read_axis(reader)?;
            reader.expect(b'[', What::Axis)?;
            let v = read_axis(reader)?;
            let turn = read_turn(reader)?;
            let surface = read_surface(reader)?;
            Ok(valve_from(u, v, turn, surface))
        }
        TextureStart::Offset(u) => {
            let v = read_pico_number(reader)?;
            let turn = read_turn(reader)?;
            let surface = read_surface(reader)?;
            Ok(standard_from(u, v, turn, surface))
        }
    }
}
