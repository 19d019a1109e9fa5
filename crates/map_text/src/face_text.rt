//! A face of a map text.

ghost use Rattle.std.specs.Prelude.{◌≡◌, [], ◌∷◌, IfOk, IfErr};
ghost use Rattle.map_lex.specs.TokenList.{value_of};
ghost use Rattle.map_text.specs.Fits.{is_material};
ghost use Rattle.map_text.specs.Grammar.{symbol_of};
ghost use Rattle.map_text.specs.Judged.{face_from};
ghost use Rattle.map_text.specs.Parts.{face_part, material_part};
ghost use Rattle.map_text.specs.Reading.{IsRead, IsRefused, IsStopped};
ghost use Rattle.map_text.specs.Refusals.{a_face, a_material, rest_of_face};

use crate::document::Reason;
use crate::judged::Judged;
use crate::point_text::read_points;
use crate::read_fault::{ReadFault, What};
use crate::reader::{Reader, ends_with_backslash};
use crate::texture_text::read_texture;
use exact_geom::{Plane, Point};
use fixed_num::Text;
use map_lex::Token;
use std::alloc::{AllocError, Global};
use uv_lock::{Face, Tex};

// The face of these parts, or the first reason why there is none.
fn face_from(
    alloc: Global,
    points: Judged<[Point; 3]>,
    material: &[u8],
    tex: Judged<Tex>,
) -> Result<Judged<Face>, AllocError>
    ensures { IfOk result (λ face. face ≡ face_from points material.now tex) }
{
    let [p0, p1, p2] = match points {
        Ok(points) => points,
        Err(reason) => return Ok(Err(reason)),
    };
    let tex = match tex {
        Ok(tex) => tex,
        Err(reason) => return Ok(Err(reason)),
    };
    let Ok(plane) = Plane::of(p0, p1, p2) else {
        return Ok(Err(Reason::Flat));
    };
    let material = Text::of(alloc, material)?;
    Ok(Ok(Face {
        plane,
        material,
        tex,
    }))
}

// Whether a token can be a material.
fn is_material(token: &Token<'_>) -> bool
    ensures { result ≡ is_material (symbol_of (value_of token.now)) }
{
    !(token.quoted && ends_with_backslash(token.text))
}

// Reads a material.
fn read_material<'a>(reader: &mut Reader<'a>) -> Result<&'a [u8], ReadFault>
    ensures read { IfOk result (λ text. IsRead material_part (a_material ∷ []) [] reader.old reader.new text.now) }
    ensures fault { IfErr result (IsRefused reader.old (a_material ∷ [])) }
{
    let token = reader.token()?;
    if !is_material(&token) {
        return Err(ReadFault::Expected(What::Material, token.line));
    }
    Ok(token.text)
}

/// Reads a face behind its first bracket, to its end also where it is bad.
pub(crate) fn read_face(alloc: Global, reader: &mut Reader<'_>) -> Result<Judged<Face>, ReadFault>
    ensures read { IfOk result (IsRead face_part rest_of_face (a_face ∷ []) reader.old reader.new) }
    ensures fault { IfErr result (IsStopped reader.old rest_of_face) }
{
    let points = read_points(reader)?;
    let material = read_material(reader)?;
    let tex = read_texture(reader)?;
    Ok(face_from(alloc, points, material, tex)?)
}
