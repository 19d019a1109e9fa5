//! A brush of a map text.

ghost use Rattle.std.specs.Prelude.{◌≡◌, [], ◌∷◌, IfOk, IfErr};
ghost use Rattle.map_text.specs.Judged.{with_face};
ghost use Rattle.map_text.specs.Parts.{BeginsFace, brush_part, face_place};
ghost use Rattle.map_text.specs.Reading.{IsRead, IsRefused, IsStopped};
ghost use Rattle.map_text.specs.Refusals.{first_in_brush, names_block};
ghost use Rattle.map_lex.specs.TokenList.{value_of};

use crate::document::{RawBrush, Reason};
use crate::face_text::read_face;
use crate::judged::{Judged, first_reason};
use crate::read_fault::{ReadFault, What};
use crate::reader::{Reader, is_bracket};
use exact_geom::Rows;
use map_lex::Token;
use std::alloc::{AllocFailed, Global};
use uv_lock::Face;

// A brush has at most so many faces.
const MOST_FACES: usize = 256;

// The brush with one more face. A bad one keeps no faces.
fn with_face(brush: RawBrush, face: Judged<Face>) -> Result<RawBrush, AllocFailed<Face>>
    ensures { IfOk result (λ more. more ≡ with_face brush face) }
{
    match (brush, face) {
        (RawBrush::Faces(faces), Ok(face)) => {
            let mut faces = faces.into_vec();
            if faces.len() >= MOST_FACES {
                return Ok(RawBrush::Bad(Reason::Many));
            }
            faces.push(face)?;
            Ok(RawBrush::Faces(Rows::of(faces)))
        }
        (RawBrush::Bad(a), Err(b)) => Ok(RawBrush::Bad(first_reason(a, b))),
        (RawBrush::Bad(reason), Ok(_)) | (RawBrush::Faces(_), Err(reason)) => {
            Ok(RawBrush::Bad(reason))
        }
    }
}

// Whether a token names another kind of block than a brush of faces.
fn names_block(token: &Token<'_>) -> bool
    ensures { result ≡ names_block (value_of token.now) }
{
    !token.quoted && matches!(token.text, [first, ..] if first.is_ascii_alphabetic())
}

// Reads the bracket of a face, or that of the brush's end.
fn begins_face(reader: &mut Reader<'_>, is_first: bool) -> Result<bool, ReadFault>
    ensures read { IfOk result (BeginsFace reader.old reader.new is_first) }
    ensures fault { IfErr result (IsRefused reader.old (face_place is_first ∷ [])) }
{
    let token = reader.token()?;
    if is_first && names_block(&token) {
        return Err(ReadFault::UnknownBlock(token.line));
    }
    if is_bracket(&token, b'(') {
        return Ok(true);
    }
    if is_bracket(&token, b'}') {
        return Ok(false);
    }
    Err(ReadFault::Expected(What::Face, token.line))
}

// A good brush takes no more memory than its faces.
fn shrunk(brush: RawBrush) -> RawBrush
    ensures { result ≡ brush }
{
    match brush {
        RawBrush::Faces(faces) => {
            let mut faces = faces.into_vec();
            faces.shrink_to_fit();
            RawBrush::Faces(Rows::of(faces))
        }
        RawBrush::Bad(reason) => RawBrush::Bad(reason),
    }
}

/// Reads a brush behind its first bracket.
pub(crate) fn read_brush(alloc: Global, reader: &mut Reader<'_>) -> Result<RawBrush, ReadFault>
    ensures read { IfOk result (IsRead brush_part (first_in_brush ∷ []) [] reader.old reader.new) }
    ensures fault { IfErr result (IsStopped reader.old (first_in_brush ∷ [])) }
{
    let mut brush = RawBrush::Faces(Rows::of(Vec::new(alloc)));
    let mut is_first = true;
    'faces: while begins_face(reader, is_first)? {
        brush = with_face(brush, read_face(alloc, reader)?)?;
        is_first = false;
    }
    Ok(shrunk(brush))
}
