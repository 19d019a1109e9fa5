//! The surface numbers of a face, where it has them.

ghost use Rattle.std.specs.Prelude.{◌≡◌, [], ◌∷◌, IfOk, IfErr, IfSome};
ghost use Rattle.fixed_num.specs.Whole.{IsWide};
ghost use Rattle.map_lex.specs.TokenList.{value_of};
ghost use Rattle.map_text.specs.Judged.{bits_in, surface_from};
ghost use Rattle.map_text.specs.Parts.{BeginsSurface, bits_part, surface_part};
ghost use Rattle.map_text.specs.Reading.{IsRead, IsRefused};
ghost use Rattle.map_text.specs.Refusals.{a_face, a_number, a_surface};

use crate::document::Reason;
use crate::judged::Judged;
use crate::number_text::read_micro_number;
use crate::read_fault::{ReadFault, What};
use crate::reader::Reader;
use fixed_num::{Micro, WholeFault, read_wide};
use map_lex::Token;
use uv_lock::Surface;

// The contents or flags that a token spells, if it is a number word.
fn bits_in(token: &Token<'_>) -> Option<Judged<i64>>
    ensures value { result ≡ bits_in (value_of token.now) }
    ensures fit { IfSome result (λ bits. IfOk bits IsWide) }
{
    if token.quoted {
        return None;
    }
    match read_wide(token.text) {
        Ok(bits) => Some(Ok(bits)),
        Err(WholeFault::NotNumber) => None,
        Err(WholeFault::NotWhole) => Some(Err(Reason::Surface)),
        Err(WholeFault::TooLarge) => Some(Err(Reason::Surface)),
    }
}

fn surface_from(
    contents: Judged<i64>,
    flags: Judged<i64>,
    value: Judged<Micro>,
) -> Judged<Option<Surface>>
    requires contents { IfOk contents IsWide }
    requires flags { IfOk flags IsWide }
    ensures { result ≡ surface_from contents flags value }
{
    Ok(Some(Surface {
        contents: contents?,
        flags: flags?,
        value: value?,
    }))
}

// Reads the contents, where a number stands.
fn begins_surface(reader: &mut Reader<'_>) -> Result<Option<Judged<i64>>, ReadFault>
    ensures read { IfOk result (BeginsSurface reader.old reader.new) }
    ensures fit { IfOk result (λ start. IfSome start (λ contents. IfOk contents IsWide)) }
    ensures fault { IfErr result (IsRefused reader.old (a_surface ∷ [])) }
{
    let Some(token) = reader.peek() else {
        return Ok(None);
    };
    let Some(contents) = bits_in(&token) else {
        return Ok(None);
    };
    reader.token()?;
    Ok(Some(contents))
}

// Reads the flags.
fn read_flags(reader: &mut Reader<'_>) -> Result<Judged<i64>, ReadFault>
    ensures read { IfOk result (IsRead bits_part (a_number ∷ []) [] reader.old reader.new) }
    ensures fit { IfOk result (λ flags. IfOk flags IsWide) }
    ensures fault { IfErr result (IsRefused reader.old (a_number ∷ [])) }
{
    let token = reader.token()?;
    bits_in(&token).ok_or(ReadFault::Expected(What::Number, token.line))
}

/// Reads the surface numbers behind the last scale of a face, where a number stands there.
pub(crate) fn read_surface(reader: &mut Reader<'_>) -> Result<Judged<Option<Surface>>, ReadFault>
    ensures read { IfOk result (IsRead surface_part (a_surface ∷ []) (a_face ∷ []) reader.old reader.new) }
    ensures fault { IfErr result (IsRefused reader.old (a_surface ∷ [])) }
{
    let Some(contents) = begins_surface(reader)? else {
        return Ok(Ok(None));
    };
    let flags = read_flags(reader)?;
    let value = read_micro_number(reader, Reason::Surface)?;
    Ok(surface_from(contents, flags, value))
}
