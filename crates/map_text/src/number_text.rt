//! The numbers of a face.

ghost use Rattle.std.specs.Prelude.{◌≡◌, [], ◌∷◌, IfOk, IfErr};
ghost use Rattle.fixed_num.specs.Decimals.{axis_decimals, offset_decimals, rotation_decimals};
ghost use Rattle.map_lex.specs.TokenList.{value_of};
ghost use Rattle.map_text.specs.declared.document.Reason.TheVariants.{Texture};
ghost use Rattle.map_text.specs.Judged.{coordinate_in, count_in};
ghost use Rattle.map_text.specs.Parts.{coordinate_part, number_part};
ghost use Rattle.map_text.specs.Reading.{IsRead, IsRefused};
ghost use Rattle.map_text.specs.Refusals.{a_number};

use crate::document::Reason;
use crate::judged::Judged;
use crate::read_fault::{ReadFault, What};
use crate::reader::Reader;
use fixed_num::{
    Micro, MicroFault, Nano, Pico, WholeFault, read_micro, read_nano, read_pico, read_whole,
};
use map_lex::Token;

// The greatest size of a coordinate of a plane's point.
const LIMIT: i64 = 4352;

// The coordinate that a token spells, if it is a number word.
fn coordinate_in(token: &Token<'_>) -> Option<Judged<i32>>
    ensures { result ≡ coordinate_in (value_of token.now) }
{
    if token.quoted {
        return None;
    }
    match read_whole(token.text, LIMIT) {
        Ok(whole) => Some(Ok(whole as i32)),
        Err(WholeFault::NotNumber) => None,
        Err(WholeFault::NotWhole) => Some(Err(Reason::Point)),
        Err(WholeFault::TooLarge) => Some(Err(Reason::Range)),
    }
}

// The number with six decimals that a token spells, if it is a number word. The reason is that against a large one.
fn micro_in(token: &Token<'_>, reason: Reason) -> Option<Judged<Micro>>
    ensures { result ≡ count_in reason rotation_decimals (value_of token.now) }
{
    if token.quoted {
        return None;
    }
    match read_micro(token.text) {
        Ok(number) => Some(Ok(number)),
        Err(MicroFault::NotNumber) => None,
        Err(MicroFault::TooLarge) => Some(Err(reason)),
    }
}

// The number of a texture with nine decimals that a token spells, if it is a number word.
fn nano_in(token: &Token<'_>) -> Option<Judged<Nano>>
    ensures { result ≡ count_in Texture axis_decimals (value_of token.now) }
{
    if token.quoted {
        return None;
    }
    match read_nano(token.text) {
        Ok(number) => Some(Ok(number)),
        Err(MicroFault::NotNumber) => None,
        Err(MicroFault::TooLarge) => Some(Err(Reason::Texture)),
    }
}

/// The number of a texture with twelve decimals that a token spells, if it is a number word.
pub(crate) fn pico_in(token: &Token<'_>) -> Option<Judged<Pico>>
    ensures { result ≡ count_in Texture offset_decimals (value_of token.now) }
{
    if token.quoted {
        return None;
    }
    match read_pico(token.text) {
        Ok(number) => Some(Ok(number)),
        Err(MicroFault::NotNumber) => None,
        Err(MicroFault::TooLarge) => Some(Err(Reason::Texture)),
    }
}

/// Reads a coordinate of a point.
pub(crate) fn read_coordinate(reader: &mut Reader<'_>) -> Result<Judged<i32>, ReadFault>
    ensures read { IfOk result (IsRead coordinate_part (a_number ∷ []) [] reader.old reader.new) }
    ensures fault { IfErr result (IsRefused reader.old (a_number ∷ [])) }
{
    let token = reader.token()?;
    coordinate_in(&token).ok_or(ReadFault::Expected(What::Number, token.line))
}

/// Reads a number with six decimals. The reason is that against a large one.
pub(crate) fn read_micro_number(
    reader: &mut Reader<'_>,
    reason: Reason,
) -> Result<Judged<Micro>, ReadFault>
    ensures read { IfOk result (IsRead (number_part reason rotation_decimals) (a_number ∷ []) [] reader.old reader.new) }
    ensures fault { IfErr result (IsRefused reader.old (a_number ∷ [])) }
{
    let token = reader.token()?;
    micro_in(&token, reason).ok_or(ReadFault::Expected(What::Number, token.line))
}

/// Reads a number of a texture with nine decimals.
pub(crate) fn read_nano_number(reader: &mut Reader<'_>) -> Result<Judged<Nano>, ReadFault>
    ensures read { IfOk result (IsRead (number_part Texture axis_decimals) (a_number ∷ []) [] reader.old reader.new) }
    ensures fault { IfErr result (IsRefused reader.old (a_number ∷ [])) }
{
    let token = reader.token()?;
    nano_in(&token).ok_or(ReadFault::Expected(What::Number, token.line))
}

/// Reads a number of a texture with twelve decimals.
pub(crate) fn read_pico_number(reader: &mut Reader<'_>) -> Result<Judged<Pico>, ReadFault>
    ensures read { IfOk result (IsRead (number_part Texture offset_decimals) (a_number ∷ []) [] reader.old reader.new) }
    ensures fault { IfErr result (IsRefused reader.old (a_number ∷ [])) }
{
    let token = reader.token()?;
    pico_in(&token).ok_or(ReadFault::Expected(What::Number, token.line))
}
