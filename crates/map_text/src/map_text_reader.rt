//! Reads a map text.

ghost use Rattle.std.specs.Prelude.{◌≡◌, ◌^◌, ◌<◌, ◌≤◌, ◌-◌, length, None, [], ◌∷◌, option_map, IfOk, IfErr, OnOk};
ghost use Rattle.std.specs.Option.{option_map_or};
ghost use Rattle.map_text.specs.Items.{BeginsEntity};
ghost use Rattle.map_text.specs.Meaning.{format_by_version, value_of_key};
ghost use Rattle.map_text.specs.Reading.{IsRefused};
ghost use Rattle.map_text.specs.Reads.{IsRefusedAs, Reads, part_count};
ghost use Rattle.map_text.specs.Refusals.{an_entity, first_refusal};

use crate::document::{MapDoc, RawEntity};
use crate::entity_text::read_entity;
use crate::read_fault::{ReadFault, What};
use crate::reader::{Reader, is_bracket};
use exact_geom::Rows;
use fixed_num::Text;
use std::alloc::Global;
use uv_lock::Format;

// The value of a key.
fn value_of_key<'a>(key: &[u8], props: &'a [(Text, Text)]) -> Option<&'a [u8]>
    ensures { option_map (λ text. text.now) result ≡ value_of_key key.now props.now }
{
    'props: for (name, value) in props {
        if name.bytes() == key {
            return Some(value.bytes());
        }
    }
    None
}

// The format of a file without faces: that of its first entity's map version.
fn format_by_version(entities: &[RawEntity]) -> Format
    ensures { result ≡ format_by_version entities.now }
{
    match entities {
        [first, ..] if value_of_key(b"mapversion", first.props.list()) == Some(b"220".as_slice()) =>
            Format::Valve,
        _ => Format::Standard,
    }
}

// The format of the first face, or that by the map version.
fn format_or(first: Option<Format>, entities: &[RawEntity]) -> Format
    ensures { result ≡ option_map_or (λ format. format) first (format_by_version entities.now) }
{
    match first {
        Some(format) => format,
        None => format_by_version(entities),
    }
}

// Reads the bracket of an entity, or finds the end of the text.
fn begins_entity(reader: &mut Reader<'_>) -> Result<bool, ReadFault>
    ensures read { IfOk result (BeginsEntity reader.old reader.new) }
    ensures fault { IfErr result (IsRefused reader.old (an_entity ∷ [])) }
{
    match reader.next_token()? {
        None => Ok(false),
        Some(token) if is_bracket(&token, b'{') => Ok(true),
        Some(token) => Err(ReadFault::Expected(What::Entity, token.line)),
    }
}

/// Reads a map text, in the Standard or the Valve 220 format of Quake's maps: entities with their properties and
/// brushes, in the order of the text.
///
/// A brush that can't be one of a map is no fault: it is kept as `RawBrush::Bad`, with the first reason that holds.
///
/// The text is refused at its first place that is at fault. `Lex` comes where it can't be cut into tokens any
/// further, `Expected` where a token stands that the grammar doesn't have there, `MixedFormat` where a face is of
/// another format than the first one, `UnknownBlock` where a brush begins with the name of another kind of block,
/// and `EndsEarly` where the text ends inside an entity, with its last line. `Memory` comes where there is no memory
/// for the document.
pub fn read_map(alloc: Global, text: &[u8]) -> Result<MapDoc, ReadFault>
    requires short { length text.now < 2 ^ 32 - 1 }
    ensures read { IfOk result (λ doc. Reads text.now doc) }
    ensures accepted { OnOk result (first_refusal text.now ≡ None) }
    ensures fault { IfErr result (λ fault. IsRefusedAs text.now fault) }
    ensures few { IfOk result (λ doc. part_count doc ≤ length text.now) }
{
    let mut reader = Reader::new(text);
    let mut entities = Vec::new(alloc);
    'entities: while begins_entity(&mut reader)? {
        entities.push(read_entity(alloc, &mut reader)?)?;
    }
    entities.shrink_to_fit();
    let format = format_or(reader.format(), &entities);
    Ok(MapDoc {
        format,
        entities: Rows::of(entities),
    })
}
