//! An entity of a map text.

ghost use Rattle.std.specs.Prelude.{◌≡◌, [], ◌∷◌, IfOk, IfErr, OnOk};
ghost use Rattle.indexmap.specs.IndexMap.{insert_entry};
ghost use Rattle.map_text.specs.Items.{BeginsItem};
ghost use Rattle.map_text.specs.Parts.{entity_part, value_part, bytes_of_pairs, same_bytes};
ghost use Rattle.map_text.specs.Reading.{IsRead, IsRefused, IsStopped};
ghost use Rattle.map_text.specs.Refusals.{a_value, an_item};

use crate::brush_text::read_brush;
use crate::document::RawEntity;
use crate::read_fault::{ReadFault, What};
use crate::reader::{Reader, ends_with_backslash, is_bracket};
use exact_geom::Rows;
use fixed_num::Text;
use indexmap::IndexMap;
use std::alloc::{AllocError, AllocFailed, Global};

/// How an item of an entity begins.
#[derive(Clone, Copy, Drop)]
pub(crate) enum ItemStart<'a> {
    /// A property, with its key.
    Key(&'a [u8]),
    /// A brush, with its bracket.
    Brush,
}

// Keys and values where they stand in the text. Each key stands once.
type Properties<'a> = IndexMap<&'a [u8], &'a [u8]>;

// Reads the first token of an item, or the bracket of the entity's end.
fn begins_item<'a>(reader: &mut Reader<'a>) -> Result<Option<ItemStart<'a>>, ReadFault>
    ensures read { IfOk result (BeginsItem reader.old reader.new) }
    ensures fault { IfErr result (IsRefused reader.old (an_item ∷ [])) }
{
    let token = reader.token()?;
    if token.quoted {
        if ends_with_backslash(token.text) {
            return Err(ReadFault::Expected(What::Key, token.line));
        }
        return Ok(Some(ItemStart::Key(token.text)));
    }
    if is_bracket(&token, b'{') {
        return Ok(Some(ItemStart::Brush));
    }
    if is_bracket(&token, b'}') {
        return Ok(None);
    }
    Err(ReadFault::Expected(What::Item, token.line))
}

// Reads the value behind a key.
fn read_value<'a>(reader: &mut Reader<'a>) -> Result<&'a [u8], ReadFault>
    ensures read { IfOk result (λ text. IsRead value_part (a_value ∷ []) [] reader.old reader.new text.now) }
    ensures fault { IfErr result (IsRefused reader.old (a_value ∷ [])) }
{
    let token = reader.token()?;
    if !token.quoted {
        return Err(ReadFault::Expected(What::Value, token.line));
    }
    Ok(token.text)
}

// Puts a property: in its key's place, or last where the key is new.
fn put<'a>(
    props: &mut Properties<'a>,
    key: &'a [u8],
    value: &'a [u8],
) -> Result<(), AllocFailed<(&'a [u8], &'a [u8])>>
    ensures { OnOk result (props.new.entries ≡ insert_entry same_bytes props.old.entries key.entry value.entry) }
{
    props.insert(key, value)?;
    Ok(())
}

// Copies of the properties that stand on their own.
fn copied(alloc: Global, props: &Properties<'_>) -> Result<Rows<(Text, Text)>, AllocError>
    ensures { IfOk result (λ copies. copies ≡ bytes_of_pairs props.now.entries) }
{
    let mut copies = Vec::with_capacity(alloc, props.len())?;
    'entries: while let Some((key, value)) = props.get_index(copies.len()) {
        copies.push((Text::of(alloc, *key)?, Text::of(alloc, *value)?))?;
    }
    Ok(Rows::of(copies))
}

/// Reads an entity behind its first bracket.
pub(crate) fn read_entity(alloc: Global, reader: &mut Reader<'_>) -> Result<RawEntity, ReadFault>
    ensures read { IfOk result (IsRead entity_part (an_item ∷ []) [] reader.old reader.new) }
    ensures fault { IfErr result (IsStopped reader.old (an_item ∷ [])) }
{
    let mut props: Properties<'_> = IndexMap::new(alloc);
    let mut brushes = Vec::new(alloc);
    'items: while let Some(item) = begins_item(reader)? {
        match item {
            ItemStart::Key(key) => {
                let value = read_value(reader)?;
                put(&mut props, key, value)?;
            }
            ItemStart::Brush => brushes.push(read_brush(alloc, reader)?)?,
        }
    }
    brushes.shrink_to_fit();
    Ok(RawEntity {
        props: copied(alloc, &props)?,
        brushes: Rows::of(brushes),
    })
}
