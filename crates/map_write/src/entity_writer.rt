//! Writes entities: their properties and brushes.

ghost use Rattle.std.specs.Prelude.{◌≡◌, ◌++◌, [], ◌∷◌, OnOk, map};
ghost use Rattle.std.specs.List.{flat_map, enumerate_from};
ghost use Rattle.map_lex.specs.LineTexts.{text_of};
ghost use Rattle.map_write.specs.Written.{brush_lines, entity_lines, kept, property_line};

use crate::brush_writer::write_brush;
use crate::numbers::write_heading;
use fixed_num::Text;
use map_text::{RawBrush, RawEntity};
use std::alloc::AllocError;

fn write_property(text: &mut Vec<u8>, key: &[u8], value: &[u8]) -> Result<(), AllocError>
    ensures { OnOk result (text.new.items ≡ text.old.items ++ (property_line (key.now, value.now) ++ 10 ∷ [])) }
{
    text.push(b'"')?;
    text.extend_from_slice(key)?;
    text.extend_from_slice(b"\" \"")?;
    text.extend_from_slice(value)?;
    text.extend_from_slice(b"\"\n")?;
    Ok(())
}

fn write_properties(text: &mut Vec<u8>, props: &[(Text, Text)]) -> Result<(), AllocError>
    ensures { OnOk result (text.new.items ≡ text.old.items ++ text_of (map property_line props.now)) }
{
    for property in props {
        write_property(text, property.0.bytes(), property.1.bytes())?;
    }
    Ok(())
}

fn write_brushes(text: &mut Vec<u8>, brushes: &[RawBrush]) -> Result<(), AllocError>
    ensures { OnOk result (text.new.items
        ≡ text.old.items ++ text_of (flat_map (λ (k, b). brush_lines kept k b) (enumerate_from 0 brushes.now))) }
{
    for (number, brush) in brushes.iter().enumerate() {
        write_brush(text, number, brush)?;
    }
    Ok(())
}

/// Appends an entity with its number, in lines that are each ended by a line feed.
pub(crate) fn write_entity(
    text: &mut Vec<u8>,
    number: usize,
    entity: &RawEntity,
) -> Result<(), AllocError>
    ensures { OnOk result (text.new.items ≡ text.old.items ++ text_of (entity_lines kept number entity.now)) }
{
    write_heading(text, b"// entity ", number)?;
    write_properties(text, entity.props.list())?;
    write_brushes(text, entity.brushes.list())?;
    text.extend_from_slice(b"}\n")?;
    Ok(())
}
