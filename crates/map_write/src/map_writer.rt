//! Writes the text of a whole document.

ghost use Rattle.std.specs.Prelude.{◌≡◌, IfOk, IsTrue};
ghost use Rattle.std.specs.List.{list_all};
ghost use Rattle.map_text.specs.Reads.{Reads};
ghost use Rattle.map_text.specs.Spelled.{all_good, is_good, is_savable};
ghost use Rattle.map_write.specs.Written.{written_text};

use crate::entity_writer::write_entity;
use map_text::{MapDoc, RawBrush, RawEntity};
use std::alloc::{AllocError, Global};

fn is_good(brush: &RawBrush) -> bool
    ensures { result ≡ is_good brush.now }
{
    matches!(brush, RawBrush::Faces(_))
}

fn are_good(entity: &RawEntity) -> bool
    ensures { result ≡ list_all is_good entity.now.brushes }
{
    entity.brushes.list().iter().all(|brush| is_good(brush))
}

/// Whether no brush of the document is bad, so that it can be written.
pub fn all_good(doc: &MapDoc) -> bool
    ensures { result ≡ all_good doc.now }
{
    doc.entities.list().iter().all(|entity| are_good(entity))
}

/// The text that a document is saved as: its entities in order, each under a comment with its number from 0 and in
/// braces. An entity is its properties, one a line, and then its brushes, each under a comment with its number from 0
/// in the entity, and in braces its faces, one a line. Numbers stand in their shortest decimals; a material is quoted
/// where it is empty, has a blank or begins as a comment does. No brush may be bad. An error only where there is no memory
/// for the text.
pub fn write_map(alloc: Global, doc: &MapDoc) -> Result<Vec<u8>, AllocError>
    requires good { IsTrue (all_good doc.now) }
    ensures text { IfOk result (λ bytes. bytes.items ≡ written_text doc.now) }
    ensures again { IfOk result (λ bytes. IsTrue (is_savable doc.now) → Reads bytes.items doc.now) }
{
    let mut text = Vec::new(alloc);
    let entities = doc.entities.list();
    for (number, entity) in entities.iter().enumerate() {
        write_entity(&mut text, number, entity)?;
    }
    Ok(text)
}
