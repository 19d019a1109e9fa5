//! The brushes of a file that are none of a map.

ghost use Rattle.std.specs.Prelude.{◌≡◌, ◌++◌, length, flat_map, nat_lt, OnOk};
ghost use Rattle.file_laws.specs.Build.{brush_note, brush_notes};
ghost use Rattle.tree_file.specs.Passes.{bodies_of};

use crate::reading::Reading;
use map_nodes::Body;
use map_report::Note;
use map_text::Reason;
use std::alloc::AllocError;

/// Whether some of the brushes are brushes of a map.
pub(crate) fn has_brush(brushes: &[Result<Body, Reason>]) -> bool
    ensures { result ≡ nat_lt 0 (length (bodies_of brushes.now)) }
{
    for brush in brushes {
        if brush.is_ok() {
            return true;
        }
    }
    false
}

// Notes a brush that is none of a map.
fn note_brush(
    entity: u32,
    brush: u32,
    outcome: &Result<Body, Reason>,
    notes: &mut Vec<Note>,
) -> Result<(), AllocError>
    ensures { OnOk result (notes.new.items ≡ notes.old.items ++ brush_note entity brush outcome.now) }
{
    match outcome {
        Ok(_) => Ok(()),
        Err(reason) => {
            notes.push(Note::Brush {
                entity,
                brush,
                reason: *reason,
            })?;
            Ok(())
        }
    }
}

// Notes each brush of an entity that is none of a map. Where an entity has as many as 2^32, memory is wanting.
fn note_brushes_of(reading: &Reading, notes: &mut Vec<Note>) -> Result<(), AllocError>
    ensures { OnOk result (notes.new.items ≡ notes.old.items ++ brush_notes reading.now) }
{
    let mut brush: u32 = 0;
    for outcome in reading.brushes() {
        note_brush(reading.place(), brush, outcome, notes)?;
        brush = brush.checked_add(1).ok_or(AllocError)?;
    }
    Ok(())
}

/// Notes each brush that is none of a map.
pub(crate) fn note_brushes(readings: &[Reading], notes: &mut Vec<Note>) -> Result<(), AllocError>
    ensures { OnOk result (notes.new.items ≡ notes.old.items ++ flat_map brush_notes readings.now) }
{
    for reading in readings {
        note_brushes_of(reading, notes)?;
    }
    Ok(())
}
