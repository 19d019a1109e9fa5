//! From the readings of a document to the items that stay.

ghost use Rattle.std.specs.Prelude.{◌≡◌, ◌<◌, ◌-◌, ◌^◌, ◌++◌, length, IfOk, OnOk};
ghost use Rattle.file_laws.specs.Build.{items, kept_items, notes};
ghost use Rattle.tree_file.specs.Passes.{InPlace, AreWithin, PlacesRise, id_notes, parent_notes};

use crate::brushes::note_brushes;
use crate::dropped::drop_empty;
use crate::items::{Item, items_of};
use crate::parents::{first_parents, note_ids, note_parents, places_of_ids};
use crate::reading::Reading;
use crate::rings::first_of_rings;
use map_report::Note;
use std::alloc::{AllocError, Global};

/// What stays of a document's readings, with the notes on the rest.
#[derive(Drop)]
pub(crate) struct Kept {
    pub(crate) items: Vec<Item>,
    pub(crate) notes: Vec<Note>,
}

// The readings with their parents. What nothing can name is noted, and then what lies in the world for want of a parent.
fn place_readings(
    alloc: Global,
    readings: Vec<Reading>,
    notes: &mut Vec<Note>,
) -> Result<Vec<Item>, AllocError>
    requires in_place { InPlace readings.items }
    requires few { length readings.items < 2 ^ 32 }
    ensures items { IfOk result (λ placed. placed.items ≡ items readings.items) }
    ensures notes { OnOk result (notes.new.items ≡ (notes.old.items ++ id_notes readings.items) ++ parent_notes readings.items) }
{
    let table = places_of_ids(alloc, &readings)?;
    note_ids(&table, &readings, notes)?;
    let parents = first_parents(alloc, &table, &readings)?;
    let breaks = first_of_rings(alloc, &parents)?;
    note_parents(&table, &readings, &breaks, notes)?;
    let placed = items_of(alloc, readings, &parents, &breaks)?;
    Ok(placed)
}

/// The items that stay of a document's readings, with all notes but those on links. There is an error for want of memory,
/// or where an entity has as many as 2^32 brushes.
pub(crate) fn keep(alloc: Global, readings: Vec<Reading>) -> Result<Kept, AllocError>
    requires in_place { InPlace readings.items }
    requires few { length readings.items < 2 ^ 32 - 1 }
    ensures items { IfOk result (λ k. k.items.items ≡ kept_items (items readings.items)) }
    ensures notes { IfOk result (λ k. k.notes.items ≡ notes readings.items (items readings.items) (kept_items (items readings.items))) }
    ensures within { IfOk result (λ k. AreWithin (length readings.items) k.items.items) }
    ensures rising { IfOk result (λ k. PlacesRise 0 k.items.items) }
{
    let mut notes = Vec::new(alloc);
    note_brushes(&readings, &mut notes)?;
    let placed = place_readings(alloc, readings, &mut notes)?;
    let items = drop_empty(alloc, placed, &mut notes)?;
    Ok(Kept { items, notes })
}
