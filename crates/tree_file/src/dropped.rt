//! Items without the empty groups among them.

ghost use Rattle.std.specs.Prelude.{◌≡◌, ◌<◌, ◌^◌, ◌++◌, ◌∷◌, ℕ, cond, length, map, [], IfOk, OnOk};
ghost use Rattle.algebra.specs.Members.{◌∈◌};
ghost use Rattle.file_laws.specs.Build.{is_dropped, kept_items};
ghost use Rattle.tree_file.specs.Passes.{AreInPlace, AreWithin, Tells, empty_notes};

use crate::empty::empty_groups;
use crate::items::Item;
use map_report::Note;
use std::alloc::{AllocError, Global};

// Raises the flag of each of the places.
fn raise_flags(places: &[u32], flags: &mut [bool])
    requires within { (p : ℕ) → p ∈ places.now → p < length flags.old }
    requires none { Tells (length flags.old) [] flags.old }
    ensures { Tells (length flags.old) places.now flags.new }
{
    for place in places {
        flags[*place as usize] = true;
    }
}

// A flag for each place below a count: it is up at the places of the list.
fn flags_of(alloc: Global, count: usize, places: &[u32]) -> Result<Vec<bool>, AllocError>
    requires within { (p : ℕ) → p ∈ places.now → p < count }
    ensures { IfOk result (λ flags. Tells count places.now flags.items) }
{
    let mut flags = vec![in alloc; false; count]?;
    raise_flags(places, &mut flags);
    Ok(flags)
}

// Whether each item is an empty group.
fn dropped(alloc: Global, items: &[Item]) -> Result<Vec<bool>, AllocError>
    requires places { AreInPlace items.now }
    requires within { AreWithin (length items.now) items.now }
    requires few { length items.now < 2 ^ 32 }
    ensures { IfOk result (λ drops. drops.items ≡ map (is_dropped (kept_items items.now)) items.now) }
{
    let goes = empty_groups(alloc, items)?;
    let drops = flags_of(alloc, items.len(), &goes)?;
    Ok(drops)
}

// Notes each item that is dropped.
fn note_dropped(items: &[Item], drops: &[bool], notes: &mut Vec<Note>) -> Result<(), AllocError>
    requires places { AreInPlace items.now }
    requires drops { drops.now ≡ map (is_dropped (kept_items items.now)) items.now }
    ensures { OnOk result (notes.new.items ≡ notes.old.items ++ empty_notes items.now) }
{
    for item in items {
        if drops[item.place() as usize] {
            notes.push(Note::Empty(item.place()))?;
        }
    }
    Ok(())
}

// Puts an item behind others, unless it is skipped.
fn push_unless(kept: &mut Vec<Item>, item: Item, skip: bool) -> Result<(), AllocError>
    ensures { OnOk result (kept.new.items ≡ cond skip kept.old.items (kept.old.items ++ item ∷ [])) }
{
    if skip {
        return Ok(());
    }
    kept.push(item)?;
    Ok(())
}

// The items that aren't dropped.
fn not_dropped(alloc: Global, items: Vec<Item>, drops: &[bool]) -> Result<Vec<Item>, AllocError>
    requires places { AreInPlace items.items }
    requires drops { drops.now ≡ map (is_dropped (kept_items items.items)) items.items }
    ensures { IfOk result (λ kept. kept.items ≡ kept_items items.items) }
{
    let mut kept = Vec::new(alloc);
    for item in items {
        let skip = drops[item.place() as usize];
        push_unless(&mut kept, item, skip)?;
    }
    Ok(kept)
}

/// The items without those that are empty groups, each of which is noted.
pub(crate) fn drop_empty(
    alloc: Global,
    items: Vec<Item>,
    notes: &mut Vec<Note>,
) -> Result<Vec<Item>, AllocError>
    requires places { AreInPlace items.items }
    requires within { AreWithin (length items.items) items.items }
    requires few { length items.items < 2 ^ 32 }
    ensures items { IfOk result (λ kept. kept.items ≡ kept_items items.items) }
    ensures notes { OnOk result (notes.new.items ≡ notes.old.items ++ empty_notes items.items) }
{
    let drops = dropped(alloc, &items)?;
    note_dropped(&items, &drops, notes)?;
    let kept = not_dropped(alloc, items, &drops)?;
    Ok(kept)
}
