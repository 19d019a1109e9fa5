//! Readings that have a place in the tree.

ghost use Rattle.std.specs.Prelude.{◌≡◌, ◌<◌, length, cond, false, slice_index, slice_index_or, IfOk};
ghost use Rattle.file_laws.specs.Build.{place_of, first_parents, items};
ghost use Rattle.tree_file.specs.Passes.{InPlace, ring_flags};

use crate::reading::Reading;
use std::alloc::{AllocError, Global};
use std::marker::Model;

/// A reading that has its place in the tree: its parent's place.
#[derive(Drop)]
pub(crate) struct Item {
    reading: Reading,
    parent: u32,
}

impl Model for Item {
    ghost use Rattle.file_laws.specs.Build.{Item as PlainItem};

    ghost Value = { PlainItem };

    ghost view = { λ i. record { reading = i.reading; parent = i.parent } };
}

impl Item {
    /// A reading beneath the place of its parent.
    pub(crate) fn of(reading: Reading, parent: u32) -> Item
        ensures reading { result.reading ≡ reading }
        ensures parent { result.parent ≡ parent }
    {
        Item { reading, parent }
    }

    /// The place in the file.
    pub(crate) fn place(&self) -> u32
        ensures { result ≡ place_of self.now }
    {
        self.reading.place()
    }

    /// The place of its parent.
    pub(crate) fn parent(&self) -> u32
        ensures { result ≡ self.now.parent }
    {
        self.parent
    }

    /// What is read there.
    pub(crate) fn reading(&self) -> &Reading
        ensures { result.now ≡ self.now.reading }
    {
        &self.reading
    }

    /// What is read there, and the place of its parent.
    pub(crate) fn into_parts(self) -> (Reading, u32)
        ensures reading { result.0 ≡ self.reading }
        ensures parent { result.1 ≡ self.parent }
    {
        let Item { reading, parent } = self;
        (reading, parent)
    }
}

// The parent of a place. The first of a ring lies in the world.
fn parent_of(parents: &[u32], breaks: &[bool], place: u32) -> u32
    requires parents { place < length parents.now }
    requires breaks { place < length breaks.now }
    ensures { result ≡ cond (slice_index_or breaks.now place false) 0 (slice_index parents.now place) }
{
    if breaks[place as usize] {
        0
    } else {
        parents[place as usize]
    }
}

/// The readings with their parents, of which the first of each ring has none but the world.
pub(crate) fn items_of(
    alloc: Global,
    readings: Vec<Reading>,
    parents: &[u32],
    breaks: &[bool],
) -> Result<Vec<Item>, AllocError>
    requires in_place { InPlace readings.items }
    requires parents { parents.now ≡ first_parents readings.items }
    requires breaks { breaks.now ≡ ring_flags readings.items }
    ensures { IfOk result (λ placed. placed.items ≡ items readings.items) }
{
    let mut placed = Vec::with_capacity(alloc, readings.len())?;
    for reading in readings {
        let parent = parent_of(parents, breaks, reading.place());
        placed.push(Item::of(reading, parent))?;
    }
    Ok(placed)
}
