//! The slots of the map: each kept item with its brushes behind it, in the order of the file.

ghost use Rattle.std.specs.Prelude.{◌≡◌, ◌<◌, ◌^◌, length, IfOk};
ghost use Rattle.file_laws.specs.Build.{slots};
ghost use Rattle.tree_file.specs.Passes.{AreWithin, PlacesRise, room};

use crate::children::{children, take_list};
use crate::items::Item;
use crate::numbering::{numbers, size};
use crate::placing::push_place;
use map_nodes::Node;
use std::alloc::{AllocError, Global};

/// How many slots the map has.
pub(crate) fn slot_count(kept: &[Item]) -> u64
    requires few { room kept.now < 2 ^ 32 }
    ensures { result ≡ length (slots kept.now) }
{
    let mut count: u64 = 0;
    for item in kept {
        count += size(item);
    }
    count
}

/// The slots of the map: for each kept item, in file order, its node and then its brushes.
pub(crate) fn slots(
    alloc: Global,
    places: usize,
    kept: Vec<Item>,
) -> Result<Vec<Option<Node>>, AllocError>
    requires within { AreWithin places kept.items }
    requires rising { PlacesRise 0 kept.items }
    requires few { room kept.items < 2 ^ 32 }
    requires places { places < 2 ^ 32 }
    ensures { IfOk result (λ s. s.items ≡ slots kept.items) }
{
    let total = slot_count(&kept);
    let numbers = numbers(alloc, places, &kept, total as u32)?;
    let mut lists = children(alloc, places, &kept, &numbers)?;
    let mut slots = Vec::with_capacity(alloc, total as usize)?;
    for item in kept {
        let place = item.place() as usize;
        let (reading, parent) = item.into_parts();
        let others = take_list(alloc, &mut lists, place);
        push_place(
            alloc,
            &mut slots,
            numbers[place],
            numbers[parent as usize],
            others,
            reading,
        )?;
    }
    Ok(slots)
}
