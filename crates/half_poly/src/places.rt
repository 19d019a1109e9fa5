//! The places of numbers in a list, by their slots.

ghost use Rattle.std.specs.Prelude.{◌≡◌, length, map, get_or, slice_set, IfOk};
ghost use Rattle.half_poly.specs.Places.{AreDistinct, AreWithin, ArePlaces};

use half_arena::SlotId;
use std::alloc::{AllocError, Global};

// Writes an entry of a table.
fn put_number(table: &mut [usize], place: usize, number: usize)
    ensures { table.new ≡ slice_set table.old place number }
{
    if place < table.len() {
        table[place] = number;
    }
}

// Writes the place of each number at its slot.
fn put_places<Id: SlotId>(ids: &[Id], table: &mut [usize])
    requires distinct { AreDistinct (map Id.place_of ids.now) }
    requires within { AreWithin (map Id.place_of ids.now) (length table.old) }
    ensures length { length table.new ≡ length table.old }
    ensures places { ArePlaces (map Id.place_of ids.now) table.new (length ids.now) }
{
    for place in 0..ids.len() {
        put_number(table, ids[place].place(), place);
    }
}

/// For each slot of a number in the list the place of that number.
pub(crate) fn places_of<Id: SlotId>(
    alloc: Global,
    ids: &[Id],
    limit: usize,
) -> Result<Vec<usize>, AllocError>
    requires distinct { AreDistinct (map Id.place_of ids.now) }
    requires within { AreWithin (map Id.place_of ids.now) limit }
    ensures { IfOk result (λ table. ArePlaces (map Id.place_of ids.now) table.items (length ids.now)) }
{
    let mut table = vec![in alloc; 0; limit]?;
    put_places(ids, &mut table);
    Ok(table)
}

/// The entry of a table, or 0 past its end.
pub(crate) fn number_at(numbers: &[usize], place: usize) -> usize
    ensures { result ≡ get_or numbers.now place 0 }
{
    match numbers.get(place) {
        Some(number) => *number,
        None => 0,
    }
}
