//! The numbers that the kept items draw, in the order of the file.

ghost use Rattle.std.specs.Prelude.{◌≡◌, ◌≤◌, ◌<◌, ◌^◌, length, replicate, IfOk};
ghost use Rattle.file_laws.specs.Build.{size, slots};
ghost use Rattle.tree_file.specs.Passes.{AreWithin, Numbers, PlacesRise, bodies_of, room};

use crate::items::Item;
use map_nodes::Body;
use map_text::Reason;
use std::alloc::{AllocError, Global};

/// How many of a file's brushes are brushes of a map.
pub(crate) fn body_count(brushes: &[Result<Body, Reason>]) -> usize
    ensures count { result ≡ length (bodies_of brushes.now) }
    ensures most { result ≤ length brushes.now }
{
    let mut count: usize = 0;
    for brush in brushes {
        if brush.is_ok() {
            count += 1;
        }
    }
    count
}

/// How many slots an item takes: one for its node, and one for each of its brushes.
pub(crate) fn size(item: &Item) -> u64
    requires few { length item.now.reading.brushes < 2 ^ 32 }
    ensures { result ≡ size item.now }
{
    body_count(item.reading().brushes()) as u64 + 1
}

// Writes the number of each item at its place.
fn put_numbers(kept: &[Item], numbers: &mut [u32])
    requires within { AreWithin (length numbers.old) kept.now }
    requires rising { PlacesRise 0 kept.now }
    requires few { room kept.now < 2 ^ 32 }
    requires blank { numbers.old ≡ replicate (length numbers.old) (length (slots kept.now)) }
    ensures { Numbers (length numbers.old) kept.now numbers.new }
{
    let mut next: u32 = 0;
    for item in kept {
        numbers[item.place() as usize] = next;
        next += size(item) as u32;
    }
}

/// For each place the number of the item there. A place without one has the count of all slots.
pub(crate) fn numbers(
    alloc: Global,
    places: usize,
    kept: &[Item],
    total: u32,
) -> Result<Vec<u32>, AllocError>
    requires within { AreWithin places kept.now }
    requires rising { PlacesRise 0 kept.now }
    requires few { room kept.now < 2 ^ 32 }
    requires all { total ≡ length (slots kept.now) }
    ensures { IfOk result (λ numbers. Numbers places kept.now numbers.items) }
{
    let mut numbers = vec![in alloc; total; places]?;
    put_numbers(kept, &mut numbers);
    Ok(numbers)
}
