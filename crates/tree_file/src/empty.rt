//! Empty groups: a group with no child goes, also after others went.

ghost use Rattle.std.specs.Prelude.{◌≡◌, ◌<◌, ◌-◌, ◌^◌, ℕ, ◌&&◌, ◌==◌, not, length, map, filter, [], slice_index, slice_set, IfOk};
ghost use Rattle.algebra.specs.Members.{◌∈◌};
ghost use Rattle.map_model.specs.Tree.{among};
ghost use Rattle.file_laws.specs.Build.{place_of, is_empty_group, kept_items};
ghost use Rattle.tree_file.specs.Passes.{AreInPlace, AreWithin, ChildCounts, is_bare_group};

use crate::brushes::has_brush;
use crate::items::Item;
use std::alloc::{AllocError, Global};

// Whether it is a group with no brush.
fn is_bare_group(item: &Item) -> bool
    ensures { result ≡ is_bare_group item.now }
{
    item.reading().is_group() && !has_brush(item.reading().brushes())
}

// Counts the items that lie in each place.
fn add_children(items: &[Item], counts: &mut [u32])
    requires within { AreWithin (length items.now) items.now }
    requires few { length items.now < 2 ^ 32 }
    requires none { ChildCounts (length items.now) [] [] counts.old }
    ensures { ChildCounts (length items.now) items.now [] counts.new }
{
    for item in items {
        counts[item.parent() as usize] += 1;
    }
}

// How many items lie in each place.
fn count_children(alloc: Global, items: &[Item]) -> Result<Vec<u32>, AllocError>
    requires within { AreWithin (length items.now) items.now }
    requires few { length items.now < 2 ^ 32 }
    ensures { IfOk result (λ counts. ChildCounts (length items.now) items.now [] counts.items) }
{
    let mut counts = vec![in alloc; 0; items.len()]?;
    add_children(items, &mut counts);
    Ok(counts)
}

// Whether it is a group with no brush and, by the counts, with no item in it.
fn has_none_left(item: &Item, counts: &[u32]) -> bool
    requires here { place_of item.now < length counts.now }
    ensures { result ≡ (is_bare_group item.now && (slice_index counts.now (place_of item.now) == 0)) }
{
    is_bare_group(item) && counts[item.place() as usize] == 0
}

// The places of the groups that have no child at first.
fn first_empty(alloc: Global, items: &[Item], counts: &[u32]) -> Result<Vec<u32>, AllocError>
    requires places { AreInPlace items.now }
    requires counts { ChildCounts (length items.now) items.now [] counts.now }
    ensures { IfOk result (λ goes. goes.items ≡ map place_of (filter (is_empty_group items.now) items.now)) }
{
    let mut goes = Vec::new(alloc);
    for item in items {
        if has_none_left(item, counts) {
            goes.push(item.place())?;
        }
    }
    Ok(goes)
}

// Counts one item less in a place.
fn take_child(counts: &mut [u32], place: u32)
    requires here { place < length counts.old }
    requires some { 0 < slice_index counts.old place }
    ensures { counts.new ≡ slice_set counts.old place (slice_index counts.old place - 1) }
{
    counts[place as usize] -= 1;
}

/// The places of the groups that go, each behind those of its children.
pub(crate) fn empty_groups(alloc: Global, items: &[Item]) -> Result<Vec<u32>, AllocError>
    requires places { AreInPlace items.now }
    requires within { AreWithin (length items.now) items.now }
    requires few { length items.now < 2 ^ 32 }
    ensures within { IfOk result (λ goes. (p : ℕ) → p ∈ goes.items → p < length items.now) }
    ensures kept { IfOk result (λ goes. kept_items items.now ≡ filter (λ i. not (among (place_of i) goes.items)) items.now) }
{
    let mut counts = count_children(alloc, items)?;
    let mut goes = first_empty(alloc, items, &counts)?;
    let mut next = 0;
    while next < goes.len() {
        let parent = items[goes[next] as usize].parent();
        take_child(&mut counts, parent);
        if has_none_left(&items[parent as usize], &counts) {
            goes.push(parent)?;
        }
        next += 1;
    }
    Ok(goes)
}
