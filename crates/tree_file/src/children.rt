//! The children of each place, but for its brushes.

ghost use Rattle.std.specs.Prelude.{◌≡◌, ◌<◌, [], ◌∷◌, ◌++◌, length, replicate, slice_index_or, slice_set, IfOk, OnOk};
ghost use Rattle.tree_file.specs.Passes.{AreWithin, Children, Numbers};

use crate::items::Item;
use exact_geom::Rows;
use map_nodes::NodeId;
use std::alloc::{AllocError, Global};
use std::mem;

/// Takes the list of a place out, and leaves an empty one.
pub(crate) fn take_list(alloc: Global, lists: &mut [Rows<NodeId>], place: usize) -> Rows<NodeId>
    requires here { place < length lists.old }
    ensures taken { result ≡ slice_index_or lists.old place [] }
    ensures left { lists.new ≡ slice_set lists.old place [] }
{
    mem::replace(&mut lists[place], Rows::of(Vec::new(alloc)))
}

// Adds a child at the end of the list of its parent's place.
fn add_child(
    alloc: Global,
    lists: &mut [Rows<NodeId>],
    parent: usize,
    child: NodeId,
) -> Result<(), AllocError>
    requires here { parent < length lists.old }
    ensures { OnOk result (lists.new ≡ slice_set lists.old parent (slice_index_or lists.old parent [] ++ child ∷ [])) }
{
    let mut list = take_list(alloc, lists, parent).into_vec();
    list.push(child)?;
    lists[parent] = Rows::of(list);
    Ok(())
}

// Adds each item but the world to the list of its parent.
fn add_children(
    alloc: Global,
    kept: &[Item],
    numbers: &[u32],
    lists: &mut [Rows<NodeId>],
) -> Result<(), AllocError>
    requires within { AreWithin (length lists.old) kept.now }
    requires numbers { Numbers (length lists.old) kept.now numbers.now }
    requires empty { Children (length lists.old) kept.now [] lists.old }
    ensures { OnOk result (Children (length lists.old) kept.now kept.now lists.new) }
{
    for item in kept {
        let place = item.place() as usize;
        if place > 0 {
            let child = NodeId(numbers[place]);
            add_child(alloc, lists, item.parent() as usize, child)?;
        }
    }
    Ok(())
}

// So many empty lists.
fn empty_lists(alloc: Global, places: usize) -> Result<Vec<Rows<NodeId>>, AllocError>
    ensures { IfOk result (λ lists. lists.items ≡ replicate places []) }
{
    let mut lists = Vec::with_capacity(alloc, places)?;
    for _place in 0..places {
        lists.push(Rows::of(Vec::new(alloc)))?;
    }
    Ok(lists)
}

/// For each place the numbers of the items that lie there, in the order of the file.
pub(crate) fn children(
    alloc: Global,
    places: usize,
    kept: &[Item],
    numbers: &[u32],
) -> Result<Vec<Rows<NodeId>>, AllocError>
    requires within { AreWithin places kept.now }
    requires numbers { Numbers places kept.now numbers.now }
    ensures { IfOk result (λ lists. Children places kept.now kept.now lists.items) }
{
    let mut lists = empty_lists(alloc, places)?;
    add_children(alloc, kept, numbers, &mut lists)?;
    Ok(lists)
}
