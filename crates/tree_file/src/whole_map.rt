//! The map of slots: an empty map, and one change.

ghost use Rattle.std.specs.Prelude.{◌≡◌, ℕ, ◌≤◌, length, slice_index_or, IfOk, OnOk};
ghost use Rattle.map_model.specs.Tree.{Whole, whole, at};
ghost use Rattle.map_model.specs.Edits.{swap};
ghost use Rattle.file_laws.specs.Build.{map_of};
ghost use Rattle.tree_node.specs.Held.{IsMap};

use map_nodes::{Node, NodeId};
use std::alloc::{AllocError, Global};
use tree_node::{Change, Map};
use uv_lock::Format;

// Puts what stands in the slots at their numbers.
fn put_all(change: &mut Change, slots: Vec<Option<Node>>) -> Result<(), AllocError>
    requires few { length slots.items ≤ 65536 }
    ensures put { OnOk result ((m : Whole) (q : ℕ) → at (swap m change.new) q ≡ slice_index_or slots.items q (at (swap m change.old) q)) }
    ensures next { OnOk result (change.new.next ≡ change.old.next) }
{
    let mut number: u32 = 0;
    for slot in slots {
        change.put(NodeId(number), slot)?;
        number += 1;
    }
    Ok(())
}

// Draws numbers, until so many are drawn.
fn draw_until(change: &mut Change, count: usize)
    requires one { change.old.next ≡ 1 }
    requires some { 1 ≤ count }
    requires few { count ≤ 65536 }
    ensures { change.new ≡ record change.old { next = count } }
{
    for number in 1..count {
        change.draw();
    }
}

/// The map of slots.
pub(crate) fn map_of_slots(alloc: Global, slots: Vec<Option<Node>>) -> Result<Map, AllocError>
    requires sound { IsMap (map_of slots.items) }
    requires few { length slots.items ≤ 65536 }
    ensures { IfOk result (λ map. whole map ≡ map_of slots.items) }
{
    let count = slots.len();
    let mut map = Map::empty(alloc, Format::Standard)?;
    let mut change = Change::new(alloc, &map);
    put_all(&mut change, slots)?;
    draw_until(&mut change, count);
    map.reserve(&change)?;
    map.swap(&mut change);
    Ok(map)
}
