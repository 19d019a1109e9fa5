//! Copies of nodes with all beneath them. After an error the change may be partly filled; its owner then drops it.

ghost use Rattle.std.specs.Prelude.{◌≡◌, ℕ, ◌+◌, ◌≤◌, length, IfOk, OnOk};
ghost use Rattle.map_nodes.specs.Nodes.{number_in};
ghost use Rattle.map_model.specs.Edits.{put_in, renumbered, numbered_from};
ghost use Rattle.tree_node.specs.Drawn.{draw_copies};
ghost use Rattle.tree_node.specs.Held.{changed};

use crate::change::Change;
use crate::map::Map;
use map_nodes::{Node, NodeId};
use std::alloc::{AllocError, Global};
use std::collections::HashMap;

impl Change {
    /// New nodes for old ones that stand beneath the first of them: each gets the next number, in order, and names the new
    /// numbers in the place of the old ones. The first goes to the end of a place.
    pub fn put_copies(
        &mut self,
        alloc: Global,
        map: &Map,
        place: NodeId,
        ids: &[NodeId],
        nodes: Vec<Node>,
    ) -> Result<(), AllocError>
        requires same { length ids.now ≡ length nodes.items }
        requires room { self.old.next + length ids.now ≤ 65536 }
        ensures { OnOk result (changed map.now self.new ≡ put_in place self.old.next (draw_copies ids.now nodes.items (changed map.now self.old))) }
    {
        let first = self.next;
        let table = new_numbers(alloc, ids, first)?;
        for mut node in nodes {
            node.renumber(alloc, &table)?;
            self.draw_node(node)?;
        }
        self.put_in(alloc, map, place, NodeId(first))?;
        Ok(())
    }
}

// The table that has for each of the numbers, in order, its own number from the first on.
fn new_numbers(alloc: Global, ids: &[NodeId], first: u32) -> Result<HashMap<u32, u32>, AllocError>
    requires room { first + length ids.now ≤ 65536 }
    ensures { IfOk result (λ table. (q : ℕ) → number_in table q ≡ renumbered (numbered_from first ids.now) q) }
{
    let mut table = HashMap::new(alloc);
    let mut left = ids.len();
    while left > 0 {
        left -= 1;
        match table.insert(ids[left].number(), first + left as u32) {
            Ok(_) => {}
            Err(_) => return Err(AllocError),
        }
    }
    Ok(table)
}
