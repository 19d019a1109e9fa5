//! A node and all beneath it, in preorder.

ghost use Rattle.std.specs.Prelude.{◌≡◌, ◌++◌, IfOk, OnOk};
ghost use Rattle.map_model.specs.Tree.{children, preorder};
ghost use Rattle.tree_node.specs.Walk.{stacked};
ghost use Rattle.tree_node.specs.Held.{changed};

use crate::change::Change;
use crate::map::Map;
use map_nodes::NodeId;
use std::alloc::{AllocError, Global};

// A node that is still to be listed with all beneath it, at most so many levels deep.
#[derive(Clone, Copy, Debug)]
pub(crate) struct Waiting {
    pub(crate) id: NodeId,
    pub(crate) levels: u32,
}

impl Change {
    /// The number of a node and the numbers of all beneath it, with the change: a node stands before its children, and the
    /// brushes before the other children.
    pub fn preorder(&self, alloc: Global, map: &Map, id: NodeId) -> Result<Vec<NodeId>, AllocError>
        ensures { IfOk result (λ ids. ids.items ≡ preorder (changed map.now self.now) id) }
    {
        let mut found = Vec::new(alloc);
        let mut waiting = Vec::new(alloc);
        waiting.push(Waiting {
            id,
            levels: self.next,
        })?;
        while let Some(top) = waiting.pop() {
            if top.levels > 0 {
                found.push(top.id)?;
                self.push_children(map, top.id, top.levels - 1, &mut waiting)?;
            }
        }
        Ok(found)
    }

    // Puts the children of a node onto the stack, the first on top.
    fn push_children(
        &self,
        map: &Map,
        id: NodeId,
        levels: u32,
        waiting: &mut Vec<Waiting>,
    ) -> Result<(), AllocError>
        ensures { OnOk result (waiting.new.items ≡ waiting.old.items ++ stacked levels (children (changed map.now self.now) id)) }
    {
        match self.view(map, id) {
            None => Ok(()),
            Some(node) => {
                push_last_first(waiting, node.list(false), levels)?;
                push_last_first(waiting, node.list(true), levels)?;
                Ok(())
            }
        }
    }
}

// Puts numbers onto the stack, the first on top.
fn push_last_first(
    waiting: &mut Vec<Waiting>,
    ids: &[NodeId],
    levels: u32,
) -> Result<(), AllocError>
    ensures { OnOk result (waiting.new.items ≡ waiting.old.items ++ stacked levels ids.now) }
{
    let mut left = ids.len();
    while left > 0 {
        left -= 1;
        waiting.push(Waiting {
            id: ids[left],
            levels,
        })?;
    }
    Ok(())
}
