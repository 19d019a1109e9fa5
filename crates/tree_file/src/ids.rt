//! The ids of layers and groups: they count from 1, in the order of the file.

ghost use Rattle.std.specs.Prelude.{◌≡◌, ◌<◌, ◌^◌, length, IfOk};
ghost use Rattle.tree_file.specs.Ids.{Counts, id_in};

use map_nodes::NodeId;
use std::alloc::{AllocError, Global};
use std::collections::HashMap;

/// The place of each number of a list in it, from 1.
#[derive(Drop)]
pub(crate) struct Ids {
    table: HashMap<u32, u32>,
    // The place behind the last, which each other number has.
    past: u32,
}

impl Ids {
    /// The table of a list.
    pub(crate) fn of(alloc: Global, named: &[NodeId]) -> Result<Ids, AllocError>
        requires few { length named.now < 2 ^ 31 }
        ensures { IfOk result (Counts named.now) }
    {
        let mut table = HashMap::new(alloc);
        let mut left = named.len();
        while left > 0 {
            match table.insert(named[left - 1].number(), left as u32) {
                Ok(_) => {}
                Err(_) => return Err(AllocError),
            }
            left -= 1;
        }
        Ok(Ids {
            table,
            past: named.len() as u32 + 1,
        })
    }

    /// The id of a node.
    pub(crate) fn id(&self, node: NodeId) -> u32
        ensures { result ≡ id_in self.now node }
    {
        match self.table.get(&node.number()) {
            Some(id) => *id,
            None => self.past,
        }
    }
}
