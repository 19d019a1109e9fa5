//! Other numbers in the place of those that nodes name.

ghost use Rattle.std.specs.Prelude.{◌≡◌, map, IfOk, OnOk, OnErr};
ghost use Rattle.map_nodes.specs.Nodes.{renumber, number_in};

use crate::node::Node;
use crate::node_id::NodeId;
use exact_geom::Rows;
use std::alloc::{AllocError, Global};
use std::collections::HashMap;

// The number that a number has in the table. One that isn't there stays.
fn new_number(table: &HashMap<u32, u32>, id: NodeId) -> NodeId
    ensures { result ≡ number_in table.now id }
{
    match table.get(&id.number()) {
        Some(new) => NodeId(*new),
        None => id,
    }
}

// The list with other numbers.
fn renumbered(
    alloc: Global,
    list: &[NodeId],
    table: &HashMap<u32, u32>,
) -> Result<Rows<NodeId>, AllocError>
    ensures { IfOk result (λ new. new ≡ map (number_in table.now) list.now) }
{
    let mut new = Vec::with_capacity(alloc, list.len())?;
    for id in list {
        new.push(new_number(table, *id))?;
    }
    Ok(Rows::of(new))
}

impl Node {
    /// Puts the numbers of the table in the place of those of the parent and of the children. After an error the node is as
    /// before.
    pub fn renumber(&mut self, alloc: Global, table: &HashMap<u32, u32>) -> Result<(), AllocError>
        ensures ok { OnOk result (self.new ≡ renumber (number_in table.now) self.old) }
        ensures err { OnErr result (self.new ≡ self.old) }
    {
        let brushes = renumbered(alloc, self.list(true), table)?;
        let others = renumbered(alloc, self.list(false), table)?;
        self.put_list(true, brushes);
        self.put_list(false, others);
        match self.parent() {
            Some(place) => self.set_parent(new_number(table, place)),
            None => {}
        }
        Ok(())
    }
}
