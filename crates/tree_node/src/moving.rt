//! Edits of nodes with all beneath them. After an error the change may be partly filled; its owner then drops it.

ghost use Rattle.std.specs.Prelude.{◌≡◌, OnOk};
ghost use Rattle.map_model.specs.Edits.{delete, move_all};
ghost use Rattle.tree_node.specs.Held.{changed};

use crate::change::Change;
use crate::map::Map;
use map_nodes::NodeId;
use std::alloc::{AllocError, Global};

impl Change {
    /// Deletes a node with all beneath it.
    pub fn delete(&mut self, alloc: Global, map: &Map, id: NodeId) -> Result<(), AllocError>
        ensures { OnOk result (changed map.now self.new ≡ delete id (changed map.now self.old)) }
    {
        let gone = self.preorder(alloc, map, id)?;
        self.take_out(alloc, map, id)?;
        self.forget(&gone)?;
        Ok(())
    }

    /// Moves nodes to the end of a place, one after another.
    pub fn move_all(
        &mut self,
        alloc: Global,
        map: &Map,
        place: NodeId,
        ids: &[NodeId],
    ) -> Result<(), AllocError>
        ensures { OnOk result (changed map.now self.new ≡ move_all place ids.now (changed map.now self.old)) }
    {
        for id in ids {
            self.take_out(alloc, map, *id)?;
            self.put_in(alloc, map, place, *id)?;
        }
        Ok(())
    }
}
