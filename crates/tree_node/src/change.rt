//! Changes of maps.

ghost use Rattle.std.specs.Prelude.{◌≡◌, ℕ, ◌+◌, ◌<◌, ◌^◌, nat_lt, cond, Ok, Err, [], option_copied, IfOk, OnOk, OnErr};
ghost use Rattle.map_model.specs.Tree.{Whole, at, up, is_brush};
ghost use Rattle.map_model.specs.Edits.{Apart, swap, set};
ghost use Rattle.tree_node.specs.Held.{changed, total_drawn, AllBelow};

use crate::map::Map;
use crate::place::{place_of, put_entry};
use map_nodes::{Entry, Node, NodeId};
use std::alloc::{AllocError, Global};
use std::marker::Model;

/// More numbers would be drawn than the 65,535 that there are: this many in all.
#[derive(Clone, Copy, Debug, PartialEq, Eq)]
pub struct Full(pub u64);

/// The nodes that differ from those of a map, by rising number, and the next number.
#[derive(Drop)]
pub struct Change {
    pub(crate) entries: Vec<Entry>,
    pub(crate) next: u32,
}

impl Model for Change {
    ghost use Rattle.map_model.specs.Edits.{Changes};

    ghost Value = { Changes };

    ghost use Rattle.tree_node.specs.Held.{Rising};

    ghost view = { λ c. record { entries = c.entries.items; next = c.next } };

    ghost invariant = { λ c. Rising c.entries.items };
}

impl Change {
    /// The change that changes nothing. It takes no memory.
    pub fn new(alloc: Global, map: &Map) -> Change
        ensures { result ≡ record { entries = []; next = map.now.next } }
    {
        Change {
            entries: Vec::new(alloc),
            next: map.next(),
        }
    }

    /// No two entries have one number.
    pub fn are_apart(&self)
        ensures { Apart self.now.entries }
    {
        let _entries = &self.entries;
    }

    /// A node as it is with the change. `None` exactly where there is no such node then.
    pub fn view<'a>(&'a self, map: &'a Map, id: NodeId) -> Option<&'a Node>
        ensures { option_copied result ≡ at (changed map.now self.now) id }
    {
        match place_of(&self.entries, id) {
            Ok(k) => self.entries[k].node.as_ref(),
            Err(_) => map.get(id),
        }
    }

    /// Puts a node, or none, in place of what has this number. After an error the change is as before.
    pub fn put(&mut self, id: NodeId, node: Option<Node>) -> Result<(), AllocError>
        ensures ok { OnOk result ((m : Whole) → swap m self.new ≡ set (swap m self.old) id node) }
        ensures next { self.new.next ≡ self.old.next }
        ensures err { OnErr result (self.new ≡ self.old) }
    {
        put_entry(&mut self.entries, id, node)?;
        Ok(())
    }

    /// Whether so many numbers are left: an error exactly where more than 65,535 would be drawn in all.
    pub fn room(&self, n: u64) -> Result<(), Full>
        requires { n < 2 ^ 63 }
        ensures { result ≡ cond (nat_lt 65535 (total_drawn self.now n)) (Err (record { 0 = total_drawn self.now n })) (Ok tt) }
    {
        let total = u64::from(self.next).saturating_sub(1) + n;
        if total > 65535 {
            Err(Full(total))
        } else {
            Ok(())
        }
    }

    /// Draws the next number. It takes no memory.
    pub fn draw(&mut self) -> NodeId
        requires { self.old.next < 65536 }
        ensures number { result ≡ self.old.next }
        ensures next { self.new ≡ record self.old { next = self.old.next + 1 } }
    {
        let id = self.next;
        self.next += 1;
        NodeId(id)
    }

    /// A copy of a node as it is with the change.
    pub(crate) fn copy_of(
        &self,
        alloc: Global,
        map: &Map,
        id: NodeId,
    ) -> Result<Option<Node>, AllocError>
        ensures { IfOk result (λ r. r ≡ at (changed map.now self.now) id) }
    {
        match self.view(map, id) {
            Some(node) => Ok(Some(node.copy(alloc)?)),
            None => Ok(None),
        }
    }

    /// Whether a brush has this number, with the change.
    pub fn is_brush(&self, map: &Map, id: NodeId) -> bool
        ensures { result ≡ is_brush (changed map.now self.now) id }
    {
        match self.view(map, id) {
            Some(node) => node.is_brush(),
            None => false,
        }
    }

    /// The number of the node above, with the change.
    pub fn parent(&self, map: &Map, id: NodeId) -> Option<NodeId>
        ensures { result ≡ up (changed map.now self.now) id }
    {
        match self.view(map, id) {
            Some(node) => node.parent(),
            None => None,
        }
    }

    /// How many slots there must be for its numbers.
    pub(crate) fn slots_needed(&self) -> usize
        ensures { AllBelow result self.now.entries }
    {
        match self.entries.last() {
            Some(entry) => entry.id.after(),
            None => 0,
        }
    }
}
