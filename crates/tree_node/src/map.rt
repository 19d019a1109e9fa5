//! Maps in slots.

ghost use Rattle.std.specs.Prelude.{◌≡◌, ℕ, ◌≤◌, length, option_copied, IfOk, OnErr, OnOk};
ghost use Rattle.map_model.specs.Tree.{whole, at, up, over, is_linked, is_frozen, has, slot_at};
ghost use Rattle.map_model.specs.Edits.{swap};
ghost use Rattle.map_model.specs.Rows.{is_in_frozen};
ghost use Rattle.map_model.specs.Machine.{empty_map};
ghost use Rattle.tree_node.specs.Held.{IsMap, numbers_of, AllBelow};

use crate::change::Change;
use crate::exchange::exchange;
use exact_geom::Rows;
use map_nodes::{Node, NodeId, Props};
use std::alloc::{AllocError, Global};
use std::marker::Model;
use std::mem;
use uv_lock::Format;

/// A map: nodes by number, and the next number. Contracts see the slots; maps are equal where `whole` is. Each map has the
/// shape of maps, and no group is linked yet.
#[derive(Drop)]
pub struct Map {
    slots: Vec<Option<Node>>,
    next: u32,
}

impl Model for Map {
    ghost use Rattle.map_model.specs.Tree.{Held, whole};

    ghost Value = { Held };

    ghost use Rattle.tree_node.specs.Held.{IsMap};

    ghost view = { λ m. record { slots = m.slots.items; next = m.next } };

    ghost invariant = { λ m. IsMap (whole (record { slots = m.slots.items; next = m.next })) };
}

impl Map {
    /// The map with the world alone.
    pub fn empty(alloc: Global, format: Format) -> Result<Map, AllocError>
        ensures world { IfOk result (λ map. whole map ≡ empty_map format) }
        ensures slots { IfOk result (λ map. 1 ≤ length map.slots) }
    {
        let mut slots = Vec::with_capacity(alloc, 1)?;
        slots.push(Some(Node::World {
            format,
            props: Props::new(alloc),
            brushes: Rows::of(Vec::new(alloc)),
            others: Rows::of(Vec::new(alloc)),
        }))?;
        Ok(Map { slots, next: 1 })
    }

    /// What each map is.
    pub fn is_map(&self)
        ensures { IsMap (whole self.now) }
    {
        let _slots = &self.slots;
    }

    /// The node of a number. `None` exactly where there is none.
    pub fn get(&self, id: NodeId) -> Option<&Node>
        ensures { option_copied result ≡ at (whole self.now) id }
    {
        match self.slots.get(id.place()) {
            Some(slot) => slot.as_ref(),
            None => None,
        }
    }

    /// The next number.
    pub fn next(&self) -> u32
        ensures { result ≡ self.now.next }
    {
        self.next
    }

    /// How many slots there are.
    pub fn slots(&self) -> usize
        ensures { result ≡ length self.now.slots }
    {
        self.slots.len()
    }

    /// Exchanges what the change names. A second swap undoes the first. It takes no memory.
    pub fn swap(&mut self, c: &mut Change)
        requires room { AllBelow (length self.old.slots) c.old.entries }
        requires sound { IsMap (swap (whole self.old) c.old) }
        ensures now { whole self.new ≡ swap (whole self.old) c.old }
        ensures back { swap (whole self.new) c.new ≡ whole self.old }
        ensures slots { length self.new.slots ≡ length self.old.slots }
        ensures numbers { numbers_of c.new.entries ≡ numbers_of c.old.entries }
    {
        c.are_apart();
        exchange(&mut self.slots, &mut c.entries);
        mem::swap(&mut self.next, &mut c.next);
    }

    /// The number of the node above.
    pub fn parent(&self, id: NodeId) -> Option<NodeId>
        ensures { result ≡ up (whole self.now) id }
    {
        match self.get(id) {
            Some(node) => node.parent(),
            None => None,
        }
    }

    /// Whether a linked group has this number.
    pub fn is_linked(&self, id: NodeId) -> bool
        ensures { result ≡ is_linked (whole self.now) id }
    {
        match self.get(id) {
            Some(node) => node.is_linked(),
            None => false,
        }
    }

    /// Whether a frozen layer has this number.
    pub fn is_frozen(&self, id: NodeId) -> bool
        ensures { result ≡ has (whole self.now) is_frozen id }
    {
        match self.get(id) {
            Some(node) => node.is_frozen(),
            None => false,
        }
    }

    /// Whether it is a frozen layer, or stands beneath one.
    pub fn is_in_frozen(&self, id: NodeId) -> bool
        ensures { result ≡ is_in_frozen (whole self.now) id }
    {
        if self.is_frozen(id) {
            return true;
        }
        let mut below = id;
        for step in 0..self.next() {
            match self.parent(below) {
                None => return false,
                Some(place) => {
                    if self.is_frozen(place) {
                        return true;
                    }
                    below = place;
                }
            }
        }
        false
    }

    /// The linked group strictly above. `None` exactly where there is none.
    pub fn over(&self, id: NodeId) -> Option<NodeId>
        ensures { result ≡ over (whole self.now) id }
    {
        let mut below = id;
        for step in 0..self.next() {
            match self.parent(below) {
                None => return None,
                Some(place) => {
                    if self.is_linked(place) {
                        return Some(place);
                    }
                    below = place;
                }
            }
        }
        None
    }

    /// Makes room for the numbers of a change. All else is as before, also after an error.
    pub fn reserve(&mut self, c: &Change) -> Result<(), AllocError>
        ensures room { OnOk result (AllBelow (length self.new.slots) c.now.entries) }
        ensures same { whole self.new ≡ whole self.old }
        ensures slots { length self.old.slots ≤ length self.new.slots }
    {
        let wanted = c.slots_needed();
        grow(&mut self.slots, wanted)?;
        Ok(())
    }
}

// Adds empty slots until there are so many.
fn grow(slots: &mut Vec<Option<Node>>, wanted: usize) -> Result<(), AllocError>
    ensures enough { OnOk result (wanted ≤ length slots.new.items) }
    ensures same { (q : ℕ) → slot_at slots.new.items q ≡ slot_at slots.old.items q }
    ensures more { length slots.old.items ≤ length slots.new.items }
{
    while slots.len() < wanted {
        slots.push(None)?;
    }
    Ok(())
}
