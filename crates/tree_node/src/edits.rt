//! Edits of the tree: where nodes stand. An edit of several steps may leave the change partly filled after an error; its owner
//! then drops the change.

ghost use Rattle.std.specs.Prelude.{◌≡◌, ◌+◌, ◌<◌, ◌≤◌, length, map, None, OnOk, OnErr, IfOk};
ghost use Rattle.map_model.specs.Tree.{Whole, Brush, numbers_from};
ghost use Rattle.map_model.specs.Edits.{swap, draw, take_out, put_in, put_at, put_last, forget, each_in_turn, replace_by, put_after};
ghost use Rattle.tree_node.specs.Held.{changed};

use crate::change::Change;
use crate::map::Map;
use map_nodes::{Body, Node, NodeId};
use std::alloc::{AllocError, Global};

impl Change {
    /// Puts a node at the end of a place.
    pub fn put_in(
        &mut self,
        alloc: Global,
        map: &Map,
        place: NodeId,
        id: NodeId,
    ) -> Result<(), AllocError>
        ensures { OnOk result (changed map.now self.new ≡ put_in place id (changed map.now self.old)) }
    {
        let brush = self.is_brush(map, id);
        self.add_child_to(alloc, map, place, brush, id)?;
        self.set_parent_of(alloc, map, id, place)
    }

    /// Takes a node out of the list that it stands in. After an error the change is as before.
    pub fn take_out(&mut self, alloc: Global, map: &Map, id: NodeId) -> Result<(), AllocError>
        ensures edit { OnOk result (changed map.now self.new ≡ take_out id (changed map.now self.old)) }
        ensures err { OnErr result (self.new ≡ self.old) }
    {
        let brush = self.is_brush(map, id);
        match self.parent(map, id) {
            Some(place) => self.remove_child_from(alloc, map, place, brush, id),
            None => Ok(()),
        }
    }

    /// Puts nodes in the place of one, in the list that it stands in. After an error the change is as before.
    pub fn put_at(
        &mut self,
        alloc: Global,
        map: &Map,
        id: NodeId,
        new: &[NodeId],
    ) -> Result<(), AllocError>
        ensures edit { OnOk result (changed map.now self.new ≡ put_at id new.now (changed map.now self.old)) }
        ensures err { OnErr result (self.new ≡ self.old) }
    {
        let brush = self.is_brush(map, id);
        match self.parent(map, id) {
            Some(place) => self.replace_child_in(alloc, map, place, brush, id, new),
            None => Ok(()),
        }
    }

    /// Takes nodes away.
    pub fn forget(&mut self, ids: &[NodeId]) -> Result<(), AllocError>
        ensures { OnOk result ((m : Whole) → swap m self.new ≡ forget ids.now (swap m self.old)) }
    {
        for id in ids {
            self.put(*id, None)?;
        }
        Ok(())
    }

    /// Gives the next number to a node, which stands nowhere yet. After an error the change is as before.
    pub fn draw_node(&mut self, node: Node) -> Result<NodeId, AllocError>
        requires { self.old.next < 65536 }
        ensures number { IfOk result (λ id. id ≡ self.old.next) }
        ensures next { OnOk result (self.new.next ≡ self.old.next + 1) }
        ensures drawn { OnOk result ((m : Whole) → swap m self.new ≡ draw node (swap m self.old)) }
        ensures err { OnErr result (self.new ≡ self.old) }
    {
        self.put(NodeId(self.next), Some(node))?;
        Ok(self.draw())
    }

    /// A new node at the end of a place.
    pub fn put_last(
        &mut self,
        alloc: Global,
        map: &Map,
        place: NodeId,
        mut node: Node,
    ) -> Result<NodeId, AllocError>
        requires { self.old.next < 65536 }
        ensures { IfOk result (λ id. (id ≡ self.old.next) × (changed map.now self.new ≡ put_last place node (changed map.now self.old))) }
    {
        node.set_parent(place);
        let id = self.draw_node(node)?;
        self.put_in(alloc, map, place, id)?;
        Ok(id)
    }

    // New brushes of bodies, which stand nowhere yet.
    fn draw_brushes(
        &mut self,
        alloc: Global,
        place: NodeId,
        bodies: Vec<Body>,
    ) -> Result<Vec<NodeId>, AllocError>
        requires { self.old.next + length bodies.items ≤ 65536 }
        ensures ids { IfOk result (λ ids. ids.items ≡ numbers_from self.old.next (length bodies.items)) }
        ensures drawn { OnOk result ((m : Whole) → swap m self.new ≡ each_in_turn draw (map (Brush place None) bodies.items) (swap m self.old)) }
    {
        let mut ids = Vec::with_capacity(alloc, bodies.len())?;
        for body in bodies {
            let id = self.draw_node(Node::Brush {
                parent: place,
                mark: None,
                body,
            })?;
            ids.push(id)?;
        }
        Ok(ids)
    }

    /// New brushes of bodies in the place of a node, which goes.
    pub fn replace_by(
        &mut self,
        alloc: Global,
        map: &Map,
        id: NodeId,
        bodies: Vec<Body>,
    ) -> Result<(), AllocError>
        requires { self.old.next + length bodies.items ≤ 65536 }
        ensures { OnOk result (changed map.now self.new ≡ replace_by id bodies.items (changed map.now self.old)) }
    {
        let place = self.parent(map, id).unwrap_or(NodeId(0));
        let made = self.draw_brushes(alloc, place, bodies)?;
        self.put_at(alloc, map, id, &made)?;
        self.forget(&[id])?;
        Ok(())
    }

    /// A new brush of a body directly after another brush.
    pub fn put_after(
        &mut self,
        alloc: Global,
        map: &Map,
        id: NodeId,
        body: Body,
    ) -> Result<NodeId, AllocError>
        requires { self.old.next < 65536 }
        ensures number { IfOk result (λ made. made ≡ self.old.next) }
        ensures edit { OnOk result (changed map.now self.new ≡ put_after id body (changed map.now self.old)) }
    {
        let parent = self.parent(map, id).unwrap_or(NodeId(0));
        let made = self.draw_node(Node::Brush {
            parent,
            mark: None,
            body,
        })?;
        self.put_at(alloc, map, id, &[id, made])?;
        Ok(made)
    }
}
