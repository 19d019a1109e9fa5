//! The children of nodes.

ghost use Rattle.std.specs.Prelude.{◌≡◌, true, false, [], ◌∷◌, ◌++◌, OnOk, OnErr};
ghost use Rattle.map_nodes.specs.Lists.{without, in_place};
ghost use Rattle.map_nodes.specs.Nodes.{list_of, with_list, relist};

use crate::lists::{with_in_place, with_one_more, without};
use crate::node::Node;
use crate::node_id::NodeId;
use exact_geom::Rows;
use std::alloc::{AllocError, Global};

impl Node {
    /// The brushes among the children, or the others, in order. A kind that has none of them has an empty list.
    pub fn list(&self, brushes_asked: bool) -> &[NodeId]
        ensures { result.now ≡ list_of brushes_asked self.now }
    {
        if brushes_asked {
            self.brushes()
        } else {
            self.others()
        }
    }

    // The brushes among the children.
    fn brushes(&self) -> &[NodeId]
        ensures { result.now ≡ list_of true self.now }
    {
        match self {
            Node::World { brushes, .. } => brushes.list(),
            Node::Layer { brushes, .. } => brushes.list(),
            Node::Group { brushes, .. } => brushes.list(),
            Node::Entity { brushes, .. } => brushes.list(),
            Node::Brush { .. } => &[],
        }
    }

    // The children that are no brushes.
    fn others(&self) -> &[NodeId]
        ensures { result.now ≡ list_of false self.now }
    {
        match self {
            Node::World { others, .. } => others.list(),
            Node::Layer { others, .. } => others.list(),
            Node::Group { others, .. } => others.list(),
            Node::Entity { .. } => &[],
            Node::Brush { .. } => &[],
        }
    }

    /// Puts another list in the place of that of the brushes, or of the others. A kind that has none stays.
    pub fn put_list(&mut self, of_brushes: bool, list: Rows<NodeId>)
        ensures { self.new ≡ with_list of_brushes list self.old }
    {
        if of_brushes {
            self.put_brushes(list);
        } else {
            self.put_others(list);
        }
    }

    fn put_brushes(&mut self, list: Rows<NodeId>)
        ensures { self.new ≡ with_list true list self.old }
    {
        match self {
            Node::World { brushes, .. } => *brushes = list,
            Node::Layer { brushes, .. } => *brushes = list,
            Node::Group { brushes, .. } => *brushes = list,
            Node::Entity { brushes, .. } => *brushes = list,
            Node::Brush { .. } => {}
        }
    }

    fn put_others(&mut self, list: Rows<NodeId>)
        ensures { self.new ≡ with_list false list self.old }
    {
        match self {
            Node::World { others, .. } => *others = list,
            Node::Layer { others, .. } => *others = list,
            Node::Group { others, .. } => *others = list,
            Node::Entity { .. } => {}
            Node::Brush { .. } => {}
        }
    }

    /// Adds a child at the end of the list of brushes, or of the others. After an error the node is as before.
    pub fn add_child(&mut self, alloc: Global, brush: bool, id: NodeId) -> Result<(), AllocError>
        ensures ok { OnOk result (self.new ≡ relist brush (λ l. l ++ id ∷ []) self.old) }
        ensures err { OnErr result (self.new ≡ self.old) }
    {
        let list = with_one_more(alloc, self.list(brush), id)?;
        self.put_list(brush, list);
        Ok(())
    }

    /// Takes a child out of the list of brushes, or of the others. After an error the node is as before.
    pub fn remove_child(&mut self, alloc: Global, brush: bool, id: NodeId) -> Result<(), AllocError>
        ensures ok { OnOk result (self.new ≡ relist brush (without id) self.old) }
        ensures err { OnErr result (self.new ≡ self.old) }
    {
        let list = without(alloc, self.list(brush), id)?;
        self.put_list(brush, list);
        Ok(())
    }

    /// Puts children in the place of one. After an error the node is as before.
    pub fn replace_child(
        &mut self,
        alloc: Global,
        brush: bool,
        id: NodeId,
        new: &[NodeId],
    ) -> Result<(), AllocError>
        ensures ok { OnOk result (self.new ≡ relist brush (in_place id new.now) self.old) }
        ensures err { OnErr result (self.new ≡ self.old) }
    {
        let list = with_in_place(alloc, self.list(brush), id, new)?;
        self.put_list(brush, list);
        Ok(())
    }
}
