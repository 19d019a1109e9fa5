//! Changes of one node. After an error each leaves the change as it was.

ghost use Rattle.std.specs.Prelude.{◌≡◌, [], ◌∷◌, ◌++◌, OnOk, OnErr};
ghost use Rattle.map_model.specs.Tree.{with_parent, with_frozen, with_format, with_faces, with_props, props_of};
ghost use Rattle.map_model.specs.Props.{set_value, without_key};
ghost use Rattle.map_model.specs.Edits.{renew, relist, without, in_place};
ghost use Rattle.tree_node.specs.Held.{changed};

use crate::change::Change;
use crate::map::Map;
use map_nodes::{Body, NodeId, Props};
use std::alloc::{AllocError, Global};
use uv_lock::Format;

impl Change {
    // Adds a child at the end of a place's list of brushes, or of the others.
    pub(crate) fn add_child_to(
        &mut self,
        alloc: Global,
        map: &Map,
        place: NodeId,
        brush: bool,
        id: NodeId,
    ) -> Result<(), AllocError>
        ensures edit { OnOk result (changed map.now self.new ≡ renew place (relist brush (λ l. l ++ id ∷ [])) (changed map.now self.old)) }
        ensures err { OnErr result (self.new ≡ self.old) }
    {
        match self.copy_of(alloc, map, place)? {
            Some(mut above) => {
                above.add_child(alloc, brush, id)?;
                self.put(place, Some(above))
            }
            None => Ok(()),
        }
    }

    // Takes a child out of a place's list.
    pub(crate) fn remove_child_from(
        &mut self,
        alloc: Global,
        map: &Map,
        place: NodeId,
        brush: bool,
        id: NodeId,
    ) -> Result<(), AllocError>
        ensures edit { OnOk result (changed map.now self.new ≡ renew place (relist brush (without id)) (changed map.now self.old)) }
        ensures err { OnErr result (self.new ≡ self.old) }
    {
        match self.copy_of(alloc, map, place)? {
            Some(mut above) => {
                above.remove_child(alloc, brush, id)?;
                self.put(place, Some(above))
            }
            None => Ok(()),
        }
    }

    // Puts children in the place of one in a place's list.
    pub(crate) fn replace_child_in(
        &mut self,
        alloc: Global,
        map: &Map,
        place: NodeId,
        brush: bool,
        id: NodeId,
        new: &[NodeId],
    ) -> Result<(), AllocError>
        ensures edit { OnOk result (changed map.now self.new ≡ renew place (relist brush (in_place id new.now)) (changed map.now self.old)) }
        ensures err { OnErr result (self.new ≡ self.old) }
    {
        match self.copy_of(alloc, map, place)? {
            Some(mut above) => {
                above.replace_child(alloc, brush, id, new)?;
                self.put(place, Some(above))
            }
            None => Ok(()),
        }
    }

    // Changes what stands above a node.
    pub(crate) fn set_parent_of(
        &mut self,
        alloc: Global,
        map: &Map,
        id: NodeId,
        place: NodeId,
    ) -> Result<(), AllocError>
        ensures edit { OnOk result (changed map.now self.new ≡ renew id (with_parent place) (changed map.now self.old)) }
        ensures err { OnErr result (self.new ≡ self.old) }
    {
        match self.copy_of(alloc, map, id)? {
            Some(mut node) => {
                node.set_parent(place);
                self.put(id, Some(node))
            }
            None => Ok(()),
        }
    }

    /// Gives a key of a node a value.
    pub fn set_value(
        &mut self,
        alloc: Global,
        map: &Map,
        id: NodeId,
        key: &[u8],
        value: &[u8],
    ) -> Result<(), AllocError>
        ensures edit { OnOk result (changed map.now self.new ≡ renew id (λ x. with_props (set_value key.now value.now (props_of x)) x) (changed map.now self.old)) }
        ensures err { OnErr result (self.new ≡ self.old) }
    {
        match self.copy_of(alloc, map, id)? {
            Some(mut node) => {
                node.set_value(alloc, key, value)?;
                self.put(id, Some(node))
            }
            None => Ok(()),
        }
    }

    /// Gives a node other properties.
    pub fn put_props(
        &mut self,
        alloc: Global,
        map: &Map,
        id: NodeId,
        props: Props,
    ) -> Result<(), AllocError>
        ensures edit { OnOk result (changed map.now self.new ≡ renew id (with_props props) (changed map.now self.old)) }
        ensures err { OnErr result (self.new ≡ self.old) }
    {
        match self.copy_of(alloc, map, id)? {
            Some(mut node) => {
                node.put_props(props);
                self.put(id, Some(node))
            }
            None => Ok(()),
        }
    }

    /// Takes a key out of the properties of a node.
    pub fn unset_value(
        &mut self,
        alloc: Global,
        map: &Map,
        id: NodeId,
        key: &[u8],
    ) -> Result<(), AllocError>
        ensures edit { OnOk result (changed map.now self.new ≡ renew id (λ x. with_props (without_key key.now (props_of x)) x) (changed map.now self.old)) }
        ensures err { OnErr result (self.new ≡ self.old) }
    {
        match self.copy_of(alloc, map, id)? {
            Some(mut node) => {
                node.unset_value(key);
                self.put(id, Some(node))
            }
            None => Ok(()),
        }
    }

    /// Freezes a layer, or thaws it.
    pub fn set_frozen(
        &mut self,
        alloc: Global,
        map: &Map,
        id: NodeId,
        frozen: bool,
    ) -> Result<(), AllocError>
        ensures edit { OnOk result (changed map.now self.new ≡ renew id (with_frozen frozen) (changed map.now self.old)) }
        ensures err { OnErr result (self.new ≡ self.old) }
    {
        match self.copy_of(alloc, map, id)? {
            Some(mut node) => {
                node.set_frozen(frozen);
                self.put(id, Some(node))
            }
            None => Ok(()),
        }
    }

    /// Gives the world another format.
    pub fn set_format(
        &mut self,
        alloc: Global,
        map: &Map,
        id: NodeId,
        format: Format,
    ) -> Result<(), AllocError>
        ensures edit { OnOk result (changed map.now self.new ≡ renew id (with_format format) (changed map.now self.old)) }
        ensures err { OnErr result (self.new ≡ self.old) }
    {
        match self.copy_of(alloc, map, id)? {
            Some(mut node) => {
                node.set_format(format);
                self.put(id, Some(node))
            }
            None => Ok(()),
        }
    }

    /// Gives a brush other faces, with their solid.
    pub fn put_body(
        &mut self,
        alloc: Global,
        map: &Map,
        id: NodeId,
        body: Body,
    ) -> Result<(), AllocError>
        ensures edit { OnOk result (changed map.now self.new ≡ renew id (with_faces body) (changed map.now self.old)) }
        ensures err { OnErr result (self.new ≡ self.old) }
    {
        match self.copy_of(alloc, map, id)? {
            Some(mut node) => {
                node.put_body(body);
                self.put(id, Some(node))
            }
            None => Ok(()),
        }
    }
}
