//! Equality of nodes.

ghost use Rattle.std.specs.Prelude.{◌≡◌};
ghost use Rattle.std.specs.Bool.{Decides};
ghost use Rattle.map_nodes.specs.declared.node.Node.TheVariants.{World, Layer, Group, Entity, Brush};

use crate::body::Body;
use crate::link::{Link, same_link};
use crate::lists::{same_ids, same_texts};
use crate::node::Node;
use crate::node_id::NodeId;
use crate::props::Props;
use fixed_num::Text;
use uv_lock::Format;

impl Node {
    /// Whether two nodes are equal: of one kind, with equal parts, and the same children in the same order.
    pub fn is_same(&self, other: &Node) -> bool
        ensures { Decides result (self.now ≡ other.now) }
    {
        match other {
            Node::World {
                format,
                props,
                brushes,
                others,
            } => self.is_world(*format, props, brushes.list(), others.list()),
            Node::Layer {
                name,
                frozen,
                props,
                brushes,
                others,
            } => self.is_layer(name, *frozen, props, brushes.list(), others.list()),
            Node::Group {
                parent,
                mark,
                name,
                link,
                props,
                brushes,
                others,
            } => self.is_group(
                (*parent, *mark),
                name,
                link,
                props,
                brushes.list(),
                others.list(),
            ),
            Node::Entity {
                parent,
                mark,
                props,
                protected,
                brushes,
            } => self.is_entity((*parent, *mark), props, protected.list(), brushes.list()),
            Node::Brush { parent, mark, body } => self.is_brush_of((*parent, *mark), body),
        }
    }

    fn is_world(
        &self,
        its_format: Format,
        its_props: &Props,
        its_brushes: &[NodeId],
        its_others: &[NodeId],
    ) -> bool
        ensures { Decides result (self.now ≡ World its_format its_props.now its_brushes.now its_others.now) }
    {
        match self {
            Node::World {
                format,
                props,
                brushes,
                others,
            } => {
                (*format == its_format)
                    & props.is_same(its_props)
                    & same_ids(brushes.list(), its_brushes)
                    & same_ids(others.list(), its_others)
            }
            Node::Layer { .. } => false,
            Node::Group { .. } => false,
            Node::Entity { .. } => false,
            Node::Brush { .. } => false,
        }
    }

    fn is_layer(
        &self,
        its_name: &Text,
        is_frozen: bool,
        its_props: &Props,
        its_brushes: &[NodeId],
        its_others: &[NodeId],
    ) -> bool
        ensures { Decides result (self.now ≡ Layer its_name.now is_frozen its_props.now its_brushes.now its_others.now) }
    {
        match self {
            Node::World { .. } => false,
            Node::Layer {
                name,
                frozen,
                props,
                brushes,
                others,
            } => {
                (name.bytes() == its_name.bytes())
                    & (*frozen == is_frozen)
                    & props.is_same(its_props)
                    & same_ids(brushes.list(), its_brushes)
                    & same_ids(others.list(), its_others)
            }
            Node::Group { .. } => false,
            Node::Entity { .. } => false,
            Node::Brush { .. } => false,
        }
    }

    fn is_group(
        &self,
        place: (NodeId, Option<u32>),
        its_name: &Text,
        its_link: &Option<Link>,
        its_props: &Props,
        its_brushes: &[NodeId],
        its_others: &[NodeId],
    ) -> bool
        ensures { Decides result (self.now ≡ Group place.0 place.1 its_name.now its_link.now its_props.now its_brushes.now its_others.now) }
    {
        match self {
            Node::World { .. } => false,
            Node::Layer { .. } => false,
            Node::Group {
                parent,
                mark,
                name,
                link,
                props,
                brushes,
                others,
            } => {
                (*parent == place.0)
                    & (*mark == place.1)
                    & (name.bytes() == its_name.bytes())
                    & same_link(link, its_link)
                    & props.is_same(its_props)
                    & same_ids(brushes.list(), its_brushes)
                    & same_ids(others.list(), its_others)
            }
            Node::Entity { .. } => false,
            Node::Brush { .. } => false,
        }
    }

    fn is_entity(
        &self,
        place: (NodeId, Option<u32>),
        its_props: &Props,
        its_protected: &[Text],
        its_brushes: &[NodeId],
    ) -> bool
        ensures { Decides result (self.now ≡ Entity place.0 place.1 its_props.now its_protected.now its_brushes.now) }
    {
        match self {
            Node::World { .. } => false,
            Node::Layer { .. } => false,
            Node::Group { .. } => false,
            Node::Entity {
                parent,
                mark,
                props,
                protected,
                brushes,
            } => {
                (*parent == place.0)
                    & (*mark == place.1)
                    & props.is_same(its_props)
                    & same_texts(protected.list(), its_protected)
                    & same_ids(brushes.list(), its_brushes)
            }
            Node::Brush { .. } => false,
        }
    }

    fn is_brush_of(&self, place: (NodeId, Option<u32>), its_body: &Body) -> bool
        ensures { Decides result (self.now ≡ Brush place.0 place.1 its_body.now) }
    {
        match self {
            Node::World { .. } => false,
            Node::Layer { .. } => false,
            Node::Group { .. } => false,
            Node::Entity { .. } => false,
            Node::Brush { parent, mark, body } => {
                (*parent == place.0) & (*mark == place.1) & body.is_same(its_body)
            }
        }
    }
}
