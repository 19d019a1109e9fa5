//! The nodes of maps.

ghost use Rattle.std.specs.Prelude.{◌≡◌, is_some, IfOk, OnOk, OnErr};
ghost use Rattle.map_text.specs.Meaning.{put_property};
ghost use Rattle.map_nodes.specs.Nodes.{link_of, kind_of, is_frozen, props_of, has_own_props, has_kind, brush, parent_of, with_parent, with_frozen, with_format, with_faces, with_props};
ghost use Rattle.map_nodes.specs.Pairs.{without_key};

use crate::body::Body;
use crate::link::{Link, copy_link};
use crate::lists::{copy_of, copy_texts};
use crate::node_id::NodeId;
use crate::props::Props;
use exact_geom::Rows;
use fixed_num::Text;
use std::alloc::{AllocError, Global};
use uv_lock::Format;

/// A node of a map.
#[derive(Drop)]
pub enum Node {
    World {
        format: Format,
        props: Props,
        brushes: Rows<NodeId>,
        others: Rows<NodeId>,
    },
    Layer {
        name: Text,
        frozen: bool,
        props: Props,
        brushes: Rows<NodeId>,
        others: Rows<NodeId>,
    },
    Group {
        parent: NodeId,
        mark: Option<u32>,
        name: Text,
        link: Option<Link>,
        props: Props,
        brushes: Rows<NodeId>,
        others: Rows<NodeId>,
    },
    Entity {
        parent: NodeId,
        mark: Option<u32>,
        props: Props,
        protected: Rows<Text>,
        brushes: Rows<NodeId>,
    },
    Brush {
        parent: NodeId,
        mark: Option<u32>,
        body: Body,
    },
}

impl Node {
    /// Whether it is a brush.
    pub fn is_brush(&self) -> bool
        ensures { result ≡ has_kind brush self.now }
    {
        match self {
            Node::World { .. } => false,
            Node::Layer { .. } => false,
            Node::Group { .. } => false,
            Node::Entity { .. } => false,
            Node::Brush { .. } => true,
        }
    }

    /// Whether it is a linked group.
    pub fn is_linked(&self) -> bool
        ensures { result ≡ is_some (link_of self.now) }
    {
        match self {
            Node::World { .. } => false,
            Node::Layer { .. } => false,
            Node::Group { link, .. } => link.is_some(),
            Node::Entity { .. } => false,
            Node::Brush { .. } => false,
        }
    }

    /// The number of the node above.
    pub fn parent(&self) -> Option<NodeId>
        ensures { result ≡ parent_of self.now }
    {
        match self {
            Node::World { .. } => None,
            Node::Layer { .. } => Some(NodeId(0)),
            Node::Group { parent, .. } => Some(*parent),
            Node::Entity { parent, .. } => Some(*parent),
            Node::Brush { parent, .. } => Some(*parent),
        }
    }

    /// Changes what stands above. A node that is not told what stands above it stays.
    pub fn set_parent(&mut self, id: NodeId)
        ensures { self.new ≡ with_parent id self.old }
    {
        match self {
            Node::World { .. } => {}
            Node::Layer { .. } => {}
            Node::Group { parent, .. } => *parent = id,
            Node::Entity { parent, .. } => *parent = id,
            Node::Brush { parent, .. } => *parent = id,
        }
    }

    /// Puts other properties in place. A brush has none, and stays.
    pub fn put_props(&mut self, new: Props)
        ensures { self.new ≡ with_props new self.old }
    {
        match self {
            Node::World { props, .. } => *props = new,
            Node::Layer { props, .. } => *props = new,
            Node::Group { props, .. } => *props = new,
            Node::Entity { props, .. } => *props = new,
            Node::Brush { .. } => {}
        }
    }

    /// Whether nodes of this kind can have properties of their own.
    pub fn has_props(&self) -> bool
        ensures { result ≡ has_own_props (kind_of self.now) }
    {
        match self {
            Node::World { .. } => true,
            Node::Layer { .. } => false,
            Node::Group { .. } => false,
            Node::Entity { .. } => true,
            Node::Brush { .. } => false,
        }
    }

    /// Whether it is a frozen layer.
    pub fn is_frozen(&self) -> bool
        ensures { result ≡ is_frozen self.now }
    {
        match self {
            Node::World { .. } => false,
            Node::Layer { frozen, .. } => *frozen,
            Node::Group { .. } => false,
            Node::Entity { .. } => false,
            Node::Brush { .. } => false,
        }
    }

    /// Freezes a layer, or thaws it. Another node stays.
    pub fn set_frozen(&mut self, new: bool)
        ensures { self.new ≡ with_frozen new self.old }
    {
        match self {
            Node::World { .. } => {}
            Node::Layer { frozen, .. } => *frozen = new,
            Node::Group { .. } => {}
            Node::Entity { .. } => {}
            Node::Brush { .. } => {}
        }
    }

    /// Gives the world another format. Another node stays.
    pub fn set_format(&mut self, new: Format)
        ensures { self.new ≡ with_format new self.old }
    {
        match self {
            Node::World { format, .. } => *format = new,
            Node::Layer { .. } => {}
            Node::Group { .. } => {}
            Node::Entity { .. } => {}
            Node::Brush { .. } => {}
        }
    }

    /// Gives a brush other faces with their solid. Another node stays.
    pub fn put_body(&mut self, new: Body)
        ensures { self.new ≡ with_faces new self.old }
    {
        match self {
            Node::World { .. } => {}
            Node::Layer { .. } => {}
            Node::Group { .. } => {}
            Node::Entity { .. } => {}
            Node::Brush { body, .. } => *body = new,
        }
    }

    /// Takes a key out of the properties, where it is there.
    pub fn unset_value(&mut self, key: &[u8])
        ensures { self.new ≡ with_props (without_key key.now (props_of self.old)) self.old }
    {
        match self {
            Node::World { props, .. } => drop(props.unset(key)),
            Node::Layer { props, .. } => drop(props.unset(key)),
            Node::Group { props, .. } => drop(props.unset(key)),
            Node::Entity { props, .. } => drop(props.unset(key)),
            Node::Brush { .. } => {}
        }
    }

    /// Gives a key a value among the properties. A brush has none, and stays. After an error the node is as before.
    pub fn set_value(&mut self, alloc: Global, key: &[u8], value: &[u8]) -> Result<(), AllocError>
        ensures ok { OnOk result (self.new ≡ with_props (put_property key.now value.now (props_of self.old)) self.old) }
        ensures err { OnErr result (self.new ≡ self.old) }
    {
        match self {
            Node::World { props, .. } => props.set(alloc, key, value),
            Node::Layer { props, .. } => props.set(alloc, key, value),
            Node::Group { props, .. } => props.set(alloc, key, value),
            Node::Entity { props, .. } => props.set(alloc, key, value),
            Node::Brush { .. } => Ok(()),
        }
    }

    /// An equal node, or an error for want of memory.
    pub fn copy(&self, alloc: Global) -> Result<Node, AllocError>
        ensures { IfOk result (λ node. node ≡ self.now) }
    {
        match self {
            Node::World {
                format,
                props,
                brushes,
                others,
            } => Ok(Node::World {
                format: *format,
                props: props.copy()?,
                brushes: copy_of(alloc, brushes.list())?,
                others: copy_of(alloc, others.list())?,
            }),
            Node::Layer {
                name,
                frozen,
                props,
                brushes,
                others,
            } => Ok(Node::Layer {
                name: Text::of(alloc, name.bytes())?,
                frozen: *frozen,
                props: props.copy()?,
                brushes: copy_of(alloc, brushes.list())?,
                others: copy_of(alloc, others.list())?,
            }),
            Node::Group {
                parent,
                mark,
                name,
                link,
                props,
                brushes,
                others,
            } => Ok(Node::Group {
                parent: *parent,
                mark: *mark,
                name: Text::of(alloc, name.bytes())?,
                link: copy_link(link),
                props: props.copy()?,
                brushes: copy_of(alloc, brushes.list())?,
                others: copy_of(alloc, others.list())?,
            }),
            Node::Entity {
                parent,
                mark,
                props,
                protected,
                brushes,
            } => Ok(Node::Entity {
                parent: *parent,
                mark: *mark,
                props: props.copy()?,
                protected: copy_texts(alloc, protected.list())?,
                brushes: copy_of(alloc, brushes.list())?,
            }),
            Node::Brush { parent, mark, body } => Ok(Node::Brush {
                parent: *parent,
                mark: *mark,
                body: body.copy(alloc)?,
            }),
        }
    }
}
