//! Which nodes fit where a command names them.

ghost use Rattle.std.specs.Prelude.{◌≡◌, ◌==◌, ◌&&◌, nat_lt, length, IsTrue, Some, Option};
ghost use Rattle.std.specs.List.{list_all};
ghost use Rattle.tree_ops.specs.TreeCommands.{is_tree_command};
ghost use Rattle.map_model.specs.Tree.{whole, at, is_brush, kind_of, has_kind, layer, group, entity, brushes_of};
ghost use Rattle.map_model.specs.Rows.{named, wrong_kind, fits, may_be_deleted, is_movable, may_take};
ghost use Rattle.tree_ops.specs.Passing.{passes};

use cmd_text::{Command, Refusal};
use map_nodes::{Node, NodeId};
use tree_node::Map;

/// The first of the named nodes that doesn't fit where it is named.
pub(crate) fn wrong_kind(map: &Map, c: &Command, ids: &[NodeId]) -> Result<(), Refusal>
    requires own { IsTrue (is_tree_command c.now) }
    requires these { ids.now ≡ named c.now }
    ensures { result ≡ passes (wrong_kind (whole map.now) c.now) }
{
    for id in ids {
        if !fits(map, c, ids, *id) {
            return Err(Refusal::WrongKind(id.number()));
        }
    }
    Ok(())
}

// Whether a node fits.
fn fits(map: &Map, c: &Command, ids: &[NodeId], id: NodeId) -> bool
    requires own { IsTrue (is_tree_command c.now) }
    requires these { ids.now ≡ named c.now }
    ensures { result ≡ fits (whole map.now) c.now id }
{
    match map.get(id) {
        None => false,
        Some(node) => node_fits(map, c, ids, id, node),
    }
}

// Whether this node, of this number, fits.
fn node_fits(map: &Map, c: &Command, ids: &[NodeId], id: NodeId, node: &Node) -> bool
    requires own { IsTrue (is_tree_command c.now) }
    requires these { ids.now ≡ named c.now }
    requires there { at (whole map.now) id ≡ Some node.now }
    ensures { result ≡ fits (whole map.now) c.now id }
{
    match c {
        Command::Delete { .. } => may_be_deleted(node),
        Command::Set { .. } => node.has_props(),
        Command::Unset { .. } => node.has_props(),
        Command::Untie { .. } => is_entity_with_brushes(node),
        Command::Freeze { .. } => is_layer(node),
        Command::Thaw { .. } => is_layer(node),
        Command::Group { .. } => is_movable(node),
        Command::Ungroup { .. } => is_group(node),
        Command::Into { place, .. } => {
            if id.number() == *place {
                may_take(all_brushes(map, &ids[1..]), node)
            } else {
                is_movable(node)
            }
        }
        _ => node.is_brush(),
    }
}

fn all_brushes(map: &Map, ids: &[NodeId]) -> bool
    ensures { result ≡ list_all (is_brush (whole map.now)) ids.now }
{
    for id in ids {
        if !is_brush(map, *id) {
            return false;
        }
    }
    true
}

fn is_brush(map: &Map, id: NodeId) -> bool
    ensures { result ≡ is_brush (whole map.now) id }
{
    match map.get(id) {
        None => false,
        Some(node) => node.is_brush(),
    }
}

fn may_be_deleted(node: &Node) -> bool
    ensures { result ≡ may_be_deleted (kind_of node.now) }
{
    match node {
        Node::World { .. } => false,
        Node::Layer { .. } => true,
        Node::Group { .. } => true,
        Node::Entity { .. } => true,
        Node::Brush { .. } => true,
    }
}

/// Whether nodes of this kind can be moved, copied and grouped.
pub fn is_movable(node: &Node) -> bool
    ensures { result ≡ is_movable (kind_of node.now) }
{
    match node {
        Node::World { .. } => false,
        Node::Layer { .. } => false,
        Node::Group { .. } => true,
        Node::Entity { .. } => true,
        Node::Brush { .. } => true,
    }
}

// Whether nodes can go into it. An entity takes brushes alone.
fn may_take(brushes_alone: bool, node: &Node) -> bool
    ensures { result ≡ may_take brushes_alone (kind_of node.now) }
{
    match node {
        Node::World { .. } => true,
        Node::Layer { .. } => true,
        Node::Group { .. } => true,
        Node::Entity { .. } => brushes_alone,
        Node::Brush { .. } => false,
    }
}

fn is_layer(node: &Node) -> bool
    ensures { result ≡ has_kind layer node.now }
{
    match node {
        Node::World { .. } => false,
        Node::Layer { .. } => true,
        Node::Group { .. } => false,
        Node::Entity { .. } => false,
        Node::Brush { .. } => false,
    }
}

fn is_group(node: &Node) -> bool
    ensures { result ≡ has_kind group node.now }
{
    match node {
        Node::World { .. } => false,
        Node::Layer { .. } => false,
        Node::Group { .. } => true,
        Node::Entity { .. } => false,
        Node::Brush { .. } => false,
    }
}

fn is_entity_with_brushes(node: &Node) -> bool
    ensures { result ≡ (has_kind entity node.now && nat_lt 0 (length (brushes_of node.now))) }
{
    match node {
        Node::World { .. } => false,
        Node::Layer { .. } => false,
        Node::Group { .. } => false,
        Node::Entity { brushes, .. } => !brushes.list().is_empty(),
        Node::Brush { .. } => false,
    }
}
