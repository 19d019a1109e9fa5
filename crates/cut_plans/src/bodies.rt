//! The brushes that a command names.

ghost use Rattle.std.specs.Prelude.{◌≡◌, IsTrue};
ghost use Rattle.map_model.specs.Tree.{whole, brush, is_brush, has_kind, faces_at, faces_of};

use map_nodes::{Body, Node, NodeId};
use tree_node::Map;

/// The body of a brush.
pub fn body_at(map: &Map, id: NodeId) -> &Body
    requires brush { IsTrue (is_brush (whole map.now) id) }
    ensures { result.now ≡ faces_at (whole map.now) id }
{
    match map.get(id) {
        None => unreachable!(),
        Some(node) => body_of(node),
    }
}

fn body_of(node: &Node) -> &Body
    requires brush { IsTrue (has_kind brush node.now) }
    ensures { result.now ≡ faces_of node.now }
{
    match node {
        Node::Brush { body, .. } => body,
        _ => unreachable!(),
    }
}
