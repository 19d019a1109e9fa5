//! The listing of a node.

ghost use Rattle.std.specs.Prelude.{◌≡◌, OnOk, IfOk};
ghost use Rattle.map_model.specs.Tree.{whole};
ghost use Rattle.tree_session.specs.Brushes.{AddsNode, AddsNodeAt, Shows};

use crate::brush_lines::put_brush;
use crate::entity_lines::put_properties;
use crate::listing::Listing;
use fixed_num::Text;
use map_nodes::{Node, NodeId};
use std::alloc::{AllocError, Global};
use tree_node::Map;

fn put_node(listing: &mut Listing, id: NodeId, node: &Node) -> Result<(), AllocError>
    ensures { OnOk result (AddsNode id node.now listing.old listing.new) }
{
    match node {
        Node::World { props, .. } => put_properties(listing, id, props, &[]),
        Node::Layer { .. } => Ok(()),
        Node::Group { .. } => Ok(()),
        Node::Entity {
            props,
            protected,
            ..
        } => put_properties(listing, id, props, protected.list()),
        Node::Brush { body, .. } => put_brush(listing, id, body),
    }
}

// Adds the lines of the node of a number, if there is one.
fn put_node_at(listing: &mut Listing, map: &Map, id: NodeId) -> Result<(), AllocError>
    ensures { OnOk result (AddsNodeAt (whole map.now) id listing.old listing.new) }
{
    match map.get(id) {
        None => Ok(()),
        Some(node) => put_node(listing, id, node),
    }
}

/// The faces of a brush with their loops, or the properties of an entity or of the world, and `ok`. The error is for want of
/// memory alone.
pub(crate) fn show_text(alloc: Global, map: &Map, id: NodeId) -> Result<Text, AllocError>
    ensures { IfOk result (Shows (whole map.now) id) }
{
    let mut listing = Listing::new(alloc);
    put_node_at(&mut listing, map, id)?;
    listing.put(b"ok\n")?;
    Ok(listing.into_text())
}
