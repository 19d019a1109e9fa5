//! The listing of a map's nodes.

ghost use Rattle.std.specs.Prelude.{◌≡◌, ◌++◌, OnOk, IfOk, flat_map};
ghost use Rattle.map_model.specs.Tree.{whole};
ghost use Rattle.map_model.specs.Listings.{tree_text, tree_line_at};

use crate::listing::Listing;
use crate::tree_lines::put_node;
use fixed_num::Text;
use map_nodes::NodeId;
use std::alloc::{AllocError, Global};
use tree_node::{Change, Map};

// Adds the line of the node of a number, if there is one.
fn put_node_at(listing: &mut Listing, map: &Map, id: NodeId) -> Result<(), AllocError>
    ensures { OnOk result (listing.new ≡ listing.old ++ tree_line_at (whole map.now) id) }
{
    match map.get(id) {
        None => Ok(()),
        Some(node) => put_node(listing, id, node),
    }
}

// Adds the lines of the nodes, in order.
fn put_nodes(listing: &mut Listing, map: &Map, ids: &[NodeId]) -> Result<(), AllocError>
    ensures { OnOk result (listing.new ≡ listing.old ++ flat_map (tree_line_at (whole map.now)) ids.now) }
{
    for id in ids {
        put_node_at(listing, map, *id)?;
    }
    Ok(())
}

/// The nodes of a map in preorder, a line each, and `ok`. The error is for want of memory alone.
pub(crate) fn tree_text(alloc: Global, map: &Map) -> Result<Text, AllocError>
    ensures { IfOk result (λ text. text ≡ tree_text (whole map.now)) }
{
    let ids = Change::new(alloc, map).preorder(alloc, map, NodeId(0))?;
    let mut listing = Listing::new(alloc);
    put_nodes(&mut listing, map, &ids)?;
    listing.put(b"ok\n")?;
    Ok(listing.into_text())
}
