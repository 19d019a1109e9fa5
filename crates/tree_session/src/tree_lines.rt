//! The line of a node in the listing of a tree.

ghost use Rattle.std.specs.Prelude.{◌≡◌, ◌++◌, OnOk};
ghost use Rattle.map_model.specs.Listings.{tree_line, format_word, frozen_word, set_word};
ghost use Rattle.tree_session.specs.Lines.{world_line, layer_line, group_line, entity_line, brush_line, class_of};

use crate::listing::Listing;
use map_nodes::{Link, Node, NodeId, Props};
use std::alloc::AllocError;
use uv_lock::Format;

fn put_format(listing: &mut Listing, format: Format) -> Result<(), AllocError>
    ensures { OnOk result (listing.new ≡ listing.old ++ format_word format) }
{
    match format {
        Format::Standard => listing.put(b"standard"),
        Format::Valve => listing.put(b"valve"),
    }
}

fn put_frozen(listing: &mut Listing, frozen: bool) -> Result<(), AllocError>
    ensures { OnOk result (listing.new ≡ listing.old ++ frozen_word frozen) }
{
    if frozen {
        listing.put(b"frozen")
    } else {
        listing.put(b"open")
    }
}

fn put_set(listing: &mut Listing, link: &Option<Link>) -> Result<(), AllocError>
    ensures { OnOk result (listing.new ≡ listing.old ++ set_word link.now) }
{
    match link {
        None => listing.put(b"-"),
        Some(link) => listing.number(u64::from(link.set)),
    }
}

fn put_world(listing: &mut Listing, id: NodeId, format: Format) -> Result<(), AllocError>
    ensures { OnOk result (listing.new ≡ listing.old ++ world_line id format) }
{
    listing.number(u64::from(id.number()))?;
    listing.put(b" world ")?;
    put_format(listing, format)?;
    listing.put(b"\n")
}

fn put_layer(listing: &mut Listing, id: NodeId, frozen: bool, name: &[u8]) -> Result<(), AllocError>
    ensures { OnOk result (listing.new ≡ listing.old ++ layer_line id frozen name.now) }
{
    listing.number(u64::from(id.number()))?;
    listing.put(b" layer ")?;
    listing.number(0)?;
    listing.put(b" ")?;
    put_frozen(listing, frozen)?;
    listing.put(b" ")?;
    listing.quoted(name)?;
    listing.put(b"\n")
}

fn put_group(
    listing: &mut Listing,
    id: NodeId,
    parent: NodeId,
    link: &Option<Link>,
    name: &[u8],
) -> Result<(), AllocError>
    ensures { OnOk result (listing.new ≡ listing.old ++ group_line id parent link.now name.now) }
{
    listing.number(u64::from(id.number()))?;
    listing.put(b" group ")?;
    listing.number(u64::from(parent.number()))?;
    listing.put(b" ")?;
    put_set(listing, link)?;
    listing.put(b" ")?;
    listing.quoted(name)?;
    listing.put(b"\n")
}

fn put_entity(
    listing: &mut Listing,
    id: NodeId,
    parent: NodeId,
    class: &[u8],
) -> Result<(), AllocError>
    ensures { OnOk result (listing.new ≡ listing.old ++ entity_line id parent class.now) }
{
    listing.number(u64::from(id.number()))?;
    listing.put(b" entity ")?;
    listing.number(u64::from(parent.number()))?;
    listing.put(b" ")?;
    listing.quoted(class)?;
    listing.put(b"\n")
}

fn put_brush(
    listing: &mut Listing,
    id: NodeId,
    parent: NodeId,
    faces: usize,
) -> Result<(), AllocError>
    ensures { OnOk result (listing.new ≡ listing.old ++ brush_line id parent faces) }
{
    listing.number(u64::from(id.number()))?;
    listing.put(b" brush ")?;
    listing.number(u64::from(parent.number()))?;
    listing.put(b" ")?;
    listing.number(faces as u64)?;
    listing.put(b"\n")
}

// The class of an entity, or nothing.
fn class_of(props: &Props) -> &[u8]
    ensures { result.now ≡ class_of props.now }
{
    match props.value(b"classname") {
        Some(class) => class,
        None => b"",
    }
}

/// Adds the line of a node.
pub(crate) fn put_node(listing: &mut Listing, id: NodeId, node: &Node) -> Result<(), AllocError>
    ensures { OnOk result (listing.new ≡ listing.old ++ tree_line id node.now) }
{
    match node {
        Node::World { format, .. } => put_world(listing, id, *format),
        Node::Layer { name, frozen, .. } => put_layer(listing, id, *frozen, name.bytes()),
        Node::Group {
            parent,
            name,
            link,
            ..
        } => put_group(listing, id, *parent, link, name.bytes()),
        Node::Entity { parent, props, .. } => put_entity(listing, id, *parent, class_of(props)),
        Node::Brush { parent, body, .. } => put_brush(listing, id, *parent, body.faces().len()),
    }
}
