//! The properties that a node is saved with.

ghost use Rattle.std.specs.Prelude.{◌≡◌, [], ◌∷◌, ◌++◌, IfOk, OnOk, IsTrue, codes, None};
ghost use Rattle.std.specs.Fmt.{decimal};
ghost use Rattle.map_model.specs.Tree.{whole, link_of};
ghost use Rattle.map_model.specs.Shape.{joined_keys};
ghost use Rattle.map_model.specs.Saved.{saved_props, head_props, parent_props, protected_props, version_props, locked_props};
ghost use Rattle.tree_file.specs.Ids.{HasIds};
ghost use Rattle.tree_file.specs.Saving.{with_key};

use crate::ids::Ids;
use crate::pairs::{push_number, push_pair, push_props};
use exact_geom::Rows;
use fixed_num::Text;
use map_nodes::{Node, NodeId, Props};
use std::alloc::{AllocError, Global};
use tree_node::Map;
use uv_lock::Format;

fn push_version(
    alloc: Global,
    pairs: &mut Vec<(Text, Text)>,
    format: Format,
) -> Result<(), AllocError>
    ensures { OnOk result (pairs.new.items ≡ pairs.old.items ++ version_props format) }
{
    match format {
        Format::Standard => Ok(()),
        Format::Valve => push_pair(alloc, pairs, b"mapversion", b"220"),
    }
}

fn push_locked(alloc: Global, pairs: &mut Vec<(Text, Text)>, frozen: bool) -> Result<(), AllocError>
    ensures { OnOk result (pairs.new.items ≡ pairs.old.items ++ locked_props frozen) }
{
    if frozen {
        return push_pair(alloc, pairs, b"_tb_layer_locked", b"1");
    }
    Ok(())
}

// The head of a layer or a group.
fn push_head(
    alloc: Global,
    pairs: &mut Vec<(Text, Text)>,
    kind: &[u8],
    name: &[u8],
    id: u32,
) -> Result<(), AllocError>
    ensures { OnOk result (pairs.new.items ≡ pairs.old.items ++ head_props kind.now name.now (decimal id)) }
{
    push_pair(alloc, pairs, b"classname", b"func_group")?;
    push_pair(alloc, pairs, b"_tb_type", kind)?;
    push_pair(alloc, pairs, b"_tb_name", name)?;
    push_number(alloc, pairs, b"_tb_id", id)?;
    Ok(())
}

// The key that tells which layer or group a node lies in.
fn push_parent(
    alloc: Global,
    pairs: &mut Vec<(Text, Text)>,
    map: &Map,
    ids: &Ids,
    parent: NodeId,
) -> Result<(), AllocError>
    requires ids { HasIds (whole map.now) ids.now }
    ensures { OnOk result (pairs.new.items ≡ pairs.old.items ++ parent_props (whole map.now) parent) }
{
    match map.get(parent) {
        Some(Node::Layer { .. }) => {
            push_number(alloc, pairs, b"_tb_layer", ids.id(parent))?;
            Ok(())
        }
        Some(Node::Group { .. }) => {
            push_number(alloc, pairs, b"_tb_group", ids.id(parent))?;
            Ok(())
        }
        _ => Ok(()),
    }
}

// Appends a key, with a `;` before it where it isn't the first.
fn push_key(text: &mut Vec<u8>, later: bool, key: &[u8]) -> Result<(), AllocError>
    ensures { OnOk result (text.new.items ≡ with_key later text.old.items key.now) }
{
    if later {
        text.push(b';')?;
        text.extend_from_slice(key)?;
        return Ok(());
    }
    text.extend_from_slice(key)?;
    Ok(())
}

// The keys as one text, with a `;` between two.
fn joined(alloc: Global, keys: &[Text]) -> Result<Vec<u8>, AllocError>
    ensures { IfOk result (λ text. text.items ≡ joined_keys keys.now) }
{
    let mut text = Vec::new(alloc);
    for k in 0..keys.len() {
        push_key(&mut text, k > 0, keys[k].bytes())?;
    }
    Ok(text)
}

fn push_protected(
    alloc: Global,
    pairs: &mut Vec<(Text, Text)>,
    keys: &[Text],
) -> Result<(), AllocError>
    ensures { OnOk result (pairs.new.items ≡ pairs.old.items ++ protected_props keys.now) }
{
    if keys.is_empty() {
        return Ok(());
    }
    let text = joined(alloc, keys)?;
    push_pair(alloc, pairs, b"_tb_protected_properties", &text)?;
    Ok(())
}

fn world_props(
    alloc: Global,
    format: Format,
    props: &Props,
) -> Result<Rows<(Text, Text)>, AllocError>
    ensures { IfOk result (λ pairs. pairs ≡ (codes "classname", codes "worldspawn") ∷ version_props format ++ props.now) }
{
    let mut pairs = Vec::new(alloc);
    push_pair(alloc, &mut pairs, b"classname", b"worldspawn")?;
    push_version(alloc, &mut pairs, format)?;
    push_props(alloc, &mut pairs, props)?;
    Ok(Rows::of(pairs))
}

fn layer_props(
    alloc: Global,
    id: u32,
    name: &[u8],
    frozen: bool,
    props: &Props,
) -> Result<Rows<(Text, Text)>, AllocError>
    ensures { IfOk result (λ pairs. pairs ≡ head_props (codes "_tb_layer") name.now (decimal id) ++ locked_props frozen ++ props.now) }
{
    let mut pairs = Vec::new(alloc);
    push_head(alloc, &mut pairs, b"_tb_layer", name, id)?;
    push_locked(alloc, &mut pairs, frozen)?;
    push_props(alloc, &mut pairs, props)?;
    Ok(Rows::of(pairs))
}

// The properties of a group without a link.
fn group_props(
    alloc: Global,
    map: &Map,
    ids: &Ids,
    id: u32,
    name: &[u8],
    parent: NodeId,
    props: &Props,
) -> Result<Rows<(Text, Text)>, AllocError>
    requires ids { HasIds (whole map.now) ids.now }
    ensures { IfOk result (λ pairs. pairs ≡ head_props (codes "_tb_group") name.now (decimal id) ++ parent_props (whole map.now) parent ++ props.now) }
{
    let mut pairs = Vec::new(alloc);
    push_head(alloc, &mut pairs, b"_tb_group", name, id)?;
    push_parent(alloc, &mut pairs, map, ids, parent)?;
    push_props(alloc, &mut pairs, props)?;
    Ok(Rows::of(pairs))
}

fn entity_props(
    alloc: Global,
    map: &Map,
    ids: &Ids,
    parent: NodeId,
    props: &Props,
    protected: &[Text],
) -> Result<Rows<(Text, Text)>, AllocError>
    requires ids { HasIds (whole map.now) ids.now }
    ensures { IfOk result (λ pairs. pairs ≡ props.now ++ parent_props (whole map.now) parent ++ protected_props protected.now) }
{
    let mut pairs = Vec::new(alloc);
    push_props(alloc, &mut pairs, props)?;
    push_parent(alloc, &mut pairs, map, ids, parent)?;
    push_protected(alloc, &mut pairs, protected)?;
    Ok(Rows::of(pairs))
}

/// The properties of a node in the file, in their order. The node isn't linked.
pub(crate) fn saved_props(
    alloc: Global,
    map: &Map,
    ids: &Ids,
    id: NodeId,
    node: &Node,
) -> Result<Rows<(Text, Text)>, AllocError>
    requires ids { HasIds (whole map.now) ids.now }
    requires plain { link_of node.now ≡ None }
    ensures { IfOk result (λ pairs. pairs ≡ saved_props (whole map.now) id node.now) }
{
    match node {
        Node::World { format, props, .. } => Ok(world_props(alloc, *format, props)?),
        Node::Layer {
            name,
            frozen,
            props,
            ..
        } => Ok(layer_props(alloc, ids.id(id), name.bytes(), *frozen, props)?),
        Node::Group {
            parent,
            name,
            props,
            ..
        } => Ok(group_props(alloc, map, ids, ids.id(id), name.bytes(), *parent, props)?),
        Node::Entity {
            parent,
            props,
            protected,
            ..
        } => Ok(entity_props(alloc, map, ids, *parent, props, protected.list())?),
        Node::Brush { .. } => Ok(Rows::of(Vec::new(alloc))),
    }
}
