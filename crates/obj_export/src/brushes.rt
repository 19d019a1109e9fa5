//! Brushes in a text that is counted.

ghost use Rattle.std.specs.Prelude.{◌≡◌, ◌<◌, ◌^◌, length, OnOk};
ghost use Rattle.map_model.specs.Tree.{whole};
ghost use Rattle.obj_export.specs.Adding.{AddsLines, AddsBrush, AddsNode, AddsNodes, obj_at};
ghost use Rattle.obj_export.specs.Counted.{IsCounted};

use crate::faces::put_faces;
use crate::vertices::put_vertices;
use map_nodes::{Body, Node, NodeId};
use std::alloc::AllocError;
use tree_node::Map;

/// How many brushes, vertices and faces a text has.
#[derive(Clone, Copy, Debug)]
pub(crate) struct Counts {
    pub(crate) brushes: u64,
    pub(crate) vertices: u64,
    pub(crate) faces: u64,
}

// Fewer than 2^63 bytes fit into memory.
fn fits(text: &[u8])
    ensures { length text.now < 2 ^ 63 }
{}

// Adds the lines of a brush, behind so many vertices of earlier ones.
fn put_lines(text: &mut Vec<u8>, body: &Body, before: u64) -> Result<(), AllocError>
    requires room { before < 2 ^ 63 }
    ensures { OnOk result (AddsLines body.now before text.old.items text.new.items) }
{
    put_vertices(text, body.solid())?;
    put_faces(text, body, before)
}

// Adds a brush, and counts what it has.
fn add_brush(text: &mut Vec<u8>, counts: &mut Counts, body: &Body) -> Result<(), AllocError>
    requires counted { IsCounted (obj_at text.old.items counts.old) }
    ensures added { OnOk result (AddsBrush body.now (obj_at text.old.items counts.old) (obj_at text.new.items counts.new)) }
    ensures counted { OnOk result (IsCounted (obj_at text.new.items counts.new)) }
{
    body.is_valid();
    fits(text);
    put_lines(text, body, counts.vertices)?;
    fits(text);
    counts.brushes += 1;
    counts.vertices += u64::from(body.solid().vertex_count());
    counts.faces += body.faces().len() as u64;
    Ok(())
}

// Adds the node of a number, if it is a brush.
fn add_node(
    text: &mut Vec<u8>,
    counts: &mut Counts,
    map: &Map,
    id: NodeId,
) -> Result<(), AllocError>
    requires counted { IsCounted (obj_at text.old.items counts.old) }
    ensures added { OnOk result (AddsNode (whole map.now) id (obj_at text.old.items counts.old) (obj_at text.new.items counts.new)) }
    ensures counted { OnOk result (IsCounted (obj_at text.new.items counts.new)) }
{
    match map.get(id) {
        Some(Node::Brush { body, .. }) => add_brush(text, counts, body),
        _ => Ok(()),
    }
}

/// Adds the nodes of these numbers that are brushes, in order.
pub(crate) fn add_nodes(
    text: &mut Vec<u8>,
    counts: &mut Counts,
    map: &Map,
    ids: &[NodeId],
) -> Result<(), AllocError>
    requires counted { IsCounted (obj_at text.old.items counts.old) }
    ensures added { OnOk result (AddsNodes (whole map.now) ids.now (obj_at text.old.items counts.old) (obj_at text.new.items counts.new)) }
{
    for id in ids {
        add_node(text, counts, map, *id)?;
    }
    Ok(())
}
