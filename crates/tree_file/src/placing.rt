//! The slots of one item: its node, and then its brushes.

ghost use Rattle.std.specs.Prelude.{◌≡◌, ◌+◌, ◌<◌, ◌^◌, ◌++◌, length, map, Some, None, IfOk, OnOk};
ghost use Rattle.map_model.specs.Tree.{Brush, numbers_from};
ghost use Rattle.tree_file.specs.Passes.{bodies_of};
ghost use Rattle.tree_file.specs.Slots.{placed_slots};

use crate::numbering::body_count;
use crate::reading::Reading;
use exact_geom::Rows;
use map_nodes::{Body, Node, NodeId};
use map_text::Reason;
use std::alloc::{AllocError, Global};

// So many numbers from one on.
fn ids_from(alloc: Global, first: u32, count: usize) -> Result<Rows<NodeId>, AllocError>
    requires few { first + count < 2 ^ 32 }
    ensures { IfOk result (λ ids. ids ≡ numbers_from first count) }
{
    let mut ids = Vec::with_capacity(alloc, count)?;
    for k in 0..count {
        ids.push(NodeId(first + k as u32))?;
    }
    Ok(Rows::of(ids))
}

// Pushes the brushes of a map among those of a file, as nodes beneath a number.
fn push_brushes(
    slots: &mut Vec<Option<Node>>,
    parent: NodeId,
    brushes: Vec<Result<Body, Reason>>,
) -> Result<(), AllocError>
    ensures { OnOk result (slots.new.items ≡ slots.old.items ++ map (λ faces. Some (Brush parent None faces)) (bodies_of brushes.items)) }
{
    for brush in brushes {
        if let Ok(body) = brush {
            slots.push(Some(Node::Brush {
                parent,
                mark: None,
                body,
            }))?;
        }
    }
    Ok(())
}

/// Pushes the node of a reading, under its number, with its parent and its children, and its brushes behind it.
pub(crate) fn push_place(
    alloc: Global,
    slots: &mut Vec<Option<Node>>,
    number: u32,
    parent: u32,
    others: Rows<NodeId>,
    reading: Reading,
) -> Result<(), AllocError>
    requires few { number + length (bodies_of reading.brushes) + 1 < 2 ^ 32 }
    ensures { OnOk result (slots.new.items ≡ slots.old.items ++ placed_slots number parent others reading) }
{
    let (mut node, brushes) = reading.into_parts();
    let own = ids_from(alloc, number + 1, body_count(&brushes))?;
    node.put_list(false, others);
    node.put_list(true, own);
    node.set_parent(NodeId(parent));
    slots.push(Some(node))?;
    push_brushes(slots, NodeId(number), brushes)
}
