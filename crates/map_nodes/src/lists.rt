//! Lists of children and of texts: built anew, and compared.

ghost use Rattle.std.specs.Prelude.{◌≡◌, [], ◌∷◌, ◌++◌, length, take, IfOk};
ghost use Rattle.std.specs.Bool.{Decides};
ghost use Rattle.map_nodes.specs.Lists.{without, in_place};

use crate::node_id::NodeId;
use exact_geom::Rows;
use fixed_num::Text;
use std::alloc::{AllocError, Global};

// The list with one more.
pub(crate) fn with_one_more(
    alloc: Global,
    list: &[NodeId],
    id: NodeId,
) -> Result<Rows<NodeId>, AllocError>
    ensures { IfOk result (λ new. new ≡ list.now ++ id ∷ []) }
{
    let mut new = Vec::with_capacity(alloc, list.len().saturating_add(1))?;
    new.extend_from_slice(list)?;
    new.push(id)?;
    Ok(Rows::of(new))
}

// Takes one out, wherever it stands.
fn remove_all(list: &mut Vec<NodeId>, id: NodeId)
    ensures { list.new.items ≡ without id list.old.items }
{
    list.retain(|child| *child != id);
}

// The list without one, wherever it stands.
pub(crate) fn without(
    alloc: Global,
    list: &[NodeId],
    id: NodeId,
) -> Result<Rows<NodeId>, AllocError>
    ensures { IfOk result (λ new. new ≡ without id list.now) }
{
    let mut new = Vec::from_slice(alloc, list)?;
    remove_all(&mut new, id);
    Ok(Rows::of(new))
}

// The list with others in the place of one.
pub(crate) fn with_in_place(
    alloc: Global,
    list: &[NodeId],
    id: NodeId,
    others: &[NodeId],
) -> Result<Rows<NodeId>, AllocError>
    ensures { IfOk result (λ new. new ≡ in_place id others.now list.now) }
{
    let mut new = Vec::with_capacity(alloc, list.len())?;
    for child in list {
        if *child == id {
            new.extend_from_slice(others)?;
        } else {
            new.push(*child)?;
        }
    }
    Ok(Rows::of(new))
}

// An equal list.
pub(crate) fn copy_of(alloc: Global, list: &[NodeId]) -> Result<Rows<NodeId>, AllocError>
    ensures { IfOk result (λ new. new ≡ list.now) }
{
    Ok(Rows::of(Vec::from_slice(alloc, list)?))
}

// Equal texts.
pub(crate) fn copy_texts(alloc: Global, texts: &[Text]) -> Result<Rows<Text>, AllocError>
    ensures { IfOk result (λ new. new ≡ texts.now) }
{
    let mut new = Vec::with_capacity(alloc, texts.len())?;
    for text in texts {
        new.push(Text::of(alloc, text.bytes())?)?;
    }
    Ok(Rows::of(new))
}

/// Whether two lists have the same numbers in the same order.
pub(crate) fn same_ids(a: &[NodeId], b: &[NodeId]) -> bool
    ensures { Decides result (a.now ≡ b.now) }
{
    a == b
}

/// Whether two lists have the same texts in the same order.
pub(crate) fn same_texts(a: &[Text], b: &[Text]) -> bool
    ensures { Decides result (a.now ≡ b.now) }
{
    if a.len() != b.len() {
        return false;
    }
    for k in 0..a.len() {
        if a[k].bytes() != b[k].bytes() {
            return false;
        }
    }
    true
}
