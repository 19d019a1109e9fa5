//! What a command names.

ghost use Rattle.std.specs.Prelude.{◌≡◌, [], ◌∷◌, ◌++◌, IsTrue, IfOk, OnOk};
ghost use Rattle.tree_ops.specs.TreeCommands.{is_tree_command};
ghost use Rattle.map_model.specs.Rows.{named, taken};
ghost use Rattle.tree_ops.specs.Passing.{place_of};

use cmd_text::Command;
use exact_geom::Rows;
use map_nodes::NodeId;
use std::alloc::{AllocError, Global};

/// The nodes that a command names, in the line's order.
pub(crate) fn named(alloc: Global, c: &Command) -> Result<Vec<NodeId>, AllocError>
    requires { IsTrue (is_tree_command c.now) }
    ensures { IfOk result (λ ids. ids.items ≡ named c.now) }
{
    match c {
        Command::Delete { nodes } => ids(alloc, nodes),
        Command::Set { node, .. } => one(alloc, *node),
        Command::Unset { node, .. } => one(alloc, *node),
        Command::Tie { nodes, .. } => ids(alloc, nodes),
        Command::Untie { nodes } => ids(alloc, nodes),
        Command::Freeze { node } => one(alloc, *node),
        Command::Thaw { node } => one(alloc, *node),
        Command::Group { nodes, .. } => ids(alloc, nodes),
        Command::Ungroup { nodes } => ids(alloc, nodes),
        Command::Into { place, nodes } => ids_after(alloc, *place, nodes),
        _ => Ok(Vec::new(alloc)),
    }
}

fn one(alloc: Global, number: u32) -> Result<Vec<NodeId>, AllocError>
    ensures { IfOk result (λ ids. ids.items ≡ number ∷ []) }
{
    let mut ids = Vec::with_capacity(alloc, 1)?;
    ids.push(NodeId(number))?;
    Ok(ids)
}

/// The numbers of nodes as a line names them.
pub fn ids(alloc: Global, numbers: &Rows<u32>) -> Result<Vec<NodeId>, AllocError>
    ensures { IfOk result (λ ids. ids.items ≡ numbers.now) }
{
    let mut ids = Vec::new(alloc);
    push_all(&mut ids, numbers)?;
    Ok(ids)
}

fn ids_after(alloc: Global, first: u32, numbers: &Rows<u32>) -> Result<Vec<NodeId>, AllocError>
    ensures { IfOk result (λ ids. ids.items ≡ first ∷ numbers.now) }
{
    let mut ids = one(alloc, first)?;
    push_all(&mut ids, numbers)?;
    Ok(ids)
}

fn push_all(ids: &mut Vec<NodeId>, numbers: &Rows<u32>) -> Result<(), AllocError>
    ensures { OnOk result (ids.new.items ≡ ids.old.items ++ numbers.now) }
{
    for number in numbers.list() {
        ids.push(NodeId(*number))?;
    }
    Ok(())
}

/// Of the nodes that a command names, those that it takes with all beneath them, where it refuses one beneath another.
pub(crate) fn taken<'a>(c: &Command, ids: &'a [NodeId]) -> &'a [NodeId]
    requires own { IsTrue (is_tree_command c.now) }
    requires these { ids.now ≡ named c.now }
    ensures { result.now ≡ taken c.now }
{
    match c {
        Command::Delete { .. } => ids,
        Command::Group { .. } => ids,
        Command::Into { .. } => &ids[1..],
        _ => &[],
    }
}

/// Where the nodes go, if the command says it by a node.
pub(crate) fn place_of(c: &Command) -> Option<u32>
    ensures { result ≡ place_of c.now }
{
    match c {
        Command::Into { place, .. } => Some(*place),
        _ => None,
    }
}
