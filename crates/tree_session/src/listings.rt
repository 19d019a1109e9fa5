//! The words that list.

ghost use Rattle.map_model.specs.Tree.{whole};
ghost use Rattle.tree_session.specs.Sitting.{answer_of};
ghost use Rattle.tree_session.specs.Words.{show_refusal, ListsNode, ListsTree};
ghost use Rattle.std.specs.Prelude.{◌≡◌};

use crate::answer::Answer;
use crate::show_listing::show_text;
use crate::tree_listing::tree_text;
use cmd_text::{Refusal, Reply};
use map_nodes::{Node, NodeId};
use std::alloc::Global;
use tree_node::Map;

// Why a node can't be shown: there is none of this number, or it is a layer or a group.
fn show_refusal(map: &Map, node: u32) -> Option<Refusal>
    ensures { result ≡ show_refusal (whole map.now) node }
{
    match map.get(NodeId(node)) {
        None => Some(Refusal::NoNode(node)),
        Some(Node::Layer { .. }) => Some(Refusal::WrongKind(node)),
        Some(Node::Group { .. }) => Some(Refusal::WrongKind(node)),
        Some(_) => None,
    }
}

/// Lists a node, or tells why not.
pub(crate) fn show(alloc: Global, map: &Map, node: u32) -> Answer
    ensures { ListsNode (whole map.now) node (answer_of result) }
{
    if let Some(refusal) = show_refusal(map, node) {
        return Answer::Short(Reply::No(refusal));
    }
    match show_text(alloc, map, NodeId(node)) {
        Ok(text) => Answer::Long(text),
        Err(_) => Answer::Short(Reply::Memory),
    }
}

/// Lists all nodes.
pub(crate) fn tree(alloc: Global, map: &Map) -> Answer
    ensures { ListsTree (whole map.now) (answer_of result) }
{
    match tree_text(alloc, map) {
        Ok(text) => Answer::Long(text),
        Err(_) => Answer::Short(Reply::Memory),
    }
}
