//! The rows on the nodes that a command moves.

ghost use Rattle.std.specs.Prelude.{◌≡◌, not};
ghost use Rattle.map_model.specs.Tree.{whole};
ghost use Rattle.map_model.specs.Rows.{refuse, at_each, first, is_movable, kind_passes};
ghost use Rattle.map_model.specs.Replies.{WrongKind};
ghost use Rattle.tree_ops.specs.Passing.{passes};
ghost use Rattle.brush_plans.specs.NamedRows.{node_rows};

use cmd_text::Refusal;
use map_nodes::NodeId;
use tree_node::Map;
use tree_ops::{is_movable, rows};

/// The first of the rows on nodes that refuses to move these.
pub fn refuse_nodes(map: &Map, ids: &[NodeId]) -> Result<(), Refusal>
    ensures { result ≡ passes (first (node_rows (whole map.now) ids.now)) }
{
    rows::no_node(map, ids)?;
    rows::repeated(ids)?;
    wrong_kind(map, ids)?;
    rows::nested_ids(map, ids, None)?;
    rows::locked_layer(map, ids)
}

// `WrongKind` with the first of the nodes that can't be moved.
fn wrong_kind(map: &Map, ids: &[NodeId]) -> Result<(), Refusal>
    ensures { result ≡ passes (at_each ids.now (λ n. refuse (not (kind_passes (whole map.now) is_movable n)) (WrongKind n))) }
{
    for id in ids {
        if !can_be_moved(map, *id) {
            return Err(Refusal::WrongKind(id.number()));
        }
    }
    Ok(())
}

fn can_be_moved(map: &Map, id: NodeId) -> bool
    ensures { result ≡ kind_passes (whole map.now) is_movable id }
{
    match map.get(id) {
        None => false,
        Some(node) => is_movable(node),
    }
}
