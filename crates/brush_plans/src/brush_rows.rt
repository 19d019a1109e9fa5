//! The rows on the brushes that a command names.

ghost use Rattle.std.specs.Prelude.{◌≡◌, not};
ghost use Rattle.map_model.specs.Tree.{whole, is_brush};
ghost use Rattle.map_model.specs.Rows.{refuse, at_each, first};
ghost use Rattle.map_model.specs.Replies.{WrongKind};
ghost use Rattle.tree_ops.specs.Passing.{passes};
ghost use Rattle.brush_plans.specs.NamedRows.{brush_rows};

use cmd_text::Refusal;
use map_nodes::NodeId;
use tree_node::Map;
use tree_ops::rows;

/// The first of the rows on nodes that refuses a command on these brushes: `NoNode`, `Repeated`, `WrongKind` for what is no
/// brush, `LockedLayer`; each with the first number at which it holds.
pub fn refuse_brushes(map: &Map, ids: &[NodeId]) -> Result<(), Refusal>
    ensures { result ≡ passes (first (brush_rows (whole map.now) ids.now)) }
{
    rows::no_node(map, ids)?;
    rows::repeated(ids)?;
    no_brush(map, ids)?;
    rows::locked_layer(map, ids)
}

// `WrongKind` with the first of the nodes that is no brush.
fn no_brush(map: &Map, ids: &[NodeId]) -> Result<(), Refusal>
    ensures { result ≡ passes (at_each ids.now (λ n. refuse (not (is_brush (whole map.now) n)) (WrongKind n))) }
{
    for id in ids {
        if !is_brush(map, *id) {
            return Err(Refusal::WrongKind(id.number()));
        }
    }
    Ok(())
}

fn is_brush(map: &Map, id: NodeId) -> bool
    ensures { result ≡ is_brush (whole map.now) id }
{
    match map.get(id) {
        None => false,
        Some(node) => node.is_brush(),
    }
}
