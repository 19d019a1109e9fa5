//! The rows of the commands of the tree, in their order.

ghost use Rattle.std.specs.Prelude.{◌≡◌, IsTrue};
ghost use Rattle.map_laws.specs.Unlinked.{tree_rows};
ghost use Rattle.map_model.specs.Tree.{whole};
ghost use Rattle.map_model.specs.Rows.{first, named, no_node, repeated, nested_ids, locked_layer};
ghost use Rattle.tree_ops.specs.TreeCommands.{is_tree_command};
ghost use Rattle.tree_ops.specs.Passing.{passes};

use crate::keys::{no_key, reserved_key};
use crate::kinds::wrong_kind;
use crate::named::{place_of, taken};
use crate::rows;
use cmd_text::{Command, Refusal};
use map_nodes::NodeId;
use tree_node::Map;

/// The first row that refuses the command.
pub(crate) fn first_refusal(map: &Map, c: &Command, ids: &[NodeId]) -> Result<(), Refusal>
    requires own { IsTrue (is_tree_command c.now) }
    requires these { ids.now ≡ named c.now }
    ensures { result ≡ passes (first (tree_rows (whole map.now) c.now)) }
{
    no_node(map, c, ids)?;
    repeated(c, ids)?;
    wrong_kind(map, c, ids)?;
    nested_ids(map, c, ids)?;
    locked_layer(map, c, ids)?;
    reserved_key(c)?;
    no_key(map, c)
}

fn no_node(map: &Map, c: &Command, ids: &[NodeId]) -> Result<(), Refusal>
    requires { ids.now ≡ named c.now }
    ensures { result ≡ passes (no_node (whole map.now) c.now) }
{
    rows::no_node(map, ids)
}

fn repeated(c: &Command, ids: &[NodeId]) -> Result<(), Refusal>
    requires { ids.now ≡ named c.now }
    ensures { result ≡ passes (repeated c.now) }
{
    rows::repeated(ids)
}

fn nested_ids(map: &Map, c: &Command, ids: &[NodeId]) -> Result<(), Refusal>
    requires own { IsTrue (is_tree_command c.now) }
    requires these { ids.now ≡ named c.now }
    ensures { result ≡ passes (nested_ids (whole map.now) c.now) }
{
    rows::nested_ids(map, taken(c, ids), place_of(c))
}

// The first named node that is a frozen layer or lies in one, which `freeze` and `thaw` don't ask.
fn locked_layer(map: &Map, c: &Command, ids: &[NodeId]) -> Result<(), Refusal>
    requires own { IsTrue (is_tree_command c.now) }
    requires these { ids.now ≡ named c.now }
    ensures { result ≡ passes (locked_layer (whole map.now) c.now) }
{
    match c {
        Command::Freeze { .. } => Ok(()),
        Command::Thaw { .. } => Ok(()),
        _ => rows::locked_layer(map, ids),
    }
}
