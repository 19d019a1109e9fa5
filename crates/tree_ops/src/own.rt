//! What each command itself changes in a map.

ghost use Rattle.std.specs.Prelude.{◌≡◌, ◌+◌, ◌<◌, ◌≤◌, OnOk};
ghost use Rattle.map_model.specs.Below.{Below};
ghost use Rattle.map_model.specs.Commands as words;
ghost use Rattle.map_model.specs.Edits.{put_last};
ghost use Rattle.map_model.specs.Rows.{named};
ghost use Rattle.map_model.specs.Own.{own};
ghost use Rattle.tree_node.specs.Held.{changed};
ghost use Rattle.tree_ops.specs.Planning.{made_by};

use crate::gathering::gather;
use crate::making::{entity_of, group_of, layer_of, point_entity_of};
use crate::removal::{delete_all, ungroup_all, untie_all};
use cmd_text::Command;
use map_nodes::{Node, NodeId};
use std::alloc::{AllocError, Global};
use tree_node::{Change, Map};

/// Makes the command's own changes. No other command than one of the tree comes here.
pub(crate) fn own(
    alloc: Global,
    map: &Map,
    change: &mut Change,
    c: &Command,
    ids: &[NodeId],
) -> Result<(), AllocError>
    requires these { ids.now ≡ named c.now }
    requires room { change.old.next + made_by c.now ≤ 65536 }
    ensures { OnOk result ((b : Below) (s : words.Settings) → changed map.now change.new ≡ own b s (changed map.now change.old) c.now) }
{
    match c {
        Command::Delete { .. } => delete_all(alloc, map, change, ids),
        Command::Entity { class, at } => {
            let node = point_entity_of(alloc, class.bytes(), *at)?;
            put_in_world(alloc, map, change, node)
        }
        Command::Set { node, key, value } => {
            change.set_value(alloc, map, NodeId(*node), key.bytes(), value.bytes())
        }
        Command::Unset { node, key } => change.unset_value(alloc, map, NodeId(*node), key.bytes()),
        Command::Tie { class, .. } => {
            let node = entity_of(alloc, class.bytes())?;
            gather(alloc, map, change, node, ids)
        }
        Command::Untie { .. } => untie_all(alloc, map, change, ids),
        Command::Layer { name } => {
            let node = layer_of(alloc, name.bytes())?;
            put_in_world(alloc, map, change, node)
        }
        Command::Freeze { node } => change.set_frozen(alloc, map, NodeId(*node), true),
        Command::Thaw { node } => change.set_frozen(alloc, map, NodeId(*node), false),
        Command::Group { name, .. } => {
            let node = group_of(alloc, name.bytes())?;
            gather(alloc, map, change, node, ids)
        }
        Command::Ungroup { .. } => ungroup_all(alloc, map, change, ids),
        Command::Into { place, .. } => change.move_all(alloc, map, NodeId(*place), &ids[1..]),
        _ => Err(AllocError),
    }
}

// A new node at the end of the world.
fn put_in_world(alloc: Global, map: &Map, change: &mut Change, node: Node) -> Result<(), AllocError>
    requires { change.old.next < 65536 }
    ensures { OnOk result (changed map.now change.new ≡ put_last 0 node (changed map.now change.old)) }
{
    change.put_last(alloc, map, NodeId(0), node)?;
    Ok(())
}
