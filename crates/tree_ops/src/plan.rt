//! What follows where no row refuses a command.

ghost use Rattle.std.specs.Prelude.{◌≡◌, IsTrue, IfOk};
ghost use Rattle.map_model.specs.Tree.{whole};
ghost use Rattle.map_model.specs.History.{Tight};
ghost use Rattle.map_model.specs.Rows.{named};
ghost use Rattle.tree_ops.specs.TreeCommands.{is_tree_command};
ghost use Rattle.tree_ops.specs.Planning.{made_by, reply_by, Ends};

use crate::fault::OpFault;
use crate::own::own;
use crate::planned::Planned;
use crate::pruning::prune;
use cmd_text::{Command, Reply};
use map_nodes::NodeId;
use std::alloc::Global;
use tree_node::{Change, Map};

/// The command's own changes, and then what they leave empty goes. The row of numbers may refuse them.
pub(crate) fn plan(
    alloc: Global,
    map: &Map,
    c: &Command,
    ids: &[NodeId],
) -> Result<Planned, OpFault>
    requires own { IsTrue (is_tree_command c.now) }
    requires these { ids.now ≡ named c.now }
    ensures ends { Ends (whole map.now) c.now result }
    ensures tight { IfOk result (λ p. Tight (whole map.now) p.change) }
{
    map.is_map();
    let made = made_by(c);
    let mut change = Change::new(alloc, map);
    change.room(u64::from(made))?;
    own(alloc, map, &mut change, c, ids)?;
    prune(alloc, map, &mut change, ids)?;
    change.tighten(map);
    let reply = reply_by(made, map.next());
    Ok(Planned { change, reply })
}

// How many nodes the command makes.
fn made_by(c: &Command) -> u32
    requires { IsTrue (is_tree_command c.now) }
    ensures { result ≡ made_by c.now }
{
    match c {
        Command::Entity { .. } => 1,
        Command::Tie { .. } => 1,
        Command::Layer { .. } => 1,
        Command::Group { .. } => 1,
        _ => 0,
    }
}

fn reply_by(made: u32, first: u32) -> Reply
    ensures { result ≡ reply_by made first }
{
    if made == 0 {
        Reply::Ok
    } else {
        Reply::Made { count: made, first }
    }
}
