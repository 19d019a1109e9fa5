//! Commands, planned.

ghost use Rattle.std.specs.Prelude.{◌≡◌, IsTrue, IfOk, IfErr};
ghost use Rattle.map_model.specs.Tree.{whole};
ghost use Rattle.map_model.specs.Edits.{swap};
ghost use Rattle.map_model.specs.Commands.{IsGood};
ghost use Rattle.map_model.specs.Promises.{Plans};
ghost use Rattle.tree_node.specs.Held.{IsMap};
ghost use Rattle.tree_ops.specs.Faults.{RefusesRightly};
ghost use Rattle.hull_plans.specs.HullCommands.{is_hull_command};

use crate::hulling::plan_hull;
use crate::merging::plan_merge;
use cmd_text::Command;
use std::alloc::Global;
use tree_node::Map;
use tree_ops::{OpFault, Planned, Settings};

/// Whether it is a command of this crate.
pub fn is_hull_command(c: &Command) -> bool
    ensures { result ≡ is_hull_command c.now }
{
    matches!(c, Command::Hull { .. } | Command::Merge { .. })
}

/// Plans a command of this crate: the first refusal of the one order, or a change that names exactly the nodes that differ,
/// with the reply. The map after the change is one again. The command is one of this crate, such as a line of a script gives.
/// Nothing is said where there is no memory for it.
pub fn edit(alloc: Global, map: &Map, set: &Settings, c: &Command) -> Result<Planned, OpFault>
    requires own { IsTrue (is_hull_command c.now) }
    requires good { IsGood c.now }
    ensures planned { IfOk result (λ p. Plans set.now (whole map.now) c.now p.change p.reply) }
    ensures sound { IfOk result (λ p. IsMap (swap (whole map.now) p.change)) }
    ensures refused { IfErr result (RefusesRightly set.now (whole map.now) c.now) }
{
    match c {
        Command::Hull { points } => plan_hull(alloc, map, set, points),
        Command::Merge { nodes } => plan_merge(alloc, map, set, nodes),
        _ => unreachable!(),
    }
}
