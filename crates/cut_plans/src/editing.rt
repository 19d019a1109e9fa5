//! Commands, planned.

ghost use Rattle.std.specs.Prelude.{◌≡◌, IsTrue, IfOk, IfErr};
ghost use Rattle.map_model.specs.Tree.{whole};
ghost use Rattle.map_model.specs.Edits.{swap};
ghost use Rattle.map_model.specs.Commands.{IsGood};
ghost use Rattle.map_model.specs.Promises.{Plans};
ghost use Rattle.tree_node.specs.Held.{IsMap};
ghost use Rattle.tree_ops.specs.Faults.{RefusesRightly};
ghost use Rattle.cut_plans.specs.CutCommands.{is_cut_command};

use crate::clip_plans::plan_clip;
use crate::intersect_plans::plan_intersect;
use crate::subtract_plans::plan_subtract;
use cmd_text::Command;
use std::alloc::Global;
use tree_node::Map;
use tree_ops::{OpFault, Planned, Settings};

/// Whether it is a command of this crate.
pub fn is_cut_command(c: &Command) -> bool
    ensures { result ≡ is_cut_command c.now }
{
    matches!(
        c,
        Command::Clip { .. } | Command::Subtract { .. } | Command::Intersect { .. }
    )
}

/// Plans a command of this crate: the first refusal of the one order, or a change that names exactly the nodes that differ,
/// with the reply. The map after the change is one again. The command is one of this crate, such as a line of a script gives.
/// Nothing is said where there is no memory for it.
pub fn edit(alloc: Global, map: &Map, set: &Settings, c: &Command) -> Result<Planned, OpFault>
    requires own { IsTrue (is_cut_command c.now) }
    requires good { IsGood c.now }
    ensures planned { IfOk result (λ p. Plans set.now (whole map.now) c.now p.change p.reply) }
    ensures sound { IfOk result (λ p. IsMap (swap (whole map.now) p.change)) }
    ensures refused { IfErr result (RefusesRightly set.now (whole map.now) c.now) }
{
    match c {
        Command::Clip { part, plane, nodes } => plan_clip(alloc, map, set, *part, *plane, nodes),
        Command::Subtract { by, nodes } => plan_subtract(alloc, map, set, *by, nodes),
        Command::Intersect { nodes } => plan_intersect(alloc, map, set, nodes),
        _ => unreachable!(),
    }
}
