//! Commands, planned.

ghost use Rattle.std.specs.Prelude.{◌≡◌, IsTrue, IfOk, IfErr};
ghost use Rattle.map_model.specs.Tree.{whole};
ghost use Rattle.map_model.specs.Edits.{swap};
ghost use Rattle.map_model.specs.Commands.{IsGood};
ghost use Rattle.map_model.specs.Promises.{Plans};
ghost use Rattle.tree_node.specs.Held.{IsMap};
ghost use Rattle.tree_ops.specs.Faults.{RefusesRightly};
ghost use Rattle.edit_ops.specs.EditCommands.{is_edit_command};

use crate::boxing::plan_box;
use crate::copying::plan_copy;
use crate::moving::plan_moving;
use crate::texturing::plan_tex;
use cmd_text::Command;
use map_nodes::NodeId;
use std::alloc::Global;
use tree_node::Map;
use tree_ops::{OpFault, Planned, Settings};

/// Whether it is a command of this crate.
pub fn is_edit_command(c: &Command) -> bool
    ensures { result ≡ is_edit_command c.now }
{
    matches!(
        c,
        Command::Box { .. }
            | Command::Hull { .. }
            | Command::Copy { .. }
            | Command::Move { .. }
            | Command::Turn { .. }
            | Command::Flip { .. }
            | Command::Clip { .. }
            | Command::Subtract { .. }
            | Command::Intersect { .. }
            | Command::Merge { .. }
            | Command::Hollow { .. }
            | Command::Vertex { .. }
            | Command::Snap { .. }
            | Command::Tex { .. }
    )
}

/// Plans a command of this crate: the first refusal of the one order, or a change that names exactly the nodes that differ,
/// with the reply. The map after the change is one again. The command is one of this crate, such as a line of a script gives.
/// Nothing is said where there is no memory for it.
pub fn edit(alloc: Global, map: &Map, set: &Settings, c: &Command) -> Result<Planned, OpFault>
    requires own { IsTrue (is_edit_command c.now) }
    requires good { IsGood c.now }
    ensures planned { IfOk result (λ p. Plans set.now (whole map.now) c.now p.change p.reply) }
    ensures sound { IfOk result (λ p. IsMap (swap (whole map.now) p.change)) }
    ensures refused { IfErr result (RefusesRightly set.now (whole map.now) c.now) }
{
    match c {
        Command::Box { a, b } => plan_box(alloc, map, set, *a, *b),
        Command::Hull { .. } => hull_plans::edit(alloc, map, set, c),
        Command::Copy { .. } => plan_copy(alloc, map, set, c),
        Command::Move { .. } => plan_moving(alloc, map, set, c),
        Command::Turn { .. } => plan_moving(alloc, map, set, c),
        Command::Flip { .. } => plan_moving(alloc, map, set, c),
        Command::Clip { .. } => cut_plans::edit(alloc, map, set, c),
        Command::Subtract { .. } => cut_plans::edit(alloc, map, set, c),
        Command::Intersect { .. } => cut_plans::edit(alloc, map, set, c),
        Command::Merge { .. } => hull_plans::edit(alloc, map, set, c),
        Command::Hollow { .. } => hollow_plans::edit(alloc, map, set, c),
        Command::Vertex { .. } => vertex_plans::edit(alloc, map, set, c),
        Command::Snap { .. } => vertex_plans::edit(alloc, map, set, c),
        Command::Tex { node, face, .. } => plan_tex(alloc, map, set, c, NodeId(*node), *face),
        _ => unreachable!(),
    }
}
