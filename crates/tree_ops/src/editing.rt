//! Commands, planned.

ghost use Rattle.std.specs.Prelude.{◌≡◌, IsTrue, IfOk, IfErr};
ghost use Rattle.map_model.specs.Tree.{whole};
ghost use Rattle.map_model.specs.Edits.{swap};
ghost use Rattle.map_model.specs.Commands.{IsGood};
ghost use Rattle.map_model.specs.Promises.{Plans};
ghost use Rattle.tree_node.specs.Held.{IsMap};
ghost use Rattle.tree_ops.specs.TreeCommands.{is_tree_command};
ghost use Rattle.tree_ops.specs.Faults.{RefusesRightly};

use crate::fault::OpFault;
use crate::named::named;
use crate::plan::plan;
use crate::planned::Planned;
use crate::refusing::first_refusal;
use crate::settings::Settings;
use cmd_text::Command;
use std::alloc::Global;
use tree_node::Map;

/// Plans a command of the tree: the first refusal of the one order, or a change that names exactly the nodes that differ,
/// with the reply. The map after the change is one again. The command is one of the twelve of this crate, as a line of a
/// script reads. Nothing is said where there is no memory for it.
pub fn edit(alloc: Global, map: &Map, set: &Settings, c: &Command) -> Result<Planned, OpFault>
    requires own { IsTrue (is_tree_command c.now) }
    requires good { IsGood c.now }
    ensures planned { IfOk result (λ p. Plans set.now (whole map.now) c.now p.change p.reply) }
    ensures sound { IfOk result (λ p. IsMap (swap (whole map.now) p.change)) }
    ensures refused { IfErr result (RefusesRightly set.now (whole map.now) c.now) }
{
    map.is_map();
    let named = named(alloc, c)?;
    first_refusal(map, c, &named)?;
    let planned = plan(alloc, map, c, &named)?;
    Ok(planned)
}
