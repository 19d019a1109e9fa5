//! Commands that change the map.

ghost use Rattle.std.specs.Prelude.{◌≡◌, ◌≤◌, IsTrue, OnOk, IfOk, IfErr, length};
ghost use Rattle.map_model.specs.Tree.{whole};
ghost use Rattle.map_model.specs.Edits.{swap};
ghost use Rattle.map_model.specs.History.{Tight};
ghost use Rattle.map_model.specs.Commands.{IsGood};
ghost use Rattle.map_model.specs.Promises.{Plans};
ghost use Rattle.tree_node.specs.Held.{IsMap, AllBelow};
ghost use Rattle.tree_ops.specs.Faults.{RefusesRightly};
ghost use Rattle.undo_log.specs.Log.{Keeps, HasOneMore};
ghost use Rattle.tree_session.specs.Built.{changes_map};
ghost use Rattle.tree_session.specs.Words.{Carries, ChangesBy};

use crate::reading::is_tree_command;
use cmd_text::{Command, Reply};
use std::alloc::{AllocError, Global};
use tree_node::{Change, Map};
use tree_ops::{OpFault, Planned, Settings};
use undo_log::History;

// Makes room for a change in the map, and in the history. All else is as before, also after an error.
fn make_room(map: &mut Map, history: &mut History, change: &Change) -> Result<(), AllocError>
    ensures same { whole map.new ≡ whole map.old }
    ensures slots { length map.old.slots ≤ length map.new.slots }
    ensures records { history.new.records ≡ history.old.records }
    ensures has_slots { OnOk result (AllBelow (length map.new.slots) change.now.entries) }
    ensures room { OnOk result (1 ≤ history.new.room) }
{
    map.reserve(change)?;
    history.room()
}

// Makes the change, for which there is room, and adds it to the history.
fn make(map: &mut Map, history: &mut History, mut change: Change)
    requires keeps { Keeps history.old.records map.old }
    requires tight { Tight (whole map.old) change }
    requires sound { IsMap (swap (whole map.old) change) }
    requires has_slots { AllBelow (length map.old.slots) change.entries }
    requires room { 1 ≤ history.old.room }
    ensures now { whole map.new ≡ swap (whole map.old) change }
    ensures one_more { HasOneMore history.old.records map.old history.new.records map.new }
{
    map.swap(&mut change);
    history.add(change);
}

// Makes a planned change, and gives its reply. What can want memory comes before the first change.
fn carry_out(map: &mut Map, history: &mut History, planned: Planned) -> Reply
    requires keeps { Keeps history.old.records map.old }
    requires tight { Tight (whole map.old) planned.change }
    requires sound { IsMap (swap (whole map.old) planned.change) }
    ensures answer { Carries planned.change planned.reply history.old.records map.old result history.new.records map.new }
    ensures keeps { Keeps history.new.records map.new }
{
    let Planned { change, reply } = planned;
    match make_room(map, history, &change) {
        Ok(()) => {
            make(map, history, change);
            reply
        }
        Err(_) => Reply::Memory,
    }
}

// Plans what a command makes of the map, by the crate that has the command.
fn plan(
    alloc: Global,
    map: &Map,
    settings: &Settings,
    command: &Command,
) -> Result<Planned, OpFault>
    requires own { IsTrue (changes_map command.now) }
    requires good { IsGood command.now }
    ensures planned { IfOk result (λ p. Plans settings.now (whole map.now) command.now p.change p.reply) }
    ensures sound { IfOk result (λ p. IsMap (swap (whole map.now) p.change)) }
    ensures refused { IfErr result (RefusesRightly settings.now (whole map.now) command.now) }
{
    if is_tree_command(command) {
        tree_ops::edit(alloc, map, settings, command)
    } else {
        edit_ops::edit(alloc, map, settings, command)
    }
}

/// Changes the map as a command says, or tells why not.
pub(crate) fn change(
    alloc: Global,
    map: &mut Map,
    history: &mut History,
    settings: &Settings,
    command: &Command,
) -> Reply
    requires own { IsTrue (changes_map command.now) }
    requires good { IsGood command.now }
    requires keeps { Keeps history.old.records map.old }
    ensures answer { ChangesBy settings.now command.now history.old.records map.old result history.new.records map.new }
    ensures keeps { Keeps history.new.records map.new }
{
    match plan(alloc, map, settings, command) {
        Ok(planned) => carry_out(map, history, planned),
        Err(OpFault::No(refusal)) => Reply::No(refusal),
        Err(OpFault::Memory) => Reply::Memory,
    }
}
