//! What each command makes of the parts of a session.

ghost use Rattle.map_model.specs.Commands.{IsGood};
ghost use Rattle.undo_log.specs.Log.{Keeps};
ghost use Rattle.tree_session.specs.Sitting.{state_at, answer_of, ObeysOrStops};

use crate::answer::Answer;
use crate::asking::uv;
use crate::listings::{show, tree};
use crate::own_words::{lock, redo, take_material, undo};
use crate::picking::pick;
use crate::planned::change;
use crate::reading::changes_map;
use cmd_text::{Command, Refusal, Reply};
use std::alloc::Global;
use tree_node::Map;
use tree_ops::Settings;
use undo_log::History;

// Does what a command says.
fn obey_it(
    alloc: Global,
    map: &mut Map,
    history: &mut History,
    settings: &mut Settings,
    command: &Command,
) -> Answer
    requires good { IsGood command.now }
    requires keeps { Keeps history.old.records map.old }
    ensures answer { ObeysOrStops (state_at map.old history.old.records settings.old) command.now (answer_of result) (state_at map.new history.new.records settings.new) }
    ensures keeps { Keeps history.new.records map.new }
{
    if changes_map(command) {
        return Answer::Short(change(alloc, map, history, settings, command));
    }
    match command {
        Command::Material { name } => Answer::Short(take_material(alloc, settings, name)),
        Command::Lock { on } => Answer::Short(lock(settings, map, *on)),
        Command::Uv { node, face, at } => Answer::Short(uv(map, *node, *face, *at)),
        Command::Pick { from, to } => Answer::Short(pick(map, *from, *to)),
        Command::Undo => Answer::Short(undo(history, map)),
        Command::Redo => Answer::Short(redo(history, map)),
        Command::Show { node } => show(alloc, map, *node),
        Command::Tree => tree(alloc, map),
        _ => Answer::Short(Reply::No(Refusal::NotBuilt)),
    }
}

/// Does what a command says, which is then done with.
pub(crate) fn obey(
    alloc: Global,
    map: &mut Map,
    history: &mut History,
    settings: &mut Settings,
    command: Command,
) -> Answer
    requires good { IsGood command }
    requires keeps { Keeps history.old.records map.old }
    ensures answer { ObeysOrStops (state_at map.old history.old.records settings.old) command (answer_of result) (state_at map.new history.new.records settings.new) }
    ensures keeps { Keeps history.new.records map.new }
{
    obey_it(alloc, map, history, settings, &command)
}
