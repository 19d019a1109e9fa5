//! A session.

ghost use Rattle.std.specs.Prelude.{◌≡◌};
ghost use Rattle.map_model.specs.Tree.{whole};
ghost use Rattle.map_model.specs.History.{Stands};
ghost use Rattle.map_model.specs.Machine.{open_at, current};
ghost use Rattle.tree_session.specs.Sitting.{state_of, answer_of, Answers};

use crate::answer::Answer;
use crate::obeying::obey;
use crate::reading::fault_reply;
use cmd_text::read_line;
use std::alloc::Global;
use std::marker::Model;
use tree_node::Map;
use tree_ops::Settings;
use undo_log::History;

/// A map, the history of its changes, and the settings, which lines of a script change.
///
/// Contracts see what it stands for as a state of the machine over lines: a list of whole maps, a place in it, and the
/// settings.
#[derive(Drop)]
pub struct Session {
    map: Map,
    history: History,
    settings: Settings,
}

impl Model for Session {
    ghost use Rattle.tree_session.specs.Sitting.{Sitting};
    ghost use Rattle.undo_log.specs.Log.{Keeps};

    ghost Value = { Sitting };

    ghost view = { λ s. record { map = s.map; records = s.history.records; settings = s.settings } };

    ghost invariant = { λ s. Keeps s.history.records s.map };
}

impl Session {
    /// A session with this map alone and the settings of the start. It takes no memory.
    pub fn open(alloc: Global, map: Map) -> Session
        ensures { state_of result ≡ open_at (whole map) }
    {
        map.is_map();
        Session {
            map,
            history: History::new(alloc),
            settings: Settings::new(alloc),
        }
    }

    /// The current map.
    pub fn map(&self) -> &Map
        ensures held { result.now ≡ self.now.map }
        ensures current { whole result.now ≡ current (state_of self.now) }
    {
        &self.map
    }

    /// The history, which stands for the maps of the session beside the current one.
    pub fn history(&self) -> &History
        ensures records { result.now.records ≡ self.now.records }
        ensures stands { Stands result.now.records (whole self.now.map) (state_of self.now).maps (state_of self.now).place }
    {
        &self.history
    }

    /// Answers a line, without its line feed, and does what it says. A line is answered as the machine answers it, or by want
    /// of memory, which leaves everything as it was. A silent line, a line that doesn't read as a command, and `lock`,
    /// `undo` and `redo` never want memory.
    pub fn step(&mut self, alloc: Global, line: &[u8]) -> Answer
        ensures { Answers (state_of self.old) line.now (answer_of result) (state_of self.new) }
    {
        match read_line(alloc, line) {
            Ok(None) => Answer::Silent,
            Ok(Some(command)) => obey(
                alloc,
                &mut self.map,
                &mut self.history,
                &mut self.settings,
                command,
            ),
            Err(fault) => Answer::Short(fault_reply(fault)),
        }
    }
}
