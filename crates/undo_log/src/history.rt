//! Histories.

ghost use Rattle.std.specs.Prelude.{◌≡◌, ◌≤◌, [], OnOk};
ghost use Rattle.std.specs.Bool.{OnTrue, OnFalse};
ghost use Rattle.map_model.specs.History.{added};
ghost use Rattle.undo_log.specs.Log.{Keeps, Adds, GoesBack, GoesOn};

use std::alloc::{AllocError, Global};
use std::marker::Model;
use tree_node::{Change, Map};

/// The changes that lead from map to map. Contracts see those for undo and for redo, the nearest first, and how many more
/// have room.
#[derive(Drop)]
pub struct History {
    changes: Vec<Change>,
    // The changes before it are for undo, the others for redo.
    place: usize,
}

impl Model for History {
    ghost use Rattle.std.specs.Prelude.{◌≤◌, ◌-◌};
    ghost use Rattle.std.specs.Vec.{vec_len, vec_capacity};
    ghost use Rattle.undo_log.specs.Log.{Log, records_at};

    ghost Value = { Log };

    ghost view = { λ h. record { records = records_at h.place h.changes.items; room = vec_capacity h.changes - h.place } };

    ghost invariant = { λ h. h.place ≤ vec_len h.changes };
}

impl History {
    /// The history of a map that hasn't changed. It takes no memory.
    pub fn new(alloc: Global) -> History
        ensures { result.records ≡ record { behind = []; ahead = [] } }
    {
        History {
            changes: Vec::new(alloc),
            place: 0,
        }
    }

    /// Makes room for one more change. All else is as before, also after an error, which comes for want of memory.
    pub fn room(&mut self) -> Result<(), AllocError>
        ensures room { OnOk result (1 ≤ self.new.room) }
        ensures same { self.new.records ≡ self.old.records }
    {
        self.changes.reserve(1)
    }

    /// Adds a change that leads back to the map before, for which there is room. What could be redone is dropped. It takes no
    /// memory.
    pub fn add(&mut self, c: Change)
        requires { 1 ≤ self.old.room }
        ensures records { self.new.records ≡ added c self.old.records }
        ensures maps { Adds self.old.records c self.new.records }
    {
        self.changes.truncate(self.place);
        self.changes.push_reserved(c);
        self.place += 1;
    }

    /// Makes the map, which is the one that the history stands for, the one before. `false` exactly at the first map, with
    /// nothing changed. It takes no memory.
    pub fn undo(&mut self, map: &mut Map) -> bool
        requires { Keeps self.old.records map.old }
        ensures back { OnTrue result (GoesBack self.old.records map.old self.new.records map.new) }
        ensures first { OnFalse result (self.old.records.behind ≡ []) }
        ensures stays { OnFalse result ((self.new ≡ self.old) × (map.new ≡ map.old)) }
    {
        if self.place == 0 {
            return false;
        }
        self.place -= 1;
        map.swap(&mut self.changes[self.place]);
        true
    }

    /// Makes the map, which is the one that the history stands for, the one after. `false` exactly at the last map, with
    /// nothing changed. It takes no memory.
    pub fn redo(&mut self, map: &mut Map) -> bool
        requires { Keeps self.old.records map.old }
        ensures on { OnTrue result (GoesOn self.old.records map.old self.new.records map.new) }
        ensures last { OnFalse result (self.old.records.ahead ≡ []) }
        ensures stays { OnFalse result ((self.new ≡ self.old) × (map.new ≡ map.old)) }
    {
        if self.place == self.changes.len() {
            return false;
        }
        map.swap(&mut self.changes[self.place]);
        self.place += 1;
        true
    }
}
