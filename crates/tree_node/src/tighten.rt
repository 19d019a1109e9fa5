//! Changes that name only what differs.

ghost use Rattle.std.specs.Prelude.{◌≡◌, ◌≢◌};
ghost use Rattle.std.specs.Bool.{MatchBool};
ghost use Rattle.map_model.specs.Tree.{whole, at};
ghost use Rattle.map_model.specs.History.{Tight};
ghost use Rattle.tree_node.specs.Held.{changed, Rising, KeepsDifferent};

use crate::change::Change;
use crate::map::Map;
use map_nodes::Entry;

impl Change {
    /// Drops each entry whose node is that of the map. What the change makes of the map stays. It takes no memory.
    pub fn tighten(&mut self, map: &Map)
        ensures same { changed map.now self.new ≡ changed map.now self.old }
        ensures tight { Tight (whole map.now) self.new }
    {
        keep_different(&mut self.entries, map);
    }
}

// Whether an entry's node differs from that of the map.
fn differs(map: &Map, entry: &Entry) -> bool
    ensures { MatchBool result (at (whole map.now) entry.now.id ≢ entry.now.node) (at (whole map.now) entry.now.id ≡ entry.now.node) }
{
    match map.get(entry.id) {
        None => entry.node.is_some(),
        Some(old) => match &entry.node {
            None => true,
            Some(new) => !old.is_same(new),
        },
    }
}

// Drops the entries whose nodes are those of the map.
fn keep_different(entries: &mut Vec<Entry>, map: &Map)
    requires rising { Rising entries.old.items }
    ensures { KeepsDifferent (whole map.now) entries.old.items entries.new.items }
{
    entries.retain(|entry| differs(map, entry));
}
