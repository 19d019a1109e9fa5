//! Where numbers stand among the entries of a change.

ghost use Rattle.std.specs.Prelude.{◌≡◌, ◌∷◌, ℕ, Option, OnOk, OnErr};
ghost use Rattle.map_nodes.specs.declared.node.Node.{Node};
ghost use Rattle.std.specs.List.{insert};
ghost use Rattle.tree_node.specs.Held.{Rising, IsFrom, IsGap, IsPlace, by_entries};

use map_nodes::{Entry, Node, NodeId};
use std::alloc::AllocError;
use std::mem;

// The place of the first entry whose number is not below this one.
fn first_from(entries: &[Entry], id: NodeId) -> usize
    requires rising { Rising entries.now }
    ensures { IsFrom entries.now id result }
{
    let wanted = id.place();
    let mut low = 0;
    let mut high = entries.len();
    while low < high {
        let middle = low + (high - low) / 2;
        if entries[middle].id.place() < wanted {
            low = middle + 1;
        } else {
            high = middle;
        }
    }
    low
}

/// The place of a number among entries, or where it would stand.
pub(crate) fn place_of(entries: &[Entry], id: NodeId) -> Result<usize, usize>
    requires rising { Rising entries.now }
    ensures { IsPlace entries.now id result }
{
    let place = first_from(entries, id);
    if place >= entries.len() {
        return Err(place);
    }
    let there = entries[place].id.place();
    if there != id.place() {
        return Err(place);
    }
    Ok(place)
}

// Adds an entry at its place.
fn insert_entry(
    entries: &mut Vec<Entry>,
    place: usize,
    id: NodeId,
    node: Option<Node>,
) -> Result<(), AllocError>
    requires gap { IsGap entries.old.items id place }
    ensures ok { OnOk result (entries.new.items ≡ insert entries.old.items place (record { id = id; node = node })) }
    ensures err { OnErr result (entries.new.items ≡ entries.old.items) }
{
    match entries.insert(place, Entry { id, node }) {
        Ok(_) => Ok(()),
        Err(_) => Err(AllocError),
    }
}

/// Puts a node, or none, in place of that of a number, or adds an entry in its place.
pub(crate) fn put_entry(
    entries: &mut Vec<Entry>,
    id: NodeId,
    node: Option<Node>,
) -> Result<(), AllocError>
    requires rising { Rising entries.old.items }
    ensures by { OnOk result ((q : ℕ) (d : Option Node) → by_entries entries.new.items q d ≡ by_entries (record { id = id; node = node } ∷ entries.old.items) q d) }
    ensures rising { Rising entries.new.items }
    ensures err { OnErr result (entries.new.items ≡ entries.old.items) }
{
    match place_of(entries, id) {
        Ok(place) => {
            drop(mem::replace(&mut entries[place], Entry { id, node }));
            Ok(())
        }
        Err(place) => {
            insert_entry(entries, place, id, node)?;
            Ok(())
        }
    }
}
