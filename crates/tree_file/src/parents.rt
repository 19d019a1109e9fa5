//! What the ids in a file lead to: the first layer or group with an id, and the parents that are named.

ghost use Rattle.std.specs.Prelude.{◌≡◌, ◌<◌, ◌||◌, ◌++◌, length, map, filter, option_map, unwrap_or, IfOk, OnOk};
ghost use Rattle.map_model.specs.Tree.{group, layer};
ghost use Rattle.file_laws.specs.Build.{named, is_nameless, place_named, named_parent, is_lost, first_parents, breaks_ring, noted, IdNote};
ghost use Rattle.tree_file.specs.Passes.{InPlace, HasPlaces, ring_flags, parent_notes};

use crate::reading::Reading;
use map_report::Note;
use std::alloc::{AllocError, Global};
use std::collections::HashMap;

/// The place of the first reading with each id.
pub(crate) fn places_of_ids(
    alloc: Global,
    readings: &[Reading],
) -> Result<HashMap<u32, u32>, AllocError>
    ensures { IfOk result (HasPlaces readings.now) }
{
    let mut table = HashMap::new(alloc);
    let mut left = readings.len();
    while left > 0 {
        match readings[left - 1].id() {
            Some(id) => match table.insert(id, readings[left - 1].place()) {
                Ok(_) => {}
                Err(_) => return Err(AllocError),
            },
            None => {}
        }
        left -= 1;
    }
    Ok(table)
}

// The place of the reading that an id names.
fn place_of(table: &HashMap<u32, u32>, readings: &[Reading], id: Option<u32>) -> Option<u32>
    requires table { HasPlaces readings.now table.now }
    ensures { result ≡ option_map (λ r. r.place) (named readings.now id) }
{
    match table.get(&id?) {
        Some(place) => Some(*place),
        None => None,
    }
}

// Whether nothing can name it.
fn is_nameless(table: &HashMap<u32, u32>, readings: &[Reading], reading: &Reading) -> bool
    requires table { HasPlaces readings.now table.now }
    ensures { result ≡ is_nameless readings.now reading.now }
{
    if !reading.is_named() {
        return false;
    }
    match place_of(table, readings, reading.id()) {
        Some(place) => place != reading.place(),
        None => true,
    }
}

/// Notes each layer and group that nothing can name.
pub(crate) fn note_ids(
    table: &HashMap<u32, u32>,
    readings: &[Reading],
    notes: &mut Vec<Note>,
) -> Result<(), AllocError>
    requires table { HasPlaces readings.now table.now }
    ensures { OnOk result (notes.new.items ≡ notes.old.items ++ noted IdNote (map (λ r. r.place) (filter (is_nameless readings.now) readings.now))) }
{
    for reading in readings {
        if is_nameless(table, readings, reading) {
            notes.push(Note::Id(reading.place()))?;
        }
    }
    Ok(())
}

// The place of the group that an id names.
fn group_named(table: &HashMap<u32, u32>, readings: &[Reading], id: Option<u32>) -> Option<u32>
    requires table { HasPlaces readings.now table.now }
    requires in_place { InPlace readings.now }
    ensures { result ≡ place_named readings.now group id }
{
    let place = place_of(table, readings, id)?;
    if readings[place as usize].is_group() {
        return Some(place);
    }
    None
}

// The place of the layer that an id names.
fn layer_named(table: &HashMap<u32, u32>, readings: &[Reading], id: Option<u32>) -> Option<u32>
    requires table { HasPlaces readings.now table.now }
    requires in_place { InPlace readings.now }
    ensures { result ≡ place_named readings.now layer id }
{
    let place = place_of(table, readings, id)?;
    if readings[place as usize].is_layer() {
        return Some(place);
    }
    None
}

// The place of the group, or else of the layer, that a reading names as its parent.
fn named_parent(table: &HashMap<u32, u32>, readings: &[Reading], reading: &Reading) -> Option<u32>
    requires table { HasPlaces readings.now table.now }
    requires in_place { InPlace readings.now }
    ensures { result ≡ named_parent readings.now reading.now }
{
    match group_named(table, readings, reading.in_group()) {
        Some(place) => Some(place),
        None => layer_named(table, readings, reading.in_layer()),
    }
}

// Whether a reading names a parent, and none is there.
fn is_lost(table: &HashMap<u32, u32>, readings: &[Reading], reading: &Reading) -> bool
    requires table { HasPlaces readings.now table.now }
    requires in_place { InPlace readings.now }
    ensures { result ≡ is_lost readings.now reading.now }
{
    reading.names_parent() && named_parent(table, readings, reading).is_none()
}

/// The place of the parent that each reading names, or else that of the world.
pub(crate) fn first_parents(
    alloc: Global,
    table: &HashMap<u32, u32>,
    readings: &[Reading],
) -> Result<Vec<u32>, AllocError>
    requires table { HasPlaces readings.now table.now }
    requires in_place { InPlace readings.now }
    ensures { IfOk result (λ parents. parents.items ≡ first_parents readings.now) }
{
    let mut parents = Vec::with_capacity(alloc, readings.len())?;
    for reading in readings {
        parents.push(named_parent(table, readings, reading).unwrap_or(0))?;
    }
    Ok(parents)
}

// Whether a reading goes to the world: the parent that it names isn't there, or it is the first of a ring.
fn goes_to_world(
    table: &HashMap<u32, u32>,
    readings: &[Reading],
    breaks: &[bool],
    reading: &Reading,
) -> bool
    requires table { HasPlaces readings.now table.now }
    requires in_place { InPlace readings.now }
    requires breaks { breaks.now ≡ ring_flags readings.now }
    requires here { reading.now.place < length readings.now }
    ensures { result ≡ (is_lost readings.now reading.now || breaks_ring (first_parents readings.now) reading.now.place) }
{
    is_lost(table, readings, reading) || breaks[reading.place() as usize]
}

/// Notes each reading that goes to the world for want of the parent that it names, or since it is the first of a ring.
pub(crate) fn note_parents(
    table: &HashMap<u32, u32>,
    readings: &[Reading],
    breaks: &[bool],
    notes: &mut Vec<Note>,
) -> Result<(), AllocError>
    requires table { HasPlaces readings.now table.now }
    requires in_place { InPlace readings.now }
    requires breaks { breaks.now ≡ ring_flags readings.now }
    ensures { OnOk result (notes.new.items ≡ notes.old.items ++ parent_notes readings.now) }
{
    for reading in readings {
        if goes_to_world(table, readings, breaks, reading) {
            notes.push(Note::Parent(reading.place()))?;
        }
    }
    Ok(())
}
