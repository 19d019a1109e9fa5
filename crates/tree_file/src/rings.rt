//! Rings of groups: the first group of each goes to the world.
//!
//! From each place in turn a walk goes up, to the world or to a place that was met already. Where this walk itself met it, it
//! lies on a ring. `met` tells of each place where the walk began that met it; 0 is none. So the cost grows with the places.

ghost use Rattle.std.specs.Prelude.{◌≡◌, ◌≢◌, ◌+◌, ◌<◌, ◌^◌, ℕ, true, false, length, map, replicate, IfOk};
ghost use Rattle.algebra.specs.Members.{◌∈◌};
ghost use Rattle.map_model.specs.Tree.{numbers_from};
ghost use Rattle.file_laws.specs.Build.{breaks_ring, places_above};
ghost use Rattle.tree_file.specs.RingMarks.{WalkedUp, Settled};

use std::alloc::{AllocError, Global};

// The first place of the ring that the place is on.
fn first_of_ring(parents: &[u32], place: u32) -> u32
    requires within { (p : ℕ) → p ∈ parents.now → p < length parents.now }
    requires here { place < length parents.now }
    requires ring { place ∈ places_above parents.now (length parents.now) place }
    ensures within { result < length parents.now }
    ensures first { breaks_ring parents.now result ≡ true }
    ensures on_ring { result ∈ places_above parents.now (length parents.now) place }
{
    let mut first = place;
    let mut above = place;
    for _step in 0..parents.len() {
        above = parents[above as usize];
        if above == place {
            return first;
        }
        first = first.min(above);
    }
    first
}

// Walks up from the place, and gives the place where the walk stops.
fn walk_up(parents: &[u32], met: &mut [u32], start: u32) -> u32
    requires within { (p : ℕ) → p ∈ parents.now → p < length parents.now }
    requires lengths { length met.old ≡ length parents.now }
    requires begins { start < length parents.now }
    requires some { start ≢ 0 }
    ensures { WalkedUp parents.now met.old start met.new result }
{
    let mut place = start;
    while place != 0 && met[place as usize] == 0 {
        met[place as usize] = start;
        place = parents[place as usize];
    }
    place
}

// Walks up from the place, and flags the first of a ring that is found.
fn settle(parents: &[u32], met: &mut [u32], breaks: &mut [bool], start: u32)
    requires within { (p : ℕ) → p ∈ parents.now → p < length parents.now }
    requires begins { start < length parents.now }
    requires some { start ≢ 0 }
    requires settled { Settled parents.now start met.old breaks.old }
    ensures { Settled parents.now (start + 1) met.new breaks.new }
{
    let stop = walk_up(parents, met, start);
    if met[stop as usize] == start {
        breaks[first_of_ring(parents, stop) as usize] = true;
    }
}

// Settles each place.
fn settle_all(parents: &[u32], met: &mut [u32], breaks: &mut [bool])
    requires within { (p : ℕ) → p ∈ parents.now → p < length parents.now }
    requires few { length parents.now < 2 ^ 32 }
    requires unmet { met.old ≡ replicate (length parents.now) 0 }
    requires unflagged { breaks.old ≡ replicate (length parents.now) false }
    ensures { breaks.new ≡ map (breaks_ring parents.now) (numbers_from 0 (length parents.now)) }
{
    for start in 1..parents.len() {
        settle(parents, met, breaks, start as u32);
    }
}

/// Whether each place is the first of a ring.
pub(crate) fn first_of_rings(alloc: Global, parents: &[u32]) -> Result<Vec<bool>, AllocError>
    requires within { (p : ℕ) → p ∈ parents.now → p < length parents.now }
    requires few { length parents.now < 2 ^ 32 }
    ensures { IfOk result (λ breaks. breaks.items ≡ map (breaks_ring parents.now) (numbers_from 0 (length parents.now))) }
{
    let mut met = vec![in alloc; 0; parents.len()]?;
    let mut breaks = vec![in alloc; false; parents.len()]?;
    settle_all(parents, &mut met, &mut breaks);
    Ok(breaks)
}
