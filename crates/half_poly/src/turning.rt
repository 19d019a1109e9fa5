//! Turning the half-edges of a polyhedron round.

ghost use Rattle.std.specs.Prelude.{◌≡◌, ◌≢◌, ◌+◌, ◌<◌, ℕ, length, IfOk, IsSome};
ghost use Rattle.std.specs.Option.{option_map};
ghost use Rattle.half_arena.specs.Slots.{contents};
ghost use Rattle.half_poly.specs.Passes.{Passed};
ghost use Rattle.half_poly.specs.Turned.{turned, BeforeBelow, AreBefore, AreTurned};

use crate::links::{Edges, HalfEdge, copy_edges, entry, note, write};
use half_arena::{EdgeId, SlotId};
use std::alloc::{AllocError, Global};

// Notes the half-edge in a slot as the one before its next one.
fn note_before(edges: &Edges, place: usize, before: &mut [Option<EdgeId>])
    ensures length { length before.new ≡ length before.old }
    ensures noted { BeforeBelow (contents edges.now) before.old place → BeforeBelow (contents edges.now) before.new (place + 1) }
{
    let id = EdgeId::at(place);
    if let Some(edge) = edges.get(id) {
        note(before, edge.next.place(), id);
    }
}

// Notes each half-edge as the one before its next one.
fn note_all_before(edges: &Edges, before: &mut [Option<EdgeId>])
    requires none { BeforeBelow (contents edges.now) before.old 0 }
    ensures length { length before.new ≡ length before.old }
    ensures noted { AreBefore (contents edges.now) before.new }
{
    for place in 0..edges.place_limit() {
        note_before(edges, place, before);
    }
}

// For each half-edge, by its slot, one that leads to it.
fn before_table(alloc: Global, edges: &Edges) -> Result<Vec<Option<EdgeId>>, AllocError>
    ensures within { IfOk result (λ before. (e : ℕ) → IsSome (contents edges.now e) → e < length before.items) }
    ensures before { IfOk result (λ before. AreBefore (contents edges.now) before.items) }
{
    let mut before = vec![in alloc; None; edges.place_limit()]?;
    note_all_before(edges, &mut before);
    Ok(before)
}

// The half-edge in a slot, turned round: it begins where it ended, and leads on to the one that led to it.
fn turned(edges: &Edges, before: &[Option<EdgeId>], place: usize, edge: HalfEdge) -> HalfEdge
    ensures { result ≡ turned (contents edges.now) before.now place edge }
{
    let origin = match edges.get(edge.twin) {
        Some(twin) => twin.origin,
        None => edge.origin,
    };
    let next = match entry(before, place) {
        Some(id) => id,
        None => edge.next,
    };
    HalfEdge {
        origin,
        face: edge.face,
        twin: edge.twin,
        next,
    }
}

// Turns the half-edge in a slot round, if there is one.
fn turn_edge(old: &Edges, before: &[Option<EdgeId>], place: usize, edges: &mut Edges)
    ensures here { contents edges.new place ≡ option_map (turned (contents old.now) before.now place) (contents edges.old place) }
    ensures others { (e : ℕ) → e ≢ place → contents edges.new e ≡ contents edges.old e }
{
    let id = EdgeId::at(place);
    if let Some(edge) = edges.get(id).copied() {
        write(edges, id, turned(old, before, place, edge));
    }
}

// Turns each half-edge round.
fn turn_edges(old: &Edges, before: &[Option<EdgeId>], edges: &mut Edges)
    ensures { Passed (λ e h. option_map (turned (contents old.now) before.now e) h) (contents edges.old) (contents edges.new) }
{
    for place in 0..edges.place_limit() {
        turn_edge(old, before, place, edges);
    }
}

/// The half-edges, turned round.
pub(crate) fn turned_edges(alloc: Global, edges: &Edges) -> Result<Edges, AllocError>
    ensures { IfOk result (λ after. AreTurned (contents edges.now) (contents after)) }
{
    let before = before_table(alloc, edges)?;
    let mut after = copy_edges(edges)?;
    turn_edges(edges, &before, &mut after);
    Ok(after)
}
