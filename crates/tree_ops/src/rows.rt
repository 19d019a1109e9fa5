//! The rows by which commands are refused, each over the numbers that a line names.

ghost use Rattle.std.specs.Prelude.{◌≡◌, ◌||◌, ◌==◌, Option, None, Some, nat_lt, is_none, count_by};
ghost use Rattle.std.specs.List.{list_any};
ghost use Rattle.map_model.specs.Tree.{whole, at, above, among, lies_beneath};
ghost use Rattle.map_model.specs.Rows.{refuse, at_each, is_in_frozen};
ghost use Rattle.map_model.specs.Replies.{NoNode, Repeated, NestedIds, LockedLayer};
ghost use Rattle.tree_ops.specs.Passing.{passes, is_place_beneath_it};

use cmd_text::Refusal;
use map_nodes::NodeId;
use tree_node::Map;

/// `NoNode` with the first of the numbers that no node has.
pub fn no_node(map: &Map, ids: &[NodeId]) -> Result<(), Refusal>
    ensures { result ≡ passes (at_each ids.now (λ n. refuse (is_none (at (whole map.now) n)) (NoNode n))) }
{
    for id in ids {
        if is_absent(map, *id) {
            return Err(Refusal::NoNode(id.number()));
        }
    }
    Ok(())
}

// Whether no node has the number.
fn is_absent(map: &Map, id: NodeId) -> bool
    ensures { result ≡ is_none (at (whole map.now) id) }
{
    map.get(id).is_none()
}

/// `Repeated` with the first of the numbers that is named twice.
pub fn repeated(ids: &[NodeId]) -> Result<(), Refusal>
    ensures { result ≡ passes (at_each ids.now (λ n. refuse (nat_lt 1 (count_by (λ k. k == n) ids.now)) (Repeated n))) }
{
    for id in ids {
        if times_named(ids, *id) > 1 {
            return Err(Refusal::Repeated(id.number()));
        }
    }
    Ok(())
}

// How often a number is named.
fn times_named(ids: &[NodeId], id: NodeId) -> usize
    ensures { result ≡ count_by (λ k. k == id) ids.now }
{
    ids.iter().filter(|other| **other == id).count()
}

/// `NestedIds` with the first of the nodes that lies beneath another, or has the place beneath it, if a place is given.
pub fn nested_ids(map: &Map, ids: &[NodeId], place: Option<u32>) -> Result<(), Refusal>
    ensures { result ≡ passes (at_each ids.now (λ n. refuse (list_any (lies_beneath (whole map.now) n) ids.now || is_place_beneath_it (whole map.now) place n) (NestedIds n))) }
{
    for id in ids {
        if is_nested(map, *id, ids, place) {
            return Err(Refusal::NestedIds(id.number()));
        }
    }
    Ok(())
}

// Whether a node lies beneath one of the others, or has the place beneath it.
fn is_nested(map: &Map, id: NodeId, others: &[NodeId], place: Option<u32>) -> bool
    ensures { result ≡ (list_any (lies_beneath (whole map.now) id) others.now || is_place_beneath_it (whole map.now) place id) }
{
    if lies_beneath_any(map, id, others) {
        true
    } else {
        has_place_beneath(map, place, id)
    }
}

// Whether a node lies beneath one of others.
fn lies_beneath_any(map: &Map, id: NodeId, others: &[NodeId]) -> bool
    ensures { result ≡ list_any (lies_beneath (whole map.now) id) others.now }
{
    let mut below = id;
    for step in 0..map.next() {
        match map.parent(below) {
            None => return false,
            Some(place) => {
                if is_among(place, others) {
                    return true;
                }
                below = place;
            }
        }
    }
    false
}

// Whether the place, if there is one, lies beneath a node.
fn has_place_beneath(map: &Map, place: Option<u32>, id: NodeId) -> bool
    ensures { result ≡ is_place_beneath_it (whole map.now) place id }
{
    match place {
        None => false,
        Some(place) => lies_beneath_any(map, NodeId(place), &[id]),
    }
}

fn is_among(id: NodeId, others: &[NodeId]) -> bool
    ensures { result ≡ among id others.now }
{
    others.iter().any(|other| *other == id)
}

/// `LockedLayer` with the first of the nodes that is a frozen layer or lies in one.
pub fn locked_layer(map: &Map, ids: &[NodeId]) -> Result<(), Refusal>
    ensures { result ≡ passes (at_each ids.now (λ n. refuse (is_in_frozen (whole map.now) n) (LockedLayer n))) }
{
    for id in ids {
        if map.is_in_frozen(*id) {
            return Err(Refusal::LockedLayer(id.number()));
        }
    }
    Ok(())
}
