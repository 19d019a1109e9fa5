//! The first of several brushes changes, and the others go.

ghost use Rattle.std.specs.Prelude.{◌≡◌, ◌<◌, length, OnOk};
ghost use Rattle.map_model.specs.Tree.{whole};
ghost use Rattle.map_model.specs.Edits.{each_in_turn, delete};
ghost use Rattle.map_model.specs.Own.{keep_first};
ghost use Rattle.map_model.specs.Replies.{Done};
ghost use Rattle.tree_node.specs.Held.{changed};
ghost use Rattle.cut_plans.specs.Ending.{Ends};

use cmd_text::Reply;
use map_nodes::{Body, NodeId};
use std::alloc::{AllocError, Global};
use tree_node::{Change, Map};
use tree_ops::{OpFault, Planned, prune};

/// The first of the brushes gets the body, and the others are deleted, with what they leave empty.
pub(crate) fn keep_first(
    alloc: Global,
    map: &Map,
    ids: &[NodeId],
    body: Body,
) -> Result<Planned, OpFault>
    requires some { 0 < length ids.now }
    ensures { Ends (whole map.now) ids.now (keep_first body ids.now (whole map.now)) 0 Done result }
{
    let mut change = Change::new(alloc, map);
    change.room(0)?;
    put_first(alloc, map, &mut change, ids, body)?;
    prune(alloc, map, &mut change, ids)?;
    change.tighten(map);
    Ok(Planned {
        change,
        reply: Reply::Ok,
    })
}

fn put_first(
    alloc: Global,
    map: &Map,
    change: &mut Change,
    ids: &[NodeId],
    body: Body,
) -> Result<(), AllocError>
    requires some { 0 < length ids.now }
    ensures { OnOk result (changed map.now change.new ≡ keep_first body ids.now (changed map.now change.old)) }
{
    change.put_body(alloc, map, ids[0], body)?;
    delete_all(alloc, map, change, &ids[1..])?;
    Ok(())
}

fn delete_all(
    alloc: Global,
    map: &Map,
    change: &mut Change,
    ids: &[NodeId],
) -> Result<(), AllocError>
    ensures { OnOk result (changed map.now change.new ≡ each_in_turn delete ids.now (changed map.now change.old)) }
{
    for id in ids {
        change.delete(alloc, map, *id)?;
    }
    Ok(())
}
