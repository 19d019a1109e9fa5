//! Walls that are put in the place of their boxes.

ghost use Rattle.std.specs.Prelude.{◌≡◌, ◌+◌, ◌<◌, ◌≤◌, length, OnOk};
ghost use Rattle.map_model.specs.Tree.{whole};
ghost use Rattle.map_model.specs.Edits.{each_in_turn};
ghost use Rattle.map_model.specs.Replies.{Made};
ghost use Rattle.tree_node.specs.Held.{changed};
ghost use Rattle.cut_plans.specs.Ending.{Ends};
ghost use Rattle.hollow_plans.specs.Walls.{put_walls, wall_count};

use crate::walls::Hollowed;
use cmd_text::Reply;
use exact_geom::Rows;
use map_nodes::NodeId;
use std::alloc::{AllocError, Global};
use tree_node::{Change, Map};
use tree_ops::{OpFault, Planned, prune};

/// Puts the walls of boxes in their places. `Full` where there are no numbers for them.
pub(crate) fn put_all(
    alloc: Global,
    map: &Map,
    ids: &[NodeId],
    hollowed: Rows<Hollowed>,
) -> Result<Planned, OpFault>
    requires few { wall_count hollowed < 65536 }
    ensures { Ends (whole map.now) ids.now (each_in_turn put_walls hollowed (whole map.now)) (wall_count hollowed) (Made (wall_count hollowed) map.now.next) result }
{
    let count = wall_count(hollowed.list());
    let mut change = Change::new(alloc, map);
    change.room(u64::from(count))?;
    put_walls(alloc, map, &mut change, hollowed.into_vec())?;
    prune(alloc, map, &mut change, ids)?;
    change.tighten(map);
    let reply = Reply::Made {
        count,
        first: map.next(),
    };
    Ok(Planned { change, reply })
}

// How many walls there are, and so how many numbers are drawn.
fn wall_count(hollowed: &[Hollowed]) -> u32
    requires few { wall_count hollowed.now < 65536 }
    ensures { result ≡ wall_count hollowed.now }
{
    let mut count = 0;
    for one in hollowed {
        count += one.walls.list().len() as u32;
    }
    count
}

// Puts the walls of one box after another in their places.
fn put_walls(
    alloc: Global,
    map: &Map,
    change: &mut Change,
    hollowed: Vec<Hollowed>,
) -> Result<(), AllocError>
    requires room { change.old.next + wall_count hollowed.items ≤ 65536 }
    ensures { OnOk result (changed map.now change.new ≡ each_in_turn put_walls hollowed.items (changed map.now change.old)) }
{
    for one in hollowed {
        put_one(alloc, map, change, one)?;
    }
    Ok(())
}

fn put_one(alloc: Global, map: &Map, change: &mut Change, one: Hollowed) -> Result<(), AllocError>
    requires room { change.old.next + length one.walls ≤ 65536 }
    ensures { OnOk result (changed map.now change.new ≡ put_walls one (changed map.now change.old)) }
{
    let Hollowed { id, walls } = one;
    change.replace_by(alloc, map, id, walls.into_vec())
}
