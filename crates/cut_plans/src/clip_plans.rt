//! `clip`, planned.

ghost use Rattle.std.specs.Prelude.{◌≡◌, ◌+◌, ◌<◌, ◌≤◌, length, option_to_list, IfOk, IfErr, OnOk};
ghost use Rattle.std.specs.List.{AllByRecursion};
ghost use Rattle.cmd_text.specs.Kept.{IsPoint};
ghost use Rattle.map_model.specs.Tree.{whole};
ghost use Rattle.map_model.specs.Edits.{swap, each_in_turn};
ghost use Rattle.map_model.specs.Commands.{Clip, IsGood, plane_in, point_in};
ghost use Rattle.map_model.specs.Promises.{Plans};
ghost use Rattle.tree_node.specs.Held.{IsMap, changed};
ghost use Rattle.tree_ops.specs.Faults.{RefusesRightly};
ghost use Rattle.cut_plans.specs.Ending.{Ends};
ghost use Rattle.cut_plans.specs.Clips.{put_clipped, put_new, drawn_by, drawn_for, clip_reply, cut_plane, IsCut};

use crate::clipping::{Clipped, clip_all, cut_by, refuse_missed};
use brush_plans::refuse_brushes;
use cmd_text::{Part, Refusal, Reply};
use exact_geom::{Plane, Point, Rows};
use map_nodes::{Body, NodeId};
use std::alloc::{AllocError, Global};
use tree_node::{Change, Map};
use tree_ops::{OpFault, Planned, Settings, ids, prune};

/// Plans `clip`: the first refusal of the one order, or a change that names exactly the nodes that differ, with the reply. The
/// map after the change is one again. Nothing is said where there is no memory for it.
pub(crate) fn plan_clip(
    alloc: Global,
    map: &Map,
    set: &Settings,
    part: Part,
    plane: [[i32; 3]; 3],
    nodes: &Rows<u32>,
) -> Result<Planned, OpFault>
    requires good { IsGood (Clip part plane nodes.now) }
    ensures planned { IfOk result (λ p. Plans set.now (whole map.now) (Clip part plane nodes.now) p.change p.reply) }
    ensures sound { IfOk result (λ p. IsMap (swap (whole map.now) p.change)) }
    ensures refused { IfErr result (RefusesRightly set.now (whole map.now) (Clip part plane nodes.now)) }
{
    map.is_map();
    set.has_material();
    let ids = ids(alloc, nodes)?;
    let clipped = clipped(alloc, map, set, part, plane, &ids)?;
    let planned = put_all(alloc, map, part, &ids, clipped)?;
    Ok(planned)
}

// The brushes, clipped, or the first row that refuses it.
fn clipped(
    alloc: Global,
    map: &Map,
    set: &Settings,
    part: Part,
    plane: [[i32; 3]; 3],
    ids: &[NodeId],
) -> Result<Rows<Clipped>, OpFault>
    requires good { AllByRecursion IsPoint plane }
    ensures { IsCut set.now (whole map.now) part plane ids.now result }
{
    refuse_brushes(map, ids)?;
    let plane = plane_of(plane)?;
    let cut = cut_by(alloc, map, set, plane)?;
    refuse_missed(alloc, map, &cut, ids)?;
    clip_all(alloc, map, &cut, part, ids)
}

// The plane of three points, which are in range. `FlatPlane` where they lie on a line.
fn plane_of(points: [[i32; 3]; 3]) -> Result<Plane, Refusal>
    requires good { AllByRecursion IsPoint points }
    ensures { result ≡ cut_plane (plane_in points) }
{
    let [p0, p1, p2] = points;
    match Plane::of(point(p0), point(p1), point(p2)) {
        Ok(plane) => Ok(plane),
        Err(_) => Err(Refusal::FlatPlane),
    }
}

fn point(numbers: [i32; 3]) -> Point
    ensures { result ≡ point_in numbers }
{
    let [x, y, z] = numbers;
    Point { x, y, z }
}

// Puts the clipped brushes in place. `Full` where there are no numbers for the new ones.
fn put_all(
    alloc: Global,
    map: &Map,
    part: Part,
    ids: &[NodeId],
    clipped: Rows<Clipped>,
) -> Result<Planned, OpFault>
    requires few { length ids.now < 4096 }
    requires drawn { drawn_by clipped ≡ drawn_for part ids.now }
    ensures { Ends (whole map.now) ids.now (each_in_turn put_clipped clipped (whole map.now)) (drawn_for part ids.now) (clip_reply part (drawn_for part ids.now) map.now.next) result }
{
    let made = drawn_for(part, ids);
    let mut change = Change::new(alloc, map);
    change.room(u64::from(made))?;
    put_clipped(alloc, map, &mut change, clipped.into_vec())?;
    prune(alloc, map, &mut change, ids)?;
    change.tighten(map);
    let reply = clip_reply(part, made, map.next());
    Ok(Planned { change, reply })
}

// How many numbers are drawn.
fn drawn_for(part: Part, ids: &[NodeId]) -> u32
    requires few { length ids.now < 4096 }
    ensures { result ≡ drawn_for part ids.now }
{
    match part {
        Part::Back => 0,
        Part::Front => 0,
        Part::Both => ids.len() as u32,
    }
}

fn clip_reply(part: Part, made: u32, first: u32) -> Reply
    ensures { result ≡ clip_reply part made first }
{
    match part {
        Part::Back => Reply::Ok,
        Part::Front => Reply::Ok,
        Part::Both => Reply::Made { count: made, first },
    }
}

// Puts clipped brushes in place, one after another.
fn put_clipped(
    alloc: Global,
    map: &Map,
    change: &mut Change,
    clipped: Vec<Clipped>,
) -> Result<(), AllocError>
    requires room { change.old.next + drawn_by clipped.items ≤ 65536 }
    ensures { OnOk result (changed map.now change.new ≡ each_in_turn put_clipped clipped.items (changed map.now change.old)) }
{
    for one in clipped {
        put_one(alloc, map, change, one)?;
    }
    Ok(())
}

fn put_one(alloc: Global, map: &Map, change: &mut Change, one: Clipped) -> Result<(), AllocError>
    requires room { change.old.next + length (option_to_list one.new) ≤ 65536 }
    ensures { OnOk result (changed map.now change.new ≡ put_clipped one (changed map.now change.old)) }
{
    let Clipped { id, kept, new } = one;
    put_new(alloc, map, change, id, new)?;
    change.put_body(alloc, map, id, kept)
}

// Puts the new brush after the clipped one, if there is one.
fn put_new(
    alloc: Global,
    map: &Map,
    change: &mut Change,
    id: NodeId,
    new: Option<Body>,
) -> Result<(), AllocError>
    requires room { change.old.next + length (option_to_list new) ≤ 65536 }
    ensures { OnOk result (changed map.now change.new ≡ put_new id new (changed map.now change.old)) }
{
    match new {
        None => Ok(()),
        Some(body) => {
            change.put_after(alloc, map, id, body)?;
            Ok(())
        }
    }
}
