//! The word that asks for the first brush on a ray.

ghost use Rattle.std.specs.Prelude.{◌≡◌, IsTrue, option_copied};
ghost use Rattle.exact_geom.specs.Planes.{is_in_range, vector};
ghost use Rattle.cmd_text.specs.Kept.{IsPoint};
ghost use Rattle.ray_laws.specs.Laws.{of_share};
ghost use Rattle.map_model.specs.Tree.{whole};
ghost use Rattle.map_model.specs.Replies.{kept};
ghost use Rattle.tree_session.specs.Picks.{brush_at, earliest, hit_reply, IsHitAt, IsNearest};
ghost use Rattle.tree_session.specs.Words.{AnswersRay};

use crate::asking::point;
use cmd_text::{Refusal, Reply};
use exact_geom::Point;
use fixed_num::Frac;
use map_nodes::{Body, Node, NodeId};
use ray_pick::{Hit, Ratio, earlier, first_hit};
use tree_node::Map;

/// A brush that a ray meets, and where.
#[derive(Clone, Copy)]
pub(crate) struct Met {
    node: u32,
    hit: Hit,
}

// The brush of a number. `None` where there is none.
fn brush(map: &Map, node: u32) -> Option<&Body>
    ensures { option_copied result ≡ brush_at (whole map.now) node }
{
    match map.get(NodeId(node)) {
        Some(Node::Brush { body, .. }) => Some(body),
        _ => None,
    }
}

// Where the ray meets the brush of a number. `None` where there is no such brush, or the ray misses it.
fn hit_at(map: &Map, node: u32, from: Point, to: Point) -> Option<Hit>
    requires from_in_range { IsTrue (is_in_range from) }
    requires to_in_range { IsTrue (is_in_range to) }
    ensures { IsHitAt (whole map.now) (vector from) (vector to) node result }
{
    match brush(map, node) {
        Some(body) => first_hit(body.solid(), from, to),
        None => None,
    }
}

// The best so far, unless the hit of the next brush is earlier.
fn earliest(best: Option<Met>, node: u32, hit: Option<Hit>) -> Option<Met>
    ensures { result ≡ earliest best node hit }
{
    let Some(hit) = hit else {
        return best;
    };
    let next = Met { node, hit };
    let Some(met) = best else {
        return Some(next);
    };
    let is_earlier = earlier(&hit.at, &met.hit.at);
    if is_earlier { Some(next) } else { Some(met) }
}

// The brush that the ray meets first, of those that it meets at once the one with the least number.
fn first_met(map: &Map, from: Point, to: Point) -> Option<Met>
    requires from_in_range { IsTrue (is_in_range from) }
    requires to_in_range { IsTrue (is_in_range to) }
    ensures { IsNearest (whole map.now) (vector from) (vector to) map.now.next result }
{
    let mut best = None;
    for node in 0..map.next() {
        let hit = hit_at(map, node, from, to);
        best = earliest(best, node, hit);
    }
    best
}

fn fraction(at: &Ratio) -> Frac
    ensures { result ≡ kept (of_share at.now) }
{
    Frac {
        num: at.num(),
        den: at.den(),
    }
}

fn hit_reply(met: Met) -> Reply
    ensures { result ≡ hit_reply met }
{
    Reply::Hit {
        node: met.node,
        face: met.hit.face,
        at: fraction(&met.hit.at),
    }
}

/// The first brush on the ray that begins at one point and runs through the other, its face and how far along; a brush that
/// the ray only grazes counts, and so do brushes in frozen layers. It is refused where the two are one point. It takes no
/// memory.
pub(crate) fn pick(map: &Map, from: [i32; 3], to: [i32; 3]) -> Reply
    requires from_is_point { IsPoint from }
    requires to_is_point { IsPoint to }
    ensures { AnswersRay (whole map.now) from to result }
{
    let from = point(from);
    let to = point(to);
    if from == to {
        return Reply::No(Refusal::NoRay);
    }
    match first_met(map, from, to) {
        Some(met) => hit_reply(met),
        None => Reply::NoHit,
    }
}
