//! `box`: a brush between two corners.

ghost use Rattle.std.specs.Prelude.{◌≡◌, IfOk, IfErr};
ghost use Rattle.cmd_text.specs.Kept.{IsPoint};
ghost use Rattle.map_model.specs.Tree.{whole};
ghost use Rattle.map_model.specs.Edits.{swap};
ghost use Rattle.map_model.specs.Commands.{Box, IsGood, point_in};
ghost use Rattle.map_model.specs.Promises.{Plans};
ghost use Rattle.tree_node.specs.Held.{IsMap};
ghost use Rattle.tree_ops.specs.Faults.{RefusesRightly};
ghost use Rattle.edit_ops.specs.Boxes.{IsBox};

use crate::walls::{box_planes, is_below_each};
use brush_plans::{body_of, plain_faces, put_brush};
use cmd_text::Refusal;
use exact_geom::Point;
use map_nodes::Body;
use std::alloc::Global;
use tree_node::Map;
use tree_ops::{OpFault, Planned, Settings};

/// Plans `box`: a brush with plain fields, between two corners, at the end of the world's brushes.
pub(crate) fn plan_box(
    alloc: Global,
    map: &Map,
    set: &Settings,
    a: [i32; 3],
    b: [i32; 3],
) -> Result<Planned, OpFault>
    requires good { IsGood (Box a b) }
    ensures planned { IfOk result (λ p. Plans set.now (whole map.now) (Box a b) p.change p.reply) }
    ensures sound { IfOk result (λ p. IsMap (swap (whole map.now) p.change)) }
    ensures refused { IfErr result (RefusesRightly set.now (whole map.now) (Box a b)) }
{
    map.is_map();
    set.has_material();
    let body = box_body(alloc, map, set, a, b)?;
    let planned = put_brush(alloc, map, body)?;
    Ok(planned)
}

// The brush, or the first row that refuses it.
fn box_body(
    alloc: Global,
    map: &Map,
    set: &Settings,
    a: [i32; 3],
    b: [i32; 3],
) -> Result<Body, OpFault>
    requires low { IsPoint a }
    requires high { IsPoint b }
    ensures { IsBox set.now (whole map.now) a b result }
{
    let low = corner(a);
    let high = corner(b);
    let planes = box_planes(low, high)?;
    if !is_below_each(low, high) {
        return Err(OpFault::No(Refusal::NoVolume(0)));
    }
    let faces = plain_faces(alloc, map, set, &planes)?;
    body_of(alloc, faces, 0)
}

fn corner(numbers: [i32; 3]) -> Point
    ensures { result ≡ point_in numbers }
{
    let [x, y, z] = numbers;
    Point { x, y, z }
}
