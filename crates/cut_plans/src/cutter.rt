//! The brush that cuts others.

ghost use Rattle.std.specs.Prelude.{◌≡◌, IsTrue, IfOk};
ghost use Rattle.map_model.specs.Tree.{whole, is_brush, faces_at};
ghost use Rattle.cut_plans.specs.Subtracts.{IsCutter};

use crate::bodies::body_at;
use map_nodes::{Body, NodeId};
use solid_brush::Solid;
use std::alloc::{AllocError, Global};
use tree_node::Map;

/// The first tag of the sides of a brush that cuts. No brush has more than 128 faces.
pub(crate) const BASE: u32 = 128;

/// The brush that cuts others, and its solid with tags from `BASE` on, by which they differ from those of a brush that is cut.
#[derive(Drop)]
pub(crate) struct Cutter {
    pub(crate) body: Body,
    pub(crate) solid: Solid,
}

/// The brush that cuts others.
pub(crate) fn cutter_at(alloc: Global, map: &Map, by: NodeId) -> Result<Cutter, AllocError>
    requires brush { IsTrue (is_brush (whole map.now) by) }
    ensures body { IfOk result (λ cutter. cutter.body ≡ faces_at (whole map.now) by) }
    ensures solid { IfOk result IsCutter }
{
    let body = body_at(map, by);
    body.is_valid();
    let mut solid = body.solid().copy(alloc)?;
    solid.retag(BASE);
    Ok(Cutter {
        body: body.copy(alloc)?,
        solid,
    })
}
