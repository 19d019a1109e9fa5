//! `clip`: brushes are cut by a plane.

ghost use Rattle.std.specs.Prelude.{◌≡◌, ℕ, [], ◌∷◌, ◌++◌, length, true, IsTrue, IfOk, OnOk};
ghost use Rattle.algebra.specs.Members.{◌∈◌};
ghost use Rattle.map_model.specs.Tree.{whole, is_brush};
ghost use Rattle.brush_plans.specs.Saying.{Says};
ghost use Rattle.cut_plans.specs.Clips.{cut_by, misses, misses_any, IsClipped, AreClipped, HaveParts, IsCutting};

use crate::bodies::body_at;
use crate::halves::{half_body, has_half};
use brush_plans::plain_faces;
use cmd_text::{Part, Refusal};
use exact_geom::{Plane, Rows};
use map_nodes::{Body, NodeId};
use std::alloc::{AllocError, Global};
use tree_node::Map;
use tree_ops::{OpFault, Settings};
use uv_lock::Face;

/// The new faces of a cut, one of each part: of the part behind the plane, and of that in front of it.
#[derive(Drop)]
pub(crate) struct Cut {
    pub(crate) back: Rows<Face>,
    pub(crate) front: Rows<Face>,
}

/// A brush that is cut: what stays of it, and the new brush that is put after it, if any is.
#[derive(Drop)]
pub(crate) struct Clipped {
    pub(crate) id: NodeId,
    pub(crate) kept: Body,
    pub(crate) new: Option<Body>,
}

/// The cut by a plane.
pub(crate) fn cut_by(
    alloc: Global,
    map: &Map,
    set: &Settings,
    plane: Plane,
) -> Result<Cut, AllocError>
    ensures { IfOk result (λ cut. cut ≡ cut_by set.now (whole map.now) plane) }
{
    let back = plain_faces(alloc, map, set, &[plane])?;
    let front = plain_faces(alloc, map, set, &[plane.reverse()])?;
    Ok(Cut {
        back: Rows::of(back),
        front: Rows::of(front),
    })
}

/// `PlaneMisses` with the first of the brushes that the plane misses.
pub(crate) fn refuse_missed(
    alloc: Global,
    map: &Map,
    cut: &Cut,
    ids: &[NodeId],
) -> Result<(), OpFault>
    requires cut { IsCutting cut.now }
    requires brushes { (n : ℕ) → n ∈ ids.now → IsTrue (is_brush (whole map.now) n) }
    ensures { Says (misses_any (whole map.now) cut.now ids.now) result }
{
    for id in ids {
        refuse_one(alloc, map, cut, *id)?;
    }
    Ok(())
}

fn refuse_one(alloc: Global, map: &Map, cut: &Cut, id: NodeId) -> Result<(), OpFault>
    requires cut { IsCutting cut.now }
    requires brush { IsTrue (is_brush (whole map.now) id) }
    ensures { Says (misses (whole map.now) cut.now id) result }
{
    let body = body_at(map, id);
    let behind = has_half(alloc, body, cut.back.list())?;
    let before = has_half(alloc, body, cut.front.list())?;
    if behind && before {
        Ok(())
    } else {
        Err(OpFault::No(Refusal::PlaneMisses(id.number())))
    }
}

/// The brushes, clipped. `TooManyFaces` with the first of them that has a part with too many.
pub(crate) fn clip_all(
    alloc: Global,
    map: &Map,
    cut: &Cut,
    part: Part,
    ids: &[NodeId],
) -> Result<Rows<Clipped>, OpFault>
    requires cut { IsCutting cut.now }
    requires brushes { (n : ℕ) → n ∈ ids.now → IsTrue (is_brush (whole map.now) n) }
    requires parts { (n : ℕ) → n ∈ ids.now → HaveParts (whole map.now) cut.now n }
    ensures { AreClipped (whole map.now) cut.now part ids.now result }
{
    let mut clipped = Vec::with_capacity(alloc, ids.len())?;
    for id in ids {
        let one = clip(alloc, map, cut, part, *id)?;
        add(&mut clipped, one)?;
    }
    Ok(Rows::of(clipped))
}

fn add(clipped: &mut Vec<Clipped>, one: Clipped) -> Result<(), AllocError>
    ensures { OnOk result (clipped.new.items ≡ clipped.old.items ++ one ∷ []) }
{
    clipped.push(one)?;
    Ok(())
}

fn clip(alloc: Global, map: &Map, cut: &Cut, part: Part, id: NodeId) -> Result<Clipped, OpFault>
    requires cut { IsCutting cut.now }
    requires brush { IsTrue (is_brush (whole map.now) id) }
    requires parts { HaveParts (whole map.now) cut.now id }
    ensures { IsClipped (whole map.now) cut.now part id result }
{
    let body = body_at(map, id);
    let back = cut.back.list();
    let front = cut.front.list();
    match part {
        Part::Back => Ok(Clipped {
            id,
            kept: half_body(alloc, body, back, id)?,
            new: None,
        }),
        Part::Front => Ok(Clipped {
            id,
            kept: half_body(alloc, body, front, id)?,
            new: None,
        }),
        Part::Both => Ok(Clipped {
            id,
            kept: half_body(alloc, body, back, id)?,
            new: Some(half_body(alloc, body, front, id)?),
        }),
    }
}
