//! `subtract`: brushes are cut into the pieces that lie outside another.

ghost use Rattle.std.specs.Prelude.{◌≡◌, ℕ, ◌∷◌, [], ◌++◌, length, map, true, IsTrue, IfOk, OnOk};
ghost use Rattle.algebra.specs.Members.{◌∈◌};
ghost use Rattle.map_model.specs.Tree.{whole, is_brush, faces_at};
ghost use Rattle.map_model.specs.Below.{Below, IsRight};
ghost use Rattle.map_model.specs.Brushes.{has_inside};
ghost use Rattle.brush_plans.specs.Saying.{Says};
ghost use Rattle.cut_plans.specs.Subtracts.{IsCutter, apart_row, apart_any, IsParted, AreParted};

use crate::bodies::body_at;
use crate::cutter::Cutter;
use crate::piece_bodies::piece_bodies;
use cmd_text::Refusal;
use csg_ops::{SubtractFault, subtract};
use exact_geom::Rows;
use map_nodes::{Body, NodeId};
use std::alloc::{AllocError, Global};
use tree_node::Map;
use tree_ops::OpFault;

/// A brush that is cut into pieces.
#[derive(Drop)]
pub(crate) struct Parted {
    pub(crate) id: NodeId,
    pub(crate) pieces: Rows<Body>,
}

/// `Apart` with the first of the brushes that has no point inside in common with the brush that cuts.
pub(crate) fn refuse_apart(
    alloc: Global,
    map: &Map,
    cutter: &Cutter,
    ids: &[NodeId],
) -> Result<(), OpFault>
    requires cutter { IsCutter cutter.now }
    requires brushes { (n : ℕ) → n ∈ ids.now → IsTrue (is_brush (whole map.now) n) }
    ensures { Says (apart_any (whole map.now) cutter.now.body ids.now) result }
{
    for id in ids {
        refuse_one(alloc, map, cutter, *id)?;
    }
    Ok(())
}

fn refuse_one(alloc: Global, map: &Map, cutter: &Cutter, id: NodeId) -> Result<(), OpFault>
    requires cutter { IsCutter cutter.now }
    requires brush { IsTrue (is_brush (whole map.now) id) }
    ensures { Says (apart_row (whole map.now) cutter.now.body id) result }
{
    let body = body_at(map, id);
    if meets(alloc, body, cutter)? {
        Ok(())
    } else {
        Err(OpFault::No(Refusal::Apart(id.number())))
    }
}

// Whether some point is inside both brushes.
fn meets(alloc: Global, body: &Body, cutter: &Cutter) -> Result<bool, AllocError>
    requires cutter { IsCutter cutter.now }
    ensures { IfOk result (λ some. (b : Below) → IsRight b → has_inside b (body.now ++ cutter.now.body) ≡ some) }
{
    body.is_valid();
    cutter.body.is_valid();
    let block = body.solid().block(alloc)?;
    let left = block.meet(alloc, cutter.solid.sides())?;
    Ok(left.is_some())
}

/// The pieces of each brush. `TooManyFaces` with the first brush of which a piece has too many.
pub(crate) fn part_all(
    alloc: Global,
    map: &Map,
    cutter: &Cutter,
    ids: &[NodeId],
) -> Result<Rows<Parted>, OpFault>
    requires cutter { IsCutter cutter.now }
    requires brushes { (n : ℕ) → n ∈ ids.now → IsTrue (is_brush (whole map.now) n) }
    requires some { (n : ℕ) → n ∈ ids.now → (b : Below) → IsRight b → has_inside b (faces_at (whole map.now) n ++ cutter.now.body) ≡ true }
    ensures { AreParted (whole map.now) cutter.now.body ids.now result }
{
    let mut parted = Vec::with_capacity(alloc, ids.len())?;
    for id in ids {
        let one = part(alloc, map, cutter, *id)?;
        add(&mut parted, one)?;
    }
    Ok(Rows::of(parted))
}

fn add(parted: &mut Vec<Parted>, one: Parted) -> Result<(), AllocError>
    ensures { OnOk result (parted.new.items ≡ parted.old.items ++ one ∷ []) }
{
    parted.push(one)?;
    Ok(())
}

fn part(alloc: Global, map: &Map, cutter: &Cutter, id: NodeId) -> Result<Parted, OpFault>
    requires cutter { IsCutter cutter.now }
    requires brush { IsTrue (is_brush (whole map.now) id) }
    requires some { (b : Below) → IsRight b → has_inside b (faces_at (whole map.now) id ++ cutter.now.body) ≡ true }
    ensures { IsParted (whole map.now) cutter.now.body id result }
{
    let body = body_at(map, id);
    body.is_valid();
    cutter.body.is_valid();
    match subtract(alloc, body.solid(), &cutter.solid) {
        Ok(solids) => {
            let pieces = piece_bodies(alloc, body.faces(), cutter.body.faces(), &solids)?;
            Ok(Parted { id, pieces })
        }
        Err(SubtractFault::Apart) => unreachable!(),
        Err(SubtractFault::TooManyFaces(count)) => Err(OpFault::No(Refusal::TooManyFaces(
            id.number(),
            u64::from(count),
        ))),
        Err(SubtractFault::Memory) => Err(OpFault::Memory),
    }
}
