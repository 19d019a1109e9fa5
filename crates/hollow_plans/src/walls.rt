//! The walls of boxes.

ghost use Rattle.std.specs.Prelude.{◌≡◌, ℕ, ◌∷◌, ◌++◌, [], ◌^◌, map, true, IsTrue, IfOk, OnOk};
ghost use Rattle.algebra.specs.Members.{◌∈◌, Every};
ghost use Rattle.map_model.specs.Tree.{whole, is_brush, faces_at};
ghost use Rattle.map_model.specs.Brushes.{is_box};
ghost use Rattle.map_model.specs.Meant.{ProperFaces};
ghost use Rattle.csg_ops.specs.Hollows.{IsThickness};
ghost use Rattle.cut_plans.specs.Told.{IsTold, faces_of};
ghost use Rattle.hollow_plans.specs.Walls.{AreWalls, IsHollowed, AreHollowed};

use cmd_text::Refusal;
use csg_ops::{HollowFault, hollow};
use cut_plans::{body_at, body_of_solid};
use exact_geom::Rows;
use map_nodes::{Body, NodeId};
use solid_brush::Solid;
use std::alloc::{AllocError, Global};
use tree_node::Map;
use tree_ops::OpFault;

// From here on the tags of walls tell faces that are moved inward.
const INNER_TAGS: u32 = 1 << 30;

/// A box and the walls that stand in its place.
#[derive(Drop)]
pub(crate) struct Hollowed {
    pub(crate) id: NodeId,
    pub(crate) walls: Rows<Body>,
}

/// The boxes with their walls, so thick. `Thick` with the first of them that has a side at most twice as long.
pub(crate) fn hollow_all(
    alloc: Global,
    map: &Map,
    thickness: i32,
    ids: &[NodeId],
) -> Result<Rows<Hollowed>, OpFault>
    requires thickness { IsThickness thickness }
    requires brushes { (n : ℕ) → n ∈ ids.now → IsTrue (is_brush (whole map.now) n) }
    requires boxes { (n : ℕ) → n ∈ ids.now → is_box (faces_at (whole map.now) n) ≡ true }
    ensures { AreHollowed (whole map.now) thickness ids.now result }
{
    let mut hollowed = Vec::with_capacity(alloc, ids.len())?;
    for id in ids {
        let one = hollow_one(alloc, map, thickness, *id)?;
        add(&mut hollowed, one)?;
    }
    Ok(Rows::of(hollowed))
}

fn add(hollowed: &mut Vec<Hollowed>, one: Hollowed) -> Result<(), AllocError>
    ensures { OnOk result (hollowed.new.items ≡ hollowed.old.items ++ one ∷ []) }
{
    hollowed.push(one)?;
    Ok(())
}

fn hollow_one(alloc: Global, map: &Map, thickness: i32, id: NodeId) -> Result<Hollowed, OpFault>
    requires thickness { IsThickness thickness }
    requires brush { IsTrue (is_brush (whole map.now) id) }
    requires boxed { is_box (faces_at (whole map.now) id) ≡ true }
    ensures { IsHollowed (whole map.now) thickness id result }
{
    map.is_map();
    let walls = walls(alloc, body_at(map, id), thickness, id)?;
    Ok(Hollowed { id, walls })
}

// The walls of a box. `Thick` with its number.
fn walls(alloc: Global, body: &Body, thickness: i32, id: NodeId) -> Result<Rows<Body>, OpFault>
    requires thickness { IsThickness thickness }
    requires boxed { is_box body.now ≡ true }
    requires proper { ProperFaces body.now }
    ensures { AreWalls thickness id body.now result }
{
    body.is_valid();
    match hollow(alloc, body.solid(), thickness) {
        Ok(solids) => Ok(bodies(alloc, body, &solids)?),
        Err(HollowFault::NotBox) => unreachable!(),
        Err(HollowFault::Thick) => Err(OpFault::No(Refusal::Thick(id.number()))),
        Err(HollowFault::Memory) => Err(OpFault::Memory),
    }
}

// The brushes of solids that are cut from a brush by its faces moved inward.
fn bodies(alloc: Global, body: &Body, solids: &[Solid]) -> Result<Rows<Body>, AllocError>
    requires told { Every (Every (IsTold (2 ^ 30) body.now body.now)) solids.now }
    ensures { IfOk result (λ bodies. bodies ≡ map (faces_of (2 ^ 30) body.now body.now) solids.now) }
{
    let faces = body.faces();
    let mut bodies = Vec::with_capacity(alloc, solids.len())?;
    for solid in solids {
        let one = body_of_solid(alloc, INNER_TAGS, faces, faces, solid)?;
        bodies.push(one)?;
    }
    Ok(Rows::of(bodies))
}
