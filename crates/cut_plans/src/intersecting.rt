//! `intersect`: the common part of brushes.

ghost use Rattle.std.specs.Prelude.{◌≡◌, ℕ, ◌∷◌, [], ◌++◌, ◌<◌, ◌≤◌, ◌^◌, length, IsTrue, IfOk, OnOk};
ghost use Rattle.algebra.specs.Members.{◌∈◌, Every};
ghost use Rattle.map_nodes.specs.Seen.{sides_from};
ghost use Rattle.map_model.specs.Tree.{whole, is_brush};
ghost use Rattle.map_model.specs.Rows.{all_faces};
ghost use Rattle.cut_plans.specs.Told.{faces_of, IsTold};
ghost use Rattle.cut_plans.specs.Intersects.{sides_in_turn};

use crate::bodies::body_at;
use crate::solid_bodies::body_of_solid;
use map_nodes::{Body, NodeId};
use solid_brush::Solid;
use std::alloc::{AllocError, Global};
use tree_node::Map;
use uv_lock::Face;

/// The faces of brushes, one brush after another.
pub(crate) fn all_faces(alloc: Global, map: &Map, ids: &[NodeId]) -> Result<Vec<Face>, AllocError>
    requires brushes { (n : ℕ) → n ∈ ids.now → IsTrue (is_brush (whole map.now) n) }
    ensures { IfOk result (λ faces. faces.items ≡ all_faces (whole map.now) ids.now) }
{
    let mut all = Vec::with_capacity(alloc, ids.len())?;
    for id in ids {
        let body = body_at(map, *id);
        push_faces(alloc, &mut all, body.faces())?;
    }
    Ok(all)
}

fn push_faces(alloc: Global, list: &mut Vec<Face>, faces: &[Face]) -> Result<(), AllocError>
    ensures { OnOk result (list.new.items ≡ list.old.items ++ faces.now) }
{
    for face in faces {
        list.push(face.copy(alloc)?)?;
    }
    Ok(())
}

/// The solids of brushes. The tags of their sides count the faces of all brushes, one brush after another.
pub(crate) fn solids_in_turn(
    alloc: Global,
    map: &Map,
    ids: &[NodeId],
) -> Result<Vec<Solid>, AllocError>
    requires brushes { (n : ℕ) → n ∈ ids.now → IsTrue (is_brush (whole map.now) n) }
    requires few { length ids.now < 4096 }
    ensures { IfOk result (λ solids. solids.items ≡ sides_in_turn (whole map.now) 0 ids.now) }
{
    let mut solids = Vec::with_capacity(alloc, ids.len())?;
    let mut base = 0;
    for id in ids {
        let body = body_at(map, *id);
        body.is_valid();
        let solid = raised(alloc, body, base)?;
        base += body.faces().len() as u32;
        add(&mut solids, solid)?;
    }
    Ok(solids)
}

// The solid of a brush with the tags of its sides from a base on.
fn raised(alloc: Global, body: &Body, base: u32) -> Result<Solid, AllocError>
    requires small { base ≤ 2 ^ 30 }
    ensures { IfOk result (λ solid. solid ≡ sides_from base body.now) }
{
    body.is_valid();
    let mut solid = body.solid().copy(alloc)?;
    solid.retag(base);
    Ok(solid)
}

fn add(solids: &mut Vec<Solid>, solid: Solid) -> Result<(), AllocError>
    ensures { OnOk result (solids.new.items ≡ solids.old.items ++ solid ∷ []) }
{
    solids.push(solid)?;
    Ok(())
}

/// The brush of a solid, of whose sides each tag is the place of a face. It fails for want of memory alone.
pub(crate) fn body_of_all(alloc: Global, faces: &[Face], solid: &Solid) -> Result<Body, AllocError>
    requires few { length faces.now < 2 ^ 32 }
    requires told { Every (IsTold (length faces.now) faces.now []) solid.now }
    ensures { IfOk result (λ body. body ≡ faces_of (length faces.now) faces.now [] solid.now) }
{
    body_of_solid(alloc, faces.len() as u32, faces, &[], solid)
}
