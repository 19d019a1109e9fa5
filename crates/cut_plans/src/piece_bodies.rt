//! Pieces as brushes.

ghost use Rattle.std.specs.Prelude.{◌≡◌, ◌∷◌, [], ◌++◌, List, map, IfOk, OnOk};
ghost use Rattle.algebra.specs.Members.{◌∈◌, Every};
ghost use Rattle.solid_brush.specs.declared.side.Side.{Side};
ghost use Rattle.cut_plans.specs.Told.{faces_of, IsTold};

use crate::cutter::BASE;
use crate::solid_bodies::body_of_solid;
use exact_geom::Rows;
use map_nodes::Body;
use solid_brush::Solid;
use std::alloc::{AllocError, Global};
use uv_lock::Face;

/// The brushes of solids whose sides tell their faces: old ones by tags below `BASE`, and new ones from there on.
pub(crate) fn piece_bodies(
    alloc: Global,
    old: &[Face],
    new: &[Face],
    solids: &[Solid],
) -> Result<Rows<Body>, AllocError>
    requires { (s : List Side) → s ∈ solids.now → Every (IsTold 128 old.now new.now) s }
    ensures { IfOk result (λ bodies. bodies ≡ map (faces_of 128 old.now new.now) solids.now) }
{
    let mut bodies = Vec::with_capacity(alloc, solids.len())?;
    for solid in solids {
        let body = body_of_solid(alloc, BASE, old, new, solid)?;
        add(&mut bodies, body)?;
    }
    Ok(Rows::of(bodies))
}

fn add(bodies: &mut Vec<Body>, body: Body) -> Result<(), AllocError>
    ensures { OnOk result (bodies.new.items ≡ bodies.old.items ++ body ∷ []) }
{
    bodies.push(body)?;
    Ok(())
}
