//! Brushes on the facets of moved vertices.

ghost use Rattle.std.specs.Prelude.{◌≡◌, ◌<◌, ◌++◌, [], ◌∷◌, length, IfOk, OnOk};
ghost use Rattle.vertex_plans.specs.Remade.{face_on, ComeFrom, AreFacesOn};

use exact_geom::Rows;
use fixed_num::Text;
use map_nodes::Body;
use solid_brush::Side;
use std::alloc::{AllocError, Global};
use uv_lock::Face;
use vertex_edit::{FromFace, Moved};

// The fields of the old face from which a facet comes, on the facet's own plane.
fn face_on(alloc: Global, old: &[Face], facet: &FromFace, side: &Side) -> Result<Face, AllocError>
    requires old { facet.now.old < length old.now }
    ensures { IfOk result (λ face. face ≡ face_on old.now facet.now side.now) }
{
    let face = &old[facet.old as usize];
    Ok(Face {
        plane: side.plane,
        material: Text::of(alloc, face.material.bytes())?,
        tex: face.tex,
    })
}

fn add(faces: &mut Vec<Face>, face: Face) -> Result<(), AllocError>
    ensures { OnOk result (faces.new.items ≡ faces.old.items ++ face ∷ []) }
{
    faces.push(face)?;
    Ok(())
}

// The faces on the facets, in order.
fn faces_on(
    alloc: Global,
    old: &[Face],
    facets: &[FromFace],
    sides: &[Side],
) -> Result<Vec<Face>, AllocError>
    requires from { ComeFrom old.now facets.now sides.now }
    ensures { IfOk result (λ faces. AreFacesOn old.now facets.now sides.now faces.items) }
{
    let mut faces = Vec::new(alloc);
    for k in 0..sides.len() {
        let face = face_on(alloc, old, &facets[k], &sides[k])?;
        add(&mut faces, face)?;
    }
    Ok(faces)
}

/// The brush of moved vertices: a face on each facet, with the fields of the old face from which it comes. It fails for want
/// of memory alone.
pub(crate) fn remade(alloc: Global, old: &Body, moved: Moved) -> Result<Body, AllocError>
    requires from { ComeFrom old.now moved.facets moved.solid }
    ensures { IfOk result (AreFacesOn old.now moved.facets moved.solid) }
{
    let Moved { facets, solid } = moved;
    let faces = faces_on(alloc, old.faces(), facets.list(), solid.sides())?;
    Ok(Body::of(Rows::of(faces), solid))
}
