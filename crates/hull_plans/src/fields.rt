//! The fields of the faces of merged brushes.

ghost use Rattle.std.specs.Prelude.{◌≡◌, ℕ, IsTrue, IfOk, option_copied};
ghost use Rattle.algebra.specs.Members.{◌∈◌, Every};
ghost use Rattle.map_model.specs.Shape.{half_spaces};
ghost use Rattle.map_model.specs.Tree.{whole, is_brush};
ghost use Rattle.map_model.specs.Rows.{all_faces, fields_for};
ghost use Rattle.trim_laws.specs.Solid.{Proper};
ghost use Rattle.hull_plans.specs.GivenFaces.{face_in, faces_on, IsBound};

use brush_plans::plain_face;
use cut_plans::body_at;
use exact_geom::{Plane, same_halfspace};
use map_nodes::NodeId;
use std::alloc::{AllocError, Global};
use tree_node::Map;
use tree_ops::Settings;
use uv_lock::Face;

/// A face on each of the planes: with the fields of the first face of the brushes in its half-space, else with plain ones.
pub(crate) fn faces_on(
    alloc: Global,
    map: &Map,
    set: &Settings,
    ids: &[NodeId],
    planes: &[Plane],
) -> Result<Vec<Face>, AllocError>
    requires brushes { (n : ℕ) → n ∈ ids.now → IsTrue (is_brush (whole map.now) n) }
    requires bounds { Every IsBound planes.now }
    ensures { IfOk result (λ faces. faces.items ≡ faces_on set.now (whole map.now) (all_faces (whole map.now) ids.now) planes.now) }
{
    let mut faces = Vec::with_capacity(alloc, planes.len())?;
    for plane in planes {
        faces.push(face_on(alloc, map, set, ids, *plane)?)?;
    }
    Ok(faces)
}

fn face_on(
    alloc: Global,
    map: &Map,
    set: &Settings,
    ids: &[NodeId],
    plane: Plane,
) -> Result<Face, AllocError>
    requires brushes { (n : ℕ) → n ∈ ids.now → IsTrue (is_brush (whole map.now) n) }
    requires bound { IsBound plane }
    ensures { IfOk result (λ face. face ≡ fields_for set.now (whole map.now) (all_faces (whole map.now) ids.now) plane) }
{
    match face_of_brushes(map, ids, plane) {
        Some(face) => moved_to(alloc, face, plane),
        None => plain_face(alloc, map, set, plane),
    }
}

// The fields of a face on another plane.
fn moved_to(alloc: Global, face: &Face, plane: Plane) -> Result<Face, AllocError>
    ensures { IfOk result (λ moved. moved ≡ record face.now { plane = plane }) }
{
    let old = face.copy(alloc)?;
    Ok(Face { plane, ..old })
}

// The first face of the brushes in the half-space of the plane.
fn face_of_brushes<'a>(map: &'a Map, ids: &[NodeId], plane: Plane) -> Option<&'a Face>
    requires brushes { (n : ℕ) → n ∈ ids.now → IsTrue (is_brush (whole map.now) n) }
    requires bound { IsBound plane }
    ensures { option_copied result ≡ face_in (all_faces (whole map.now) ids.now) plane }
{
    for id in ids {
        let body = body_at(map, *id);
        body.is_valid();
        if let Some(found) = face_of(body.faces(), plane) {
            return Some(found);
        }
    }
    None
}

fn face_of(faces: &[Face], plane: Plane) -> Option<&Face>
    requires proper { Proper (half_spaces faces.now) }
    requires bound { IsBound plane }
    ensures { option_copied result ≡ face_in faces.now plane }
{
    for face in faces {
        if same_halfspace(&face.plane, &plane) {
            return Some(face);
        }
    }
    None
}
