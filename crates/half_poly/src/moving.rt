//! Moving the faces and vertices of a polyhedron.

ghost use Rattle.std.specs.Prelude.{◌≡◌, ◌≢◌, ℕ, None, Some};
ghost use Rattle.std.specs.Option.{option_map};
ghost use Rattle.algebra.specs.Space.{Homogeneous};
ghost use Rattle.exact_geom.specs.Planes.{first_out_of_range};
ghost use Rattle.half_arena.specs.Slots.{contents};
ghost use Rattle.orient48.specs.Motions.{Motion as Moving, moved_plane};
ghost use Rattle.half_poly.specs.declared.links.Face.{Face};
ghost use Rattle.half_poly.specs.Passes.{Passed};
ghost use Rattle.half_poly.specs.Moving.{moved_face, IsCornerOf, CanMove, IsMovedSlot, SaysMoved};

use crate::links::{Face, Faces, Vertices, write};
use crate::names::{Name, name_at};
use crate::poly::{face_at, plane_of};
use exact_geom::uncounted::meet;
use exact_geom::{HVertex, in_world};
use half_arena::{FaceId, SlotId, VertId};
use orient48::Motion;

// The face, moved.
fn moved_face(motion: &Motion, face: Face) -> Face
    requires in_range { first_out_of_range (moved_plane motion.now face.plane) ≡ None }
    ensures { result ≡ moved_face motion.now face }
{
    match motion.plane(&face.plane) {
        Ok(plane) => Face {
            plane,
            tag: face.tag,
            first: face.first,
        },
        Err(_) => unreachable!(),
    }
}

// Moves the face in a slot, if there is one.
fn move_face(motion: &Motion, place: usize, faces: &mut Faces)
    requires in_range { (f : Face) → contents faces.old place ≡ Some f → first_out_of_range (moved_plane motion.now f.plane) ≡ None }
    ensures here { contents faces.new place ≡ option_map (moved_face motion.now) (contents faces.old place) }
    ensures others { (k : ℕ) → k ≢ place → contents faces.new k ≡ contents faces.old k }
{
    let id = FaceId::at(place);
    if let Some(face) = faces.get(id).copied() {
        write(faces, id, moved_face(motion, face));
    }
}

/// Moves each face.
pub(crate) fn move_faces(motion: &Motion, faces: &mut Faces)
    requires in_range { (k : ℕ) (f : Face) → contents faces.old k ≡ Some f → first_out_of_range (moved_plane motion.now f.plane) ≡ None }
    ensures { Passed (λ _ f. option_map (moved_face motion.now) f) (contents faces.old) (contents faces.new) }
{
    for place in 0..faces.place_limit() {
        move_face(motion, place, faces);
    }
}

// Where the three faces of a name meet.
fn corner(faces: &Faces, order: &[FaceId], name: Name) -> Option<HVertex>
    ensures { (p : Homogeneous) → IsCornerOf (contents faces.now) order.now name p → result ≡ Some p }
{
    let first = plane_of(face_at(faces, order, name.first))?;
    let second = plane_of(face_at(faces, order, name.second))?;
    let third = plane_of(face_at(faces, order, name.third))?;
    meet(&first, &second, &third)
}

// Moves the vertex in a slot, if there is one, to where the three faces of its name meet. Whether it stays in the world.
fn move_vertex(
    names: &[Name],
    faces: &Faces,
    order: &[FaceId],
    place: usize,
    vertices: &mut Vertices,
) -> bool
    ensures here { (r : Moving) → CanMove r (contents faces.now) order.now names.now (contents vertices.old) place →
        IsMovedSlot r (contents vertices.old place) (contents vertices.new place) result }
    ensures others { (x : ℕ) → x ≢ place → contents vertices.new x ≡ contents vertices.old x }
{
    let id = VertId::at(place);
    let Some(vertex) = vertices.get(id).copied() else {
        return true;
    };
    // What it reads tells that the vertex is reduced.
    let _parts = vertex.parts();
    let Some(moved) = corner(faces, order, name_at(names, place)) else {
        return true;
    };
    write(vertices, id, moved);
    in_world(&moved)
}

/// Moves each vertex to where the three faces of its name meet. Whether all stay in the world.
pub(crate) fn move_vertices(
    names: &[Name],
    faces: &Faces,
    order: &[FaceId],
    vertices: &mut Vertices,
) -> bool
    ensures moved { (r : Moving) → ((x : ℕ) → CanMove r (contents faces.now) order.now names.now (contents vertices.old) x) →
        SaysMoved r (contents vertices.old) (contents vertices.new) result }
{
    for place in 0..vertices.place_limit() {
        if !move_vertex(names, faces, order, place, vertices) {
            return false;
        }
    }
    true
}
