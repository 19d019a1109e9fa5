//! Faces by their tags.

ghost use Rattle.std.specs.Prelude.{◌≡◌, ◌≢◌, ◌<◌, ◌+◌, ◌^◌, ℕ, Some, IsSome, nat_eq};
ghost use Rattle.algebra.specs.Members.{◌∈◌};
ghost use Rattle.half_arena.specs.declared.ids.FaceId.{FaceId};
ghost use Rattle.std.specs.Option.{option_map};
ghost use Rattle.half_arena.specs.Slots.{contents};
ghost use Rattle.half_poly.specs.declared.links.Face.{Face};
ghost use Rattle.half_poly.specs.Passes.{Passed};
ghost use Rattle.half_poly.specs.Shapes.{sides_of};
ghost use Rattle.half_poly.specs.Tags.{retagged, tag_place, tags_of};

use crate::links::{Face, Faces, write};
use half_arena::{FaceId, SlotId};

// Tags from here on stay as they are.
const TAG_LIMIT: u32 = 0x8000_0000;

// Whether the face has this tag.
fn has_tag(faces: &Faces, face: FaceId, tag: u32) -> bool
    ensures { (f : Face) → contents faces.now face.0 ≡ Some f → result ≡ nat_eq f.tag tag }
{
    match faces.get(face) {
        Some(found) => found.tag == tag,
        None => false,
    }
}

/// The number of the face with this tag, if there is one.
pub(crate) fn face_with(faces: &Faces, order: &[FaceId], tag: u32) -> Option<usize>
    requires listed { (id : FaceId) → id ∈ order.now → IsSome (contents faces.now id.0) }
    ensures { result ≡ tag_place (tags_of (sides_of (contents faces.now) order.now)) tag }
{
    for number in 0..order.len() {
        if has_tag(faces, order[number], tag) {
            return Some(number);
        }
    }
    None
}

// The face with a number added to its tag, if that is below 2^31.
fn retagged(face: Face, base: u32) -> Face
    requires room { face.tag < 2 ^ 31 → face.tag + base < 2 ^ 31 }
    ensures { result ≡ retagged base face }
{
    if face.tag < TAG_LIMIT {
        Face {
            plane: face.plane,
            tag: face.tag + base,
            first: face.first,
        }
    } else {
        face
    }
}

// Adds a number to the tag of the face in a slot, if there is one.
fn retag_slot(faces: &mut Faces, place: usize, base: u32)
    requires room { (f : Face) → contents faces.old place ≡ Some f → f.tag < 2 ^ 31 → f.tag + base < 2 ^ 31 }
    ensures here { contents faces.new place ≡ option_map (retagged base) (contents faces.old place) }
    ensures others { (k : ℕ) → k ≢ place → contents faces.new k ≡ contents faces.old k }
{
    let id = FaceId::at(place);
    if let Some(face) = faces.get(id).copied() {
        write(faces, id, retagged(face, base));
    }
}

/// Adds a number to each tag below 2^31.
pub(crate) fn retag_all(faces: &mut Faces, base: u32)
    requires room { (k : ℕ) (f : Face) → contents faces.old k ≡ Some f → f.tag < 2 ^ 31 → f.tag + base < 2 ^ 31 }
    ensures { Passed (λ _ f. option_map (retagged base) f) (contents faces.old) (contents faces.new) }
{
    for place in 0..faces.place_limit() {
        retag_slot(faces, place, base);
    }
}
