//! Maps as Wavefront OBJ texts, which modelling programs open.
//!
//! The profile is small: lines `v`, `usemtl` and `f` alone. [`write_obj`] goes through the brushes of a map in preorder. For
//! each it writes its vertices in the order of their names, and then each face as its material and the numbers of its
//! vertices, counterclockwise as seen from outside. Coordinates are those of the map: [`to_micro`] rounds each once, to the
//! nearest millionth. `specs/Text` is the text, to the byte.
#![tactic(auto)]

mod brushes;
mod corners;
mod faces;
mod materials;
mod micro;
mod obj;
mod vertices;

pub use micro::to_micro;
pub use obj::{Obj, write_obj};
