//! Commands that cut brushes, planned over a map: `clip`, `subtract` and `intersect`.
//!
//! [`edit`] gives the first refusal of the one order in which refusals are tried, or else a change that names exactly the
//! nodes that differ, with the reply. It changes no map. Each part of a brush is cut from the brush's solid, and its faces
//! keep the fields of the faces from which they come.
#![tactic(auto)]

mod bodies;
mod clip_plans;
mod clipping;
mod cutter;
mod editing;
mod halves;
mod intersect_plans;
mod intersecting;
mod piece_bodies;
mod solid_bodies;
mod subtract_plans;
mod subtracting;
mod told;

pub use bodies::body_at;
pub use editing::{edit, is_cut_command};
pub use solid_bodies::body_of_solid;
pub use told::faces_of;
