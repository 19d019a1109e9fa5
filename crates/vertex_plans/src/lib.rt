//! Commands that move the vertices of brushes, planned over a map: `vertex` and `snap`.
//!
//! [`edit`] gives the first refusal of the one order in which refusals are tried, or else a change that names exactly the
//! nodes that differ, with the reply. It changes no map. A brush whose vertices move gets the facets of the hull of the
//! moved vertices, and each facet keeps the fields of the face from which it comes.
#![tactic(auto)]

mod editing;
mod moving;
mod on_facets;
mod points;
mod putting;
mod snap;
mod snapping;
mod sorting;
mod vertex;

pub use editing::{edit, is_vertex_command};
