//! Commands that make brushes of points, planned over a map: `hull` and `merge`.
//!
//! [`edit`] gives the first refusal of the one order in which refusals are tried, or else a change that names exactly the
//! nodes that differ, with the reply. It changes no map. A brush has a face for each facet of the points, in the facets'
//! order. A merged brush is the hull of the vertices of several, and its faces take the fields of their faces.
#![tactic(auto)]

mod corners;
mod editing;
mod fields;
mod hulling;
mod keeping;
mod merging;
mod solids;

pub use editing::{edit, is_hull_command};
