//! Commands that make, move, copy and texture brushes, planned over a map: `box`, `copy`, `move`, `turn`, `flip`, `tex`.
//!
//! [`edit`] gives the first refusal of the one order in which refusals are tried, or else a change that names exactly the
//! nodes that differ, with the reply. It changes no map.
#![tactic(auto)]

mod boxing;
mod copying;
mod editing;
mod faces;
mod motion_rows;
mod motions;
mod moving;
mod moving_nodes;
mod places;
mod solids;
mod texturing;
mod walls;

pub use editing::{edit, is_edit_command};
