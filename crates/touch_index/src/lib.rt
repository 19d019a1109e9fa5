//! Whether two solids overlap.
//!
//! `overlap` tells exactly whether some point is inside both of two solids, and counts one step.
#![tactic(auto)]

mod joining;
mod overlapping;

pub use overlapping::overlap;
