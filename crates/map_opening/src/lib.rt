//! How the bytes of a map file open, and what is said of the map.
//!
//! [`open_map`] reads bytes as a map text and builds its tree, with notes on what was mended, or says why the file is refused.
//! Any bytes open in one way and no other, by whatever right tests on solids (`opens_law`, `opens_one_way_law`,
//! `opens_for_all_law`). [`summary`] counts what a map holds.
#![tactic(auto)]

mod counts;
mod laws;
mod opening;

pub use counts::summary;
pub use laws::{opens_for_all_law, opens_law, opens_one_way_law};
pub use opening::open_map;
