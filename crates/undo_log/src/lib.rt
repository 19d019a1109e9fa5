//! The history of a session: the changes that lead from map to map.
//!
//! A `History` is one list of changes and a place in it. Swapped into the map beside it, the change before the place leads
//! to the map before, and the one at the place to the map after; a swap leaves in the change what leads back, so no change
//! ever moves. With its map the history stands for a list of whole maps and a place, and it keeps no copy of any of them:
//! each change names exactly the nodes in which two neighbouring maps differ. `undo`, `redo` and `add` take no memory.
#![tactic(auto)]

mod history;

pub use history::History;
