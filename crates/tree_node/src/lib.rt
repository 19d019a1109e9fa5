//! Maps in slots, and changes that name a few nodes.
//!
//! A `Map` is seen as the nodes by number and the next number; its type keeps the shape of maps, so each brush is valid
//! and has its solid. A `Change` is a list of numbers with new nodes, or none, and a next number: `Map::swap` exchanges
//! its nodes with those of the map, so that a second swap leads back. A look-up or an edit costs what it names, and
//! nothing for the nodes that it doesn't name.
//!
//! Each edit of a change is one equation: the map with the change after the call is the edit of the map with the change
//! before it.
#![tactic(auto)]

mod change;
mod copies;
mod edits;
mod exchange;
mod map;
mod moving;
mod node_edits;
mod place;
mod preorder;
mod tighten;

pub use change::{Change, Full};
pub use map::Map;
