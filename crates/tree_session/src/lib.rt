//! Sessions: a map, the history of its changes, and the settings, which the lines of a script change.
//!
//! A `Session` answers one line after another. Contracts see it as a state of a machine: a list of whole maps, a place among
//! them, and the settings; [`Session::step`] is exactly a step of that machine, or says that it wants memory and leaves the
//! state. `specs/Built` says which words are built so far; every other command is refused as not built. The listings of
//! `show` and `tree` are exact texts.
#![tactic(auto)]

mod answer;
mod asking;
mod brush_lines;
mod entity_lines;
mod laws;
mod listing;
mod listings;
mod material;
mod obeying;
mod own_words;
mod picking;
mod planned;
mod reading;
mod session;
mod show_listing;
mod tree_lines;
mod tree_listing;
mod vertex_words;

pub use answer::Answer;
pub use laws::{front_law, replies_law};
pub use session::Session;
