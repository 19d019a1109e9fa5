//! `hollow`, planned over a map: boxes are replaced by their walls.
//!
//! [`edit`] gives the first refusal of the one order in which refusals are tried, or else a change that names exactly the
//! nodes that differ, with the reply. It changes no map. The walls of a box are cut from its solid; each face of them has the
//! fields of the face of the box from which it comes.
#![tactic(auto)]

mod boxes;
mod editing;
mod hollowing;
mod placing;
mod walls;

pub use editing::{edit, is_hollow_command};
