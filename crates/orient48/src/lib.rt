//! The 48 orientations, and motions: an orientation and then a shift.
//!
//! An orientation is a signed permutation of the coordinates. Its products and inverses are looked up in tables, and they
//! are the products and the inverses of the matrices. A motion takes a point x to M x + t; what it answers is exact, and
//! `None` or an error comes only where a limit is passed. Only `write_motion` takes memory.
#![tactic(auto)]

mod laws;
mod motion;
mod orient;
mod row;
mod tables;
mod texts;
mod words;

pub use laws::motions_law;
pub use motion::Motion;
pub use orient::Orient;
pub use texts::{read_motion, write_motion};
pub use words::first_word;
