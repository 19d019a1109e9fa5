//! Rays and the solids that they hit.
//!
//! A ray begins at a whole point and runs through a second one, and on beyond it. How far it goes is said by a fraction of the way
//! from the first point to the second: 0 is the first point, 1 the second, 2 as far again. `first_hit` gives the least fraction at which
//! the ray is in a solid, and the face that it meets there; `earlier` compares two of them. Both are exact, and take no memory.
#![tactic(auto)]

mod entry;
mod passing;
mod picking;
mod ratio;

pub use picking::{Hit, first_hit};
pub use ratio::{Ratio, earlier};
