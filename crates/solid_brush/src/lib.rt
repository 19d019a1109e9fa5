//! Valid brushes: convex solids by the planes of their sides.
//!
//! `Solid::build` takes the sides of a brush, drops those that it does not need, and refuses lists that bound no volume, leave
//! the world or need too many faces. It is exact: a solid is the set of the points that lie behind or on all of its sides, and
//! the built one has exactly the points of the sides that were given. Its vertices, in the order of their names, and the loop of
//! each side can be read. It is cut from the cube from -4352 to
//! 4352, side by side, and keeps its polyhedron.
//!
//! `Solid::meet` cuts a copy of a brush by further sides. What is cut on the way from brush to brush is a `Block`, which may have
//! any number of faces.
#![tactic(auto)]

mod block;
mod cutting;
mod fault;
mod meet_fault;
mod side;
mod solid;
mod world;

pub use block::Block;
pub use fault::BuildFault;
pub use meet_fault::MeetFault;
pub use side::Side;
pub use solid::Solid;
