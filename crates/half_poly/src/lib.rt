//! Convex polyhedra as half-edges in arenas, cut in place by planes.
//!
//! A [`Poly`] stands for a trimmed list of tagged planes. Its arenas hold each vertex of the list once, two half-edges for each
//! edge, one in each direction and each the other's twin, and each face once with its tag; the next-links from the first
//! half-edge of a face run through the face's loop and come back. It begins as the cube from -4352 to 4352, and a cut by a plane
//! leaves what trimming keeps of the planes and the new one, in at most one step for each vertex and one for each edge.
//! All memory is taken before anything changes.
#![tactic(auto)]

mod build;
mod cut;
mod cutting;
mod doors;
mod judging;
mod laws;
mod links;
mod loops;
mod moved;
mod moving;
mod names;
mod ordering;
mod pairs;
mod places;
mod poly;
mod relink;
mod relinking;
mod shape;
mod signs;
mod tags;
mod taking;
mod turning;

pub use cut::Cut;
pub use laws::{
    cube_trims_law, cut_trims_law, gone_trims_law, halved_law, phases_law, polyhedron_law,
};
pub use poly::Poly;
