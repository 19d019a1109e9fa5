//! Moving and rounding the vertices of brushes.
//!
//! A brush whose vertices were moved becomes the convex hull of the moved points. `move_vertices` moves some of the vertices by a
//! shift, `snap` rounds all of them to a grid. Each facet of the new brush is told with the face of the old one from which it
//! comes: the face with most of its vertices, in their new places, on the facet.
#![tactic(auto)]

mod carried;
mod edit;
mod fault;
mod moving;
mod old_face;
mod picks;
mod shape;
mod snap_fault;
mod snapping;

pub use fault::MoveFault;
pub use moving::move_vertices;
pub use shape::{FromFace, Moved};
pub use snap_fault::SnapFault;
pub use snapping::snap;
