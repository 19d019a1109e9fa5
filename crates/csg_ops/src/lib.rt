//! Brushes cut into others: split, intersected, subtracted, hollowed.
//!
//! Everything is exact. The two halves of a split brush are what lies behind the plane and what lies in front of it; the
//! intersection of brushes has exactly the points that lie in all of them. The pieces of a brush without another cover exactly the
//! remainder, and meet only in their boundaries. A result keeps the planes that it needs with their tags. What is left of a brush
//! is cut by one side after another, so that no brush is built anew.
#![tactic(auto)]

mod boxes;
mod carving;
mod hollow_fault;
mod hollowing;
mod intersect_fault;
mod intersecting;
mod inward;
mod laws;
mod solids;
mod split_fault;
mod splitting;
mod subtract_fault;
mod subtracting;

pub use hollow_fault::HollowFault;
pub use hollowing::hollow;
pub use intersect_fault::IntersectFault;
pub use intersecting::intersect;
pub use laws::{short_by_vertices_law, thick_law};
pub use split_fault::SplitFault;
pub use splitting::{Halves, split};
pub use subtract_fault::SubtractFault;
pub use subtracting::subtract;
