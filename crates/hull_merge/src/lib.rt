//! Convex hulls of whole points, as solids.
//!
//! `hull` takes points and gives the facets of their convex hull and the solid behind them. It is exact: the solid has exactly the
//! points that lie in each half-space with all of the given points. A facet is told by the places of its first three corners in the
//! given list. Points without a volume, with too many facets, or outside the world are refused. `gather` gives the vertices of solids
//! as points. The facets are found by turning about edges.
#![tactic(auto)]

mod brush;
mod build;
mod fault;
mod gather_fault;
mod make;
mod outside;
mod places;
mod shape;
mod sides;
mod solids;
mod vertices;

pub use fault::HullFault;
pub use gather_fault::GatherFault;
pub use make::{hull, hull_core};
pub use shape::Hull;
pub use solids::gather;
pub use vertices::{vertices_of, whole_points};
