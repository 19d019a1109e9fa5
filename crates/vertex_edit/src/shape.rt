//! What a brush becomes where its vertices move.

use exact_geom::{Point, Rows};
use solid_brush::Solid;

/// A facet of the moved points: its first three corners, and the number of the face of the old brush from which it comes.
#[derive(Clone, Copy, Debug, PartialEq, Eq)]
pub struct FromFace {
    pub points: [Point; 3],
    pub old: u32,
}

/// The facets of the moved points, and the solid behind them. The tag of a side is the place of its facet.
#[derive(Debug, Drop)]
pub struct Moved {
    pub facets: Rows<FromFace>,
    pub solid: Solid,
}
