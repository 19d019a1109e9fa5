//! Planes by three whole points, the vertices where three planes meet, and on which side of a plane a vertex lies.
//! Every answer is exact: no number is rounded but by `round`, and no product or sum leaves its type.
//! No call takes memory. `side` and `HVertex::meet` count their calls; callers that count nothing take those of `uncounted`.
#![tactic(auto)]

mod axis;
mod crossing;
mod divisor;
mod half_space;
mod plane;
mod point;
mod rounding;
mod rows;
mod sides;
mod sign;
mod steps;
pub mod uncounted;
mod vertex;

pub use axis::Axis;
pub use divisor::gcd;
pub use plane::{Plane, PlaneFault};
pub use point::Point;
pub use rounding::{in_world, round, whole};
pub use rows::Rows;
pub use sides::{same_halfspace, side};
pub use sign::{Sign, det_sign};
pub use steps::Steps;
pub use vertex::HVertex;
