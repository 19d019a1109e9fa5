//! Faces of brushes: a plane, a material, how its texture lies on it, and perhaps surface numbers.
//!
//! `base_axes` gives the texture axes that a plane has by its direction alone, `uv_at` the texture coordinates of a point,
//! `carry` the texture fields once a motion has moved the face, and `to_valve` those of a Standard face in the Valve format.
//! All are exact: they work on whole counts, and nothing is rounded. With lock, `carry` keeps the texture coordinates of
//! every point of the face, or says which offset would. Only the copy of a face takes memory.
#![tactic(auto)]

mod axes;
mod carrying;
mod coordinates;
mod face;
mod fraction;
mod numbers;
mod standard;
mod surface;
mod texture;

pub use axes::{base_axes, base_axes_law};
pub use carrying::{LockOffset, carry};
pub use coordinates::uv_at;
pub use face::Face;
pub use standard::to_valve;
pub use surface::Surface;
pub use texture::{Format, StandardTex, Tex, ValveTex};
