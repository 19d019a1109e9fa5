//! Slots for the parts of a polyhedron, each under a typed number.
//!
//! An [`Arena`] keeps values under numbers that it picks, and each kind of number ([`VertId`],
//! [`EdgeId`], [`FaceId`]) has a type of its own, so that one kind can't be used for another.
//! A number names its value until that value is taken out, and only then may it be given out
//! again. Once room was reserved, putting a value in can't fail.
#![tactic(auto)]

mod arena;
mod ids;

pub use arena::Arena;
pub use ids::{EdgeId, FaceId, SlotId, VertId};
