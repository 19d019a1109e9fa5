//! Laws of rays: how far a ray goes before it is in a solid, as points tell it and as maps compute it, is one.
//!
//! It has no code that runs. The functions below are empty: each states as its `ensures` a law that is proved in `proofs/`.
#![tactic(auto)]

ghost use Rattle.ray_laws.specs.Laws.{ReachLaw, FaceLaw};

/// The fraction of a ray's hit is the least of those that maps compute, and there is none where the ray misses.
pub fn reach_law()
    ensures { ReachLaw }
{}

/// The face of a hit is the first whose plane has the point.
pub fn face_law()
    ensures { FaceLaw }
{}
