//! The loop of a face: what solids tell of it, and how the definitions compute it, are one.
//!
//! It has no code that runs: `proofs/` shows that the loop that is computed from the vertices of a brush is the one that goes
//! round the face, and takes what calls say of a solid's vertices and loops, place by place, to whole lists of them.
#![tactic(auto)]

ghost use Rattle.loop_laws.specs.Laws.{LoopLaw, PlaceLaw};

/// The loop that is computed from the vertices of a face is its loop.
pub fn loop_law()
    ensures { LoopLaw }
{}

/// What is told of a place of a loop is what the computed loop has there.
pub fn place_law()
    ensures { PlaceLaw }
{}
