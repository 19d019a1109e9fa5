//! Boxes of solids along the axes, and solids that share a point inside.
//!
//! It has no code that runs: `specs/` says what the box of a solid is and when two boxes meet, and `proofs/` shows that the
//! boxes of solids that share an inside point meet, and that a solid reaches no further than its vertices.
#![tactic(auto)]

ghost use Rattle.touch_laws.specs.Boxes.{BoxesMeetLaw};

/// Solids that share a point inside have boxes that meet.
pub fn boxes_meet_law()
    ensures { BoxesMeetLaw }
{}
