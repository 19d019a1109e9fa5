//! Laws of the cube of which polyhedra are cut, the one from -4352 to 4352.
//!
//! It has no code that runs: `specs/` gives the cube's corners, faces and half-edges by numbers. The functions below are empty:
//! each states as its `ensures` a law that is proved in `proofs/`.
#![tactic(auto)]

ghost use Rattle.cube_laws.specs.CubeLinks.{CubeStandsLaw};
ghost use Rattle.cube_laws.specs.Numbered.{NumberedLaw};

/// The eight corners, six faces and twenty-four half-edges stand for the cube's list.
pub fn cube_stands_law()
    ensures { CubeStandsLaw }
{}

/// What stands for a list does so under any numbers of the slots.
pub fn numbered_law()
    ensures { NumberedLaw }
{}
