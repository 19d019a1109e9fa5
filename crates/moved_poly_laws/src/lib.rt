//! Laws of polyhedra that a motion moves: half-edges in numbered slots that stand for a list of half-spaces stand, once their
//! points and planes are moved, for the moved list; a flip also turns each half-edge round.
//!
//! It has no code that runs. The functions below are empty: each states as its `ensures` a law that is proved there.
#![tactic(auto)]

ghost use Rattle.moved_poly_laws.specs.Laws.{KeptLaw, TurnedRoundLaw};

/// Under a motion that is no flip, the links stay, and points and planes are moved.
pub fn kept_law()
    ensures { KeptLaw }
{}

/// Under a flip, each half-edge also begins where it ended and leads on to the one that led to it.
pub fn turned_round_law()
    ensures { TurnedRoundLaw }
{}
