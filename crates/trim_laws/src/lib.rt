//! Laws of convex solids that are given as lists of half-spaces, and of their trimmed lists.
//!
//! It has no code that runs: `specs/` says what it is to be in a solid, which faces a solid needs, and which lists are
//! valid brushes; other crates cite the lemmas of `proofs/`. The functions below are empty: each states as its `ensures`
//! a law that is proved there. So a list with a point inside it and its trimmed list have the same points.
#![tactic(auto)]

ghost use Rattle.trim_laws.specs.Laws.{SameLaw, SameByNumbersLaw, BearingLaw, TrimLaw, TrimBackLaw, TrimInsideLaw, TrimUniqueLaw, TrimAgainLaw, ValidLaw, OneCauseLaw, NoCauseLaw, TrimFacesLaw};

/// Two half-spaces are one exactly where one is a positive multiple of the other.
pub fn same_law()
    ensures { SameLaw }
{}

/// The test by numbers tells whether two half-spaces are one.
pub fn same_by_numbers_law()
    ensures { SameByNumbersLaw }
{}

/// Each point of a solid is inside, or on a face that bears.
pub fn bearing_law()
    ensures { BearingLaw }
{}

/// The points of the trimmed list are points of the list.
pub fn trim_law()
    ensures { TrimLaw }
{}

/// The points of the list are points of the trimmed list.
pub fn trim_back_law()
    ensures { TrimBackLaw }
{}

/// The points inside the trimmed list are inside the list.
pub fn trim_inside_law()
    ensures { TrimInsideLaw }
{}

/// There is only one trimmed list.
pub fn trim_unique_law()
    ensures { TrimUniqueLaw }
{}

/// Trimming again changes nothing.
pub fn trim_again_law()
    ensures { TrimAgainLaw }
{}

/// The trimmed list of a list within the world, with a point inside, is a valid brush if the count of its faces is right.
pub fn valid_law()
    ensures { ValidLaw }
{}

/// A list is refused for one cause.
pub fn one_cause_law()
    ensures { OneCauseLaw }
{}

/// A valid brush is refused for none.
pub fn no_cause_law()
    ensures { NoCauseLaw }
{}

/// Trimming faces is trimming their half-spaces.
pub fn trim_faces_law<T>()
    ensures { TrimFacesLaw T }
{}
