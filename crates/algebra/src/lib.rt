//! Laws of the whole numbers, and of vectors, points and half-spaces with whole numbers.
//!
//! It has no code that runs: other crates speak of space in the words of `specs/`, and cite the lemmas of `proofs/`.
//! `Ring` proves an identity between polynomials in one line, `Orders` what is positive and what is at most what,
//! `Identities` what the words of space are in terms of one another, and `Wide` what arithmetic of 8 to 128 bits gives.
//! The functions below are empty: each states as its `ensures` a law that is proved there.
#![tactic(auto)]

ghost use Rattle.algebra.specs.Laws.{FractionOrder, GreatestAndLeast, RatioTest, SideOfMix, CommonPoint, PlaneThrough, Cauchy};

/// Fractions with positive denominators are in order.
pub fn fraction_order_law()
    ensures { FractionOrder }
{}

/// Of the fractions of a list one is the greatest and one is the least.
pub fn greatest_and_least_law<T>()
    ensures { GreatestAndLeast T }
{}

/// A point within half-spaces can go until it is on the plane of one of them.
pub fn ratio_test_law()
    ensures { RatioTest }
{}

/// The side of a point between two others.
pub fn side_of_mix_law()
    ensures { SideOfMix }
{}

/// Cramer's rule gives a point that three planes share, the only one where their normals are independent.
pub fn common_point_law()
    ensures { CommonPoint }
{}

/// The plane of three points has them on it.
pub fn plane_through_law()
    ensures { PlaneThrough }
{}

/// The inequality of Cauchy and Schwarz.
pub fn cauchy_law()
    ensures { Cauchy }
{}
