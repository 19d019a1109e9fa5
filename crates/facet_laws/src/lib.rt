//! Laws of the facets of points: what a map's definitions say of them by the points themselves, and what is shown of hulls by
//! the points' places in their list, is one.
//!
//! It has no code that runs: `specs/` states the law, and `proofs/` shows that the first triple of each half-space is the same
//! either way, that points without repetition are the same as vectors, and that a computed test tells whether points span
//! space.
#![tactic(auto)]

ghost use Rattle.facet_laws.specs.Laws.{FacetsLaw};

/// The facets by places are the facets by points.
pub fn facets_law()
    ensures { FacetsLaw }
{}
