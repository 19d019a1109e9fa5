//! Laws of the pieces of one convex solid without another.
//!
//! It has no code that runs: `specs/` says which lists the pieces come from and what a remainder is, and `proofs/` shows that
//! the pieces are the remainder: they cover all of the one solid that isn't in the other, hold nothing of what is inside the
//! other, and meet only in their boundaries.
#![tactic(auto)]

ghost use Rattle.piece_laws.specs.Laws.{PiecesLaw};

/// The pieces of a solid without another are the remainder.
pub fn pieces_law<T>()
    ensures { PiecesLaw T }
{}
