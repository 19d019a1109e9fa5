//! Laws of texture lock: what carrying a face by one motion and then another makes of it, and where it leaves the texture
//! coordinates of its points.
//!
//! It has no code that runs. The functions below are empty: each states as its `ensures` laws that are proved there.
#![tactic(auto)]

ghost use Rattle.lock_laws.specs.Laws.{Divides, Locks};

/// A Valve face that is carried with lock keeps the texture coordinates of each point, fractional ones too. Carried by one
/// motion and then by another, a face is carried by both at once, and the way back leads to the face of before.
pub fn lock_law()
    ensures { Locks }
{}

/// What the definitions compute of numbers: a fraction in lowest terms has the value that it is to have, and a quotient without
/// a remainder is found exactly where there is one.
pub fn numbers_law()
    ensures { Divides }
{}
