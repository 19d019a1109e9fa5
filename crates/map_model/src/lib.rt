//! Maps as trees of numbered nodes, and what the editor's commands make of them.
//!
//! It has no code that runs: `specs/` has the definitions, from a face and a node up to a script's step, the document that
//! a map is saved as and the one that it is built from. `proofs/` has worked scripts and documents, each computed from the
//! definitions alone. The functions below are empty: each states as its `ensures` a law that is proved in `proofs/`.
//!
//! What points a solid has is asked by a few tests (`specs/Below`); what they mean is said there, and what is made of them
//! in `specs/Meant`. `specs/Computed` computes them from vertices.
#![tactic(auto)]

ghost use Rattle.map_model.specs.Below.{SomeAreRight};
ghost use Rattle.map_model.specs.History.{AddLaw, UndoLaw, RedoLaw};
ghost use Rattle.map_model.specs.Meant.{TrimmedLaw, InsideLaw, OneTrimLaw, PiecesLaw, VerticesLaw, JudgedLaw};
ghost use Rattle.map_model.specs.Promises.{OneOutcomeLaw};
ghost use Rattle.map_model.specs.Replies.{KeptLaw};
ghost use Rattle.map_model.specs.Session.{RepliesLaw, FrontLaw};

/// Some tests on solids are right, so that what holds for whatever right tests does hold.
pub fn some_are_right_law()
    ensures { SomeAreRight }
{}

/// One thing comes of a command, by whatever right tests.
pub fn one_outcome_law()
    ensures { OneOutcomeLaw }
{}

/// The faces that the tests trim a list to are those that a solid needs.
pub fn trimmed_law()
    ensures { TrimmedLaw }
{}

/// The tests tell whether faces have a point inside.
pub fn inside_law()
    ensures { InsideLaw }
{}

/// Right tests leave no choice in trimming.
pub fn one_trim_law()
    ensures { OneTrimLaw }
{}

/// The pieces that points say there are are those that the tests give.
pub fn pieces_law()
    ensures { PiecesLaw }
{}

/// The vertices of a brush are those that the tests give.
pub fn vertices_law()
    ensures { VerticesLaw }
{}

/// A file's faces are judged by the points of their half-spaces.
pub fn judged_law()
    ensures { JudgedLaw }
{}

/// A change that is added leads back from a new map.
pub fn add_law()
    ensures { AddLaw }
{}

/// Undo goes to the map before.
pub fn undo_law()
    ensures { UndoLaw }
{}

/// Redo goes to the map after.
pub fn redo_law()
    ensures { RedoLaw }
{}

/// Replies keep fractions as they are.
pub fn kept_law()
    ensures { KeptLaw }
{}

/// No reply of the session can be taken for the line `memory`.
pub fn replies_law()
    ensures { RepliesLaw }
{}

/// Of any line the first 4,097 bytes, or more of them, decide the answer.
pub fn front_law()
    ensures { FrontLaw }
{}
