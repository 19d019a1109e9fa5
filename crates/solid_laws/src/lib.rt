//! Laws of the vertices and loops of brushes, as the faces of a list number and name them.
//!
//! It has no code that runs: `specs/` names each vertex by the first three faces that meet there, puts the vertices into the
//! order of their names, and gives the loop of a face by their numbers. The functions below are empty: each states as its
//! `ensures` a law that is proved in `proofs/`: that these lists are unique, and what a valid brush is besides.
#![tactic(auto)]

ghost use Rattle.solid_laws.specs.Laws.{WorldBoundedLaw, FourFacesLaw, NoCauseOfTrimLaw, ReducedFormLaw, HoldsVerticesLaw, BoxVerticesLaw, BearsExactlyLaw, InsideExactlyLaw, NameLaw, OneListLaw, OneNumberedLoopLaw};

/// A list with a point in it and none outside the world is bounded.
pub fn world_bounded_law()
    ensures { WorldBoundedLaw }
{}

/// A bounded list has at least four faces.
pub fn four_faces_law()
    ensures { FourFacesLaw }
{}

/// A list with a point inside whose trimmed list is a valid brush is refused for no cause.
pub fn no_cause_of_trim_law()
    ensures { NoCauseOfTrimLaw }
{}

/// Each point has a reduced form.
pub fn reduced_form_law()
    ensures { ReducedFormLaw }
{}

/// The list of the vertices holds each vertex, by whatever numbers it is given.
pub fn holds_vertices_law()
    ensures { HoldsVerticesLaw }
{}

/// Where no point of a list lies outside the world, the larger cube adds no vertex to it and takes none away.
pub fn box_vertices_law()
    ensures { BoxVerticesLaw }
{}

/// Vertices decide whether a face bears.
pub fn bears_exactly_law()
    ensures { BearsExactlyLaw }
{}

/// Vertices decide whether some point is inside.
pub fn inside_exactly_law()
    ensures { InsideExactlyLaw }
{}

/// Each vertex has one name.
pub fn name_law()
    ensures { NameLaw }
{}

/// The vertices of a list are one list.
pub fn one_list_law()
    ensures { OneListLaw }
{}

/// A face has one loop.
pub fn one_numbered_loop_law()
    ensures { OneNumberedLoopLaw }
{}
