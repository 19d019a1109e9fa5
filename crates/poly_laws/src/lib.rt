//! Laws of cutting polyhedra that are kept as half-edges in arenas.
//!
//! It has no code that runs: `specs/` says when arenas stand for a list of half-spaces, and what a cut does to their slots. The
//! functions below are empty: each states as its `ensures` a law that is proved in `proofs/`. The first of them says that after
//! a cut the arenas stand for the cut list.
#![tactic(auto)]

ghost use Rattle.poly_laws.specs.Loops.{OneHalfEdgeLaw, GoesRoundLaw};
ghost use Rattle.poly_laws.specs.Cuts.{CutsLaw, CutsGoneLaw};
ghost use Rattle.poly_laws.specs.Three.{ThreeFacesLaw};
ghost use Rattle.poly_laws.specs.Stands.{LinkedLaw};
ghost use Rattle.poly_laws.specs.Laws.{CutArenasLaw, NeatLaw, CutListLaw};

/// Where the arenas stood for the list, after the cut they stand for the cut list.
pub fn cut_arenas_law()
    ensures { CutArenasLaw }
{}

/// A trimmed bounded list has faces that all bear, each half-space once.
pub fn neat_law()
    ensures { NeatLaw }
{}

/// With a vertex behind the plane and one in front: the faces with a vertex behind, and then the plane, are the trimmed list.
pub fn cut_list_law()
    ensures { CutListLaw }
{}

/// Each edge has exactly one half-edge in each direction.
pub fn one_half_edge_law()
    ensures { OneHalfEdgeLaw }
{}

/// The next-links from a half-edge come back, and pass each vertex of its face.
pub fn goes_round_law()
    ensures { GoesRoundLaw }
{}

/// Cutting by one plane after another leaves the trimmed list of all planes.
pub fn cuts_law()
    ensures { CutsLaw }
{}

/// Where no vertex is behind the next plane, all planes leave nothing inside.
pub fn cuts_gone_law()
    ensures { CutsGoneLaw }
{}

/// The normals of three faces of a trimmed list that meet in a point are independent.
pub fn three_faces_law()
    ensures { ThreeFacesLaw }
{}

/// Where the arenas are linked and finite, all vertices and half-edges are there.
pub fn linked_law()
    ensures { LinkedLaw }
{}
