//! What is proved of cuts, without code.

ghost use Rattle.half_poly.specs.Phases.{PhasesLaw};
ghost use Rattle.half_poly.specs.Shapes.{HalvedLaw};
ghost use Rattle.half_poly.specs.Polyhedron.{PolyhedronLaw};
ghost use Rattle.half_poly.specs.Trims.{CubeTrimsLaw, CutTrimsLaw, GoneTrimsLaw};

/// The passes of a cut are a cut of the arenas.
pub fn phases_law()
    ensures { PhasesLaw }
{}

/// After the passes of a cut the arenas stand for the sides that stay, and the plane.
pub fn halved_law()
    ensures { HalvedLaw }
{}

/// The cube stands for its own planes.
pub fn cube_trims_law()
    ensures { CubeTrimsLaw }
{}

/// After a cut that is answered `Missed` or `Halved` the sides are what trimming keeps of all planes up to this one.
pub fn cut_trims_law()
    ensures { CutTrimsLaw }
{}

/// A cut that is answered `Gone` would leave nothing inside.
pub fn gone_trims_law()
    ensures { GoneTrimsLaw }
{}

/// The arenas of each polyhedron hold the vertices, edges and faces of its planes, each once, and the links go round each face.
pub fn polyhedron_law()
    ensures { PolyhedronLaw }
{}
