//! Laws of the vertices, edges and half-edges of convex solids that are given as lists of half-spaces.
//!
//! It has no code that runs: `specs/` says what a vertex, an edge and a half-edge are, and the lemmas of `proofs/` say what
//! a program can decide by vertices alone: which faces a bounded solid needs, whether it has a point inside, and whether it
//! leaves the world. The functions below are empty: each states as its `ensures` a law that is proved there.
#![tactic(auto)]

ghost use Rattle.vertex_laws.specs.Laws.{CornerLaw, BearsLaw, IdlesLaw, NoVertexLaw, VolumeLaw, NoVolumeLaw, CubeLaw, InCubeLaw, CubeValidLaw, LeavesCubeLaw, BoxVolumeLaw, BoxLeavesLaw, BoxTrimLaw, TrimVertexLaw, TrimVertexBackLaw, EdgeLaw, TwinLaw, TurnLaw, OutgoingLaw, OneOutgoingLaw, OneIncomingLaw, TwoFacesLaw, OneLoopLaw, LoopLaw};

/// From each point of a bounded solid there is a vertex down on any plane.
pub fn corner_law()
    ensures { CornerLaw }
{}

/// A face bears where some vertex is on it, and behind each other half-space there is a vertex on it.
pub fn bears_law()
    ensures { BearsLaw }
{}

/// A face whose vertices are all on the plane of one other half-space does not bear.
pub fn idles_law()
    ensures { IdlesLaw }
{}

/// A face with no vertex on it does not bear.
pub fn no_vertex_law()
    ensures { NoVertexLaw }
{}

/// Where a vertex is behind each face, some point is inside.
pub fn volume_law()
    ensures { VolumeLaw }
{}

/// Where some point is inside, a vertex is behind each face.
pub fn no_volume_law()
    ensures { NoVolumeLaw }
{}

/// A list with the faces of a cube among its own is bounded.
pub fn cube_law()
    ensures { CubeLaw }
{}

/// The points of a cube are those with coordinates from -c to c.
pub fn in_cube_law()
    ensures { InCubeLaw }
{}

/// Some point of a bounded solid lies outside a cube exactly where some vertex does.
pub fn leaves_cube_law()
    ensures { LeavesCubeLaw }
{}

/// The vertices of the list are vertices of the trimmed list.
pub fn trim_vertex_law()
    ensures { TrimVertexLaw }
{}

/// The vertices of the trimmed list are vertices of the list.
pub fn trim_vertex_back_law()
    ensures { TrimVertexBackLaw }
{}

/// An edge is a half-edge of one of its two faces.
pub fn edge_law()
    ensures { EdgeLaw }
{}

/// The twin of a half-edge is a half-edge of the other face.
pub fn twin_law()
    ensures { TwinLaw }
{}

/// The points of a face lie on the inner side of each of its half-edges.
pub fn turn_law()
    ensures { TurnLaw }
{}

/// Each vertex on a face that bears has a half-edge of the face.
pub fn outgoing_law()
    ensures { OutgoingLaw }
{}

/// Only one half-edge of a face goes from a vertex.
pub fn one_outgoing_law()
    ensures { OneOutgoingLaw }
{}

/// Only one half-edge of a face goes to a vertex.
pub fn one_incoming_law()
    ensures { OneIncomingLaw }
{}

/// Both ends of a half-edge are on no third face that bears.
pub fn two_faces_law()
    ensures { TwoFacesLaw }
{}

/// Points that half-edges of a face lead to and from among themselves are all vertices of the face.
pub fn one_loop_law()
    ensures { OneLoopLaw }
{}

/// A list has no volume exactly where no point is inside it and the larger cube.
pub fn box_volume_law()
    ensures { BoxVolumeLaw }
{}

/// A list with a point in the larger cube leaves the world exactly where it does so within that cube.
pub fn box_leaves_law()
    ensures { BoxLeavesLaw }
{}

/// Where no point lies outside the world, the larger cube adds nothing to the trimmed list.
pub fn box_trim_law()
    ensures { BoxTrimLaw }
{}

/// Points that half-edges of a face lead round are the loop of the face.
pub fn loop_law()
    ensures { LoopLaw }
{}

/// A cube within the world is a valid brush.
pub fn cube_valid_law()
    ensures { CubeValidLaw }
{}
