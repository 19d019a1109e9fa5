//! Laws of cutting convex solids by planes.
//!
//! It has no code that runs: `specs/` says what a cut is, and the lemmas of `proofs/` say what the vertices, edges, half-edges
//! and faces of the part behind a plane are, and what its trimmed list is. The functions below are empty: each states as its
//! `ensures` a law that is proved there.
#![tactic(auto)]

ghost use Rattle.cut_laws.specs.Laws.{CutVerticesLaw, OldVertexLaw, NewVertexLaw, KeptFaceLaw, GoneFaceLaw, NewFaceLaw, MissedLaw, MissedNewLaw, MissedOldLaw, GoneLaw, KeptHalfEdgeLaw, LeavingHalfEdgeLaw, LeaveLaw, EnterLaw, NewCornerLaw, TrimAddLaw, MissedTrimLaw, HalvedTrimLaw, IncomingLaw, TrimBoundedLaw};

/// Each vertex of the part behind a plane is an old one, or the point of the plane on an edge that it cuts.
pub fn cut_vertices_law()
    ensures { CutVerticesLaw }
{}

/// An old vertex that is not in front is a vertex of the part behind.
pub fn old_vertex_law()
    ensures { OldVertexLaw }
{}

/// The point of the plane on an edge that it cuts is a vertex of the part behind.
pub fn new_vertex_law()
    ensures { NewVertexLaw }
{}

/// A face that bears and has a point behind the plane goes on bearing.
pub fn kept_face_law()
    ensures { KeptFaceLaw }
{}

/// A face that goes on bearing has a vertex behind the plane.
pub fn gone_face_law()
    ensures { GoneFaceLaw }
{}

/// Where some points of the solid are behind and some in front, the plane bears.
pub fn new_face_law()
    ensures { NewFaceLaw }
{}

/// With no vertex in front, nothing is cut off.
pub fn missed_law()
    ensures { MissedLaw }
{}

/// With no vertex in front, the plane bears only where it repeats a face.
pub fn missed_new_law()
    ensures { MissedNewLaw }
{}

/// With no vertex in front, the faces bear as before.
pub fn missed_old_law()
    ensures { MissedOldLaw }
{}

/// With no vertex behind, nothing is left inside.
pub fn gone_law()
    ensures { GoneLaw }
{}

/// A half-edge with no end in front stays one.
pub fn kept_half_edge_law()
    ensures { KeptHalfEdgeLaw }
{}

/// A half-edge from behind to the front leads to the plane then.
pub fn leaving_half_edge_law()
    ensures { LeavingHalfEdgeLaw }
{}

/// A half-edge from behind to the plane ends where the one of its face on the plane begins.
pub fn leave_law()
    ensures { LeaveLaw }
{}

/// A half-edge from the plane to behind begins where the one of its face on the plane ends.
pub fn enter_law()
    ensures { EnterLaw }
{}

/// The old faces through the point of the plane on a cut edge are those through the edge.
pub fn new_corner_law()
    ensures { NewCornerLaw }
{}

/// What trimming makes of the trimmed list with a further plane, it makes of the list with that plane.
pub fn trim_add_law()
    ensures { TrimAddLaw }
{}

/// With no vertex in front, trimming gives what it gave before.
pub fn missed_trim_law()
    ensures { MissedTrimLaw }
{}

/// With a vertex in front and one behind, trimming keeps the faces with a vertex behind, and the plane.
pub fn halved_trim_law()
    ensures { HalvedTrimLaw }
{}

/// Each vertex on a face that bears has a half-edge of the face that leads to it.
pub fn incoming_law()
    ensures { IncomingLaw }
{}

/// The trimmed list of a bounded list is bounded.
pub fn trim_bounded_law()
    ensures { TrimBoundedLaw }
{}
