//! Laws of boxes and their inner boxes.

ghost use Rattle.csg_ops.specs.Laws.{ThickLaw, ShortByVerticesLaw};

/// Where twice the thickness is at least the length of a side, and only there, a box and its inner box have no point inside both.
pub fn thick_law()
    ensures { ThickLaw }
{}

/// The vertices of a box tell whether a side is at most so long.
pub fn short_by_vertices_law()
    ensures { ShortByVerticesLaw }
{}
