//! What holds of motions whatever they are.

ghost use Rattle.orient48.specs.Laws.{Follows};

/// Motions follow one another in any grouping, and each has its way back.
pub fn motions_law()
    ensures { Follows }
{}
