//! A law on what map texts read as.

ghost use Rattle.map_text.specs.Reads.{ReadsOneWay};

/// A text reads as one document, or it is refused.
pub fn one_reading_law()
    ensures { ReadsOneWay }
{}
