//! What holds of the machine of the words that are built.

ghost use Rattle.tree_session.specs.Built.{BuiltRepliesLaw, BuiltFrontLaw};

/// No reply can be taken for the line `memory`.
pub fn replies_law()
    ensures { BuiltRepliesLaw }
{}

/// Of any line the first 4,097 bytes, or more of them, decide the answer.
pub fn front_law()
    ensures { BuiltFrontLaw }
{}
