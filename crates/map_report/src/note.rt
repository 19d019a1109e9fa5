//! What was mended of a map file.

use map_text::Reason;

/// What was mended of a map file, by the place of the entity in the file, from 0.
#[derive(Clone, Copy, Debug, PartialEq, Eq)]
pub enum Note {
    /// A brush can't be one of a map, for the reason: it is left out. Brushes count from 0 in their entity.
    Brush {
        entity: u32,
        brush: u32,
        reason: Reason,
    },
    /// The id of a layer or a group is absent, unreadable or taken by an earlier one: nothing can name it.
    Id(u32),
    /// No key tells a parent of it that is there, or it broke a ring of groups: it lies in the world.
    Parent(u32),
    /// A group has no child: it is dropped.
    Empty(u32),
    /// The transformation of a linked group is no motion: it is read as a plain group.
    Transformation(u32),
    /// A linked group lies beneath another: it is read as a plain group.
    Nested(u32),
    /// The members of a link set, of which this is the first, aren't one content: they are read as plain groups.
    Links(u32),
}
