//! Why a map file is refused.

use map_text::ReadFault;

/// Why a map file is refused.
#[derive(Clone, Copy, Debug, Drop, PartialEq, Eq)]
pub enum MapFault {
    /// It doesn't read by the grammar.
    Read(ReadFault),
    /// There is no entity, or the first isn't the world.
    NoWorld,
    /// A group names a link set, or an entity protects keys. Neither is read yet.
    NotBuilt,
    /// So many numbers would be drawn, which are too many.
    Full(u64),
}
