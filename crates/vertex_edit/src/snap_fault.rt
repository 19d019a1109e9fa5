//! Why vertices can't be rounded.

ghost use Rattle.std.specs.Prelude.{◌≡◌};
ghost use Rattle.vertex_edit.specs.declared.snap_fault.SnapFault.TheVariants.{Memory};

use std::alloc::AllocError;

/// Why vertices can't be rounded. The first cause that holds is the one that is told.
#[derive(Clone, Copy, Debug, PartialEq, Eq)]
pub enum SnapFault {
    /// No four of the rounded points span space.
    NoVolume,
    /// There are so many facets, more than 128.
    TooManyFaces(u64),
    /// There was no memory.
    Memory,
}

impl From<AllocError> for SnapFault {
    ghost from_gives = { λ _ e. e ≡ Memory };

    fn from(_e: AllocError) -> SnapFault {
        SnapFault::Memory
    }
}
