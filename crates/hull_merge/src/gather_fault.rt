//! Why the vertices of solids are no points.

ghost use Rattle.std.specs.Prelude.{◌≡◌};
ghost use Rattle.hull_merge.specs.declared.gather_fault.GatherFault.TheVariants.{Memory};

use std::alloc::{AllocError, AllocFailed};

/// Why the vertices of solids aren't points.
#[derive(Clone, Copy, Debug, PartialEq, Eq)]
pub enum GatherFault {
    /// The first solid with a vertex that isn't whole.
    Fractional(u32),
    /// There was no memory for the points.
    Memory,
}

impl From<AllocError> for GatherFault {
    ghost from_gives = { λ _ e. e ≡ Memory };

    fn from(_e: AllocError) -> GatherFault {
        GatherFault::Memory
    }
}

impl<T: Drop> From<AllocFailed<T>> for GatherFault {
    ghost from_gives = { λ _ e. e ≡ Memory };

    fn from(_e: AllocFailed<T>) -> GatherFault {
        GatherFault::Memory
    }
}
