//! Why points have no hull.

ghost use Rattle.std.specs.Prelude.{◌≡◌};
ghost use Rattle.hull_merge.specs.declared.fault.HullFault.TheVariants.{Memory};

use std::alloc::{AllocError, AllocFailed};

/// Why points have no hull. The first cause that holds is the one that is told.
#[derive(Clone, Copy, Debug, PartialEq, Eq)]
pub enum HullFault {
    /// There are so many distinct points, more than 512.
    TooManyPoints(u32),
    /// No four of the points span space.
    NoVolume,
    /// There are so many facets, more than 128.
    TooManyFaces(u64),
    /// Some point lies outside the world, the cube from -4096 to 4096.
    OutOfWorld,
    /// There was no memory for the hull.
    Memory,
}

impl From<AllocError> for HullFault {
    ghost from_gives = { λ _ e. e ≡ Memory };

    fn from(_e: AllocError) -> HullFault {
        HullFault::Memory
    }
}

impl<T: Drop> From<AllocFailed<T>> for HullFault {
    ghost from_gives = { λ _ e. e ≡ Memory };

    fn from(_e: AllocFailed<T>) -> HullFault {
        HullFault::Memory
    }
}
