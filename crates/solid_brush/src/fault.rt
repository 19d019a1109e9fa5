//! Why sides are no brush.

ghost use Rattle.std.specs.Prelude.{◌≡◌};
ghost use Rattle.solid_brush.specs.declared.fault.BuildFault.TheVariants.{Memory};

use std::alloc::{AllocError, AllocFailed};

/// Why sides are no brush. The first cause that holds is the one that is told.
#[derive(Clone, Copy, Debug, PartialEq, Eq)]
pub enum BuildFault {
    /// No point of the cube from -4352 to 4352 is behind all sides.
    NoVolume,
    /// Some point that is behind or on all sides lies outside the world, the cube from -4096 to 4096.
    OutOfWorld,
    /// So many faces are needed, more than 128.
    TooManyFaces(u32),
    /// There was no memory for the brush.
    Memory,
}

impl From<AllocError> for BuildFault {
    ghost from_gives = { λ _ e. e ≡ Memory };

    fn from(_e: AllocError) -> BuildFault {
        BuildFault::Memory
    }
}

impl<T: Drop> From<AllocFailed<T>> for BuildFault {
    ghost from_gives = { λ _ e. e ≡ Memory };

    fn from(_e: AllocFailed<T>) -> BuildFault {
        BuildFault::Memory
    }
}
