//! Why a brush isn't hollowed.

ghost use Rattle.std.specs.Prelude.{◌≡◌};
ghost use Rattle.csg_ops.specs.declared.hollow_fault.HollowFault.TheVariants.{Memory};

use std::alloc::AllocError;

/// Why a brush isn't hollowed. The first cause that holds is the one that is told.
#[derive(Clone, Copy, Debug, PartialEq, Eq)]
pub enum HollowFault {
    /// The brush isn't six faces with normals along the axes.
    NotBox,
    /// Twice the thickness is at least the length of a side, so that no point is inside the inner box.
    Thick,
    /// There was no memory.
    Memory,
}

impl From<AllocError> for HollowFault {
    ghost from_gives = { λ _ e. e ≡ Memory };

    fn from(_e: AllocError) -> HollowFault {
        HollowFault::Memory
    }
}
