//! Why brushes have no pieces of one without the other.

ghost use Rattle.std.specs.Prelude.{◌≡◌};
ghost use Rattle.csg_ops.specs.declared.subtract_fault.SubtractFault.TheVariants.{Memory};
ghost use Rattle.csg_ops.specs.Faults.{subtract_fault_of};

use solid_brush::MeetFault;
use std::alloc::AllocError;

/// Why brushes have no pieces of one without the other. The first cause that holds is the one that is told.
#[derive(Clone, Copy, Debug, PartialEq, Eq)]
pub enum SubtractFault {
    /// No point is inside both brushes.
    Apart,
    /// So many faces, more than 128, are needed of the first piece that needs too many.
    TooManyFaces(u32),
    /// There was no memory.
    Memory,
}

impl From<MeetFault> for SubtractFault {
    ghost from_gives = { λ met e. e ≡ subtract_fault_of met };

    fn from(met: MeetFault) -> SubtractFault {
        match met {
            MeetFault::TooManyFaces(n) => SubtractFault::TooManyFaces(n),
            MeetFault::Memory => SubtractFault::Memory,
        }
    }
}

impl From<AllocError> for SubtractFault {
    ghost from_gives = { λ _ e. e ≡ Memory };

    fn from(_e: AllocError) -> SubtractFault {
        SubtractFault::Memory
    }
}
