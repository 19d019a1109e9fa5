//! Why a plane doesn't split a brush.

ghost use Rattle.std.specs.Prelude.{◌≡◌};
ghost use Rattle.csg_ops.specs.declared.split_fault.SplitFault.TheVariants.{Memory};
ghost use Rattle.csg_ops.specs.Faults.{split_fault_of};

use solid_brush::MeetFault;
use std::alloc::AllocError;

/// Why a plane doesn't split a brush. The first cause that holds is the one that is told.
#[derive(Clone, Copy, Debug, PartialEq, Eq)]
pub enum SplitFault {
    /// No point is inside the brush and behind the plane, or none inside it and in front.
    PlaneMisses,
    /// A half needs so many faces, more than 128; the half behind the plane is tried first.
    TooManyFaces(u32),
    /// There was no memory.
    Memory,
}

impl From<MeetFault> for SplitFault {
    ghost from_gives = { λ met e. e ≡ split_fault_of met };

    fn from(met: MeetFault) -> SplitFault {
        match met {
            MeetFault::TooManyFaces(n) => SplitFault::TooManyFaces(n),
            MeetFault::Memory => SplitFault::Memory,
        }
    }
}

impl From<AllocError> for SplitFault {
    ghost from_gives = { λ _ e. e ≡ Memory };

    fn from(_e: AllocError) -> SplitFault {
        SplitFault::Memory
    }
}
