//! Why brushes have no intersection.

ghost use Rattle.std.specs.Prelude.{◌≡◌};
ghost use Rattle.csg_ops.specs.declared.intersect_fault.IntersectFault.TheVariants.{Memory};
ghost use Rattle.csg_ops.specs.Faults.{intersect_fault_of};

use solid_brush::MeetFault;
use std::alloc::AllocError;

/// Why brushes have no intersection. The first cause that holds is the one that is told.
#[derive(Clone, Copy, Debug, PartialEq, Eq)]
pub enum IntersectFault {
    /// The number of the first brush, from 0, with which the brushes so far have no common point inside.
    Apart(u32),
    /// The intersection needs so many faces, more than 128.
    TooManyFaces(u32),
    /// There was no memory.
    Memory,
}

impl From<MeetFault> for IntersectFault {
    ghost from_gives = { λ met e. e ≡ intersect_fault_of met };

    fn from(met: MeetFault) -> IntersectFault {
        match met {
            MeetFault::TooManyFaces(n) => IntersectFault::TooManyFaces(n),
            MeetFault::Memory => IntersectFault::Memory,
        }
    }
}

impl From<AllocError> for IntersectFault {
    ghost from_gives = { λ _ e. e ≡ Memory };

    fn from(_e: AllocError) -> IntersectFault {
        IntersectFault::Memory
    }
}
