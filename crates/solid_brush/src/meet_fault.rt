//! Why what is left of brushes is no brush.

ghost use Rattle.std.specs.Prelude.{◌≡◌};
ghost use Rattle.solid_brush.specs.declared.meet_fault.MeetFault.TheVariants.{Memory};

use std::alloc::{AllocError, AllocFailed};

/// Why what is left of a brush behind further sides is no brush.
#[derive(Clone, Copy, Debug, PartialEq, Eq)]
pub enum MeetFault {
    /// So many faces are needed, more than 128.
    TooManyFaces(u32),
    /// There was no memory.
    Memory,
}

impl From<AllocError> for MeetFault {
    ghost from_gives = { λ _ e. e ≡ Memory };

    fn from(_e: AllocError) -> MeetFault {
        MeetFault::Memory
    }
}

impl<T: Drop> From<AllocFailed<T>> for MeetFault {
    ghost from_gives = { λ _ e. e ≡ Memory };

    fn from(_e: AllocFailed<T>) -> MeetFault {
        MeetFault::Memory
    }
}
