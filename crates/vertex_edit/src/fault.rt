//! Why vertices can't be moved.

ghost use Rattle.std.specs.Prelude.{◌≡◌};
ghost use Rattle.vertex_edit.specs.declared.fault.MoveFault.TheVariants.{Memory};

use std::alloc::AllocError;

/// Why vertices can't be moved. The first cause that holds is the one that is told.
#[derive(Clone, Copy, Debug, PartialEq, Eq)]
pub enum MoveFault {
    /// The first pick that is no vertex of the brush, from 1.
    NoVertex(usize),
    /// Some vertex of the brush isn't whole.
    Fractional,
    /// The first pick, from 1, whose new place has a coordinate beyond 4352 in size.
    PointRange(usize),
    /// No four of the moved points span space.
    NoVolume,
    /// There are so many facets, more than 128.
    TooManyFaces(u64),
    /// Some moved point lies outside the world, the cube from -4096 to 4096.
    OutOfWorld,
    /// There was no memory.
    Memory,
}

impl From<AllocError> for MoveFault {
    ghost from_gives = { λ _ e. e ≡ Memory };

    fn from(_e: AllocError) -> MoveFault {
        MoveFault::Memory
    }
}
