//! The surface numbers of a face, as Quake 2 has them.

use fixed_num::Micro;
use std::marker::Model;

/// The three numbers that a face may have besides its texture. Contents and flags are sets of bits, signed or not: each is
/// in -2147483648..=4294967295. Contracts see the numbers.
#[derive(Clone, Copy, Debug, PartialEq, Eq)]
pub struct Surface {
    /// What fills the brush.
    pub contents: i64,
    /// What the surface does.
    pub flags: i64,
    /// The strength of what it does, as of the light that it gives.
    pub value: Micro,
}

impl Model for Surface {
    ghost use Rattle.fixed_num.specs.Whole.{IsWide};
    ghost use Rattle.uv_lock.specs.SurfaceNumbers.{SurfaceNumbers};

    ghost Value = { SurfaceNumbers };

    ghost view = { λ s. record { contents = s.contents; flags = s.flags; value = s.value } };

    ghost invariant = { λ s. IsWide s.contents × IsWide s.flags };

    ghost inverse = { λ s. record { contents = s.contents; flags = s.flags; value = s.value } };
}
