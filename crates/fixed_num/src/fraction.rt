//! Reduced fractions.

ghost use Rattle.std.specs.Prelude.{pos, ◌≤ℤ◌};
ghost use Rattle.fixed_num.specs.Fraction.{IsReduced};

/// A fraction in lowest terms, with a denominator of at least 1.
#[derive(Clone, Copy, Debug, PartialEq, Eq)]
pub struct Frac {
    pub num: i128,
    pub den: i128,
    pub ghost positive: { pos 1 ≤ℤ den },
    pub ghost reduced: { IsReduced num den },
}
