//! Fractions in lowest terms.

ghost use Rattle.std.specs.Prelude.{◌≡◌, ◌^◌, ◌<◌, pos, ◌*ℤ◌, ◌<ℤ◌, ◌≤ℤ◌, unsigned_abs};
ghost use Rattle.std.specs.Bool.{Decides};
ghost use Rattle.ray_pick.specs.Rays.{IsEarlier, IsRatio};

use exact_geom::gcd;
use std::marker::Model;

/// A fraction in lowest terms, of at least 0, whose two numbers are below 2^42. A contract sees the two numbers.
#[derive(Clone, Copy, Debug, PartialEq, Eq)]
pub struct Ratio {
    num: i128,
    den: i128,
}

impl Model for Ratio {
    ghost use Rattle.ray_pick.specs.Rays.{Fraction, IsRatio};

    ghost Value = { Fraction };

    ghost view = { λ r. record { num = r.num; den = r.den } };

    ghost invariant = { λ r. IsRatio (record { num = r.num; den = r.den }) };

    ghost inverse = { λ t. record { num = t.num; den = t.den } };
}

impl Ratio {
    // The fraction num / den.
    pub(crate) fn of(num: i128, den: i128) -> Ratio
        requires nonneg { pos 0 ≤ℤ num }
        requires positive { pos 0 <ℤ den }
        requires num_size { unsigned_abs num < 2 ^ 42 }
        requires den_size { unsigned_abs den < 2 ^ 42 }
        ensures equal { num *ℤ result.den ≡ result.num *ℤ den }
        ensures ratio { IsRatio result }
    {
        let top = num.unsigned_abs();
        let bottom = den.unsigned_abs();
        let divisor = gcd(top, bottom);
        Ratio {
            num: (top / divisor) as i128,
            den: (bottom / divisor) as i128,
        }
    }

    /// The upper number.
    pub fn num(&self) -> i128
        ensures num { result ≡ self.now.num }
        ensures ratio { IsRatio self.now }
    {
        self.num
    }

    /// The lower number.
    pub fn den(&self) -> i128
        ensures den { result ≡ self.now.den }
        ensures ratio { IsRatio self.now }
    {
        self.den
    }
}

/// Whether a is less than b.
pub fn earlier(a: &Ratio, b: &Ratio) -> bool
    ensures { Decides result (IsEarlier a.now b.now) }
{
    a.num * b.den < b.num * a.den
}
