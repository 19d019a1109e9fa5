//! Fractions in lowest terms.

ghost use Rattle.std.specs.Prelude.{◌≡◌, ◌≢◌, ◌^◌, ◌≤◌, ◌<ℤ◌, pos, unsigned_abs};
ghost use Rattle.uv_lock.specs.Fractions.{fraction, fraction_of};

use exact_geom::gcd;
use fixed_num::Frac;

fn lowest(num: i128, den: i128) -> Frac
    requires positive { pos 0 <ℤ den }
    requires num { unsigned_abs num ≤ 10 ^ 34 }
    requires den { unsigned_abs den ≤ 10 ^ 34 }
    ensures { fraction_of result ≡ fraction num den }
{
    let divisor = gcd(num.unsigned_abs(), den.unsigned_abs()) as i128;
    Frac {
        num: num / divisor,
        den: den / divisor,
    }
}

/// The fraction `num / den` in lowest terms; `den` isn't 0, and neither is above 10^34 in size.
pub(crate) fn reduced(num: i128, den: i128) -> Frac
    requires nonzero { den ≢ pos 0 }
    requires num { unsigned_abs num ≤ 10 ^ 34 }
    requires den { unsigned_abs den ≤ 10 ^ 34 }
    ensures { fraction_of result ≡ fraction num den }
{
    if den < 0 {
        lowest(-num, -den)
    } else {
        lowest(num, den)
    }
}
