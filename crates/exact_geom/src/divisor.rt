//! The greatest common divisor.

ghost use Rattle.std.specs.Int.{IsGcd};

/// The greatest common divisor: it divides both numbers, and each number that divides both divides it. It is 0 for 0 and 0.
pub fn gcd(mut a: u128, mut b: u128) -> u128
    ensures { IsGcd a b result }
{
    while b != 0 {
        (a, b) = (b, a % b);
    }
    a
}
