//! Counts of texture numbers in exact arithmetic.

ghost use Rattle.std.specs.Prelude.{◌≡◌, ◌≢◌, ◌*◌, ◌^◌, ◌≤◌, ◌*ℤ◌, IsTrue, pos, unsigned_abs};
ghost use Rattle.algebra.specs.Space.{dot};
ghost use Rattle.orient48.specs.Kept.{vector_in};
ghost use Rattle.orient48.specs.Motions.{is_short};
ghost use Rattle.uv_lock.specs.Carry.{axis_vector, scale_of};

use fixed_num::{Nano, Pico};

/// One, as the count of an axis or a scale.
pub(crate) const AXIS_UNIT: i64 = 1_000_000_000;

/// One, as the count of an offset.
pub(crate) const OFFSET_UNIT: i128 = 1_000_000_000_000;

fn wide(count: Nano) -> i128
    ensures value { result ≡ count }
    ensures size { unsigned_abs result ≤ 10 ^ 15 }
{
    i128::from(count.0)
}

/// The count of a scale; one of 0 counts as 1.
pub(crate) fn scale_count(scale: Nano) -> i128
    ensures value { result ≡ scale_of scale }
    ensures nonzero { result ≢ pos 0 }
    ensures size { unsigned_abs result ≤ 10 ^ 15 }
{
    if scale.0 == 0 {
        i128::from(AXIS_UNIT)
    } else {
        wide(scale)
    }
}

fn wide_offset(offset: Pico) -> i128
    ensures value { result ≡ offset }
    ensures size { unsigned_abs result ≤ 10 ^ 18 }
{
    i128::from(offset.0)
}

/// The count of an offset times that of the scale.
pub(crate) fn scaled_offset(offset: Pico, scale: Nano) -> i128
    ensures value { result ≡ offset *ℤ scale_of scale }
    ensures size { unsigned_abs result ≤ 10 ^ 33 }
{
    wide_offset(offset) * scale_count(scale)
}

fn product(coordinate: i32, part: Nano) -> i128
    requires { unsigned_abs coordinate ≤ 10 ^ 6 }
    ensures value { result ≡ coordinate *ℤ part }
    ensures size { unsigned_abs result ≤ 10 ^ 21 }
{
    i128::from(coordinate) * wide(part)
}

/// The dot product of a vector with an axis.
pub(crate) fn along(vector: [i32; 3], axis: [Nano; 3]) -> i128
    requires { IsTrue (is_short (vector_in vector)) }
    ensures value { result ≡ dot (vector_in vector) (axis_vector axis) }
    ensures size { unsigned_abs result ≤ 3 * 10 ^ 21 }
{
    product(vector[0], axis[0]) + product(vector[1], axis[1]) + product(vector[2], axis[2])
}
