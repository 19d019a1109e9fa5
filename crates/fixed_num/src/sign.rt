//! Numbers by their sign and size.

ghost use Rattle.std.specs.Prelude.{◌≡◌, ◌^◌, ◌≤◌};
ghost use Rattle.fixed_num.specs.DecimalValue.{with_sign};

/// The number of this size that is negative or not.
pub(crate) fn with_sign(negative: bool, size: u64) -> i64
    requires { size ≤ 10 ^ 18 }
    ensures { result ≡ with_sign negative size }
{
    let size = size as i64;
    if negative { -size } else { size }
}
