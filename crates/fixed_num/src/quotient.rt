//! Division without a remainder.

ghost use Rattle.std.specs.Prelude.{pos, ℤ, ◌≢◌, ◌<ℤ◌, IfSome, IfNone};
ghost use Rattle.fixed_num.specs.Quotient.{IsQuotientBelow};

/// The number that times `d` is `n`, where there is one below `limit` in size; and else `None`.
pub fn exact_quotient(n: i128, d: i128, limit: i128) -> Option<i128>
    requires nonzero { d ≢ pos 0 }
    requires positive { pos 0 <ℤ limit }
    ensures some { IfSome result (IsQuotientBelow n d limit) }
    ensures none { IfNone result ((k : ℤ) → ¬ IsQuotientBelow n d limit k) }
{
    let quotient = n.checked_div(d)?;
    if n % d != 0 || quotient.unsigned_abs() >= limit.unsigned_abs() {
        return None;
    }
    Some(quotient)
}
