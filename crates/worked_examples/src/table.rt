//! Comparisons that name what they compare.

use std::fmt::Debug;
use std::process::Abort;

/// Compares a found value with the wanted one, and names the case where they differ.
pub fn same<C: Debug + Copy, T: PartialEq + Debug>(
    rt: &impl Abort,
    case: C,
    found: &T,
    wanted: &T,
) {
    assert!(rt;
        found == wanted,
        "found {found:?}, wanted {wanted:?}, at {case:?}"
    );
}
