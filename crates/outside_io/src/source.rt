//! Where bytes come from.

ghost use Rattle.std.specs.Prelude.{◌≡◌, ℕ, ◌<◌, ◌≤◌, List, length, Option, IfOk, OnOk, OnErr, IfSome};
ghost use Rattle.outside_io.specs.Moved.{Rose, Took};

use crate::faults::Failed;

/// Where bytes come from.
pub trait Source {
    /// How often `take` failed.
    ghost faults: { Self → ℕ };

    /// The bytes that are left, where they are told.
    ghost left: { Self → Option (List ℕ) };

    /// Moves the first of the bytes that are left into the front of `buf`, and answers how many.
    /// 0 means that no byte is left.
    fn take(&mut self, buf: &mut [u8]) -> Result<usize, Failed>
        requires { 0 < length buf.old }
        ensures within { IfOk result (λ n. n ≤ length buf.old) }
        ensures bytes { IfSome (left self.old) (λ bytes. Took result bytes (left self.new) buf.new) }
        ensures quiet { OnOk result (faults self.new ≡ faults self.old) }
        ensures later { faults self.old ≤ faults self.new }
        ensures cause { OnErr result (Rose (faults self.old) (faults self.new)) };
}
