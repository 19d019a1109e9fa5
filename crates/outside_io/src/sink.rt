//! Where bytes go.

ghost use Rattle.std.specs.Prelude.{◌≡◌, ℕ, ◌<◌, ◌≤◌, List, length, take, Option, IfOk};
ghost use Rattle.outside_io.specs.Moved.{Rose, moved, Grew};

use crate::faults::Failed;

/// Where bytes go.
pub trait Sink {
    /// How often `give` failed.
    ghost faults: { Self → ℕ };

    /// The bytes given so far, where they are told.
    ghost given: { Self → Option (List ℕ) };

    /// Takes over the first bytes of `piece`, and answers how many. 0 is a fault, as `Failed` is.
    fn give(&mut self, piece: &[u8]) -> Result<usize, Failed>
        requires { 0 < length piece.now }
        ensures within { IfOk result (λ n. n ≤ length piece.now) }
        // After a fault nothing was moved, so what is given has grown by nothing.
        ensures bytes { Grew (given self.old) (given self.new) (take (moved result) piece.now) }
        ensures quiet { 0 < moved result → faults self.new ≡ faults self.old }
        ensures later { faults self.old ≤ faults self.new }
        ensures cause { moved result ≡ 0 → Rose (faults self.old) (faults self.new) };
}
