//! Giving a whole piece, by as many calls as it takes.

ghost use Rattle.std.specs.Prelude.{◌≡◌, ℕ, ◌≤◌, take, OnOk, OnErr};
ghost use Rattle.outside_io.specs.Moved.{Rose, Grew};

use crate::faults::Failed;
use crate::sink::Sink;

/// Gives all of the bytes, by as many calls as it takes. At a fault of the sink it stops, and
/// what was given is a prefix of them.
pub fn give_all<R: Sink>(sink: &mut R, bytes: &[u8]) -> Result<(), Failed>
    ensures ok { OnOk result (Grew (R.given sink.old) (R.given sink.new) bytes.now) }
    ensures err { OnErr result
        ((n : ℕ) × Grew (R.given sink.old) (R.given sink.new) (take n bytes.now)) }
    ensures quiet { OnOk result (R.faults sink.new ≡ R.faults sink.old) }
    ensures later { R.faults sink.old ≤ R.faults sink.new }
    ensures cause { OnErr result (Rose (R.faults sink.old) (R.faults sink.new)) }
{
    let mut rest = bytes;
    while !rest.is_empty() {
        let n = sink.give(rest)?;
        if n == 0 {
            return Err(Failed);
        }
        rest = &rest[n..];
    }
    Ok(())
}
