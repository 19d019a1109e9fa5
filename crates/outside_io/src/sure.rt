//! Forms that never fail, whatever memory there is.

ghost use Rattle.std.specs.Prelude.{◌≡◌, ℕ, ◌<◌, ◌≤◌, min, List, Some, None, drop, length, vec_len};
ghost use Rattle.outside_io.specs.Moved.{Took};

use crate::faults::Failed;
use crate::sink::Sink;
use crate::source::Source;
use std::marker::Model;

/// A source over bytes in memory, which it tells. It never fails.
#[derive(Drop)]
pub struct SureSource {
    bytes: Vec<u8>,
    // How many of the bytes were taken.
    taken: usize,
}

impl Model for SureSource {
    ghost Value = { List ℕ };

    ghost view = { λ s. drop s.taken s.bytes.items };

    ghost invariant = { λ s. s.taken ≤ vec_len s.bytes };
}

impl SureSource {
    /// A source of these bytes.
    pub fn new(bytes: Vec<u8>) -> SureSource
        ensures { result ≡ bytes.items }
    {
        SureSource { bytes, taken: 0 }
    }
}

impl Source for SureSource {
    ghost faults = { λ _. 0 };

    ghost left = { λ s. Some s };

    fn take(&mut self, buf: &mut [u8]) -> Result<usize, Failed>
        requires { 0 < length buf.old }
        ensures bytes { Took result self.old (Some self.new) buf.new }
        ensures whole { result ≡ Ok (min (length buf.old) (length self.old)) }
    {
        let left = &self.bytes[self.taken..];
        let n = buf.len().min(left.len());
        buf[..n].copy_from_slice(&left[..n]);
        self.taken += n;
        Ok(n)
    }
}

/// A sink that takes whole pieces and keeps nothing of them. It never fails.
#[derive(Drop)]
pub struct SureSink;

impl SureSink {
    /// A sink that was given nothing.
    pub fn new() -> SureSink {
        SureSink
    }
}

impl Sink for SureSink {
    ghost faults = { λ _. 0 };

    ghost given = { λ _. None };

    fn give(&mut self, piece: &[u8]) -> Result<usize, Failed>
        requires { 0 < length piece.now }
        ensures { result ≡ Ok (length piece.now) }
    {
        Ok(piece.len())
    }
}
