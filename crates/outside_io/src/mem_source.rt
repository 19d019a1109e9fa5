//! Bytes from memory, a few at a call, with faults at chosen calls.

ghost use Rattle.std.specs.Prelude.{◌≡◌, ◌<◌, ◌≤◌, min, Some, drop, length, is_err, vec_len, IfOk, OnOk, OnErr, IfSome};
ghost use Rattle.outside_io.specs.InMemory.{SourceState, fails_at};
ghost use Rattle.outside_io.specs.Moved.{Rose, Took, after};

use crate::calls::{Calls, raised};
use crate::faults::Failed;
use crate::source::Source;
use crate::sure::SureSource;
use std::marker::Model;

/// A source over bytes in memory, which it tells.
#[derive(Drop)]
pub struct MemSource {
    source: SureSource,
    piece: usize,
    calls: Calls,
    faults: u64,
}

impl Model for MemSource {
    ghost Value = { SourceState };

    ghost view = { λ s. record {
      left = s.source;
      piece = s.piece;
      fails = s.calls.fails.items;
      calls = s.calls.made;
      faults = s.faults;
    } };

    ghost invariant = { λ s. 0 < s.piece };
}

impl MemSource {
    /// A source of these bytes, at most `piece` at a call. The calls whose numbers are in `fails`,
    /// counted from 1, fail.
    pub fn new(bytes: Vec<u8>, piece: usize, fails: Vec<u32>) -> MemSource
        requires { 0 < piece }
        ensures { result ≡ record {
          left = bytes.items;
          piece = piece;
          fails = fails.items;
          calls = 0;
          faults = 0;
        } }
    {
        MemSource {
            source: SureSource::new(bytes),
            piece,
            calls: Calls::new(fails),
            faults: 0,
        }
    }
}

impl Source for MemSource {
    ghost faults = { λ s. s.faults };

    ghost left = { λ s. Some s.left };

    fn take(&mut self, buf: &mut [u8]) -> Result<usize, Failed>
        requires { 0 < length buf.old }
        ensures within { IfOk result (λ n. n ≤ length buf.old) }
        ensures bytes { Took result self.old.left (Some self.new.left) buf.new }
        ensures quiet { OnOk result (self.new.faults ≡ self.old.faults) }
        ensures later { self.old.faults ≤ self.new.faults }
        ensures cause { OnErr result (Rose self.old.faults self.new.faults) }
        // The planned calls fail, and every other one gives as much as it can.
        ensures planned { is_err result ≡ fails_at self.old.fails (after self.old.calls) }
        ensures counted { self.new.calls ≡ after self.old.calls }
        ensures plan { (self.new.fails ≡ self.old.fails) × (self.new.piece ≡ self.old.piece) }
        ensures whole { IfOk result (λ n.
            n ≡ min self.old.piece (min (length buf.old) (length self.old.left))) }
    {
        if self.calls.next_fails() {
            self.faults = raised(self.faults);
            return Err(Failed);
        }
        let most = self.piece.min(buf.len());
        self.source.take(&mut buf[..most])
    }
}
