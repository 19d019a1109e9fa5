//! Bytes into memory, with faults at chosen calls.

ghost use Rattle.std.specs.Prelude.{◌≡◌, ◌<◌, ◌≤◌, [], Some, false, take, length, IfOk};
ghost use Rattle.outside_io.specs.InMemory.{SinkState, fails_at};
ghost use Rattle.outside_io.specs.Moved.{Rose, Grew, moved, after};

use crate::calls::{Calls, raised};
use crate::faults::Failed;
use crate::sink::Sink;
use std::alloc::Global;
use std::marker::Model;

/// A sink into memory, which tells what it was given.
#[derive(Drop)]
pub struct MemSink {
    bytes: Vec<u8>,
    calls: Calls,
    faults: u64,
}

impl Model for MemSink {
    ghost Value = { SinkState };

    ghost view = { λ s. record {
      given = s.bytes.items;
      fails = s.calls.fails.items;
      calls = s.calls.made;
      faults = s.faults;
    } };
}

impl MemSink {
    /// An empty sink that takes whole pieces. The calls whose numbers are in `fails`, counted from
    /// 1, fail, and so does one that finds no memory for its piece.
    pub fn new(alloc: Global, fails: Vec<u32>) -> MemSink
        ensures { result ≡ record { given = []; fails = fails.items; calls = 0; faults = 0 } }
    {
        MemSink {
            bytes: Vec::new(alloc),
            calls: Calls::new(fails),
            faults: 0,
        }
    }

    /// The bytes given so far.
    pub fn given(&self) -> &[u8]
        ensures { result.now ≡ self.now.given }
    {
        self.bytes.as_slice()
    }

    fn fault(&mut self) -> Failed
        ensures counted { self.new ≡ record self.old { faults = after self.old.faults } }
        ensures rose { Rose self.old.faults self.new.faults }
        ensures later { self.old.faults ≤ self.new.faults }
    {
        self.faults = raised(self.faults);
        Failed
    }
}

impl Sink for MemSink {
    ghost faults = { λ s. s.faults };

    ghost given = { λ s. Some s.given };

    fn give(&mut self, piece: &[u8]) -> Result<usize, Failed>
        requires { 0 < length piece.now }
        ensures within { IfOk result (λ n. n ≤ length piece.now) }
        ensures bytes { Grew (Some self.old.given) (Some self.new.given)
            (take (moved result) piece.now) }
        ensures quiet { 0 < moved result → self.new.faults ≡ self.old.faults }
        ensures later { self.old.faults ≤ self.new.faults }
        ensures cause { moved result ≡ 0 → Rose self.old.faults self.new.faults }
        // The planned calls fail, and every other one takes the whole piece, where there is memory.
        ensures planned { IfOk result (λ _. fails_at self.old.fails (after self.old.calls) ≡ false) }
        ensures whole { IfOk result (λ n. n ≡ length piece.now) }
        ensures counted { self.new.calls ≡ after self.old.calls }
        ensures plan { self.new.fails ≡ self.old.fails }
    {
        if self.calls.next_fails() {
            return Err(self.fault());
        }
        match self.bytes.extend_from_slice(piece) {
            Ok(()) => Ok(piece.len()),
            Err(_) => Err(self.fault()),
        }
    }
}
