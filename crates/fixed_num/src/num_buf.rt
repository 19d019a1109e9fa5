//! A buffer for the text of one number.

ghost use Rattle.std.specs.Prelude.{◌≡◌, ℕ, ◌+◌, ◌<◌, ◌≤◌, List, [], ◌∷◌, ◌++◌, length, take};

use std::marker::Model;

// A sign, seven digits before the point and twelve behind it fit.
pub(crate) const ROOM: usize = 24;

/// A buffer with room for any number that this crate writes. Contracts see what was written.
#[derive(Drop)]
pub struct NumBuf {
    bytes: [u8; ROOM],
    len: usize,
}

impl Model for NumBuf {
    ghost Value = { List ℕ };

    ghost view = { λ b. take b.len b.bytes };

    ghost invariant = { λ b. b.len ≤ 24 };
}

impl NumBuf {
    /// An empty buffer.
    pub fn new() -> NumBuf
        ensures { result ≡ [] }
    {
        NumBuf {
            bytes: [0; ROOM],
            len: 0,
        }
    }

    /// What was written last.
    pub fn text(&self) -> &[u8]
        ensures { result.now ≡ self.now }
    {
        &self.bytes[..self.len]
    }

    pub(crate) fn clear(&mut self)
        ensures { self.new ≡ [] }
    {
        self.len = 0;
    }

    pub(crate) fn push(&mut self, byte: u8)
        requires { length self.old < 24 }
        ensures { self.new ≡ self.old ++ byte ∷ [] }
    {
        self.bytes[self.len] = byte;
        self.len += 1;
    }

    pub(crate) fn push_all(&mut self, bytes: &[u8])
        requires { length self.old + length bytes.now ≤ 24 }
        ensures { self.new ≡ self.old ++ bytes.now }
    {
        for byte in bytes {
            self.push(*byte);
        }
    }
}
