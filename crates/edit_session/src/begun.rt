//! The line that has begun.

ghost use Rattle.std.specs.Prelude.{◌≡◌, ℕ, List, [], ◌∷◌, ◌++◌, take};

use std::marker::Model;

/// How many bytes of a line are held. A longer line is answered as if it had this many.
pub(crate) const HELD: usize = 4_097;

/// The line that has begun, or its first bytes. It takes no memory.
#[derive(Drop)]
pub(crate) struct Begun {
    held: [u8; 4_097],
    len: usize,
}

impl Model for Begun {
    ghost use Rattle.std.specs.Prelude.{List, ℕ, take, ◌≤◌};

    ghost Value = { List ℕ };

    ghost view = { λ b. take b.len b.held };

    ghost invariant = { λ b. b.len ≤ 4097 };
}

impl Begun {
    /// No byte of the line has come.
    pub(crate) fn new() -> Begun
        ensures { result ≡ [] }
    {
        Begun {
            held: [0; 4_097],
            len: 0,
        }
    }

    /// One more byte of the line has come.
    pub(crate) fn push(&mut self, byte: u8)
        ensures { self.new ≡ take HELD (self.old ++ byte ∷ []) }
    {
        if self.len < HELD {
            self.held[self.len] = byte;
            self.len += 1;
        }
    }

    /// The line has ended.
    pub(crate) fn clear(&mut self)
        ensures { self.new ≡ [] }
    {
        self.len = 0;
    }

    /// The bytes that are held.
    pub(crate) fn bytes(&self) -> &[u8]
        ensures { result.now ≡ self.now }
    {
        &self.held[..self.len]
    }
}
