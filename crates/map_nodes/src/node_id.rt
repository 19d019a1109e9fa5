//! The numbers of nodes.

ghost use Rattle.std.specs.Prelude.{◌≡◌, ◌+◌};

use std::marker::Model;

/// The number of a node. Contracts see the number.
#[derive(Clone, Copy, Debug, PartialEq, Eq, PartialOrd, Ord)]
pub struct NodeId(pub u32);

impl Model for NodeId {
    ghost use Rattle.std.specs.Prelude.{ℕ};

    ghost Value = { ℕ };

    ghost view = { λ n. n.0 };

    ghost inverse = { λ n. record { 0 = n } };
}

impl NodeId {
    /// The number.
    pub fn number(self) -> u32
        ensures { result ≡ self }
    {
        self.0
    }

    /// The number as a place in a list.
    pub fn place(self) -> usize
        ensures { result ≡ self }
    {
        self.0 as usize
    }

    /// The place after it.
    pub fn after(self) -> usize
        ensures { result ≡ self + 1 }
    {
        self.0 as usize + 1
    }
}
