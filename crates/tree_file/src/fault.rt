//! Why a document builds no tree.

ghost use Rattle.std.specs.Prelude.{◌≡◌};
ghost use Rattle.tree_file.specs.declared.fault.TreeFault.TheVariants.{Memory};

use std::alloc::{AllocError, AllocFailed};
use thiserror::Error;

/// Why a document builds no tree. The first that holds is the one that is told.
#[derive(Clone, Copy, Debug, Drop, PartialEq, Eq, Error)]
pub enum TreeFault {
    /// There is no entity, or the `classname` of the first isn't `worldspawn`.
    #[error("the first entity isn't the world")]
    NoWorld,
    /// A group names a link set, or an entity protects keys. Neither is read yet.
    #[error("links and protected keys aren't read yet")]
    NotBuilt,
    /// The map has so many nodes, which are more than 65,535.
    #[error("{0} nodes, which are too many")]
    Full(u64),
    /// There was no memory for the tree.
    #[error("no memory")]
    Memory,
}

impl From<AllocError> for TreeFault {
    ghost from_gives = { λ _ e. e ≡ Memory };

    fn from(_e: AllocError) -> TreeFault {
        TreeFault::Memory
    }
}

impl<T: Drop> From<AllocFailed<T>> for TreeFault {
    ghost from_gives = { λ _ e. e ≡ Memory };

    fn from(_e: AllocFailed<T>) -> TreeFault {
        TreeFault::Memory
    }
}
