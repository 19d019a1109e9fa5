//! Why no change is planned.

ghost use Rattle.std.specs.Prelude.{◌≡◌};
ghost use Rattle.tree_ops.specs.declared.fault.OpFault.TheVariants.{No, Memory};
ghost use Rattle.map_model.specs.Replies.{Full};

use cmd_text::Refusal;
use std::alloc::AllocError;
use tree_node::Full;

/// Why no change is planned.
#[derive(Clone, Copy, Debug, PartialEq, Eq)]
pub enum OpFault {
    /// The command is refused.
    No(Refusal),
    /// There was no memory.
    Memory,
}

impl From<Refusal> for OpFault {
    ghost from_gives = { λ refusal e. e ≡ No refusal };

    fn from(refusal: Refusal) -> OpFault {
        OpFault::No(refusal)
    }
}

impl From<Full> for OpFault {
    ghost from_gives = { λ full e. e ≡ No (Full full.0) };

    fn from(full: Full) -> OpFault {
        OpFault::No(Refusal::Full(full.0))
    }
}

impl From<AllocError> for OpFault {
    ghost from_gives = { λ _ e. e ≡ Memory };

    fn from(_e: AllocError) -> OpFault {
        OpFault::Memory
    }
}
