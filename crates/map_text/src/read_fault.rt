//! Why a text isn't read as a map.

ghost use Rattle.std.specs.Prelude.{◌≡◌};
ghost use Rattle.map_text.specs.declared.read_fault.ReadFault.TheVariants.{Lex, Memory};

use map_lex::LexFault;
use std::alloc::{AllocError, AllocFailed};
use thiserror::Error;

/// What the grammar has at a place where another token stands.
#[derive(Clone, Copy, Debug, PartialEq, Eq)]
pub enum What {
    /// The `{` of an entity.
    Entity,
    /// A key, the `{` of a brush, or the `}` of the entity.
    Item,
    /// A key, which doesn't end with a backslash.
    Key,
    /// The quoted value behind a key.
    Value,
    /// The `(` of a face, or the `}` of the brush.
    Face,
    /// The `(` of a second or third point, or the `)` of a point.
    Point,
    /// A number word, or behind a material the `[` of an axis in its place.
    Number,
    /// A material; a quoted one doesn't end with a backslash.
    Material,
    /// The `[` of the second texture axis, or the `]` of either.
    Axis,
}

/// Why a text isn't read as a map: its first place that is at fault, with the line there, counted from 1.
#[derive(Clone, Copy, Debug, Drop, PartialEq, Eq, Error)]
pub enum ReadFault {
    /// It can't be cut into tokens any further.
    #[error("{0:?}")]
    Lex(LexFault),
    /// A token stands there that doesn't fit.
    #[error("line {1}: no {0:?} where one is awaited")]
    Expected(What, u32),
    /// The token behind the material of a face is of the other format than the first face of the text.
    #[error("line {0}: a face of the other format")]
    MixedFormat(u32),
    /// Directly behind a brush's `{` stands a word that begins with an ASCII letter, as other kinds of blocks do.
    #[error("line {0}: a block of another kind")]
    UnknownBlock(u32),
    /// The text ends inside an entity.
    #[error("line {0}: the text ends inside an entity")]
    EndsEarly(u32),
    /// There was no memory for the document.
    #[error("no memory")]
    Memory,
}

impl From<LexFault> for ReadFault {
    ghost from_gives = { λ fault e. e ≡ Lex fault };

    fn from(fault: LexFault) -> ReadFault {
        ReadFault::Lex(fault)
    }
}

impl From<AllocError> for ReadFault {
    ghost from_gives = { λ _ e. e ≡ Memory };

    fn from(_e: AllocError) -> ReadFault {
        ReadFault::Memory
    }
}

impl<T: Drop> From<AllocFailed<T>> for ReadFault {
    ghost from_gives = { λ _ e. e ≡ Memory };

    fn from(_e: AllocFailed<T>) -> ReadFault {
        ReadFault::Memory
    }
}
