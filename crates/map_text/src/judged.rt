//! Parts of a brush that a text spells, or the first reason why they are none.

ghost use Rattle.std.specs.Prelude.{◌≡◌};
ghost use Rattle.map_text.specs.Judged.{first_reason, both};

use crate::document::Reason;

/// A part of a brush, or why a brush that has it is bad.
pub(crate) type Judged<T> = Result<T, Reason>;

/// The reason of two that comes first in their order.
pub(crate) fn first_reason(a: Reason, b: Reason) -> Reason
    ensures { result ≡ first_reason a b }
{
    match (a, b) {
        (Reason::Point, _) | (_, Reason::Point) => Reason::Point,
        (Reason::Range, _) | (_, Reason::Range) => Reason::Range,
        (Reason::Texture, _) | (_, Reason::Texture) => Reason::Texture,
        (Reason::Surface, _) | (_, Reason::Surface) => Reason::Surface,
        (Reason::Flat, _) | (_, Reason::Flat) => Reason::Flat,
        (Reason::Many, _) | (_, Reason::Many) => Reason::Many,
        (Reason::Volume, _) | (_, Reason::Volume) => Reason::Volume,
        (Reason::World, _) | (_, Reason::World) => Reason::World,
        (Reason::Faces, Reason::Faces) => Reason::Faces,
    }
}

/// Both parts, or the first of their reasons.
pub(crate) fn both<A: Copy, B: Copy>(a: Judged<A>, b: Judged<B>) -> Judged<(A, B)>
    ensures { result ≡ both a b }
{
    match (a, b) {
        (Ok(a), Ok(b)) => Ok((a, b)),
        (Err(a), Err(b)) => Err(first_reason(a, b)),
        (Err(reason), Ok(_)) | (Ok(_), Err(reason)) => Err(reason),
    }
}
