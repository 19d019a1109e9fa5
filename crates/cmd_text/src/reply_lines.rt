//! The tables of refusals and replies.

ghost use Rattle.std.specs.Prelude.{◌≡◌, [], ◌∷◌, Some, map, codes};
ghost use Rattle.std.specs.Fmt.{decimal};
ghost use Rattle.cmd_text.specs.declared.line.Field.TheVariants.{Number, Ratio};
ghost use Rattle.cmd_text.specs.Lines.{words, words_of_line, ratio_text, fields_of};
ghost use Rattle.cmd_text.specs.Replies.{face_text, made_words, refusal_words, reply_words};

use crate::line::{Field, Line};
use crate::reply::{Refusal, Reply};
use fixed_num::Frac;

fn long(count: u64) -> Option<Field>
    ensures { result ≡ Some (Number count) }
{
    Some(Field::Number(count))
}

fn ratio(value: Frac) -> Option<Field>
    ensures { result ≡ Some (Ratio value) }
{
    Some(Field::Ratio(value))
}

fn refusal_line(refusal: Refusal) -> Line
    ensures { words_of_line result ≡ refusal_words refusal }
{
    match refusal {
        Refusal::LineTooLong => Line::bare(b"no line-too-long"),
        Refusal::UnknownCommand => Line::bare(b"no unknown-command"),
        Refusal::Arguments(place) => Line::one(b"no arguments", place),
        Refusal::NotBuilt => Line::bare(b"no not-built"),
        Refusal::NoNode(node) => Line::one(b"no no-node", node),
        Refusal::Repeated(node) => Line::one(b"no repeated", node),
        Refusal::WrongKind(node) => Line::one(b"no wrong-kind", node),
        Refusal::NestedIds(node) => Line::one(b"no nested-ids", node),
        Refusal::LockedLayer(node) => Line::one(b"no locked-layer", node),
        Refusal::TwoMembers(group) => Line::one(b"no two-members", group),
        Refusal::ReservedKey(node) => Line::one(b"no reserved-key", node),
        Refusal::NoKey(node) => Line::one(b"no no-key", node),
        Refusal::NotLinked(node) => Line::one(b"no not-linked", node),
        Refusal::NestedLink(node) => Line::one(b"no nested-link", node),
        Refusal::LockNeedsValve => Line::bare(b"no lock-needs-valve"),
        Refusal::Rotation(node, face) => Line::two(b"no rotation", node, face),
        Refusal::FlatPlane => Line::bare(b"no flat-plane"),
        Refusal::PlaneMisses(node) => Line::one(b"no plane-misses", node),
        Refusal::Apart(node) => Line::one(b"no apart", node),
        Refusal::NotBox(node) => Line::one(b"no not-box", node),
        Refusal::Thick(node) => Line::one(b"no thick", node),
        Refusal::NoVertex(place) => Line::one(b"no no-vertex", place),
        Refusal::FractionalVertex(node) => Line::one(b"no fractional-vertex", node),
        Refusal::TooManyPoints(count) => Line::one(b"no too-many-points", count),
        Refusal::PointRange(node, face) => Line::two(b"no point-range", node, face),
        Refusal::NoVolume(node) => Line::one(b"no no-volume", node),
        Refusal::TooManyFaces(node, count) => Line::of(
            b"no too-many-faces",
            [Field::number(node), long(count), None],
        ),
        Refusal::OutOfWorld(node) => Line::one(b"no out-of-world", node),
        Refusal::LockOffset(node, face, offset) => Line::of(
            b"no lock-offset",
            [Field::number(node), Field::number(face), ratio(offset)],
        ),
        Refusal::Origin(node) => Line::one(b"no origin", node),
        Refusal::ShiftRange(group) => Line::one(b"no shift-range", group),
        Refusal::EmptyLink(group) => Line::one(b"no empty-link", group),
        Refusal::Full(count) => Line::of(b"no full", [long(count), None, None]),
        Refusal::LinkPoint(member, node, face) => Line::three(b"no link-point", member, node, face),
        Refusal::LinkWorld(member, node) => Line::two(b"no link-world", member, node),
        Refusal::LinkLock(member, node, face) => Line::three(b"no link-lock", member, node, face),
        Refusal::LinkOrigin(member, node) => Line::two(b"no link-origin", member, node),
        Refusal::LinkShift(member) => Line::one(b"no link-shift", member),
        Refusal::NothingToUndo => Line::bare(b"no nothing-to-undo"),
        Refusal::NothingToRedo => Line::bare(b"no nothing-to-redo"),
        Refusal::NoRay => Line::bare(b"no no-ray"),
    }
}

fn face_field(face: Option<u32>) -> Option<Field>
    ensures { fields_of (result ∷ []) ≡ face_text face ∷ [] }
{
    match face {
        Some(face) => Field::number(face),
        None => Field::word(b"-"),
    }
}

fn made_line(count: u32, first: u32) -> Line
    ensures { words_of_line result ≡ made_words count first }
{
    if count == 0 {
        Line::one(b"ok", 0)
    } else {
        Line::two(b"ok", count, first)
    }
}

fn uv_line(at: [Frac; 2]) -> Line
    ensures { words_of_line result ≡ words (codes "ok") (map ratio_text at) }
{
    let [u, v] = at;
    Line::of(b"ok", [ratio(u), ratio(v), None])
}

fn hit_line(node: u32, face: Option<u32>, at: Frac) -> Line
    ensures { words_of_line result ≡ words (codes "ok") (decimal node ∷ face_text face ∷ ratio_text at ∷ []) }
{
    Line::of(b"ok", [Field::number(node), face_field(face), ratio(at)])
}

/// The line of a reply.
pub(crate) fn reply_line(reply: Reply) -> Line
    ensures { words_of_line result ≡ reply_words reply }
{
    match reply {
        Reply::Ok => Line::bare(b"ok"),
        Reply::Made { count, first } => made_line(count, first),
        Reply::Uv(at) => uv_line(at),
        Reply::Hit { node, face, at } => hit_line(node, face, at),
        Reply::NoHit => Line::of(b"ok", [Field::word(b"none"), None, None]),
        Reply::No(refusal) => refusal_line(refusal),
        Reply::Memory => Line::bare(b"memory"),
    }
}
