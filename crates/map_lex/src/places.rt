//! The way past blanks and comments.

ghost use Rattle.std.specs.Prelude.{◌≡◌, ◌+◌, ◌^◌, ◌<◌, ◌≤◌, ◌∷◌, length, MatchResult, OnOk, IfOk, IsFalse};
ghost use Rattle.map_lex.specs.Bytes.{begins_blank, begins_comment};
ghost use Rattle.map_lex.specs.TokenList.{tokens_left, stopped};

use crate::bytes::is_blank;
use crate::lexer::LexFault;
use crate::spans::{has_stray, line_len};

/// What is left of a text, and the line on which that begins.
#[derive(Clone, Copy)]
pub(crate) struct Place<'a> {
    pub rest: &'a [u8],
    pub line: u32,
    ghost line_fits: { line + length rest.now < 2 ^ 32 },
}

/// The place behind all blanks and comments that begin here.
pub(crate) fn past_gap(start: Place<'_>) -> Result<Place<'_>, LexFault>
    ensures left { MatchResult result
        (λ place. tokens_left place.line place.rest.now
        ≡ tokens_left start.entry.line start.entry.rest.now)
        (λ fault. tokens_left start.entry.line start.entry.rest.now ≡ stopped fault) }
    ensures no_blank { IfOk result (λ place. IsFalse (begins_blank place.rest.now)) }
    ensures no_comment { IfOk result (λ place. IsFalse (begins_comment place.rest.now)) }
{
    let mut place = past_blanks(start);
    while let [b'/', b'/', comment @ ..] = place.rest {
        let rest = past_comment(comment, place.line)?;
        place = past_blanks(Place {
            rest,
            line: place.line,
        });
    }
    Ok(place)
}

fn past_blanks(place: Place<'_>) -> Place<'_>
    ensures left { tokens_left result.line result.rest.now
        ≡ tokens_left place.entry.line place.entry.rest.now }
    ensures no_longer { length result.rest.now ≤ length place.entry.rest.now }
    ensures no_blank { IsFalse (begins_blank result.rest.now) }
{
    let mut line = place.line;
    for (len, &byte) in place.rest.iter().enumerate() {
        if !is_blank(byte) {
            return Place {
                rest: &place.rest[len..],
                line,
            };
        }
        if byte == b'\n' {
            line += 1;
        }
    }
    Place { rest: &[], line }
}

// What follows a comment, given the bytes behind its `//`. Apart from blanks, so that these stay short.
#[inline(never)]
fn past_comment(comment: &[u8], line: u32) -> Result<&[u8], LexFault>
    ensures left { MatchResult result
        (λ rest. tokens_left line (47 ∷ 47 ∷ comment.now) ≡ tokens_left line rest.now)
        (λ fault. tokens_left line (47 ∷ 47 ∷ comment.now) ≡ stopped fault) }
    ensures no_longer { IfOk result (λ rest. length rest.now ≤ length comment.now) }
{
    let (text, rest) = comment.split_at(line_len(comment));
    if has_stray(text) {
        return Err(LexFault::StrayByte(line));
    }
    Ok(rest)
}
