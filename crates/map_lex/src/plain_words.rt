//! The short way to a word that stands behind one space or line feed at most, as most tokens do.

ghost use Rattle.std.specs.Prelude.{◌≡◌, ◌≢◌, ◌<◌, ◌≤◌, ◌∷◌, [], ℕ, true, false, length, slice_index, take, IfSome, IsTrue};
ghost use Rattle.std.specs.List.{list_any, position_or_len};
ghost use Rattle.map_lex.specs.Bytes.{is_blank, is_stray};
ghost use Rattle.map_lex.specs.Cut.{begins_word};
ghost use Rattle.map_lex.specs.TokenList.{tokens_left, put_first, value_of};

use crate::lexer::Token;
use crate::places::Place;
use crate::spans::word_len;

// Above the space, and neither a quote nor a slash: with such a byte only words begin.
#[inline(always)]
fn is_plain(byte: u8) -> bool
    ensures { result ≡ true → (32 < byte) × (byte ≢ 34) × (byte ≢ 47) }
{
    byte > b' ' && byte != b'"' && byte != b'/'
}

// What stands behind a space or a line feed, where the text begins with one.
#[inline(always)]
#[tactic(auto, using(crate::proofs::Reading::space_passed, crate::proofs::Reading::line_passed))]
fn behind_blank(place: Place<'_>) -> Place<'_>
    ensures left { tokens_left place.entry.line place.entry.rest.now ≡ tokens_left result.line result.rest.now }
{
    match place.rest {
        [b' ', rest @ ..] => Place {
            rest,
            line: place.line,
        },
        [b'\n', rest @ ..] => Place {
            rest,
            line: place.line + 1,
        },
        _ => place,
    }
}

// Whether the text begins with a plain byte.
#[inline(always)]
fn begins_plainly(text: &[u8]) -> bool
    ensures some { result ≡ true → 1 ≤ length text.now }
    ensures plain { result ≡ true → 32 < slice_index text.now 0 }
    ensures word { result ≡ true → IsTrue (begins_word text.now) }
{
    matches!(text, [first, ..] if is_plain(*first))
}

// How many bytes a word has that begins with a byte above the space; `None` where one of them is a stray byte.
#[inline(always)]
fn plain_len(text: &[u8]) -> Option<usize>
    requires some { 1 ≤ length text.now }
    requires plain { 32 < slice_index text.now 0 }
    ensures within { IfSome result (λ len. len ≤ length text.now) }
    ensures word { IfSome result (λ len. len ≡ position_or_len is_blank text.now) }
    ensures clean { IfSome result (λ len. list_any is_stray (take len text.now) ≡ false) }
{
    let len = word_len(&text[1..])?;
    Some(1 + len)
}

/// The word behind one space or line feed at most, and what follows it; `None` where that takes a closer look.
#[inline(always)]
pub(crate) fn plain_word(place: Place<'_>) -> Option<(Token<'_>, Place<'_>)>
    ensures left { IfSome result (λ cut. tokens_left place.entry.line place.entry.rest.now
        ≡ put_first (value_of cut.0) (tokens_left cut.1.line cut.1.rest.now)) }
{
    let Place { rest: text, line } = behind_blank(place);
    if !begins_plainly(text) {
        return None;
    }
    let (word, rest) = text.split_at(plain_len(text)?);
    let token = Token {
        text: word,
        quoted: false,
        line,
    };
    Some((token, Place { rest, line }))
}

/// What follows the word of this byte alone, where it stands between two spaces; `None` anywhere else.
#[inline(always)]
#[tactic(auto, using(crate::proofs::PlainWords::mark_passed))]
pub(crate) fn behind_mark(text: &[u8], mark: u8) -> Option<&[u8]>
    ensures left { IfSome result (λ rest. (line : ℕ) → tokens_left line text.now
        ≡ put_first (record { text = mark ∷ []; quoted = false; line = line }) (tokens_left line rest.now)) }
    ensures no_longer { IfSome result (λ rest. length rest.now ≤ length text.now) }
{
    match text {
        [b' ', byte, b' ', ..] if *byte == mark && is_plain(*byte) => Some(&text[2..]),
        _ => None,
    }
}
